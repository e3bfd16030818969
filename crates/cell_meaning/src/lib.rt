#![tactic(auto)]

// What a program means for one cell: definitions, in specs/.
