#![tactic(auto)]

// What a source means, or the reply that refuses it: definitions only, in specs/.
