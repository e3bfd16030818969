#![tactic(auto)]

// What a run of a source returns and leaves: definitions and theorems only.
