#![tactic(auto)]

// What is known of a source that a call has loaded: its program stands in the word table. Definitions and a theorem alone.
