#![tactic(auto)]

// The tree that reading returns stands in the word table that it leaves: theorems about definitions only.
