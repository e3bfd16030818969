#![tactic(auto)]

// That a refused source has one of the numbers that refuse and a place within the source: theorems about definitions only.
