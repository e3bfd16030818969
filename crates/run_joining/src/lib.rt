#![tactic(auto)]

// Calls of a quiet run that is paused and resumed: what they return together. Definitions and theorems alone.
