#![tactic(auto)]

// Sources that move a pixel once. Definitions and theorems alone.
