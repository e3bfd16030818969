#![tactic(auto)]

// Runs of sources that move a pixel once: what follows of their flags. Definitions and theorems alone.
