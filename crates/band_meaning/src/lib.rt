#![tactic(auto)]

// Plans of bands of rows: what the plan check and the planner return, and the border rows of a program. Definitions and theorems alone.
