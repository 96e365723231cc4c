// The operations and the demands: definitions and theorems, no code.
#![tactic(auto)]
