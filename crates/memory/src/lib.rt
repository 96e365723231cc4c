// What is written into lent memory, and sums in code: definitions and their laws, no code.
#![tactic(auto)]
