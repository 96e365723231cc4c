// What holds of the notation: theorems on its definitions, no code.
#![tactic(auto)]
