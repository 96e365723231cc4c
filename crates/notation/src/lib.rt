// CBOR diagnostic notation: definitions and examples, no code.
#![tactic(auto)]
