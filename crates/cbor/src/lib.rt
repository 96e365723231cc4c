// CBOR (RFC 8949): definitions and theorems, no code.
#![tactic(auto)]
