// Decimal integers, the openings of tags, and words, as they are mostly written.
#![tactic(auto)]

pub mod integer;
pub mod word;
