// A letter of base64 text: its number, and what it adds to a word of four letters.
#![tactic(auto)]

pub mod letter_number;
pub mod letter_weight;
