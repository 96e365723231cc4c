// The next token of a text: strings and words, signs and brackets.
#![tactic(auto)]

pub mod cut;
pub mod string;
