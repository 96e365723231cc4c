// Numbers in a text: encoding indicators, integers and the openings of tags.
#![tactic(auto)]

pub mod indicator;
pub mod number;
