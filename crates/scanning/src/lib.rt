// Scanning a text: the class of each byte; blanks, comments, words and runs of text, from a place on.
#![tactic(auto)]

pub mod class;
pub mod run;
pub mod scan;
