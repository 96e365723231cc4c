// A row of examples: its fields cut out, and turned into bytes, texts and paths; and the turns that it takes.
#![tactic(auto)]

pub mod cut;
pub mod fill;
pub mod turn;
