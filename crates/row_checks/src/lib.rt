// Rows of examples: what each asks for, turn by turn, and whether what came is what the row says.
#![tactic(auto)]

pub mod call;
mod compare;
pub mod count;
pub mod judge;
pub mod reply;
