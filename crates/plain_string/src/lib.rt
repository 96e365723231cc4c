// String literals as they are mostly written.
#![tactic(auto)]

mod block;
pub mod string;
