// What a reader answers, and the bytes that it writes around an item: heads, and what closes a container.
#![tactic(auto)]

pub mod answer;
pub mod close;
pub mod heads;
pub mod room;
