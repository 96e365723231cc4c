// The notation and its bytes: check, look up, scan, read, print, correct. Each function is handed on from the crate that has its code.
#![tactic(auto)]

pub use checked::ItemAt;
pub use checking::{check, scan};
pub use correcting::correct;
pub use looking::{locate, look_up};
pub use part::Part;
pub use printing::print;
pub use reading::read;
pub use refusal::{Refusal, RefusalKind, number};
