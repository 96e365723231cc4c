// Bytes checked, and one item of them scanned.
#![tactic(auto)]

ghost use Rattle.std.specs.Prelude.{◌≡◌, length, drop};
ghost use Rattle.operations.specs.Operations.{items_of};
ghost use Rattle.checked.specs.CheckAnswers.{check_told, check_of, scan_told};
ghost use Rattle.checking.specs.Scans.{scan_from, scanned};

use checked::{ItemAt, check_by, scan_by};
use refusal::Refusal;
use refusal::limit::MOST_LEVELS;

// Whether bytes are items, and nothing else.
pub fn check(bytes: &[u8]) -> Result<(), Refusal>
    ensures { check_told result ≡ check_of (items_of bytes.now) }
{
    check_by(walk::walk_all(bytes))
}

// The item at an offset, with 16 levels left.
pub fn scan(bytes: &[u8], at: usize) -> Result<ItemAt, Refusal>
    ensures { scan_told result ≡ scan_from (length bytes.now) (scanned (drop at bytes.now)) }
{
    let h = head::read_head(bytes, at)?;
    scan_by(
        h,
        walk_answer::item_after(at, walk::item(&bytes[at..], MOST_LEVELS)),
    )
}
