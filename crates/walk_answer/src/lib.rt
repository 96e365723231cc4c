// What a walk over items answers: of one item, of several or of a part of one. And how several go on.
#![tactic(auto)]

ghost use Rattle.std.specs.Prelude.{◌≡◌, ◌-◌};
ghost use Rattle.memory.specs.Sums.{capped};
ghost use Rattle.refusal.specs.RefusalKinds.{kind_number};
ghost use Rattle.walk_answer.specs.WalkAnswers.{passed, pass_refused, pass_told, walk_told, with_major, mode_by, mode_numbered, behind_by, Turned, after_told, item_after};

use head::initial::{BREAK, INDEFINITE_LENGTH};
use refusal::{Refusal, RefusalKind};
use saturating::sum;

// An item ends before `end`; `major` is its major type, `size` the number of bytes of strings in it: of a string its length.
#[derive(Drop)]
pub struct WalkedItem {
    pub end: usize,
    pub major: u8,
    pub size: usize,
}

// Several items, or a part of one: an entry, a chunk, what stands behind a head.
#[derive(Drop)]
pub struct Passage {
    pub end: usize,
    pub size: usize,
}

pub fn reached(end: usize, size: usize) -> Result<Passage, Refusal>
    ensures { pass_told result ≡ passed end size }
{
    Ok(Passage { end, size })
}

pub fn refuse(kind: RefusalKind, place: usize) -> Result<Passage, Refusal>
    ensures { pass_told result ≡ pass_refused (kind_number kind) place }
{
    Err(Refusal { kind, place })
}

// The item of a major type that was passed over.
pub fn with_major(major: u8, span: Result<Passage, Refusal>) -> Result<WalkedItem, Refusal>
    ensures { walk_told result ≡ with_major major (pass_told span) }
{
    let m = span?;
    Ok(WalkedItem {
        end: m.end,
        major,
        size: m.size,
    })
}

// The answer for a part, as that for the whole: the part starts at `from`, and `size` bytes of strings stand before it.
pub fn after(from: usize, size: usize, part: Result<Passage, Refusal>) -> Result<Passage, Refusal>
    ensures { pass_told result ≡ after_told from size (pass_told part) }
{
    match part {
        Ok(m) => reached(sum(from, m.end), sum(size, m.size)),
        Err(Refusal { kind, place }) => refuse(kind, sum(from, place)),
    }
}

// The answer for an item that starts at `from`, as that for the whole.
pub fn item_after(from: usize, inner: Result<WalkedItem, Refusal>) -> Result<WalkedItem, Refusal>
    ensures { walk_told result ≡ item_after from (walk_told inner) }
{
    match inner {
        Ok(m) => Ok(WalkedItem {
            end: sum(from, m.end),
            major: m.major,
            size: m.size,
        }),
        Err(Refusal { kind, place }) => Err(Refusal {
            kind,
            place: sum(from, place),
        }),
    }
}

// HOW FAR

// How several go on: a number of them; to a break; to the end of the bytes.
#[derive(Clone, Copy)]
pub enum Mode {
    Counted,
    Broken,
    Ended,
}

// The mode of a number, whatever it is: 0 counts, 1 goes on to a break, each other to the end of the bytes.
impl From<u8> for Mode {
    ghost from_gives = { λ number mode. mode ≡ mode_numbered number };

    #[tactic(auto, unfolding(crate::specs::WalkAnswers::mode_numbered))]
    fn from(number: u8) -> Mode {
        match number {
            0 => Mode::Counted,
            1 => Mode::Broken,
            _ => Mode::Ended,
        }
    }
}

// What tells how several go on: a mode, or the number of one.
pub trait IntoMode {
    ghost use Rattle.walk_answer.specs.declared.Mode.{Mode};

    ghost mode: { Self → Mode };

    fn into_mode(self) -> Mode
        ensures { result ≡ mode self };
}

impl IntoMode for Mode {
    ghost mode = { λ mode. mode };

    fn into_mode(self) -> Mode {
        self
    }
}

impl IntoMode for u8 {
    ghost mode = { λ number. mode_numbered number };

    fn into_mode(self) -> Mode {
        Mode::from(self)
    }
}

// Entries of a map are walked over as twice as many items, where these can be counted.
pub const MOST_ENTRIES: u64 = 0xffff_ffff;

// How several behind a head go on.
pub fn mode_of(info: u8) -> Mode
    ensures { result ≡ mode_by info }
{
    if info == INDEFINITE_LENGTH {
        Mode::Broken
    } else {
        Mode::Counted
    }
}

// Whether none of them is left at a place; `n` of them are, where they are counted.
pub fn is_over<M: IntoMode>(bytes: &[u8], at: usize, mode: M, n: u64) -> bool
    ensures { Turned bytes.now at (M.mode mode) n result }
{
    match mode.into_mode() {
        Mode::Counted => n == 0,
        Mode::Broken => {
            if bytes.len() <= at {
                return false;
            }
            bytes[at] == BREAK
        }
        Mode::Ended => bytes.len() <= at,
    }
}

// Behind the break, if there is one.
pub fn past<M: IntoMode>(at: usize, mode: M) -> usize
    ensures { result ≡ capped at (behind_by (M.mode mode)) }
{
    match mode.into_mode() {
        Mode::Broken => sum(at, 1),
        _ => at,
    }
}

pub fn less(n: u64) -> u64
    ensures { result ≡ n - 1 }
{
    if n == 0 { 0 } else { n - 1 }
}
