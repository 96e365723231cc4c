// Why bytes, a text, a path or a buffer are refused, and where.
#![tactic(auto)]

pub mod limit;

ghost use Rattle.std.specs.Prelude.{◌≡◌};
ghost use Rattle.refusal.specs.RefusalKinds.{kind_number, Kinded};

// The kinds of refusal, in the order of their numbers, 1 to 17.
#[derive(Clone, Copy, Debug, PartialEq, Eq)]
pub enum RefusalKind {
    TooLong,
    NotUtf8,
    NoToken,
    UnknownWord,
    Dots,
    Float,
    OutOfRange,
    BadContent,
    BadIndicator,
    TooDeep,
    NotAllowed,
    MixedChunks,
    BadTypedArray,
    NoRoom,
    EndsInside,
    NotWellFormed,
    NoSuchPath,
}

#[derive(Clone, Copy, Debug, PartialEq, Eq)]
pub struct Refusal {
    pub kind: RefusalKind,
    pub place: usize,
}

// The customer's number of a kind.
impl From<RefusalKind> for u8 {
    ghost from_gives = { λ kind n. n ≡ kind_number kind };

    #[tactic(auto, unfolding(crate::specs::RefusalKinds::kind_number))]
    fn from(kind: RefusalKind) -> u8 {
        match kind {
            RefusalKind::TooLong => 1,
            RefusalKind::NotUtf8 => 2,
            RefusalKind::NoToken => 3,
            RefusalKind::UnknownWord => 4,
            RefusalKind::Dots => 5,
            RefusalKind::Float => 6,
            RefusalKind::OutOfRange => 7,
            RefusalKind::BadContent => 8,
            RefusalKind::BadIndicator => 9,
            RefusalKind::TooDeep => 10,
            RefusalKind::NotAllowed => 11,
            RefusalKind::MixedChunks => 12,
            RefusalKind::BadTypedArray => 13,
            RefusalKind::NoRoom => 14,
            RefusalKind::EndsInside => 15,
            RefusalKind::NotWellFormed => 16,
            RefusalKind::NoSuchPath => 17,
        }
    }
}

pub fn number(kind: RefusalKind) -> u8
    ensures { result ≡ kind_number kind }
{
    u8::from(kind)
}

// The kind of a number.
pub fn kind_of(number: u8) -> RefusalKind
    ensures { Kinded number result }
{
    match number {
        1 => RefusalKind::TooLong,
        2 => RefusalKind::NotUtf8,
        3 => RefusalKind::NoToken,
        4 => RefusalKind::UnknownWord,
        5 => RefusalKind::Dots,
        6 => RefusalKind::Float,
        7 => RefusalKind::OutOfRange,
        8 => RefusalKind::BadContent,
        9 => RefusalKind::BadIndicator,
        10 => RefusalKind::TooDeep,
        11 => RefusalKind::NotAllowed,
        12 => RefusalKind::MixedChunks,
        13 => RefusalKind::BadTypedArray,
        14 => RefusalKind::NoRoom,
        15 => RefusalKind::EndsInside,
        16 => RefusalKind::NotWellFormed,
        _ => RefusalKind::NoSuchPath,
    }
}
