// What closes a list of items, and what goes with it: tables by the closer.
#![tactic(auto)]

ghost use Rattle.std.specs.Prelude.{◌≡◌};
ghost use Rattle.closers.specs.CloserTables.{is_single, may_be_empty, starts, turned, counted, separator_byte, may_separate, closing_byte, has_sign};

// What closes a list: `]`, `}`, `)`, `>>` or the end of the text. `Nothing`: one item is all.
#[derive(Clone, Copy)]
pub enum Closer {
    Square,
    Curly,
    Round,
    Angle,
    Whole,
    Nothing,
}

pub fn is_single(closer: Closer) -> bool
    ensures { result ≡ is_single closer }
{
    match closer {
        Closer::Nothing => true,
        Closer::Square => false,
        Closer::Curly => false,
        Closer::Round => false,
        Closer::Angle => false,
        Closer::Whole => false,
    }
}

pub fn may_be_empty(closer: Closer) -> bool
    ensures { result ≡ may_be_empty closer }
{
    match closer {
        Closer::Square => true,
        Closer::Curly => true,
        Closer::Angle => true,
        Closer::Whole => true,
        Closer::Round => false,
        Closer::Nothing => false,
    }
}

// Whether the first item is a key.
pub fn starts(closer: Closer) -> bool
    ensures { result ≡ starts closer }
{
    match closer {
        Closer::Curly => true,
        Closer::Square => false,
        Closer::Round => false,
        Closer::Angle => false,
        Closer::Whole => false,
        Closer::Nothing => false,
    }
}

// Whether the next item is a key.
pub fn turned(closer: Closer, key: bool) -> bool
    ensures { result ≡ turned closer key }
{
    match closer {
        Closer::Curly => !key,
        Closer::Square => false,
        Closer::Round => false,
        Closer::Angle => false,
        Closer::Whole => false,
        Closer::Nothing => false,
    }
}

// A key and its value count as one.
pub fn counted(key: bool) -> usize
    ensures { result ≡ counted key }
{
    if key {
        return 0;
    }
    1
}

// The byte that closes, or begins what closes; 0 where that is the end of the text.
pub fn closing_byte(closer: Closer) -> u8
    ensures { result ≡ closing_byte closer }
{
    match closer {
        Closer::Square => b']',
        Closer::Curly => b'}',
        Closer::Round => b')',
        Closer::Angle => b'>',
        Closer::Whole => 0,
        Closer::Nothing => 0,
    }
}

// What parts an item from the next one: behind a key a colon, else a comma.
pub fn separator(key: bool) -> u8
    ensures { result ≡ separator_byte key }
{
    if key {
        return b':';
    }
    b','
}

// Whether an item may be parted from a next one; a tag has one item.
pub fn may_separate(closer: Closer) -> bool
    ensures { result ≡ may_separate closer }
{
    match closer {
        Closer::Square => true,
        Closer::Curly => true,
        Closer::Angle => true,
        Closer::Whole => true,
        Closer::Round => false,
        Closer::Nothing => false,
    }
}

// Whether what closes is one byte, which is all that it can be.
pub fn has_sign(closer: Closer) -> bool
    ensures { result ≡ has_sign closer }
{
    match closer {
        Closer::Square => true,
        Closer::Curly => true,
        Closer::Round => true,
        Closer::Angle => false,
        Closer::Whole => false,
        Closer::Nothing => false,
    }
}
