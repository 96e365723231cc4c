// Heads that the quick walk knows at a glance: an initial byte that is all of the head of an array, a map or a tag; a string whose length is in two bytes.
#![tactic(auto)]

ghost use Rattle.head.specs.HeadAnswers.{Widened};
ghost use Rattle.quick_head.specs.QuickHeads.{Inner, TwoBytes};

use head::initial::{IN_ONE_BYTE, IN_TWO_BYTES};

// The first initial bytes of arrays, maps, and tags; of tags whose number is not in it.
pub const ARRAYS: u8 = 0x80;

const MAPS: u8 = 0xa0;

const TAGS: u8 = 0xc0;

const LONG_TAGS: u8 = 0xd8;

// INITIAL BYTES

// What stands for the number of items behind what is no short head of an array, a map or a tag.
pub const NO_HEAD: u8 = 0xff;

// How many items stand behind an initial byte that is all of the head of an array, a map or a tag.
pub fn inner(initial: u8) -> u8
    ensures { Inner initial result }
{
    let n = initial % 32;
    match initial {
        // Whether it is a map is foretold badly: so there is a choice, and no branch.
        ARRAYS..TAGS if n < IN_ONE_BYTE => { if initial < MAPS { n } else { n * 2 } }
        TAGS..LONG_TAGS => 1,
        _ => NO_HEAD,
    }
}

// LENGTHS IN TWO BYTES

fn wide(b: u8) -> u64
    ensures { Widened b result }
{
    b as u64
}

// The head of a string whose length is in two bytes ends here.
pub const TWO_END: usize = 3;

// What stands for the length of what is no such string. It is above all such lengths.
pub const NO_LENGTH: u64 = 0x1_0000;

// The length of a string at the front that is in two bytes: most strings that are no leaves are of this kind.
pub fn two_bytes(bytes: &[u8]) -> u64
    ensures { TwoBytes bytes.now result }
{
    if let [initial, high, low, ..] = *bytes {
        if initial / 64 == 1 && initial % 32 == IN_TWO_BYTES {
            return wide(high) * 256 + wide(low);
        }
    }
    NO_LENGTH
}
