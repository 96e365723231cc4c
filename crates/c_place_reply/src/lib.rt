// What checking and looking up return in numbers, and the places that they write into `value`.
#![tactic(auto)]

ghost use Rattle.c_place_reply.specs.PlaceReplies.{CheckReplied, PartReplied};

use c_reply::{put, refused};
use part::Part;
use refusal::Refusal;

// 0, or the place of the refusal.
pub fn check_reply(checked: Result<(), Refusal>, value: &mut [u64]) -> u8
    ensures { CheckReplied checked value.old value.new result }
{
    match checked {
        Err(e) => refused(e, value),
        Ok(()) => {
            put(value, 0, 0);
            0
        }
    }
}

// Where a part starts and ends, or the place of the refusal.
pub fn part_reply(found: Result<Part, Refusal>, value: &mut [u64]) -> u8
    ensures { PartReplied found value.old value.new result }
{
    match found {
        Err(e) => refused(e, value),
        Ok(p) => {
            let start = p.start as u64;
            let end = p.end as u64;
            put(value, 0, start);
            put(value, 1, end);
            0
        }
    }
}
