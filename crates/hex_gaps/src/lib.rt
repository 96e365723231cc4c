// Blanks and comments in hexadecimal text.
#![tactic(auto)]

ghost use Rattle.std.specs.Prelude.{◌≤◌, length};
ghost use Rattle.literal_body.specs.LiteralReading.{Before, Within};
ghost use Rattle.hex_gaps.specs.GapAnswers.{Closing, Commented, Gap, Blank, Gaps};

use literal_body::is_blank;

// Behind the comment at a place, if `last` ends it.
fn past_comment(text: &[u8], at: usize, stop: usize, last: u8) -> Option<usize>
    requires before { Before text.now at stop }
    requires closing { Closing last }
    ensures { Commented text.now stop at last result }
{
    for i in at + 1..stop {
        if text[i] == last {
            return Some(i + 1);
        }
    }
    None
}

// Behind a blank or a comment; the place itself where neither stands whole.
pub fn past_gap(text: &[u8], at: usize, stop: usize) -> usize
    requires { Before text.now at stop }
    ensures { Gap text.now stop at result }
{
    let b = text[at];
    if is_blank(b) {
        return at + 1;
    }
    match b {
        b'/' => past_comment(text, at, stop, b'/').unwrap_or(at),
        b'#' => past_comment(text, at, stop, b'\n').unwrap_or(at),
        _ => at,
    }
}

// Behind all of them.
pub fn past_gaps(text: &[u8], from: usize, stop: usize) -> usize
    requires { Within text.now from stop }
    ensures { Gaps text.now stop from result }
{
    let mut at = from;
    while at < stop {
        let next = past_gap(text, at, stop);
        if next == at {
            return at;
        }
        at = next;
    }
    at
}

// Behind a blank, if one stands there.
pub fn after_blank(text: &[u8], at: usize, stop: usize) -> usize
    requires { stop ≤ length text.now }
    ensures { Blank text.now stop at result }
{
    if at < stop && is_blank(text[at]) {
        return at + 1;
    }
    at
}
