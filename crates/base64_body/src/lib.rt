// Base64 text: what stands between the quotes of b64'..'.
#![tactic(auto)]

mod group;

ghost use Rattle.std.specs.Prelude.{◌-◌, take, drop};
ghost use Rattle.notation.specs.Literals.{base64_content};
ghost use Rattle.literal_body.specs.LiteralAnswers.{Decodes};
ghost use Rattle.literal_body.specs.LiteralReading.{DecodesInto};

use crate::group::{ending_size, letters, put_bytes};
use base64_quantum::is_last;
use base64_word::put_fours;
use literal_body::LiteralScan;

// Whether the text from `at` to `end` stands for bytes, and for how many; these are written from `pos` on, if they all fit.
pub fn read_base64(
    text: &[u8],
    at: usize,
    end: usize,
    out: &mut [u8],
    pos: usize,
) -> Option<LiteralScan>
    ensures { DecodesInto out.old out.new pos result (base64_content (take (end - at) (drop at text.now))) }
{
    let stop = end.min(text.len());
    let mut i = at;
    let mut p = pos;
    let mut size: usize = 0;
    while i < stop {
        let run = put_fours(text, i, stop, out, p);
        size += run.size;
        let g = letters(text, run.next, stop);
        if is_last(g) {
            let n = ending_size(text, g, stop)?;
            size += n;
            put_bytes(out, run.pos, g, n);
            return Some(LiteralScan { next: end, size });
        }
        p = put_bytes(out, run.pos, g, 3);
        size += 3;
        i = g.next;
    }
    Some(LiteralScan { next: end, size })
}

// The same, and nothing is written.
pub fn scan_base64(text: &[u8], at: usize, end: usize) -> Option<LiteralScan>
    ensures { Decodes result (base64_content (take (end - at) (drop at text.now))) }
{
    read_base64(text, at, end, &mut [], 0)
}
