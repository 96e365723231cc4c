// Letters of base64 text that stand four by four without a blank.
#![tactic(auto)]

ghost use Rattle.std.specs.Prelude.{◌≡◌, ◌∷◌, [], ◌+◌, ◌-◌, ◌*◌, ◌/◌, ◌%◌, ◌≤◌, ◌<◌, length};
ghost use Rattle.notation.specs.Literals.{base64_content};
ghost use Rattle.literal_body.specs.LiteralAnswers.{Put};
ghost use Rattle.literal_body.specs.LiteralReading.{Within, Progressed};
ghost use Rattle.base64_word.specs.WordAnswers.{WordThere, TooLate};

use base64_letter::letter_weight::{NO_WORD, row_of, weight};
use literal_body::Progress;

const LETTERS: usize = 4;

const WORD_BYTES: usize = 3;

// The 24 bits of four letters side by side.
fn word(text: &[u8], at: usize) -> u64
    requires { at + 4 ≤ length text.now }
    ensures { WordThere text.now at result }
{
    let mut w: u64 = 0;
    for k in 0..4 {
        w = w * 64 + weight(row_of(text[at + k]));
    }
    w
}

// From this place on, n bytes do not end before `stop`.
fn too_late(from: usize, stop: usize, n: usize) -> usize
    requires from_le_stop { from ≤ stop }
    requires n_nonzero { 0 < n }
    ensures { TooLate from stop n result }
{
    if stop - from < n {
        return from;
    }
    stop - (n - 1)
}

// Writes the three bytes of a word, if they fit, and answers the place behind them.
fn put_word(out: &mut [u8], p: usize, late: usize, w: u64) -> usize
    requires w_bound { w < 0x100_0000 }
    requires too_late { TooLate 0 (length out.old) 3 late }
    ensures { Put out.old out.new p result (w / 0x1_0000 ∷ w / 0x100 % 0x100 ∷ w % 0x100 ∷ []) }
{
    if late <= p {
        return p;
    }
    out[p] = (w / 0x1_0000) as u8;
    out[p + 1] = (w / 0x100 % 0x100) as u8;
    out[p + 2] = (w % 0x100) as u8;
    p + WORD_BYTES
}

// Letters from one place to another were read.
fn fours_read(from: usize, at: usize, pos: usize) -> Progress
    requires { from ≤ at }
    ensures { result ≡ record { next = at; pos = pos; size = (at - from) / 4 * 3 } }
{
    Progress {
        next: at,
        pos,
        size: (at - from) / LETTERS * WORD_BYTES,
    }
}

// Writes the bytes of letters that stand four by four without a blank, whatever follows them.
pub fn put_fours(text: &[u8], from: usize, stop: usize, out: &mut [u8], pos: usize) -> Progress
    requires { Within text.now from stop }
    ensures { Progressed base64_content text.now stop from out.old out.new pos result }
{
    // A cursor: where it stops is part of the answer, so no range counts it.
    let mut at = from;
    let mut p = pos;
    let last = too_late(from, stop, LETTERS);
    let late = too_late(0, out.len(), WORD_BYTES);
    while at < last {
        let w = word(text, at);
        if NO_WORD <= w {
            return fours_read(from, at, p);
        }
        p = put_word(out, p, late, w);
        at += LETTERS;
    }
    fours_read(from, at, p)
}
