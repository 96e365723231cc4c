// The lines that the programs write.
#![tactic(auto)]

ghost use Rattle.std.specs.Prelude.{◌≡◌, ◌≤◌, length, take};
ghost use Rattle.cbor.specs.Decode.{most_bytes};
ghost use Rattle.refusal.specs.RefusalKinds.{kind_number};
ghost use Rattle.text_output.specs.PrintParts.{Prints};
ghost use Rattle.operations.specs.Programs.{accepted_line, accepted_lines, at_place, refused_line};
ghost use Rattle.report_lines.specs.Reports.{Reports, itself, said_of};

use refusal::Refusal;

// `accepted N`.
fn accepted_line(n: u64, out: &mut [u8]) -> usize
    ensures { Prints out.old out.new 0 (accepted_line n) result }
{
    let p = text_output::put_all(b"accepted ", out, 0);
    let q = decimal_output::decimal(n, out, p);
    text_output::put(out, q, 0x0a)
}

// The same, and the bytes in hexadecimal.
fn accepted(bytes: &[u8], out: &mut [u8]) -> usize
    ensures { Prints out.old out.new 0 (accepted_lines bytes.now) result }
{
    let p = accepted_line(bytes.len() as u64, out);
    let q = string_output::content(bytes, false, out, p);
    text_output::put(out, q, 0x0a)
}

// ` at P`.
fn at_place(place: usize, out: &mut [u8], pos: usize) -> usize
    ensures { Prints out.old out.new pos (at_place place) result }
{
    let p = text_output::put_all(b" at ", out, pos);
    let q = decimal_output::decimal(place as u64, out, p);
    text_output::put(out, q, 0x0a)
}

// `refused C at P`.
fn refused(e: Refusal, out: &mut [u8]) -> usize
    ensures { Reports out.old out.new (refused_line (kind_number e.kind) e.place) result }
{
    let kind = e.kind;
    let n = refusal::number(kind) as u64;
    let p = text_output::put_all(b"refused ", out, 0);
    let q = decimal_output::decimal(n, out, p);
    at_place(e.place, out, q)
}

// The first `size` bytes, or all of them if there are no more.
pub fn front(bytes: &[u8], size: usize) -> &[u8]
    ensures { result.now ≡ take size bytes.now }
{
    &bytes[..size.min(bytes.len())]
}

// What is written of an answer of reading: the lines of the bytes that it left at the front of a buffer, or that of its refusal.
pub fn said_of_bytes(a: Result<usize, Refusal>, bytes: &[u8], out: &mut [u8]) -> usize
    requires { length bytes.now ≤ most_bytes }
    ensures { Reports out.old out.new (said_of accepted_lines a bytes.now) result }
{
    match a {
        Ok(n) => accepted(front(bytes, n), out),
        Err(e) => refused(e, out),
    }
}

// The same of an answer of printing: the text itself, or the line of its refusal.
pub fn said_of_text(a: Result<usize, Refusal>, text: &[u8], out: &mut [u8]) -> usize
    requires { length text.now ≤ most_bytes }
    ensures { Reports out.old out.new (said_of itself a text.now) result }
{
    match a {
        Ok(n) => text_output::put_all(front(text, n), out, 0),
        Err(e) => refused(e, out),
    }
}
