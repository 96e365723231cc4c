// What the program that prints bytes writes on standard output.
ghost use Rattle.std.specs.Prelude.{◌≡◌, length};
ghost use Rattle.memory.specs.Buffer.{clipped};
ghost use Rattle.operations.specs.Programs.{print_program};

use printing::print;
use report_lines::said_of_text;

// All that it writes, as far as the buffer reaches; answers the length of all of it.
pub(crate) fn report_print(bytes: &[u8], out: &mut [u8]) -> usize
    ensures value { result ≡ length (print_program bytes.now) }
    ensures out_after { out.new ≡ clipped out.old 0 (print_program bytes.now) }
{
    let mut text = [0; 65535];
    let a = print(bytes, &mut text);
    said_of_text(a, &text, out)
}
