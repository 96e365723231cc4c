// What the program that reads a text writes on standard output.
ghost use Rattle.std.specs.Prelude.{◌≡◌, length};
ghost use Rattle.memory.specs.Buffer.{clipped};
ghost use Rattle.operations.specs.Programs.{read_program};

use reading::read;
use report_lines::said_of_bytes;

// All that it writes, as far as the buffer reaches; answers the length of all of it.
pub(crate) fn report_read(text: &[u8], out: &mut [u8]) -> usize
    ensures value { result ≡ length (read_program text.now) }
    ensures out_after { out.new ≡ clipped out.old 0 (read_program text.now) }
{
    let mut bytes = [0; 65535];
    let a = read(text, &mut bytes);
    said_of_bytes(a, &bytes, out)
}
