// Runs the examples on standard input through the public functions, and compares each with what it should be. The file `stdin`
// beside this folder says how a row is written. A line is written for each group and for each row that is wrong, and a last one with
// the counts.
#![tactic(auto)]

mod run;

ghost use Rattle.std.specs.Prelude.{◌≡◌, length};

// The descriptor of standard output.
const STDOUT: i32 = 1;

// Room for the rows, and a byte more, which tells that there are too many.
fn space() -> [u8; 131072]
    ensures { 131072 ≡ length result }
{
    [0; 131072]
}

// Reads the rows, and runs them.
fn main(rt: HostRuntime) {
    let mut text = space();
    match streams::read_all(&mut rt.stdin(), &mut text) {
        Ok(n) => {
            if 131071 < n {
                io::write_all(STDOUT, b"there are more rows than are read\n");
            }
            run::run_all(&text[..n]);
        }
        Err(e) => streams::fail(&rt, "vectors: standard input cannot be read", e.error),
    }
}
