// Bytes on standard input; their text in diagnostic notation, or `refused C at P`, on standard output.
// A read or a write that fails is told on standard error, and nothing else is written then.
#![tactic(auto)]

mod report;

fn answer(rt: &HostRuntime, bytes: &[u8]) {
    let mut out = [0u8; 65535];
    let size = report::report_print(bytes, &mut out);
    if let Err(e) = streams::write_all(&mut rt.stdout(), report_lines::front(&out, size)) {
        streams::fail(rt, "edn_print: standard output cannot be written", e.error);
    }
}

fn main(rt: HostRuntime) {
    let mut bytes = io::large_buffer();
    match streams::read_all(&mut rt.stdin(), &mut bytes) {
        Ok(n) => answer(&rt, &bytes[..n]),
        Err(e) => streams::fail(&rt, "edn_print: standard input cannot be read", e.error),
    }
}
