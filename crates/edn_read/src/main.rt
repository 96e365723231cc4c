// A text in diagnostic notation on standard input; `accepted N` and its bytes in hexadecimal, or `refused C at P`, on standard output.
// A read or a write that fails is told on standard error, and nothing else is written then.
#![tactic(auto)]

mod report;

fn answer(rt: &HostRuntime, text: &[u8]) {
    let mut out = [0u8; 131090];
    let size = report::report_read(text, &mut out);
    if let Err(e) = streams::write_all(&mut rt.stdout(), report_lines::front(&out, size)) {
        streams::fail(rt, "edn_read: standard output cannot be written", e.error);
    }
}

fn main(rt: HostRuntime) {
    let mut text = io::large_buffer();
    match streams::read_all(&mut rt.stdin(), &mut text) {
        Ok(n) => answer(&rt, &text[..n]),
        Err(e) => streams::fail(&rt, "edn_read: standard input cannot be read", e.error),
    }
}
