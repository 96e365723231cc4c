// Goes through the lines, and asks what each row asks for.
use row_checks::call::{Function, function_of, lent, number_of, prepare};
use row_checks::count::{counted, nothing, show_last};
use row_checks::judge::judge;
use row_checks::reply::{Reply, told, told_check, told_item, told_part};
use rows::cut::part;
use rows::turn::{Outcome, State, Step, Turn, start};
use std::ops::ControlFlow;

// The call of a turn, which is lent `out`.
fn ask(turn: Turn, input: &[u8], path: &[u16], used: usize, out: &mut [u8]) -> Reply {
    let number = number_of(turn, used, out.len());
    match function_of(turn) {
        Function::Read => told(edn::read(input, out)),
        Function::Print => told(edn::print(input, out)),
        Function::Check => told_check(edn::check(input)),
        Function::Look => told_part(edn::locate(input, path), edn::look_up(input, path), input),
        Function::Scan => told_item(edn::scan(input, number)),
        Function::Correct => told(edn::correct(out, number, path, input)),
    }
}

// One turn of a row: the buffers are filled, the call is made, and the answer is judged. What it keeps for the next one goes into `kept`.
fn turn(line: &[u8], step: Step, kept: &mut [u8]) -> State {
    let turn = step.turn;
    let before = part(kept, 0, step.size);
    let mut input = io::large_buffer();
    let mut path = [0u16; 64];
    let mut out = lent();
    let Some(a) = prepare(turn, line, before, &mut input, &mut path, &mut out) else {
        return ControlFlow::Break(Outcome::Wrong);
    };
    let Some(room) = out.get_mut(..a.room) else {
        return ControlFlow::Break(Outcome::Wrong);
    };
    let reply = ask(
        turn,
        part(&input, 0, a.input),
        part(&path, 0, a.path),
        a.used,
        room,
    );
    judge(line, step, a.room, reply, &out, kept)
}

// The turns of a row, which are three at most.
fn turns(line: &[u8]) -> State {
    let mut kept = io::large_buffer();
    let mut step = start(line)?;
    for _ in 0..3 {
        step = turn(line, step, &mut kept)?;
    }
    ControlFlow::Continue(step)
}

// What a line comes to.
fn run(line: &[u8]) -> Outcome {
    match turns(line) {
        ControlFlow::Break(outcome) => outcome,
        ControlFlow::Continue(_) => Outcome::Wrong,
    }
}

// All lines, each counted.
pub(crate) fn run_all(text: &[u8]) {
    let mut tally = nothing();
    for (number, line) in (1..).zip(text.split(|b| *b == b'\n')) {
        tally = counted(tally, number, line, run(line));
    }
    show_last(tally);
}
