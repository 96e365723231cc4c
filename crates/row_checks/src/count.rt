// Counts of rows, and the lines that show them.
use rows::cut::part;
use rows::turn::Outcome;

// How many rows were right and wrong.
#[derive(Clone, Copy, Default)]
struct Counts {
    right: u64,
    wrong: u64,
}

// The counts in the group and in all, and the line that begins the group.
#[derive(Clone, Copy, Default)]
pub struct Tally<'a> {
    group: Option<&'a [u8]>,
    counts: Counts,
    all: Counts,
}

// No rows, of no group: those before the first group are counted in the last line alone.
pub fn nothing<'a>() -> Tally<'a> {
    Tally::default()
}

// Counts stop at a million.
fn one_more(n: u64) -> u64 {
    n.saturating_add(1).min(1000000)
}

// A number with words before it and behind it.
fn say(before: &[u8], n: u64, behind: &[u8]) {
    io::write_all(1, before);
    io::print_decimal(1, n);
    io::write_all(1, behind);
}

// A line: what the group is, and its counts.
fn show(name: &[u8], counts: Counts) {
    io::write_all(1, name);
    say(b": ", counts.right, b" right, ");
    say(b"", counts.wrong, b" wrong\n");
}

// The line of a group, if there is one; its name follows `=` and a blank.
fn show_group(t: Tally<'_>) {
    if let Some(line) = t.group {
        show(part(line, 2, line.len()), t.counts);
    }
}

// The counts with one line more, by its number and by what it came to.
pub fn counted<'a>(t: Tally<'a>, number: u64, line: &'a [u8], outcome: Outcome) -> Tally<'a> {
    let mut next = t;
    match outcome {
        Outcome::Comment => {}
        Outcome::Group => {
            show_group(t);
            next.group = Some(line);
            next.counts = Counts::default();
        }
        Outcome::Right => {
            next.counts.right = one_more(t.counts.right);
            next.all.right = one_more(t.all.right);
        }
        Outcome::Wrong => {
            say(b"line ", number, b": wrong\n");
            next.counts.wrong = one_more(t.counts.wrong);
            next.all.wrong = one_more(t.all.wrong);
        }
    }
    next
}

// The last group, and all.
pub fn show_last(t: Tally<'_>) {
    show_group(t);
    show(b"all", t.all);
}
