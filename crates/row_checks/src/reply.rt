// What a call answered, in the words of a row.
use checked::ItemAt;
use part::Part;
use refusal::Refusal;
use rows::cut::part;

// The number of a refusal, and its place.
#[derive(Clone, Copy, PartialEq, Eq)]
pub struct Refused {
    pub number: u64,
    pub place: u64,
}

// The head of an item, and where its content starts and ends.
#[derive(Clone, Copy)]
pub struct Item {
    pub major: u64,
    pub info: u64,
    pub argument: u64,
    pub content: u64,
    pub end: u64,
}

// What came of a call.
#[derive(Clone, Copy)]
pub enum Done {
    Accepted,
    // So many bytes were written.
    Written(usize),
    // A part was found, which starts at the first number and ends before the second.
    Part(usize, usize),
    // What `look_up` returned is not what `locate` found.
    AnotherPart,
    Item(Item),
}

pub type Reply = Result<Done, Refused>;

fn told_refusal(e: Refusal) -> Refused {
    let kind = e.kind;
    Refused {
        number: refusal::number(kind) as u64,
        place: e.place as u64,
    }
}

// What reading, printing or correcting answered.
pub fn told(a: Result<usize, Refusal>) -> Reply {
    match a {
        Err(e) => Err(told_refusal(e)),
        Ok(n) => Ok(Done::Written(n)),
    }
}

// What checking answered.
pub fn told_check(c: Result<(), Refusal>) -> Reply {
    match c {
        Err(e) => Err(told_refusal(e)),
        Ok(()) => Ok(Done::Accepted),
    }
}

// What `locate` answered, where `look_up` returned just that part of the bytes; and no bytes after a refusal.
pub fn told_part(l: Result<Part, Refusal>, found: &[u8], bytes: &[u8]) -> Reply {
    let (reply, expected) = match l {
        Err(e) => (Err(told_refusal(e)), part(bytes, 0, 0)),
        Ok(p) => (Ok(Done::Part(p.start, p.end)), part(bytes, p.start, p.end)),
    };
    if found == expected {
        reply
    } else {
        Ok(Done::AnotherPart)
    }
}

// What scanning answered.
pub fn told_item(s: Result<ItemAt, Refusal>) -> Reply {
    match s {
        Err(e) => Err(told_refusal(e)),
        Ok(i) => Ok(Done::Item(Item {
            major: i.major as u64,
            info: i.info as u64,
            argument: i.argument,
            content: i.content as u64,
            end: i.end as u64,
        })),
    }
}
