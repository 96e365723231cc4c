// Compares numbers with the fields of a row.
use crate::reply::Refused;

// Whether a number is that of a field, in decimal.
pub(crate) fn equals(n: u64, field: &[u8]) -> bool {
    let mut text = [0u8; 20];
    let k = io::decimal(n, &mut text);
    &text[..k] == field
}

// Whether two numbers, with a byte between them, are a field.
pub(crate) fn equal(a: u64, b: u64, between: u8, field: &[u8]) -> bool {
    match field.iter().position(|c| *c == between) {
        Some(at) => equals(a, &field[..at]) && equals(b, &field[at + 1..]),
        None => false,
    }
}

// Whether a call was refused as a field says.
pub(crate) fn refused(e: Refused, field: &[u8]) -> bool {
    match field {
        [b'!', rest @ ..] => equal(e.number, e.place, b'@', rest),
        _ => false,
    }
}
