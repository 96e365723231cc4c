// What document 01 allows: "Text, bytes, result: at most 65,535 bytes each. Depth: 16."

pub const MOST_BYTES: usize = 65535;

pub const MOST_LEVELS: usize = 16;
