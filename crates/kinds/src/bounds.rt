// How many types and records a program may have.
pub const MOST_TYPES: u16 = 256;

pub const MOST_RECORDS: u16 = 2048;
