// What a record's kind uses a field for.

#[derive(Clone, Copy, PartialEq, Eq)]
pub enum Use {
    Unused,
    Index,
    Entry,
    Value,
}
