// The event of a step, as the step hands it on.
use contraction::Rule;

// The rule, the place of the record that was rewritten, the root's being 1, and how many variables gave way. Eight
// bytes, copied as one word.
#[derive(Clone, Copy)]
pub struct Event {
    pub rule: Rule,
    pub place: u16,
    pub replaced: u32,
}
