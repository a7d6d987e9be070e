// From a focus that is done to the next: a further child of a frame, a record that is rewritten, or the whole term, where that is a value. And from
// a focus to the record inside it that is rewritten.
ghost use Rattle.std.specs.Prelude.{◌≡◌};
ghost use Rattle.kinds.specs.Named.{kind_meant};
ghost use Rattle.contexts.specs.Contexts.{outer_level};
ghost use Rattle.records.specs.View.{records_in};
ghost use Rattle.navigation.specs.Ascending.{CanTellNext, TellsNext, CanAscend, Ascends, CanReach, Reaches};

use crate::descending::descend;
use kinds::Kind;
use terms::{is_match_at, root_kind};
use zipper::{Ahead, Focus, bring, children_after, close, open_ahead};

// Where a focus that is done leads: a next focus, which is to be searched; or "the term is a value"; or a record that is rewritten, at its
// level. A match that is rewritten stays open: its code is the focus.
#[derive(Clone, Copy)]
pub enum Turn {
    Next(Ahead),
    Value(Focus),
    Redex(Focus, u16),
    Match(Focus),
}

// The level of a record of this kind that steps a child at `level`.
fn outer_level(kind: Kind, level: u16) -> u16
    ensures { result ≡ outer_level (kind_meant kind) level }
{
    match kind {
        Kind::Quote => 0,
        Kind::Splice => 1,
        _ => level,
    }
}

// Whether the innermost frame's record, at this level, steps the child after its hole.
fn steps_next(w: &[u8], z: Focus, level: u16) -> bool
    requires { CanTellNext (records_in w.now) z level }
    ensures { TellsNext (records_in w.now) z level result }
{
    let kind = root_kind(w, z.top);
    let after = children_after(w, z);
    let next = kind.children() - after;
    next < kind.stepping(level)
}

// From a focus that is done, at its level: frames that are done are closed, until one steps its next child, which is the first tree after the gap,
// or is rewritten. A match whose code is done is rewritten.
pub fn ascend(w: &mut [u8], z: Focus, level: u16) -> Turn
    requires { CanAscend (records_in w.old) z level }
    ensures { Ascends (records_in w.old) (records_in w.new) z level result }
{
    let mut at = z;
    let mut inner = level;
    loop {
        if at.s == 0 {
            return Turn::Value(at);
        }
        let kind = root_kind(w, at.top);
        let outer = outer_level(kind, inner);
        if steps_next(w, at, outer) {
            return Turn::Next(Ahead {
                l: at.l,
                r: at.r,
                top: at.top,
                level: inner,
            });
        }
        if kind.is_match() {
            return Turn::Match(at);
        }
        at = close(w, at);
        inner = outer;
        if kind.contracts(outer) {
            return Turn::Redex(at, outer);
        }
    }
}

// From a focus to the record at `p` inside it, which is rewritten: a match is opened, and any other is brought over the gap whole.
pub fn reach(w: &mut [u8], a: Ahead, p: usize) -> Turn
    requires { CanReach (records_in w.old) a p }
    ensures { Reaches (records_in w.old) (records_in w.new) a p result }
{
    let redex = descend(w, a, p);
    if is_match_at(w, p) {
        let code = open_ahead(w, redex, 0);
        return Turn::Match(bring(w, code));
    }
    Turn::Redex(bring(w, redex), redex.level)
}
