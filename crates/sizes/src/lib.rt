// The sizes of copies, told before anything is copied.
#![tactic(auto)]

ghost use Rattle.records.specs.View.{records_in};
ghost use Rattle.sizes.specs.Counting.{CanCount, CountsSize, HasArgument, Measures, CanFit, MeasuresSecond, TellsRoom, TellsSurely};

use copies::{gives_way, tree_size};
use kinds::Kind;
use substitution::{Argument, Arguments, chosen};
use terms::{binders_over, skip};

// The size of the tree at `src` once each variable of the innermost of the m binders next to d has given way to `first` records, and one of another
// to `second`. A tree without an index that reaches so far is counted at once.
fn size_after(w: &[u8], src: usize, d: u16, m: u16, first: usize, second: usize) -> usize
    requires { CanCount (records_in w.now) src d first second }
    ensures { CountsSize (records_in w.now) src d m first second result }
{
    let r = records::get(w, src);
    if r.next / 2 <= d {
        return r.first as usize;
    }
    let kind = Kind::known(r.kind);
    let children = kind.children();
    if gives_way(children, r.a, d, m) {
        return chosen(first, second, r.a == d);
    }
    let mut n = 1;
    let mut at = src + 1;
    for j in 0..children {
        let after = skip(w, at);
        n += size_after(w, at, d + binders_over(kind, j), m, first, second);
        at = after;
    }
    n
}

// The size of the term that an argument stands for, where it is asked for exactly. Else a number that is not below it: wrapping at most doubles a
// tree, so uses that are wrapped are not counted.
pub fn argument_size(w: &[u8], g: Argument, exactly: bool) -> usize
    requires { HasArgument (records_in w.now) g }
    ensures { Measures (records_in w.now) g exactly result }
{
    match g {
        Argument::Tree(at) => tree_size(w, at),
        Argument::Quote(at, _) => 1 + tree_size(w, at),
        Argument::Opened(at, _, _, _) if exactly => 2 + size_after(w, at, 0, 1, 2, 2),
        Argument::Opened(at, _, _, _) => 2 + 2 * tree_size(w, at),
    }
}

// The same for what stands for index 1, or 0 where one variable is replaced.
fn second_size(w: &[u8], at: usize, g: Arguments, exactly: bool) -> usize
    requires { CanFit (records_in w.now) at g }
    ensures { MeasuresSecond (records_in w.now) g exactly result }
{
    match g.second {
        Some(second) => argument_size(w, second, exactly),
        None => 0,
    }
}

// Whether the tree at `at` has room, without counting what the arguments stand for: none of its records makes more than the larger of the bounds of
// these, and no variable more than its own.
fn surely_fits(w: &[u8], at: usize, g: Arguments, room: usize) -> bool
    requires { CanFit (records_in w.now) at g }
    ensures { TellsSurely (records_in w.now) at g room result }
{
    let first = argument_size(w, g.first, false);
    let second = second_size(w, at, g, false);
    tree_size(w, at) * first.max(second) <= room
        || size_after(w, at, 0, g.count(), first, second) <= room
}

// Whether the tree at `at` has at most `room` records once its variables are replaced by what the arguments stand for. They are counted only where
// their bounds leave it open.
pub fn replaced_fits(w: &[u8], at: usize, g: Arguments, room: usize) -> bool
    requires { CanFit (records_in w.now) at g }
    ensures { TellsRoom (records_in w.now) at g room result }
{
    if surely_fits(w, at, g, room) {
        return true;
    }
    let first = argument_size(w, g.first, true);
    let second = second_size(w, at, g, true);
    size_after(w, at, 0, g.count(), first, second) <= room
}
