// Where the next step of a term is made: the finders of level 0 and of level 1.
#![tactic(auto)]

ghost use Rattle.std.specs.Prelude.{◌≡◌};
ghost use Rattle.records.specs.View.{records_in};
ghost use Rattle.terms.specs.Preorder.{HasTree};
ghost use Rattle.redexes.specs.Finding.{or_here, CanFind, Finds, SpliceBelow, FindsSplice};
ghost use Rattle.redexes.specs.Descent.{HasUnwritten, HasRewritten, LastStepped};

use kinds::Kind;

// What a search of a tree finds: nothing to step, and the place after the tree; or the place of the record that the rules rewrite. An enum of its
// own: neither answer is an error, and the names of `ControlFlow` would say neither.
#[derive(Clone, Copy)]
pub enum Found {
    Done(usize),
    Redex(usize),
}

// What was found inside a tree, or where that is nothing, the record that is rewritten then, if there is one.
#[tactic(auto, unfolding(crate::specs::Finding::or_here))]
fn or_here(inside: Found, here: Option<usize>) -> Found
    ensures { result ≡ or_here inside here }
{
    match inside {
        Found::Redex(p) => Found::Redex(p),
        Found::Done(e) => match here {
            Some(i) => Found::Redex(i),
            None => Found::Done(e),
        },
    }
}

// What is found at level 0 in the tree at `i`, whose root, of this kind, isn't rewritten. A quote's child is searched at level 1.
#[cycle(find0_find1_find_at_rest_last_stepped)]
fn find_at_rest(w: &[u8], i: usize, kind: Kind) -> Found
    requires { HasUnwritten (records_in w.now) i kind }
    ensures { Finds 0 (records_in w.now) i result }
{
    if kind.first_level(0) == 1 {
        return find1(w, i + 1);
    }
    Found::Done(terms::skip(w, i))
}

// Of the root at `i`, which is rewritten once the children that it steps are done: what is found in a child before the last of them; or else
// `Done`, with the place of the last.
#[cycle(find0_find1_find_at_rest_last_stepped)]
fn last_stepped(w: &[u8], i: usize, kind: Kind) -> Found
    requires { HasRewritten (records_in w.now) i kind }
    ensures { LastStepped (records_in w.now) i result }
{
    if kind.stepping(0) == 2 {
        return find0(w, i + 1);
    }
    Found::Done(i + 1)
}

// What is found in the tree at `i`, at level 0: the search goes down to the child that each root steps last, and where nothing is found there
// the innermost root that it passed is rewritten.
#[cycle(find0_find1_find_at_rest_last_stepped)]
fn find0(w: &[u8], i: usize) -> Found
    requires { HasTree (records_in w.now) i }
    ensures { Finds 0 (records_in w.now) i result }
{
    let mut at = i;
    let mut passed = None;
    let mut kind = terms::root_kind(w, i);
    while kind.contracts(0) {
        match last_stepped(w, at, kind) {
            Found::Redex(p) => {
                return Found::Redex(p);
            }
            Found::Done(e) => {
                passed = Some(at);
                at = e;
            }
        }
        kind = terms::root_kind(w, at);
    }
    or_here(find_at_rest(w, at, kind), passed)
}

// Whether a splice may stand at level 1 below the root at `i`, of this kind: the kind is plain, and the tree isn't.
fn splice_below(w: &[u8], i: usize, kind: Kind) -> bool
    requires { HasTree (records_in w.now) i }
    ensures { SpliceBelow (records_in w.now) i kind result }
{
    if terms::is_plain_at(w, i) {
        return false;
    }
    kind.is_plain()
}

// The place of the first splice that stands at level 1 in the tree at `i`; or else `Done`, with the place after the tree. A tree that is plain is
// passed at once, and so is one of another kind that isn't plain.
fn first_splice(w: &[u8], i: usize) -> Found
    requires { HasTree (records_in w.now) i }
    ensures { FindsSplice (records_in w.now) i result }
{
    let mut at = i;
    let mut pending: usize = 1;
    while 0 < pending {
        let kind = terms::root_kind(w, at);
        if kind.contracts(1) {
            return Found::Redex(at);
        }
        pending -= 1;
        if splice_below(w, at, kind) {
            pending += kind.children() as usize;
            at += 1;
        } else {
            at = terms::skip(w, at);
        }
    }
    Found::Done(at)
}

// What is found in the tree at `i`, at level 1: what comes before its first splice is plain. A splice's child is searched at level 0.
#[cycle(find0_find1_find_at_rest_last_stepped)]
fn find1(w: &[u8], i: usize) -> Found
    requires { HasTree (records_in w.now) i }
    ensures { Finds 1 (records_in w.now) i result }
{
    let splice = first_splice(w, i);
    match splice {
        Found::Redex(p) => or_here(find0(w, p + 1), Some(p)),
        Found::Done(e) => Found::Done(e),
    }
}

// What is found in the tree at `i`, at level 0 or 1.
pub fn find_at(w: &[u8], i: usize, level: u16) -> Found
    requires { CanFind (records_in w.now) i level }
    ensures { Finds level (records_in w.now) i result }
{
    if level == 0 { find0(w, i) } else { find1(w, i) }
}
