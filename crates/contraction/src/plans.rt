// What a redex becomes, as a value: nothing is copied here.
use substitution::{Argument, Arguments};

// Tree: the tree at this place as it is, to which so many variables gave way. Body: the tree at this place, its variables replaced by what the arguments stand for. Made: what the
// argument stands for.
#[derive(Clone, Copy)]
pub enum Plan {
    Tree(usize, usize),
    Body(usize, Arguments),
    Made(Argument),
}
