// What variables give way to, by the places of trees: nothing is copied before it is needed.
ghost use Rattle.std.specs.Prelude.{◌≡◌};
ghost use Rattle.substitution.specs.Arguments.{count_of, argument_of};

// A term that is made of a tree. Tree: the tree at this place itself. Quote: a quote of this type over it. Opened: a function of type `ty` with
// argument type `a`, over a quote of type `b`, over the tree with each use of the variable of its outermost binder wrapped in a splice.
#[derive(Clone, Copy)]
pub enum Argument {
    Tree(usize),
    Quote(usize, u16),
    Opened(usize, u16, u16, u16),
}

// What one or two variables give way to: that of the innermost binder to the first, that of the next, if there is one, to the second.
#[derive(Clone, Copy)]
pub struct Arguments {
    pub first: Argument,
    pub second: Option<Argument>,
}

impl Arguments {
    // How many there are.
    #[tactic(auto, unfolding(crate::specs::Arguments::count_of))]
    pub fn count(self) -> u16
        ensures { result ≡ count_of self }
    {
        match self.second {
            Some(_) => 2,
            None => 1,
        }
    }

    // That for the variable of the innermost of their binders, or for the other one.
    #[tactic(auto, unfolding(crate::specs::Arguments::argument_of))]
    pub fn of(self, inner: bool) -> Argument
        ensures { result ≡ argument_of self inner }
    {
        match self.second {
            Some(second) if !inner => second,
            _ => self.first,
        }
    }
}
