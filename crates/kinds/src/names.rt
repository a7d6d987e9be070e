// The kinds by name, and the tables of what each has and does: code asks these. Those of which kinds are plain, where they may stand, what they bind and
// what is stepped and rewritten match the kind's number with ranges, the form that is named for them (docs/DECISIONS.md), and so does which are matches. The
// others go by name, but for the number of children. The type rules (`judging`) and the step rules (`contraction`, `matching`), which are each kind's own,
// are matched by the kind where they stand.
ghost use Rattle.std.specs.Prelude.{◌≡◌, ◌≤◌};
ghost use Rattle.rules.specs.Kinds.{child_count, kind_of, kind_number};
ghost use Rattle.rules.specs.Binders.{binders_first, binders_second};
ghost use Rattle.rules.specs.Conditions.{holds};
ghost use Rattle.rules.specs.FieldUses.{uses};
ghost use Rattle.rules.specs.Typing.{levels, standing, first_level};
ghost use Rattle.rules.specs.Values.{plain_kind};
ghost use Rattle.rules.specs.Contractions.{contracts};
ghost use Rattle.rules.specs.Steps.{stepping};
ghost use Rattle.kinds.specs.Named.{kind_meant, use_meant, IsKind, is_match, Seeks};

use crate::uses::Use;

// The kinds, each with its number.
#[derive(Clone, Copy, PartialEq, Eq)]
pub enum Kind {
    Number = 1,
    Variable,
    Function,
    Application,
    Fix,
    Lift,
    Quote,
    Splice,
    MatchNumber,
    MatchVariable,
    MatchApplication,
    MatchLift,
    MatchFunction,
    MatchFix,
}

// Two bits for each kind's number, 0 lowest: how many children a record of it has.
const CHILDREN: u32 = 0x3FFD5640;

impl Kind {
    // The kind that has this number. A number that no kind has stands for kind 1, as `kind_of` says.
    pub fn of(number: u16) -> Kind
        ensures { kind_meant result ≡ kind_of number }
    {
        match number {
            1..=14 => Kind::known(number),
            _ => Kind::Number,
        }
    }

    // The same of a number that a kind has, as a tree's root or a frame's record: what is left of the comparison is the arm that is never taken.
    pub fn known(number: u16) -> Kind
        requires { IsKind number }
        ensures { kind_meant result ≡ kind_of number }
    {
        match number {
            1 => Kind::Number,
            2 => Kind::Variable,
            3 => Kind::Function,
            4 => Kind::Application,
            5 => Kind::Fix,
            6 => Kind::Lift,
            7 => Kind::Quote,
            8 => Kind::Splice,
            9 => Kind::MatchNumber,
            10 => Kind::MatchVariable,
            11 => Kind::MatchApplication,
            12 => Kind::MatchLift,
            13 => Kind::MatchFunction,
            14 => Kind::MatchFix,
            _ => unreachable!(),
        }
    }

    // Its number.
    pub fn number(self) -> u16
        ensures { result ≡ kind_number (kind_meant self) }
    {
        self as u16
    }

    // How many children a record of this kind has. Every record that is passed over is asked this, so the number is shifted out and nothing is
    // jumped over: by a match raising 300 codes takes 1.06 of its time.
    pub fn children(self) -> u16
        ensures { result ≡ child_count (kind_meant self) }
    {
        ((CHILDREN >> (2 * (self as u32))) % 4) as u16
    }

    // Whether it is a match.
    pub fn is_match(self) -> bool
        ensures { result ≡ is_match (kind_meant self) }
    {
        match self.number() {
            9..=14 => true,
            _ => false,
        }
    }

    // Whether a tree may be plain that has a record of this kind.
    pub fn is_plain(self) -> bool
        ensures { result ≡ plain_kind (kind_meant self) }
    {
        match self.number() {
            1..=5 => true,
            _ => false,
        }
    }

    // How many variables it binds over its first child.
    pub fn binders_first(self) -> u16
        ensures { result ≡ binders_first (kind_meant self) }
    {
        match self.number() {
            3 => 1,
            _ => 0,
        }
    }

    // How many variables it binds over its second child.
    pub fn binders_second(self) -> u16
        ensures { result ≡ binders_second (kind_meant self) }
    {
        match self.number() {
            11 => 2,
            12..=14 => 1,
            _ => 0,
        }
    }

    // Whether it may stand at this level.
    pub fn may_stand(self, level: u16) -> bool
        ensures { result ≡ holds (standing level (levels (kind_meant self))) }
    {
        match self.number() {
            6..=7 | 9..=14 => level == 0,
            8 => level == 1,
            _ => true,
        }
    }

    // The level of its first child, where it stands at this one.
    pub fn first_level(self, level: u16) -> u16
        ensures { result ≡ first_level (kind_meant self) level }
    {
        match self {
            Kind::Quote => 1,
            Kind::Splice => 0,
            _ => level,
        }
    }

    // How many of its children it steps at this level.
    pub fn stepping(self, level: u16) -> u16
        ensures { result ≡ stepping level (kind_meant self) }
    {
        match self.number() {
            4 => 2,
            5 => 1,
            3 | 8 => (level == 1) as u16,
            6..=7 | 9..=14 => (level == 0) as u16,
            _ => 0,
        }
    }

    // Whether it is rewritten itself at this level, once the children that it steps are done.
    pub fn contracts(self, level: u16) -> bool
        ensures { result ≡ contracts level (kind_meant self) }
    {
        match self.number() {
            4..=6 | 9..=14 => level == 0,
            8 => level == 1, // a splice
            _ => false,
        }
    }

    // The kind of code that it looks for, of a number for kinds 9 and 12, where it is a match.
    pub fn sought(self) -> Option<Kind>
        ensures { Seeks (kind_meant self) result }
    {
        match self {
            Kind::MatchNumber | Kind::MatchLift => Some(Kind::Number),
            Kind::MatchVariable => Some(Kind::Variable),
            Kind::MatchApplication => Some(Kind::Application),
            Kind::MatchFunction => Some(Kind::Function),
            Kind::MatchFix => Some(Kind::Fix),
            _ => None,
        }
    }

    // What it uses its field a for.
    pub fn use_of_a(self) -> Use
        ensures { use_meant result ≡ (uses (kind_meant self)).a }
    {
        match self {
            Kind::Variable | Kind::MatchVariable => Use::Index,
            Kind::Function
            | Kind::MatchApplication
            | Kind::MatchLift
            | Kind::MatchFunction
            | Kind::MatchFix => Use::Entry,
            _ => Use::Unused,
        }
    }

    // What it uses its field b for.
    pub fn use_of_b(self) -> Use
        ensures { use_meant result ≡ (uses (kind_meant self)).b }
    {
        match self {
            Kind::MatchApplication => Use::Entry,
            _ => Use::Unused,
        }
    }

    // What it uses its value for.
    pub fn use_of_value(self) -> Use
        ensures { use_meant result ≡ (uses (kind_meant self)).value }
    {
        match self {
            Kind::Number | Kind::MatchNumber => Use::Value,
            _ => Use::Unused,
        }
    }
}
