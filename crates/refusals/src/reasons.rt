// Why a program or a call is refused, and where.
ghost use Rattle.std.specs.Prelude.{◌≡◌};
ghost use Rattle.refusals.specs.Reports.{reason_number};

// The rows of document 01's table of refusals by their numbers, and those of document 02, N1: "13 a nonzero type field", and 14, "its type would be
// a 257th entry".
#[derive(Clone, Copy, PartialEq, Eq)]
pub enum Reason {
    OutputShort = 1,
    WorkShort,
    ProgramShort,
    BadCounts,
    BadLength,
    BadEntry,
    BadField,
    BadLink,
    BadChildren,
    BadIndex,
    BadLevel,
    BadType,
    TypeWritten,
    TableFull,
}

impl Reason {
    // Its number.
    pub fn number(self) -> u16
        ensures { result ≡ reason_number self }
    {
        self as u16
    }
}

// A refusal: why, and the entry or record that is named, or 0.
#[derive(Clone, Copy, PartialEq, Eq)]
pub struct Refusal {
    pub reason: Reason,
    pub place: u16,
}

// What is refused as a whole, with no entry or record to name.
impl From<Reason> for Refusal {
    ghost from_gives = { λ reason refusal. refusal ≡ record { reason = reason; place = 0 } };

    fn from(reason: Reason) -> Refusal {
        Refusal { reason, place: 0 }
    }
}
