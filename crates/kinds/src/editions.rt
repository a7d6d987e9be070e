// What a program may use, as the checker is handed it.
ghost use Rattle.std.specs.Prelude.{◌≡◌};
ghost use Rattle.rules.specs.Editions.{first_edition};
ghost use Rattle.kinds.specs.Meant.{edition_meant};

// An edition's kinds are numbered from 1 to its last.
#[derive(Clone, Copy)]
pub struct Edition {
    pub last_kind: u16,
}

// Document 01's edition.
pub fn first_edition() -> Edition
    ensures { edition_meant result ≡ first_edition }
{
    Edition { last_kind: 14 }
}
