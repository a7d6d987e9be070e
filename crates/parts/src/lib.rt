// The parts of a program by its layout: as many type entries and records as its two counts say.
#![tactic(auto)]

ghost use Rattle.parts.specs.Layout.{IsLaidOut, ArePartsOf};

// The bytes of a program's type table and of its records: their lengths say how many there are.
#[derive(Clone, Copy)]
pub struct Parts<'a> {
    pub table: &'a [u8],
    pub records: &'a [u8],
}

// The parts of a program whose length is what its counts say.
#[tactic(auto, using(crate::proofs::Parting::parting))]
pub fn parts_of(program: &[u8]) -> Parts<'_>
    requires { IsLaidOut program.now }
    ensures { ArePartsOf program.now result }
{
    let types = records::get16(program, 0);
    let end = 4 + 6 * (types as usize);
    Parts {
        table: &program[4..end],
        records: &program[end..],
    }
}
