// The check call, for programs of the first edition. It has no condition: any bytes get an answer, and the contract fixes every field of it.
#![tactic(auto)]

ghost use Rattle.std.specs.Prelude.{◌≡◌};
ghost use Rattle.rules.specs.Editions.{first_edition};
ghost use Rattle.rules.specs.Format.{records_of};
ghost use Rattle.rules.specs.Check.{type_no, failing, check_answer};
ghost use Rattle.rules.specs.Meets.{Meets};
ghost use Rattle.refusals.specs.Reports.{reason_number};
ghost use Rattle.check_call.specs.Answers.{check_meant};

use refusals::{Reason, Refusal};

// What check says of a program: passed, with number and place 0, the root's type and the number of records; or refused, with document 01's
// number and place and the other fields 0. C reads it, so that an answer is numbers, and each call has a struct of its own.
#[repr(C)]
#[derive(Clone, Copy)]
pub struct CheckAnswer {
    pub number: u32,
    pub place: u32,
    pub root_type: u32,
    pub records: u32,
}

// Checks a program of any bytes. A refusal by its length and counts is answered at once: told with the others, which come back through memory, it took
// 1.7 times as long.
#[tactic(auto, using(crate::proofs::Checks::checking_program))]
pub fn check(program: &[u8]) -> CheckAnswer
    ensures { check_meant result ≡ check_answer first_edition program.now }
{
    if let Err(reason) = checker::size_refusal(program) {
        return refused(reason, 0);
    }
    match checker::parts_refusal(program, kinds::first_edition(), true) {
        Ok(()) => passed(program),
        Err(Refusal { reason, place }) => refused(reason, place),
    }
}

// The root's type of a program that is passed.
#[tactic(auto, using(crate::proofs::Checks::checking))]
pub fn root_type(program: &[u8]) -> u16
    requires { Meets first_edition program.now }
    ensures { result ≡ type_no (records_of program.now) 1 }
{
    let parts = parts::parts_of(program);
    let root = records::get(parts.records, 0);
    root.ty
}

// The answer for a program that is passed. The number of records is read again: kept over the call, the length of the program takes a register, which
// each refusal saves and restores.
#[tactic(auto, using(crate::proofs::Checks::checking))]
fn passed(program: &[u8]) -> CheckAnswer
    requires { Meets first_edition program.now }
    ensures { check_meant result ≡ check_answer first_edition program.now }
{
    let root = root_type(program);
    CheckAnswer {
        number: 0,
        place: 0,
        root_type: root as u32,
        records: records::get16(program, 2) as u32,
    }
}

// The answer for a program that is refused.
fn refused(reason: Reason, place: u16) -> CheckAnswer
    ensures { check_meant result ≡ failing (reason_number reason) place }
{
    CheckAnswer {
        number: reason.number() as u32,
        place: place as u32,
        root_type: 0,
        records: 0,
    }
}
