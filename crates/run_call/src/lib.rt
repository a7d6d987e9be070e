// The run call, for programs of the first edition. It has no condition: any bytes, fuel and buffers get an answer, and the contract fixes every
// field of it and every byte of the output.
#![tactic(auto)]

ghost use Rattle.std.specs.Prelude.{◌≡◌, length};
ghost use Rattle.rules.specs.Editions.{first_edition};
ghost use Rattle.rules.specs.Run.{refused, run_refusal};
ghost use Rattle.refusals.specs.Reports.{Reports, reason_number};
ghost use Rattle.running.specs.Programs.{CanRunProgram};
ghost use Rattle.run_call.specs.Answers.{run_meant, Accepted, Ran};

use refusals::Refusal;

// What a run answers. Accepted: number and place are 0, ending is 1 for a value, 2 for spent fuel and 3 for a full table; the steps made, the
// root's type, the written length, and how many variables gave way in all the steps, which can pass 32 bits. Refused: document 01's number and place,
// and the other fields 0. C reads it, so that an answer is numbers, and each call has a struct of its own.
#[repr(C)]
#[derive(Clone, Copy)]
pub struct RunAnswer {
    pub number: u32,
    pub place: u32,
    pub ending: u32,
    pub steps: u32,
    pub root_type: u32,
    pub written: u32,
    pub replaced: u64,
}

// The answer of a refused run.
fn refusing(refusal: Refusal) -> RunAnswer
    ensures { run_meant result ≡ refused (reason_number refusal.reason) refusal.place }
{
    RunAnswer {
        number: refusal.reason.number() as u32,
        place: refusal.place as u32,
        ending: 0,
        steps: 0,
        root_type: 0,
        written: 0,
        replaced: 0,
    }
}

// The answer of an accepted run, which is made.
fn accepted(program: &[u8], fuel: u32, output: &mut [u8], work: &mut [u8]) -> RunAnswer
    requires { CanRunProgram first_edition program.now output.old work.old }
    ensures { Accepted program.now fuel output.old output.new result }
{
    let root = check_call::root_type(program);
    let done = running::run_program(program, fuel, output, work);
    RunAnswer {
        number: 0,
        place: 0,
        ending: done.ending.number(),
        steps: done.steps,
        root_type: root as u32,
        written: done.written,
        replaced: done.replaced,
    }
}

// The refusal of a call with these buffers: 1 and 2, then the program's.
#[tactic(auto, using(crate::proofs::Answering::buffers_refused, crate::proofs::Answering::program_told))]
fn call_refusal(program: &[u8], output: &[u8], work: &[u8]) -> Result<(), Refusal>
    ensures { Reports result (run_refusal first_edition program.now (length output.now) (length work.now)) }
{
    lending::buffers_refusal(output.len(), work.len())?;
    checker::program_refusal(program, kinds::first_edition())
}

// Runs a program of any bytes, with any fuel and buffers of any length.
#[tactic(auto, using(crate::proofs::Answering::answering))]
pub fn run(program: &[u8], fuel: u32, output: &mut [u8], work: &mut [u8]) -> RunAnswer
    ensures { Ran program.now fuel output.old work.old result output.new work.new }
{
    match call_refusal(program, output, work) {
        Ok(()) => accepted(program, fuel, output, &mut work[..lending::WORK]),
        Err(refusal) => refusing(refusal),
    }
}
