// The entries for C of the public calls, which the crate `engine` offers. None has a condition. Each slice is a pointer and a length.
#![tactic(auto)]

ghost use Rattle.std.specs.Prelude.{◌≡◌};
ghost use Rattle.rules.specs.Editions.{first_edition};
ghost use Rattle.rules.specs.Check.{check_answer};
ghost use Rattle.check_call.specs.Answers.{check_meant};
ghost use Rattle.infer_call.specs.Answers.{Inferred};
ghost use Rattle.run_call.specs.Answers.{Ran};

use engine::{CheckAnswer, InferAnswer, RunAnswer, check, infer, run};

#[unsafe(no_mangle)]
pub extern "C" fn muntinyarrow_check(program: &[u8]) -> CheckAnswer
    ensures { check_meant result ≡ check_answer first_edition program.now }
{
    check(program)
}

#[unsafe(no_mangle)]
pub extern "C" fn muntinyarrow_infer(
    program: &[u8],
    output: &mut [u8],
    work: &mut [u8],
) -> InferAnswer
    ensures { Inferred program.now output.old work.old result output.new work.new }
{
    infer(program, output, work)
}

#[unsafe(no_mangle)]
pub extern "C" fn muntinyarrow_run(
    program: &[u8],
    fuel: u32,
    output: &mut [u8],
    work: &mut [u8],
) -> RunAnswer
    ensures { Ran program.now fuel output.old work.old result output.new work.new }
{
    run(program, fuel, output, work)
}
