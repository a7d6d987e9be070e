// Refusals 1 and 2: the lengths of the output and work buffers that a call is lent.
#![tactic(auto)]

ghost use Rattle.rules.specs.Run.{buffers_refusal};
ghost use Rattle.refusals.specs.Reports.{ReportsWhole};

use refusals::Reason;

// The bytes that a call needs of its output and its work buffer.
pub const OUTPUT: usize = 34308;

pub const WORK: usize = 65536;

// The refusal of buffers of these lengths, or none where both are long enough.
#[tactic(auto, using(crate::proofs::Lengths::lengths))]
pub fn buffers_refusal(output: usize, work: usize) -> Result<(), Reason>
    ensures { ReportsWhole result (buffers_refusal output work) }
{
    if output < OUTPUT {
        return Err(Reason::OutputShort);
    }
    if work < WORK {
        return Err(Reason::WorkShort);
    }
    Ok(())
}
