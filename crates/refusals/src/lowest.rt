// The scan for the lowest of some numbers that breaks a rule.
ghost use Rattle.std.specs.Prelude.{ℕ, ◌≤◌};
ghost use Rattle.refusals.specs.Reports.{FindsLowest};

use crate::reasons::{Reason, Refusal};

// Refuses the lowest of the numbers 1 to `count` that doesn't keep a rule, for this reason.
pub fn lowest_refusal<F: Fn(u16) -> bool>(
    reason: Reason,
    count: u16,
    keeps: F,
) -> Result<(), Refusal>
    requires { (n : ℕ) → 1 ≤ n → n ≤ count → F.pre keeps n }
    ensures { FindsLowest (F.post keeps) reason count result }
{
    for i in 0..count {
        let n = i + 1;
        if !keeps(n) {
            return Err(Refusal { reason, place: n });
        }
    }
    Ok(())
}
