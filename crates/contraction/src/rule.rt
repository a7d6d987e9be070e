// The rules of steps.
use kinds::Kind;

// "1 application, 2 fix, 3 lift, 4 splice, 5 to 16 the kinds 9 to 14, success before failure": a match has one for its success and one for its failure.
#[derive(Clone, Copy, PartialEq, Eq)]
pub enum Rule {
    Application,
    Fix,
    Lift,
    Splice,
    Success(Kind),
    Failure(Kind),
}
