// From a focus that is to be searched to the record that is rewritten next, or to a value. The term stays the same.
#![tactic(auto)]

ghost use Rattle.records.specs.View.{records_in};
ghost use Rattle.seeking.specs.Seeking.{CanSeek, Searches, Seeks};

use navigation::Turn;
use redexes::Found;
use zipper::Ahead;

// Searches the focus. Where it is done, its frames say what comes next.
#[tactic(auto, using(crate::proofs::Searching::searching))]
fn search(w: &mut [u8], a: Ahead) -> Turn
    requires { CanSeek (records_in w.old) a }
    ensures { Searches (records_in w.old) (records_in w.new) a result }
{
    let found = redexes::find_at(w, a.r, a.level);
    match found {
        Found::Redex(p) => navigation::reach(w, a, p),
        Found::Done(_) => {
            let z = zipper::bring(w, a);
            navigation::ascend(w, z, a.level)
        }
    }
}

// Searches one focus after another until a record is rewritten or the term is a value.
pub fn seek_from(w: &mut [u8], from: Ahead) -> Turn
    requires { CanSeek (records_in w.old) from }
    ensures { Seeks (records_in w.old) (records_in w.new) from result }
{
    let mut a = from;
    loop {
        match search(w, a) {
            Turn::Next(b) => {
                a = b;
            }
            found => {
                return found;
            }
        }
    }
}
