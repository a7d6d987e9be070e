// Refusal 9: a record with a wrong number of children. They are the chain from its first through their next.
ghost use Rattle.std.specs.Prelude.{◌≡◌, ◌<◌, length};
ghost use Rattle.rules.specs.Conditions.{holds};
ghost use Rattle.rules.specs.Links.{NoBadLink};
ghost use Rattle.rules.specs.Refusals.{bad_children, lowest};
ghost use Rattle.rules.specs.Check.{children_rule};
ghost use Rattle.records.specs.View.{records_in};
ghost use Rattle.refusals.specs.Reports.{Reports};
ghost use Rattle.links.specs.Chains.{Parent};

use kinds::Kind;
use refusals::{Reason, Refusal, lowest_refusal};

// Whether record n has as many children as its kind asks. No more of the chain is read than that.
fn children_ok(records: &[u8], n: u16) -> bool
    requires { Parent (records_in records.now) n }
    ensures { result ≡ holds (children_rule (records_in records.now) n) }
{
    let r = records::record_no(records, n);
    let count = Kind::of(r.kind).children();
    let c = r.first;
    if count == 0 {
        return c == 0;
    }
    let s = records::next_of(records, c);
    if count == 1 {
        return (0 < c) & (s == 0);
    }
    let e = records::next_of(records, s);
    if count == 2 {
        return (0 < c) & (0 < s) & (e == 0);
    }
    let x = records::next_of(records, e);
    (0 < c) & (0 < s) & (0 < e) & (x == 0)
}

// Refusal 9: the lowest record with a wrong number of children.
pub fn children_refusal(records: &[u8]) -> Result<(), Refusal>
    requires few { length (records_in records.now) < 65536 }
    requires linked { NoBadLink (records_in records.now) }
    ensures { Reports result (lowest (children_rule (records_in records.now)) bad_children 1 (length (records_in records.now))) }
{
    let count = records::record_count(records);
    lowest_refusal(
        Reason::BadChildren,
        count,
        |n: u16| -> bool
            requires { Parent (records_in records.now) n }
            ensures { result ≡ holds (children_rule (records_in records.entry.now) n) }
        { children_ok(records, n) },
    )
}
