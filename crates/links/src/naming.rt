// Refusal 8: a record that holds a bad link, or one other than the root that is not named by exactly one link.
// Good links are above their record's own number. So one pass in the records' order is enough: all links that may name a record are counted where
// the pass comes to it.
ghost use Rattle.std.specs.Prelude.{◌≡◌, ◌≤◌, eqb, length};
ghost use Rattle.rules.specs.Conditions.{holds};
ghost use Rattle.rules.specs.Format.{most_records};
ghost use Rattle.rules.specs.Links.{named};
ghost use Rattle.rules.specs.Refusals.{lowest, bad_link};
ghost use Rattle.rules.specs.Check.{links_rule};
ghost use Rattle.records.specs.View.{records_in};
ghost use Rattle.refusals.specs.Reports.{Reports};
ghost use Rattle.links.specs.Counters.{bumped, CanBump, CanJudge};

use refusals::{Reason, Refusal};

// Whether a link of record `n` is good among `count` records: it is 0, or names a record above n.
fn link_ok(count: u16, n: u16, link: u16) -> bool
    ensures { result ≡ eqb link (named count n link) }
{
    link == 0 || (n < link) & (link <= count)
}

// Whether record `n` keeps the rule of links. Any next of the root is bad.
fn links_ok(records: &[u8], counts: &[u16], n: u16) -> bool
    requires { CanJudge (records_in records.now) counts.now n }
    ensures { result ≡ holds (links_rule (records_in records.now) n) }
{
    let count = records::record_count(records);
    let r = records::record_no(records, n);
    if !link_ok(count, n, r.first) {
        return false;
    }
    if n == 1 {
        return r.next == 0;
    }
    link_ok(count, n, r.next) && counts[(n - 1) as usize] == 1
}

// Counts a link that names record `m`, and does nothing where `m` is 0.
fn bump(counts: &mut [u16], m: u16)
    requires { CanBump counts.old m }
    ensures { counts.new ≡ bumped counts.old m }
{
    if m != 0 {
        counts[(m - 1) as usize] += 1;
    }
}

// Refusal 8: the lowest record that breaks the rule of links. The links of each record that keeps it are counted. A loop of its own, as
// `fields::set_refusal`: the counters change from record to record.
pub fn links_refusal(records: &[u8]) -> Result<(), Refusal>
    requires { length (records_in records.now) ≤ most_records }
    ensures { Reports result (lowest (links_rule (records_in records.now)) bad_link 1 (length (records_in records.now))) }
{
    let count = records::record_count(records);
    let mut counts = [0u16; kinds::MOST_RECORDS as usize];
    for i in 0..count {
        let n = i + 1;
        if !links_ok(records, &counts, n) {
            return Err(Refusal {
                reason: Reason::BadLink,
                place: n,
            });
        }
        let r = records::record_no(records, n);
        bump(&mut counts, r.first);
        bump(&mut counts, r.next);
    }
    Ok(())
}
