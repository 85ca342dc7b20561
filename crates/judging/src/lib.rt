// Judging a bundle. The contracts cite crate verdicts' definitions.
#![tactic(auto)]

pub mod files; // judging a sealed file: an inner function

ghost use Rattle.std.specs.Prelude.{◌≡◌, length};
ghost use Rattle.bundles.specs.Readers.{head_of};
ghost use Rattle.bundles.specs.Keeping.{behind};
ghost use Rattle.verdicts.specs.Judging.{judging, verdict_of, verdict, table_after};
ghost use Rattle.heads.specs.Taken.{Fresh};
ghost use Rattle.judging.specs.JudgeLaws.{afterwards, TableLeft};

use certificates::certify;
use fitting::first_misfit;
use heads::{TakenHead, take_head};
use limits::{MAX_PLACES, MAX_WORDS, size_fits};
use logs::{TABLE, clear};
use obeying::first_disobeying;
use places::Place;
use refusals::Cause;
use verdicts::Verdict;

// The verdict on a bundle whose head is taken: its places are tested against the log and its completed words, its certificates are read, and
// nothing may follow.
fn judge_net(head: &TakenHead) -> Verdict
    ensures { result ≡ verdict_of (afterwards (head_of head.now.net.bundle.now) head.now.net.bundle.now (behind head.now.net)) }
{
    if let Some(misfit) = first_misfit(head) {
        return Err(Cause::PlaceMisfit.at(misfit));
    }
    if let Some(disobeying) = first_disobeying(head) {
        return Err(Cause::PlaceDisobeys.at(disobeying));
    }
    let (tally, end) = certify(head)?;
    if end < head.net.bundle.len() {
        return Err(Cause::BytesFollow.at(end));
    }
    Ok(tally)
}

// The verdict on a bundle's fields. The table, which is lent on, has the row of the empty log.
fn judge_fields(bundle: &[u8], table: &mut [u16]) -> Verdict
    requires { Fresh table.old }
    ensures value { result ≡ verdict_of (judging bundle.now 0) }
    ensures table_left { TableLeft (judging bundle.now 0) table.old table.new }
{
    let mut noted = [None; MAX_WORDS];
    let taken = take_head(bundle, table, &mut noted)?;
    let mut places = [Place::blank(); MAX_PLACES];
    taken.net.read_places(&mut places);
    judge_net(&TakenHead {
        is_new: taken.is_new,
        net: taken.net,
        places: &places,
        rows: taken.rows,
        table,
        noted: &noted[..usize::from(taken.words)],
    })
}

// The verdict on a bundle: accepted with four counts, and then its log's rows are in the table; or refused.
// Refuses with 4, 5, and then in the bundle's order with 6 to 13, with 20 behind 10. 4 and 5 leave the table as it was; the others clear its first
// 3,584 numbers.
pub fn judge(bundle: &[u8], table: &mut [u16]) -> Verdict
    ensures value { result ≡ verdict (length table.old) bundle.now }
    ensures table_after { table.new ≡ table_after bundle.now table.old }
{
    if !size_fits(bundle.len()) {
        return Err(Cause::BundleLength.at(0));
    }
    if table.len() < TABLE {
        return Err(Cause::NumbersShort.at(TABLE));
    }
    clear(table);
    let verdict = judge_fields(bundle, table);
    if verdict.is_err() {
        clear(table);
    }
    verdict
}
