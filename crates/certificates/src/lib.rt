// Reading the certificates of a bundle: one for each wrong continuation, checked while it is read.
#![tactic(auto)]

ghost use Rattle.std.specs.Prelude.{◌≡◌, [], ◌+◌, ◌*◌, ◌≤◌, ◌<◌};
ghost use Rattle.limits.specs.Limits.{max_events};
ghost use Rattle.bundles.specs.Chains.{ReadBy};
ghost use Rattle.bundles.specs.Reading.{each};
ghost use Rattle.bundles.specs.Layout.{wrong_in};
ghost use Rattle.bundles.specs.Readers.{head_of};
ghost use Rattle.bundles.specs.Keeping.{behind};
ghost use Rattle.verdicts.specs.Judging.{solved};
ghost use Rattle.certificates.specs.Certifying.{certified_of, place_checked, weights_checked, certificate_checked};
ghost use Rattle.certificates.specs.CertificateReading.{counted, Outcome};

use bundles::Reader;
use bundles::terms::Kind;
use heads::TakenHead;
use places::has_bit;
use refusals::{Cause, Refusal};
use rows::mask_of;
use verdicts::Tally;
use weights::Step;

// Reads a place's number, and tests that the place refuses the step. Its certificate has so many before it.
#[inline(always)]
fn check_place(step: &Step, reader: &mut Reader, number: usize) -> Result<(), Refusal>
    ensures { ReadBy reader.old reader.new result (place_checked step.now number) }
{
    let net = step.head.net;
    let j = reader.byte(|j| usize::from(j) < net.count)?;
    let place = step.head.places[usize::from(j)];
    let counts = &step.counts()[..usize::from(net.n)];
    if place.permits(counts, usize::from(step.event)) {
        return Err(Cause::PlacePermits.at(number));
    }
    Ok(())
}

// Reads weights, and tests that they hold for the step.
#[inline(always)]
fn check_weights(step: &Step, reader: &mut Reader, number: usize) -> Result<(), Refusal>
    ensures { ReadBy reader.old reader.new result (weights_checked step.now number) }
{
    if !step.read_weights(reader)? {
        return Err(Cause::Weights.at(number));
    }
    Ok(())
}

// Reads the certificate of a wrong continuation, which has so many before it. Returns its kind.
fn check_certificate(step: &Step, reader: &mut Reader, number: usize) -> Result<Kind, Refusal>
    ensures { ReadBy reader.old reader.new result (certificate_checked step.now number) }
{
    let kind = reader.kind()?;
    match kind {
        Kind::Place => check_place(step, reader, number)?,
        Kind::Weights => check_weights(step, reader, number)?,
    }
    Ok(kind)
}

// How far the certificates are read, and what was counted: the allowed steps passed, and the certificates of each kind.
#[derive(Drop)]
struct Progress<'a> {
    reader: Reader<'a>,
    tally: Tally,
}

impl Progress<'_> {
    // Passes one step: an allowed one is counted, a wrong continuation has a certificate.
    fn certify_step(&mut self, head: &TakenHead, row: usize, event: u8) -> Result<(), Refusal>
        requires step_there { (row < head.now.rows) × (event < head.now.net.n) }
        requires reader_bytes { self.old.reader.bytes ≡ head.now.net.bundle }
        requires few { counted self.old ≤ max_events * row + event }
        ensures { Outcome head.now.net.bundle.now row event row (event + 1) self.old self.new result }
    {
        if has_bit(mask_of(head.table, row), usize::from(event)) {
            self.tally.allowed += 1;
            return Ok(());
        }
        let step = Step { head, row, event };
        let number = self.tally.by_place + self.tally.by_weights;
        match check_certificate(&step, &mut self.reader, number)? {
            Kind::Place => self.tally.by_place += 1,
            Kind::Weights => self.tally.by_weights += 1,
        }
        Ok(())
    }

    // Passes the steps of a row.
    fn certify_row(&mut self, head: &TakenHead, row: usize) -> Result<(), Refusal>
        requires row_there { row < head.now.rows }
        requires reader_bytes { self.old.reader.bytes ≡ head.now.net.bundle }
        requires few { counted self.old ≤ max_events * row }
        ensures { Outcome head.now.net.bundle.now row 0 (row + 1) 0 self.old self.new result }
    {
        for event in 0..head.net.n {
            self.certify_step(head, row, event)?;
        }
        Ok(())
    }
}

// Reads one certificate for each wrong continuation, by row, then event: a step whose bit is clear in its row's mask. Returns the four counts, and
// the offset behind the last certificate. (Inner function.)
pub fn certify(head: &TakenHead) -> Result<(Tally, usize), Refusal>
    ensures { result
        ≡ certified_of (head_of head.now.net.bundle.now)
        (each (solved (head_of head.now.net.bundle.now)) (wrong_in (head_of head.now.net.bundle.now))
        [] head.now.net.bundle.now (behind head.now.net)) }
{
    let net = head.net;
    let mut progress = Progress {
        reader: Reader {
            bytes: net.bundle,
            at: net.offset(net.count),
        },
        tally: Tally {
            rows: head.rows,
            allowed: 0,
            by_place: 0,
            by_weights: 0,
        },
    };
    for row in 0..head.rows {
        progress.certify_row(head, row)?;
    }
    Ok((progress.tally, progress.reader.at))
}
