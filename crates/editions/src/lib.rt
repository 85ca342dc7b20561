// Conversion between the editions: an accepted bundle, in the edition that is wanted. The contracts cite specs/Converting.antt.
#![tactic(auto)]

pub mod writing; // a bundle's parts, written in an edition

ghost use Rattle.std.specs.Prelude.{◌≡◌, length};
ghost use Rattle.refusals.specs.Answers.{answer, written};
ghost use Rattle.refusals.specs.Results.{value};
ghost use Rattle.bundles.specs.Layout.{bytes_of};
ghost use Rattle.verdicts.specs.Acceptance.{AcceptedAs};
ghost use Rattle.verdicts.specs.Judging.{table_after};
ghost use Rattle.contents.specs.Contents.{contents_of};
ghost use Rattle.editions.specs.Converting.{in_edition, in_new, in_old, converting_to_new, converting_to_old, first_completed};
ghost use Rattle.editions.specs.EditionLaws.{Convertible};

use contents::Parts;
use judging::judge;
use limits::MAX_BUNDLE_SIZE;
use refusals::{Cause, Written};
use slices::write_at;
use verdicts::Tally;
use writing::write_in_edition;

// Copies a bundle to the front of an output that takes it, or refuses with 3.
fn copy(bundle: &[u8], output: &mut [u8]) -> Written
    ensures value { result ≡ answer (value bundle.now) (length output.old) }
    ensures output_after { output.new ≡ written (value bundle.now) output.old }
{
    if output.len() < bundle.len() {
        return Err(Cause::OutputShort.at(bundle.len()));
    }
    write_at(output, 0, bundle);
    Ok(bundle.len())
}

// Writes a bundle in an edition, in which it has so many bytes, to the front of an output that takes it, or refuses with 3.
fn convert(parts: &Parts, is_new: bool, size: usize, output: &mut [u8]) -> Written
    requires plain { Convertible (contents_of parts.now.bundle.now) }
    requires size { size ≡ length (bytes_of (in_edition is_new (contents_of parts.now.bundle.now))) }
    ensures value { result ≡ answer (value (bytes_of (in_edition is_new (contents_of parts.now.bundle.now)))) (length output.old) }
    ensures output_after { output.new ≡ written (value (bytes_of (in_edition is_new (contents_of parts.now.bundle.now)))) output.old }
{
    if output.len() < size {
        return Err(Cause::OutputShort.at(size));
    }
    write_in_edition(parts, is_new, output);
    Ok(size)
}

// The number of the first completed word of a bundle.
fn first_completed(parts: &Parts) -> Option<usize>
    ensures { result ≡ first_completed (contents_of parts.now.bundle.now) }
{
    parts.each_word().position(|word| word.completed)
}

// An accepted bundle in the new edition: copied where it is in it, or with a byte more for each word and for each certificate of kind 1.
fn write_new(bundle: &[u8], tally: Tally, output: &mut [u8]) -> Written
    requires { AcceptedAs bundle.now tally (contents_of bundle.now) }
    ensures value { result ≡ answer (in_new (contents_of bundle.now)) (length output.old) }
    ensures output_after { output.new ≡ written (in_new (contents_of bundle.now)) output.old }
{
    let parts = Parts::of(bundle);
    if parts.is_new {
        return copy(bundle, output);
    }
    let size = bundle.len() + usize::from(parts.front[1]) + tally.by_weights;
    if MAX_BUNDLE_SIZE < size {
        return Err(Cause::BundleLength.at(0));
    }
    convert(&parts, true, size, output)
}

// An accepted bundle in the old edition: refused with 21 where it has a completed word, copied where it is in it, or without these bytes.
fn write_old(bundle: &[u8], tally: Tally, output: &mut [u8]) -> Written
    requires { AcceptedAs bundle.now tally (contents_of bundle.now) }
    ensures value { result ≡ answer (in_old (contents_of bundle.now)) (length output.old) }
    ensures output_after { output.new ≡ written (in_old (contents_of bundle.now)) output.old }
{
    let parts = Parts::of(bundle);
    if !parts.is_new {
        return copy(bundle, output);
    }
    if let Some(word) = first_completed(&parts) {
        return Err(Cause::WordCompleted.at(word));
    }
    let size = bundle.len() - usize::from(parts.front[1]) - tally.by_weights;
    convert(&parts, false, size, output)
}

// Writes an accepted bundle in the new edition to the front of the output. Refuses with 4, 5, 6 to 13 and 20 as `judge`, then with 4 where the
// result is above 64,512 bytes, then with 3; the output is then as it was. The table is left as `judge` leaves it.
pub fn to_new(bundle: &[u8], output: &mut [u8], table: &mut [u16]) -> Written
    ensures value { result ≡ answer (converting_to_new (length table.old) bundle.now) (length output.old) }
    ensures output_after { output.new ≡ written (converting_to_new (length table.old) bundle.now) output.old }
    ensures table_after { table.new ≡ table_after bundle.now table.old }
{
    let tally = judge(bundle, table)?;
    write_new(bundle, tally, output)
}

// Writes an accepted bundle in the old edition to the front of the output. Refuses with 4, 5, 6 to 13 and 20 as `judge`, then with 21 and the number
// of the first completed word, then with 3; the output is then as it was. The table is left as `judge` leaves it.
pub fn to_old(bundle: &[u8], output: &mut [u8], table: &mut [u16]) -> Written
    ensures value { result ≡ answer (converting_to_old (length table.old) bundle.now) (length output.old) }
    ensures output_after { output.new ≡ written (converting_to_old (length table.old) bundle.now) output.old }
    ensures table_after { table.new ≡ table_after bundle.now table.old }
{
    let tally = judge(bundle, table)?;
    write_old(bundle, tally, output)
}
