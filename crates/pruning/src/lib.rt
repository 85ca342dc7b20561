// Pruning: an accepted bundle, written without the places that no certificate names. The contracts cite specs/Pruning.antt.
#![tactic(auto)]

pub mod marking; // the places that certificates name
pub mod writing; // the parts of a pruned bundle, written

ghost use Rattle.std.specs.Prelude.{◌≡◌, length};
ghost use Rattle.refusals.specs.Answers.{answer, written};
ghost use Rattle.refusals.specs.Results.{value};
ghost use Rattle.bundles.specs.Layout.{bytes_of};
ghost use Rattle.verdicts.specs.Judging.{table_after};
ghost use Rattle.contents.specs.Contents.{IsBundle, contents_of};
ghost use Rattle.pruning.specs.Pruning.{pruned, pruning};

use judging::judge;
use marking::Marked;
use refusals::{Cause, Written};

// Writes the pruned bundle to the front of an output that takes it, or refuses with 3.
fn write_pruned(bundle: &[u8], output: &mut [u8]) -> Written
    requires { IsBundle bundle.now }
    ensures value { result ≡ answer (value (bytes_of (pruned (contents_of bundle.now)))) (length output.old) }
    ensures output_after { output.new ≡ written (value (bytes_of (pruned (contents_of bundle.now)))) output.old }
{
    let marked = Marked::of(bundle);
    let length = marked.pruned_length();
    if output.len() < length {
        return Err(Cause::OutputShort.at(length));
    }
    marked.write(output);
    Ok(length)
}

// Writes an accepted bundle to the front of the output without the places that no certificate names: the rest in their old order, with
// certificates renumbered. Refuses with 4, 5, 6 to 13 and 20 as `judge`, then with 3; the output is then as it was. The table is left as `judge`
// leaves it.
#[tactic(auto, using(crate::specs::Judged::judge_told))]
pub fn prune(bundle: &[u8], output: &mut [u8], table: &mut [u16]) -> Written
    ensures value { result ≡ answer (pruning (length table.old) bundle.now) (length output.old) }
    ensures output_after { output.new ≡ written (pruning (length table.old) bundle.now) output.old }
    ensures table_after { table.new ≡ table_after bundle.now table.old }
{
    judge(bundle, table)?;
    write_pruned(bundle, output)
}
