// Pruning.
ghost use Rattle.std.specs.Prelude.{◌≡◌, length};
ghost use Rattle.refusals.specs.Answers.{answer as answer_to, written, number_of};
ghost use Rattle.verdicts.specs.Judging.{table_after};
ghost use Rattle.pruning.specs.Pruning.{pruning};
ghost use Rattle.numbers.specs.Numbers.{with_value};

use numbers::handed;

// Prunes an accepted bundle. answer[0]: the length of the pruned bundle, in front of the output. The table is left as hov_judge leaves it.
#[unsafe(no_mangle)]
pub extern "C" fn hov_prune(
    bundle: &[u8],
    output: &mut [u8],
    table: &mut [u16],
    answer: &mut [u64; 4],
) -> u32
    ensures value { result ≡ number_of (answer_to (pruning (length table.old) bundle.now) (length output.old)) }
    ensures output_after { output.new ≡ written (pruning (length table.old) bundle.now) output.old }
    ensures table_after { table.new ≡ table_after bundle.now table.old }
    ensures answer_after { answer.new ≡ with_value answer.old (answer_to (pruning (length table.old) bundle.now) (length output.old)) }
{
    handed(pruning::prune(bundle, output, table), answer)
}
