// Conversion between the editions.
ghost use Rattle.std.specs.Prelude.{◌≡◌, length};
ghost use Rattle.refusals.specs.Answers.{answer as answer_to, written, number_of};
ghost use Rattle.verdicts.specs.Judging.{table_after};
ghost use Rattle.editions.specs.Converting.{converting_to_new, converting_to_old};
ghost use Rattle.numbers.specs.Numbers.{with_value};

use numbers::handed;

// Converts an accepted bundle to the new edition. answer[0]: the length of the result, in front of the output. The table is left as hov_judge
// leaves it.
#[unsafe(no_mangle)]
pub extern "C" fn hov_to_new(
    bundle: &[u8],
    output: &mut [u8],
    table: &mut [u16],
    answer: &mut [u64; 4],
) -> u32
    ensures value { result ≡ number_of (answer_to (converting_to_new (length table.old) bundle.now) (length output.old)) }
    ensures output_after { output.new ≡ written (converting_to_new (length table.old) bundle.now) output.old }
    ensures table_after { table.new ≡ table_after bundle.now table.old }
    ensures answer_after { answer.new ≡ with_value answer.old (answer_to (converting_to_new (length table.old) bundle.now) (length output.old)) }
{
    handed(editions::to_new(bundle, output, table), answer)
}

// Converts an accepted bundle without completed words to the old edition. As hov_to_new, otherwise.
#[unsafe(no_mangle)]
pub extern "C" fn hov_to_old(
    bundle: &[u8],
    output: &mut [u8],
    table: &mut [u16],
    answer: &mut [u64; 4],
) -> u32
    ensures value { result ≡ number_of (answer_to (converting_to_old (length table.old) bundle.now) (length output.old)) }
    ensures output_after { output.new ≡ written (converting_to_old (length table.old) bundle.now) output.old }
    ensures table_after { table.new ≡ table_after bundle.now table.old }
    ensures answer_after { answer.new ≡ with_value answer.old (answer_to (converting_to_old (length table.old) bundle.now) (length output.old)) }
{
    handed(editions::to_old(bundle, output, table), answer)
}
