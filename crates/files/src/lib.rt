// The calls that demand 3 speaks of, on one file and on two: opening, judging and screening, one behind the other.
// `demands` states demand 3, which the last line of `run_both` says of these answers; specs/Files.antt gives the answers.
#![tactic(auto)]

ghost use Rattle.std.specs.Prelude.{◌≡◌, length};
ghost use Rattle.refusals.specs.Answers.{fitted, written};
ghost use Rattle.block.specs.File.{opened};
ghost use Rattle.verdicts.specs.Judging.{table_after};
ghost use Rattle.files.specs.Files.{answers_of, ran, table_ran, AnswersCompared};

use refusals::Refusal;
use screening::Screened;
use verdicts::Verdict;

// What the calls answered for a file that opened: the bundle's length, the verdict on it, and what screening a word with it said.
#[derive(Clone, Copy)]
pub struct Answers {
    pub size: usize,
    pub verdict: Verdict,
    pub screened: Screened,
}

// What the calls answered for a file.
pub type Ran = Result<Answers, Refusal>;

// What the calls answered for two files.
#[derive(Clone, Copy)]
pub struct Both {
    pub first: Ran,
    pub second: Ran,
}

// Judges a bundle with the table, and screens the word with it.
fn judge_and_screen(bundle: &[u8], table: &mut [u16], word: &[u8]) -> Answers
    ensures value { result ≡ answers_of bundle.now (length table.old) word.now }
    ensures table_after { table.new ≡ table_after bundle.now table.old }
{
    let verdict = judging::judge(bundle, table);
    let screened = screening::screen(bundle, word);
    Answers {
        size: bundle.len(),
        verdict,
        screened,
    }
}

// Opens a file into the output, judges its bundle with the table, and screens the word with it.
#[tactic(auto, using(crate::specs::Files::opening_told))]
pub fn run(file: &[u8], output: &mut [u8], table: &mut [u16], word: &[u8]) -> Ran
    ensures value { result ≡ ran (fitted (opened file.now) (length output.old)) (length table.old) word.now }
    ensures output_after { output.new ≡ written (opened file.now) output.old }
    ensures table_after { table.new ≡ table_ran (fitted (opened file.now) (length output.old)) table.old }
{
    let size = block::open(file, output)?;
    Ok(judge_and_screen(&output[..size], table, word))
}

// The same for two files, each with an output of its own, and one table, which is left as the last judging left it. The parameters are those of the
// calls that demand 3 speaks of.
// The last line is demand 3, about these answers and the bundles in front of the outputs.
pub fn run_both(
    file1: &[u8],
    file2: &[u8],
    output1: &mut [u8],
    output2: &mut [u8],
    table: &mut [u16],
    word: &[u8],
) -> Both
    ensures first_value { result.first ≡ ran (fitted (opened file1.now) (length output1.old)) (length table.old) word.now }
    ensures second_value { result.second ≡ ran (fitted (opened file2.now) (length output2.old)) (length table.old) word.now }
    ensures output1_after { output1.new ≡ written (opened file1.now) output1.old }
    ensures output2_after { output2.new ≡ written (opened file2.now) output2.old }
    ensures table_after { table.new ≡ table_ran (fitted (opened file2.now) (length output2.old)) (table_ran (fitted (opened file1.now) (length output1.old)) table.old) }
    ensures answers_compared { AnswersCompared result output1.new output2.new word.now }
{
    let first = run(file1, output1, table, word);
    let second = run(file2, output2, table, word);
    Both { first, second }
}
