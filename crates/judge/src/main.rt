// Judges the sealed file that standard input has, and prints one line: `accepted` and four counts, or `refused`, number and spot.
#![tactic(auto)]

ghost use Rattle.std.specs.Prelude.{◌≡◌, List, ℕ, IfSome, OnOk, Err};
ghost use Rattle.std.specs.Io.KnownBytes.{Appends};
ghost use Rattle.judge.specs.declared.Unanswered.TheVariants.{Unread};
ghost use Rattle.judge.specs.Files.{Came, input_verdict};
ghost use Rattle.judge.specs.Lines.{verdict_line, input_line, unread_line};

use limits::{MAX_BUNDLE_SIZE, MAX_FILE_SIZE};
use lines::{LINE_SIZE, Line};
use logs::TABLE;
use refusals::Cause;
use std::io::{self, Read, Write};
use verdicts::Verdict;

// The line of a verdict.
#[tactic(auto, unfolding(crate::specs::Lines::verdict_line))]
fn verdict_line(verdict: Verdict) -> Line<LINE_SIZE>
    ensures { result ≡ verdict_line verdict }
{
    match verdict {
        Ok(counts) => Line::new(
            b"accepted",
            &[
                counts.rows,
                counts.allowed,
                counts.by_place,
                counts.by_weights,
            ],
        ),
        Err(refusal) => refusal.into(),
    }
}

// The verdict on a sealed file, of which this came to a buffer. The buffer is longer than every file, so the verdict is that on the whole input,
// however long it is.
fn judge_file(came: &[u8]) -> Verdict
    ensures { (input : List ℕ) → Came input came.now → result ≡ input_verdict input }
{
    let mut bundle = [0u8; MAX_BUNDLE_SIZE];
    let mut table = [0u16; TABLE];
    judging::files::judge_file(came, &mut bundle, &mut table)
}

// Writes the line of an input that could not be read, that of one of a wrong length.
fn print_unread<E: Eprint + AllocGlobal, W: Write>(rt: &E, output: &mut W) -> io::Result<()>
    ensures { OnOk result (Appends (W.contents output.old) (W.contents output.new) unread_line) }
{
    let line = Line::<LINE_SIZE>::from(Cause::FileLength.at(0));
    console::print(rt, output, line.as_bytes())
}

// Why an input was not answered. What failed was said on standard error. No `From` of `io::Error`: that of a read and that of a write mean different
// answers.
#[derive(Clone, Copy)]
enum Unanswered {
    // It could not be read, and the line of such an input was written.
    Unread,
    // A line could not be written whole.
    Unwritten,
}

// Judges the sealed file that an input has, and writes the line that the program owes it. Says on standard error what could not be read or written.
fn answer<E: Eprint + AllocGlobal, R: Read, W: Write>(
    rt: &E,
    input: &mut R,
    output: &mut W,
) -> Result<(), Unanswered>
    ensures answered { OnOk result (IfSome (R.remaining input.old) (λ file. Appends (W.contents output.old) (W.contents output.new) (input_line file))) }
    ensures unread { result ≡ Err Unread → Appends (W.contents output.old) (W.contents output.new) unread_line }
{
    // A byte more than the longest file, so that a longer one is seen.
    let mut file = [0u8; MAX_FILE_SIZE + 1];
    match console::read_input(input, &mut file) {
        Ok(n) => {
            let line = verdict_line(judge_file(&file[..n]));
            console::print(rt, output, line.as_bytes()).map_err(|_| Unanswered::Unwritten)
        }
        Err(error) => {
            console::complain(rt, "standard input", &error);
            print_unread(rt, output).map_err(|_| Unanswered::Unwritten)?;
            Err(Unanswered::Unread)
        }
    }
}

fn main(rt: HostRuntime) {
    if console::has_arguments(&rt, &mut rt.stderr(), b"usage: judge < FILE\n") {
        return;
    }
    // What went wrong has been said, and the status says nothing of it.
    let _ = answer(&rt, &mut rt.stdin(), &mut rt.stdout());
}
