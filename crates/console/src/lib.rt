// Reading an input whole, writing bytes, and saying what went wrong. All are inner functions. Their contracts speak of every reader and writer whose
// bytes are known; which bytes standard input and output hold, no contract can say.
#![tactic(auto)]

ghost use Rattle.std.specs.Prelude.{◌≡◌, length, OnOk};
ghost use Rattle.std.specs.Bool.{OnFalse};
ghost use Rattle.std.specs.Io.KnownBytes.{Appends};
ghost use Rattle.console.specs.Inputs.{Within, Whole};

use std::env::FillError;
use std::io::{self, Read, Write};
use std::rt::Env;

// Reads until the buffer is full or the input ends: how many bytes came. A failed read is never taken for the end of the input.
#[tactic(auto, using(crate::proofs::Reading::read_more))]
pub fn read_input<R: Read>(reader: &mut R, buffer: &mut [u8]) -> io::Result<usize>
    ensures within { Within result (length buffer.new) }
    ensures bytes { Whole (R.remaining reader.old) (R.remaining reader.new) result buffer.new }
{
    let mut done = 0;
    // It grows by what a read gave, so no iterator counts it.
    while done < buffer.len() {
        let more = reader.read(&mut buffer[done..])?;
        if more == 0 {
            break;
        }
        done += more;
    }
    Ok(done)
}

// Whether a program that takes no arguments was given one. Then its usage goes to standard error.
pub fn has_arguments<R: Env, E: Write>(rt: &R, errors: &mut E, usage: &[u8]) -> bool
    ensures { OnFalse result (errors.new ≡ errors.old) }
{
    if let Err(FillError::NotPresent) = rt.arg(1, &mut [0; 1]) {
        return false;
    }
    let _ = errors.write_all(usage);
    true
}

// Says on standard error what failed and why, in the system's words. An error is words only once it is printed, hence the heap, here alone.
pub fn complain<R: Eprint + AllocGlobal>(rt: &R, what: &str, error: &io::Error) {
    let _ = match format!(in rt.alloc(); "{error}") {
        Ok(text) => rt.eprintln(format_args!("{what}: {}", reason(text.as_str()))),
        Err(_) => rt.eprintln(format_args!("{what}: {error}")),
    };
}

// The words of an error of the system, whose number stands behind them in brackets.
fn reason(text: &str) -> &str {
    text.split_once(" (os error ")
        .map_or(text, |(words, _)| words)
}

// Writes bytes to standard output. Where it does not take all of them, says so on standard error too.
pub fn print<R: Eprint + AllocGlobal, W: Write>(
    rt: &R,
    output: &mut W,
    bytes: &[u8],
) -> io::Result<()>
    ensures { OnOk result (Appends (W.contents output.old) (W.contents output.new) bytes.now) }
{
    output
        .write_all(bytes)
        .inspect_err(|error| complain(rt, "standard output", error))
}
