// The carried engine.
ghost use Rattle.std.specs.Prelude.{◌≡◌};
ghost use Rattle.refusals.specs.Answers.{number_of, output_of};
ghost use Rattle.engine.specs.Engine.{starting, started, stepping, stepped, tokens_stepped, kept_stepped, replacing, replaced};
ghost use Rattle.numbers.specs.Numbers.{with_value, stepped_number, with_stepped, done_number, with_done};

use numbers::handed;

// Starts a run on the net of a bundle: its initial tokens, in front of the numbers. answer[0]: the events so far, 0.
#[unsafe(no_mangle)]
pub extern "C" fn hov_start(bundle: &[u8], tokens: &mut [u64], answer: &mut [u64; 4]) -> u32
    ensures value { result ≡ number_of (started (starting bundle.now tokens.old)) }
    ensures tokens_after { tokens.new ≡ output_of (starting bundle.now tokens.old) tokens.old }
    ensures answer_after { answer.new ≡ with_value answer.old (started (starting bundle.now tokens.old)) }
{
    handed(engine::start(bundle, tokens), answer)
}

// One event of a run that had so many before it, which are kept in the buffer; it keeps this one behind them. answer[0]: the events so far, this one
// included. Returns 256 where the event is stopped, which moves no token and keeps nothing: answer[0] to [2] are then as from `hov_screen`.
#[unsafe(no_mangle)]
pub extern "C" fn hov_step(
    bundle: &[u8],
    tokens: &mut [u64],
    kept: &mut [u8],
    number: usize,
    event: usize,
    answer: &mut [u64; 4],
) -> u32
    ensures value { result ≡ stepped_number (stepped number (stepping bundle.now tokens.old kept.old number event)) }
    ensures tokens_after { tokens.new ≡ tokens_stepped (stepping bundle.now tokens.old kept.old number event) tokens.old }
    ensures kept_after { kept.new ≡ kept_stepped (stepping bundle.now tokens.old kept.old number event) kept.old number event }
    ensures answer_after { answer.new ≡ with_stepped answer.old (stepped number (stepping bundle.now tokens.old kept.old number event)) }
{
    handed(engine::step(bundle, tokens, kept, number, event), answer)
}

// Puts a new net in place of an old one during a run whose events are kept in the buffer: the tokens behind them, in front of the numbers.
// `answer` stays where that is done.
#[unsafe(no_mangle)]
pub extern "C" fn hov_replace(
    old: &[u8],
    new: &[u8],
    tokens: &mut [u64],
    kept: &[u8],
    number: usize,
    answer: &mut [u64; 4],
) -> u32
    ensures value { result ≡ done_number (replaced (replacing old.now new.now tokens.old kept.now number)) }
    ensures tokens_after { tokens.new ≡ output_of (replacing old.now new.now tokens.old kept.now number) tokens.old }
    ensures answer_after { answer.new ≡ with_done answer.old (replaced (replacing old.now new.now tokens.old kept.now number)) }
{
    handed(engine::replace(old, new, tokens, kept, number), answer)
}
