// The carried engine: a net played event by event, where the caller keeps the tokens of its places. The contracts cite specs/Engine.antt.
#![tactic(auto)]

pub mod playing; // one event, over a head that was read
pub mod replaying; // the events of a run, on another net

ghost use Rattle.std.specs.Prelude.{◌≡◌, ◌≤◌, length};
ghost use Rattle.refusals.specs.Answers.{output_of};
ghost use Rattle.engine.specs.Engine.{starting, started, stepping, stepped, tokens_stepped, kept_stepped, replacing, replaced};
ghost use Rattle.engine.specs.EngineLaws.{room_answer, tokens_answer};

use bundles::net::Net;
use bundles::read_head;
use limits::{MAX_TOKENS, MAX_WORD_EVENTS};
use playing::{play, write_initial};
use refusals::{Cause, Refusal};
use replaying::replay;
use stops::Stop;

// What a step does: it is permitted, and there are so many events with it; or a place refuses it.
#[derive(Clone, Copy)]
pub enum Outcome {
    Moved(usize),
    Stopped(Stop),
}

// The answer of a step.
pub type Stepped = Result<Outcome, Refusal>;

// Refuses with 5 where there are fewer numbers than places.
fn test_room(net: &Net, tokens: &[u64]) -> Result<(), Refusal>
    ensures { result ≡ room_answer net.now.count tokens.now }
{
    if tokens.len() < net.count {
        return Err(Cause::NumbersShort.at(net.count));
    }
    Ok(())
}

// Refuses with 16 where a place has more tokens than a run reaches.
fn test_tokens(net: &Net, tokens: &[u64]) -> Result<(), Refusal>
    requires { net.now.count ≤ length tokens.now }
    ensures { result ≡ tokens_answer net.now.count tokens.now }
{
    match tokens[..net.count]
        .iter()
        .position(|held| MAX_TOKENS < *held)
    {
        Some(place) => Err(Cause::StateRange.at(place)),
        None => Ok(()),
    }
}

// Starts a run: writes the initial tokens of the places of a bundle, which need not be accepted, to the front of the numbers, and hands back 0,
// the number of events so far. Refuses with 4, then in the bundle's order with 6, 7 and 8, then with 5; the numbers are then as they were.
pub fn start(bundle: &[u8], tokens: &mut [u64]) -> Result<usize, Refusal>
    ensures value { result ≡ started (starting bundle.now tokens.old) }
    ensures tokens_after { tokens.new ≡ output_of (starting bundle.now tokens.old) tokens.old }
{
    let net = read_head(bundle)?;
    test_room(&net, tokens)?;
    write_initial(&net, tokens);
    Ok(0)
}

// One event of a run, which had so many before it: moves the tokens of the places and keeps the event behind those so far, or stops at the lowest
// place that refuses it and writes nothing. Refuses with 14, then with the bundle's 4, 6, 7 and 8, then with 5, 16, 15 and 3; all that is lent is
// then as it was.
pub fn step(
    bundle: &[u8],
    tokens: &mut [u64],
    kept: &mut [u8],
    number: usize,
    event: usize,
) -> Stepped
    ensures value { result ≡ stepped number (stepping bundle.now tokens.old kept.old number event) }
    ensures tokens_after { tokens.new ≡ tokens_stepped (stepping bundle.now tokens.old kept.old number event) tokens.old }
    ensures kept_after { kept.new ≡ kept_stepped (stepping bundle.now tokens.old kept.old number event) kept.old number event }
{
    if MAX_WORD_EVENTS <= number {
        return Err(Cause::WordLength.at(MAX_WORD_EVENTS));
    }
    let net = read_head(bundle)?;
    test_room(&net, tokens)?;
    test_tokens(&net, tokens)?;
    if usize::from(net.n) <= event {
        return Err(Cause::WordEvent.at(number));
    }
    if kept.len() <= number {
        return Err(Cause::OutputShort.at(number + 1));
    }
    if let Some(lack) = play(&net, tokens, event) {
        return Ok(Outcome::Stopped(Stop {
            position: number,
            place: lack.place,
            shortfall: lack.shortfall,
        }));
    }
    kept[number] = event as u8;
    Ok(Outcome::Moved(number + 1))
}

// Puts a net in the place of another, behind so many events of a run: writes its tokens behind these events to the front of the numbers. Refuses with
// 14, then with 3, then with the old bundle's 4, 6, 7 and 8, then with the new one's, then with 22, 5, 15 and 23; the numbers are then as they were.
pub fn replace(
    old: &[u8],
    new: &[u8],
    tokens: &mut [u64],
    kept: &[u8],
    number: usize,
) -> Result<(), Refusal>
    ensures value { result ≡ replaced (replacing old.now new.now tokens.old kept.now number) }
    ensures tokens_after { tokens.new ≡ output_of (replacing old.now new.now tokens.old kept.now number) tokens.old }
{
    if MAX_WORD_EVENTS < number {
        return Err(Cause::WordLength.at(MAX_WORD_EVENTS));
    }
    if kept.len() < number {
        return Err(Cause::OutputShort.at(number));
    }
    let one = read_head(old)?;
    let two = read_head(new)?;
    if one.n != two.n {
        return Err(Cause::ReplacedEvents.at(0));
    }
    test_room(&two, tokens)?;
    replay(&two, tokens, &kept[..number])
}
