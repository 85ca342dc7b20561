// The events of a run on another net. The contracts cite specs/Replaying.antt. All are inner functions.
ghost use Rattle.std.specs.Prelude.{◌≡◌, ◌≤◌, length, take};
ghost use Rattle.laws.specs.Parts.{front};
ghost use Rattle.limits.specs.Limits.{max_events, max_word_events};
ghost use Rattle.nets.specs.Nets.{counts as counted};
ghost use Rattle.nets.specs.Fits.{Below};
ghost use Rattle.bundles.specs.NetReading.{NetOf};
ghost use Rattle.refusals.specs.Answers.{output_of};
ghost use Rattle.engine.specs.Engine.{replaced};
ghost use Rattle.engine.specs.Playing.{places_of};
ghost use Rattle.engine.specs.Replaying.{tokens_by, NoneNegative, marking_of};

use bundles::net::Net;
use limits::MAX_EVENTS;
use parts::search_places;
use refusals::{Cause, Refusal};
use screening::test_events;
use stops::Search;

// How often each event occurs in a word.
fn count_events(word: &[u8], n: u8) -> [u16; MAX_EVENTS]
    requires few { (n ≤ max_events) × (length word.now ≤ max_word_events) }
    requires below { Below n word.now }
    ensures { take n result ≡ counted n word.now }
{
    let mut counts = [0u16; MAX_EVENTS];
    for event in word {
        counts[usize::from(*event)] += 1;
    }
    counts
}

// Writes the tokens of the places behind so many occurrences of each event, which are none below zero.
fn write_marking(net: &Net, tokens: &mut [u64], counts: &[u16])
    requires room { net.now.count ≤ length tokens.old }
    requires all { length counts.now ≡ net.now.n }
    requires none { NoneNegative net.now counts.now }
    ensures { tokens.new ≡ front (tokens_by net.now counts.now) tokens.old }
{
    for (j, held) in tokens[..net.count].iter_mut().enumerate() {
        *held = net.place(j).tokens(counts) as u64;
    }
}

// Writes the tokens behind the events of a word, unless one of them is not there or a place refuses it.
pub fn replay(net: &Net, tokens: &mut [u64], word: &[u8]) -> Result<(), Refusal>
    requires found { NetOf net.now.bundle.now net.now }
    requires room { net.now.count ≤ length tokens.old }
    requires few { length word.now ≤ max_word_events }
    ensures value { result ≡ replaced (marking_of net.now word.now) }
    ensures tokens_after { tokens.new ≡ output_of (marking_of net.now word.now) tokens.old }
{
    test_events(word, net.n)?;
    let search = Search {
        net: *net,
        before: 0,
        word,
    };
    if let Some(stop) = search_places(&search, None) {
        return Err(Cause::RunStopped.at(stop.position));
    }
    let counts = count_events(word, net.n);
    write_marking(net, tokens, &counts[..usize::from(net.n)]);
    Ok(())
}
