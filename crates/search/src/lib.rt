// A shortest word that leads to a wanted event. The contracts cite specs/Searching.antt.
#![tactic(auto)]

ghost use Rattle.std.specs.Prelude.{◌≡◌, ◌<◌, None};
ghost use Rattle.bundles.specs.NetReading.{NetOf};
ghost use Rattle.nets.specs.Carrying.{initials, play};
ghost use Rattle.engine.specs.Playing.{places_of};
ghost use Rattle.incidence.specs.Incidence.{moves};
ghost use Rattle.search.specs.SearchLaws.{first_sized};
ghost use Rattle.search.specs.Searching.{first_leading, reaching, size_of, word_left, sized, word_written, reached_of};

use bundles::net::Net;
use bundles::read_head;
use engine::playing::write_initial;
use incidence::Incidence;
use limits::{MAX_EVENTS, MAX_PLACES, MAX_REACH_EVENTS};
use places::covers;
use refusals::{Cause, Refusal};

// The answer: how many events the word has, none where no word leads there; and the word, in front of zeros. Two fields, since the word is an array.
#[derive(Clone, Copy)]
pub struct Reached {
    pub length: Option<usize>,
    pub word: [u8; MAX_REACH_EVENTS],
}

// Whether the wanted event is permitted at first: on the places as they stand in the bundle, of which it needs two numbers each.
#[inline(never)]
fn starts(net: &Net, wanted: usize) -> bool
    requires { wanted < net.now.n }
    ensures { result ≡ moves (play (places_of net.now) (initials (places_of net.now)) wanted) }
{
    for j in 0..net.count {
        if !covers(i64::from(net.initial(j)), net.consumed(j, wanted)) {
            return false;
        }
    }
    true
}

// Searches the words of one event and more, where the empty one does not lead there. How many events the first one has; it is written to the front of
// `word`, which stays where there is none.
#[inline(never)]
fn search_longer(net: &Net, wanted: usize, word: &mut [u8; MAX_REACH_EVENTS]) -> Option<usize>
    requires { (wanted < net.now.n) × (first_sized net.now.n (places_of net.now) wanted 0 ≡ None) }
    ensures value { result ≡ size_of (first_leading net.now.n (places_of net.now) wanted) }
    ensures word_after { word.new ≡ word_left (first_leading net.now.n (places_of net.now) wanted) word.old }
{
    let mut tokens = [0u64; MAX_PLACES];
    write_initial(net, &mut tokens);
    let incidence = Incidence::read(net);
    let mut refusing = [0; MAX_EVENTS];
    let mut tried = [0u8; MAX_REACH_EVENTS];
    for length in 1..=MAX_REACH_EVENTS {
        if incidence.find_word(&tokens, &mut tried[..length], wanted, &mut refusing) {
            word[..length].copy_from_slice(&tried[..length]);
            return Some(length);
        }
    }
    None
}

// Searches the empty word, then those of one event and more, on the net of a bundle that was read.
fn search(net: &Net, wanted: usize, word: &mut [u8; MAX_REACH_EVENTS]) -> Option<usize>
    requires { wanted < net.now.n }
    ensures value { result ≡ size_of (first_leading net.now.n (places_of net.now) wanted) }
    ensures word_after { word.new ≡ word_left (first_leading net.now.n (places_of net.now) wanted) word.old }
{
    if starts(net, wanted) {
        return Some(0);
    }
    search_longer(net, wanted, word)
}

// A shortest word of at most five events that the net of a bundle, which need not be accepted, permits, and after which it permits the wanted
// event; of those the first by event numbers. Writes it to the front of `word`, and hands back how many events it has. Refuses with 4, then in the
// bundle's order with 6, 7 and 8, then with 15. With a refusal, and where there is no such word, `word` is as it was. (Inner function.)
pub fn reach_into(
    bundle: &[u8],
    wanted: usize,
    word: &mut [u8; MAX_REACH_EVENTS],
) -> Result<Option<usize>, Refusal>
    ensures value { result ≡ sized (reaching bundle.now wanted) }
    ensures word_after { word.new ≡ word_written (reaching bundle.now wanted) word.old }
{
    let net = read_head(bundle)?;
    if usize::from(net.n) <= wanted {
        return Err(Cause::WordEvent.at(0));
    }
    Ok(search(&net, wanted, word))
}

// The same as a struct.
pub fn reach(bundle: &[u8], wanted: usize) -> Result<Reached, Refusal>
    ensures { result ≡ reached_of (reaching bundle.now wanted) }
{
    let mut word = [0u8; MAX_REACH_EVENTS];
    let length = reach_into(bundle, wanted, &mut word)?;
    Ok(Reached { length, word })
}
