// Screening a word: the first step that a bundle's net refuses, or two nets joined. The contracts cite specs/Screening.antt.
#![tactic(auto)]

ghost use Rattle.std.specs.Prelude.{◌≡◌};
ghost use Rattle.screening.specs.Screening.{screened, screened_joined};
ghost use Rattle.screening.specs.ScreenLaws.{length_test, events_test};

use bundles::read_head;
use limits::MAX_WORD_EVENTS;
use parts::search_places;
use places::first_bad;
use refusals::{Cause, Refusal};
use stops::{Search, Stop};

// The answer of screening.
pub type Screened = Result<Option<Stop>, Refusal>;

// Refuses a word that is too long with 14.
fn test_length(word: &[u8]) -> Result<(), Refusal>
    ensures { result ≡ length_test word.now }
{
    if MAX_WORD_EVENTS < word.len() {
        return Err(Cause::WordLength.at(MAX_WORD_EVENTS));
    }
    Ok(())
}

// Refuses an event of a word that is not below n with 15: the whole word is tested before any step is replayed. (Inner function.)
pub fn test_events(word: &[u8], n: u8) -> Result<(), Refusal>
    ensures { result ≡ events_test word.now n }
{
    match first_bad(word, usize::from(n)) {
        Some(bad) => Err(Cause::WordEvent.at(bad)),
        None => Ok(()),
    }
}

// Screens a word with a bundle, which is read up to its last place and need not be accepted.
// Refuses with 14, 4, then in the bundle's order with 6, 7 and 8, then with 15.
pub fn screen(bundle: &[u8], word: &[u8]) -> Screened
    ensures { result ≡ screened bundle.now word.now }
{
    test_length(word)?;
    let net = read_head(bundle)?;
    test_events(word, net.n)?;
    let places = Search {
        net,
        before: 0,
        word,
    };
    Ok(search_places(&places, None))
}

// Screens a word with the places of two bundles over the same events, those of the first one first; the places of the second are numbered behind
// them. Refuses with 14, then with the first bundle's 4, 6, 7 and 8, the second's, then with 19, then with 15. `screen` is a call of its own in C,
// with the same steps.
pub fn screen_joined(first: &[u8], second: &[u8], word: &[u8]) -> Screened
    ensures { result ≡ screened_joined first.now second.now word.now }
{
    test_length(word)?;
    let one = read_head(first)?;
    let two = read_head(second)?;
    if one.n != two.n {
        return Err(Cause::EventCounts.at(0));
    }
    test_events(word, one.n)?;
    let places = Search {
        net: one,
        before: 0,
        word,
    };
    let more = Search {
        net: two,
        before: one.count,
        word,
    };
    let from = search_places(&places, None);
    Ok(search_places(&more, from))
}
