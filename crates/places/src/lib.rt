// Places of a net: what a place permits after given counts of events. The events of a word, and the masks of a log table.
// The definitions are in `nets`, over numbers of any size.
#![tactic(auto)]

ghost use Rattle.std.specs.Prelude.{◌≡◌, ◌≤◌, ◌<◌, ltb, pos, ◌-ℤ◌, ◌*ℤ◌, length};
ghost use Rattle.std.specs.Int.Signed.{non_neg};
ghost use Rattle.laws.specs.Bits.{bit, with_bit};
ghost use Rattle.laws.specs.Differences.{negative_part};
ghost use Rattle.laws.specs.Lists.{all};
ghost use Rattle.limits.specs.Limits.{max_events};
ghost use Rattle.nets.specs.Nets.{place_permits, tokens as tokens_after};
ghost use Rattle.places.specs.Machine.{place_of, blank_place, Held};
ghost use Rattle.places.specs.Words.{bad_event};

use limits::MAX_EVENTS;

// A place: its initial tokens m, and for each event the tokens in(i) that it puts there and out(i) that it takes.
#[derive(Clone, Copy)]
pub struct Place {
    pub initial: u16,
    pub produced: [u16; MAX_EVENTS],
    pub consumed: [u16; MAX_EVENTS],
}

impl Place {
    // A place that holds no token, and gets and loses none. (Inner function.)
    #[inline(always)]
    pub fn blank() -> Self
        ensures { result ≡ blank_place }
    {
        Place {
            initial: 0,
            produced: [0; MAX_EVENTS],
            consumed: [0; MAX_EVENTS],
        }
    }

    // Whether it permits an event after the events of `counts`: whether its surplus there is 0 or more. (Inner function.)
    pub fn permits(self, counts: &[u16], event: usize) -> bool
        requires { (length counts.now ≤ max_events) × (event < max_events) }
        ensures { result ≡ place_permits (length counts.now) (place_of self) (record { row = counts.now; event = event }) }
    {
        covers(self.tokens(counts), self.consumed[event])
    }

    // The tokens in the place after the events of `counts`: negative where it could not permit them all. (Inner function.)
    pub fn tokens(self, counts: &[u16]) -> i64
        requires { length counts.now ≤ max_events }
        ensures value { result ≡ tokens_after (length counts.now) (place_of self) counts.now }
        ensures held { Held result }
    {
        let mut total = i64::from(self.initial);
        for ((count, produced), consumed) in counts.iter().zip(&self.produced).zip(&self.consumed) {
            total += gain(*count, *produced, *consumed);
        }
        total
    }
}

// The tokens that `count` occurrences of an event put into a place, less those that they take. (Inner function.)
pub fn gain(count: u16, produced: u16, consumed: u16) -> i64
    ensures { result ≡ pos count *ℤ (pos produced -ℤ pos consumed) }
{
    i64::from(count) * (i64::from(produced) - i64::from(consumed))
}

// The surplus of a place: its tokens, less what an event takes. (Inner function.)
// `Held` is a clause and no type: callers add to tokens in arrays, several places at a time, where the numbers in between are plain `i64`s.
pub fn surplus(tokens: i64, consumed: u16) -> i64
    requires { Held tokens }
    ensures { result ≡ tokens -ℤ pos consumed }
{
    tokens - i64::from(consumed)
}

// The shortfall: how many tokens are missing, 0 where the surplus is 0 or more. This is the one test of a place. (Inner function.)
pub fn shortfall(surplus: i64) -> u64
    ensures { result ≡ negative_part surplus }
{
    if 0 <= surplus {
        return 0;
    }
    surplus.unsigned_abs()
}

// Whether a place permits an event that takes so many of its tokens: whether none is missing. (Inner function.)
pub fn covers(tokens: i64, consumed: u16) -> bool
    requires { Held tokens }
    ensures { result ≡ non_neg (tokens -ℤ pos consumed) }
{
    shortfall(surplus(tokens, consumed)) == 0
}

// Whether every event of a word is below n. No event ends the fold, so that the compiler takes several at a time.
fn all_below(word: &[u8], n: u8) -> bool
    ensures { result ≡ all (λ e. ltb e n) word.now }
{
    word.iter().fold(true, |fit, event| fit & (*event < n))
}

// A word with fewer events is searched event by event: that takes less time than a test of all.
const SHORT: usize = 16;

// The position of the first event that is not below n. Mostly there is none, which is faster to find out.
fn search_bad(word: &[u8], n: u8) -> Option<usize>
    ensures { result ≡ bad_event n word.now }
{
    if SHORT <= word.len() && all_below(word, n) {
        return None;
    }
    word.iter().position(|event| n <= *event)
}

// The same for every n: above 255 no event is bad. A `usize`, since C hands over that of a log's summary. (Inner function.)
pub fn first_bad(word: &[u8], n: usize) -> Option<usize>
    ensures { result ≡ bad_event n word.now }
{
    let Ok(n) = u8::try_from(n) else {
        return None;
    };
    search_bad(word, n)
}

// The mask with bit `event` set. (Inner function.)
pub fn with_bit(mask: u16, event: usize) -> u16
    requires { event < 16 }
    ensures { result ≡ with_bit mask event }
{
    mask | (1 << event)
}

// Whether bit `event` of the mask is set. (Inner function.)
pub fn has_bit(mask: u16, event: usize) -> bool
    requires { event < 16 }
    ensures { result ≡ bit mask event }
{
    (mask >> event) & 1 != 0
}
