// The first step of a word that the places of a net refuse. The contracts cite specs/Positions.antt, what the best stop is, specs/Replay.antt, one
// place, and specs/Onward.antt, the search from place to place. All are inner functions.
#![tactic(auto)]

ghost use Rattle.std.specs.Prelude.{◌≡◌, ◌-◌, ◌*◌, ◌/◌, ◌≤◌, ◌<◌, None, ℕ, ℤ, length};
ghost use Rattle.limits.specs.Limits.{max_events, max_places};
ghost use Rattle.places.specs.Machine.{place_of, Held};
ghost use Rattle.bundles.specs.HeadReading.{HeadAt, HeadAt-prop};
ghost use Rattle.bundles.specs.Keeping.{kept};
ghost use Rattle.stops.specs.Positions.{stop_in};
ghost use Rattle.stops.specs.Replay.{replay, stepped, stop_of, Start};
ghost use Rattle.stops.specs.Searching.{WordOver, WordOver-prop, first_of};

use bundles::net::Net;
use places::{Place, covers, shortfall, surplus};
use std::ops::Range;

// The first refused step: its position, the lowest place that refuses it, and how many tokens that place lacks there, at least 1.
#[derive(Clone, Copy)]
pub struct Stop {
    pub position: usize,
    pub place: usize,
    pub shortfall: u64,
}

// A word over the events of a bundle's net, whose places are numbered behind `before` others. `Late` is a clause, since it is about a stop.
#[derive(Clone, Copy)]
pub struct Search<'a> {
    pub net: Net<'a>,
    pub before: usize,
    pub word: &'a [u8],
    pub ghost found: { HeadAt (kept net) } by { HeadAt-prop (kept net) },
    pub ghost over: { WordOver net.n word.now } by { WordOver-prop net.n word.now },
    pub ghost few: { before ≤ max_places },
}

// The tokens of a place behind an event, or how many are missing for it. `covers` tests the shortfall of the same difference: a test of the shortfall
// in its place compiles to a subtraction and a test more at each step.
#[inline(always)]
fn step(place: &Place, tokens: i64, event: u8) -> Result<i64, u64>
    requires { Held tokens × (event < max_events) }
    ensures { result ≡ stepped (place_of place.now) tokens event }
{
    let event = usize::from(event);
    let consumed = place.consumed[event];
    let left = surplus(tokens, consumed);
    if !covers(tokens, consumed) {
        return Err(shortfall(left));
    }
    Ok(left + i64::from(place.produced[event]))
}

// The first step of a word that a place refuses, with so many tokens at first. The place is named 0, as in the definition: its number is the caller's
// to give.
pub fn stop_from(place: Place, start: i64, word: &[u8]) -> Option<Stop>
    requires { Start start word.now }
    ensures { result ≡ stop_in word.now (replay (place_of place) start word.now) }
{
    let mut tokens = start;
    for (position, event) in word.iter().enumerate() {
        match step(&place, tokens, *event) {
            Ok(behind) => tokens = behind,
            Err(shortfall) => {
                return Some(Stop {
                    position,
                    place: 0,
                    shortfall,
                })
            }
        }
    }
    None
}

// The first step that one of two places refuses, and which of them: 0 for the first one, which goes first. `stop_from` on each would say the same:
// two at once are faster, since each step of one place waits for the step before.
fn stop_of_two(one: Place, two: Place, word: &[u8]) -> Option<Stop>
    requires { WordOver max_events word.now }
    ensures { result ≡ stop_in word.now (first_of (stop_of (place_of one) word.now) (stop_of (place_of two) word.now)) }
{
    let mut first = i64::from(one.initial);
    let mut second = i64::from(two.initial);
    for (position, event) in word.iter().enumerate() {
        match step(&one, first, *event) {
            Ok(behind) => first = behind,
            Err(shortfall) => {
                return Some(Stop {
                    position,
                    place: 0,
                    shortfall,
                })
            }
        }
        match step(&two, second, *event) {
            Ok(behind) => second = behind,
            Err(shortfall) => {
                return Some(Stop {
                    position,
                    place: 1,
                    shortfall,
                })
            }
        }
    }
    None
}

impl<'a> Search<'a> {
    ghost use Rattle.stops.specs.Onward.{end_of, Late, Onward, PermitsAll, ReachedAt, Searched, FrontOf, place_of as place_in};

    // The same search in the first events of the word.
    #[inline(always)]
    pub fn front(&self, end: usize) -> Search<'a>
        requires { end ≤ length self.now.word.now }
        ensures { FrontOf self.now end result }
    {
        Search {
            net: self.net,
            before: self.before,
            word: &self.word[..end],
        }
    }

    // The position of a stop; the word's length where there is none.
    #[inline(always)]
    pub fn end(&self, stop: Option<Stop>) -> usize
        ensures { result ≡ end_of self.now stop }
    {
        stop.map_or(self.word.len(), |stop| stop.position)
    }

    // The first refused step with some places more, where `from` is that of those before them. Each is followed up to the best position so far, from
    // the tokens that it has behind the first `done` steps: `tokens` gives them, by the place's number and its initial tokens.
    pub fn search_from<F: Fn(usize, u16) -> i64>(
        &self,
        places: Range<usize>,
        done: usize,
        from: Option<Stop>,
        tokens: F,
    ) -> Option<Stop>
        requires late { Late self.now done from }
        requires in_bounds { (places.start ≤ places.end) × (places.end ≤ self.now.net.count) }
        requires callable { (j : ℕ) → places.start ≤ j → j < places.end → F.pre tokens j (place_in self.now j).initial }
        requires reached { (j : ℕ) → places.start ≤ j → j < places.end → (t : ℤ)
            → F.post tokens j (place_in self.now j).initial t → ReachedAt self.now j t done }
        ensures late { Late self.now done result }
        ensures onward { Onward self.now places.start (places.end - places.start) from result }
        ensures permits { result ≡ None → (j : ℕ) → places.start ≤ j → j < places.end → PermitsAll self.now j }
    {
        let mut best = from;
        for j in places {
            let place = self.net.place(j);
            let start = tokens(j, place.initial);
            if let Some(stop) = stop_from(place, start, &self.word[done..self.end(best)]) {
                best = Some(Stop {
                    position: done + stop.position,
                    place: self.before + j,
                    shortfall: stop.shortfall,
                });
            }
        }
        best
    }

    // The same with the places of the net but for an odd last one, pair by pair from their initial tokens. By the number of a pair, which leaves an
    // odd last place out and names both places of the pair.
    fn search_pairs(&self, from: Option<Stop>) -> Option<Stop>
        requires { Late self.now 0 from }
        ensures late { Late self.now 0 result }
        ensures onward { Onward self.now 0 (2 * (self.now.net.count / 2)) from result }
    {
        let mut best = from;
        for pair in 0..self.net.count / 2 {
            let one = self.net.place(2 * pair);
            let two = self.net.place(2 * pair + 1);
            if let Some(stop) = stop_of_two(one, two, &self.word[..self.end(best)]) {
                best = Some(Stop {
                    place: self.before + 2 * pair + stop.place,
                    ..stop
                });
            }
        }
        best
    }

    // The first refused step with the places of the net, which follow those whose first refused step is `from`: pair by pair, and an odd last one.
    pub fn search_short(&self, from: Option<Stop>) -> Option<Stop>
        requires { Late self.now 0 from }
        ensures { Searched self.now from result }
    {
        let found = self.search_pairs(from);
        let paired = 2 * (self.net.count / 2);
        self.search_from(
            paired..self.net.count,
            0,
            found,
            |_, initial| i64::from(initial),
        )
    }
}
