// The numbers of a net by event and place, and the search on them. The contracts cite specs/Incidence.antt. All are inner functions.
#![tactic(auto)]

ghost use Rattle.std.specs.Prelude.{◌≡◌, true, false, ℕ, ◌≤◌, ◌<◌, get_or, length};
ghost use Rattle.limits.specs.Limits.{max_events, max_places};

use bundles::net::Net;
use columns::Matrix;
use limits::{MAX_EVENTS, MAX_PLACES};
use places::{covers, shortfall, surplus};

// The numbers of the places of a net, by event.
#[derive(Drop)]
pub struct Incidence {
    matrix: Matrix,
    count: usize,
    n: usize,
    ghost few: { count ≤ max_places },
    ghost events: { n ≤ max_events },
}

impl Incidence {
    ghost use Rattle.std.specs.Prelude.{◌+◌};
    ghost use Rattle.laws.specs.Parts.{front};
    ghost use Rattle.nets.specs.Carrying.{first_short as lowest_short, tokens_behind, play as played};
    ghost use Rattle.incidence.specs.Incidence.{places_in, SamePlaces, Playable, moves, moves_both, enough_both, EventPlayed, Searched, FoundLast};

    // The places of a net that was read.
    pub fn read(net: &Net) -> Incidence
        ensures { SamePlaces net.now result }
    {
        let mut matrix = Matrix::clear();
        for j in 0..net.count {
            matrix.write_column(j, net.place(j));
        }
        Incidence {
            matrix,
            count: net.count,
            n: usize::from(net.n),
        }
    }

    // Whether a place, which need not be there, has too few tokens for an event.
    fn refuses(&self, tokens: &[u64; MAX_PLACES], event: usize, place: usize) -> bool
        requires { Playable self.now tokens.now 1 × (event < self.now.n) }
        ensures { result ≡ true → moves (played (places_in self.now) tokens.now event) ≡ false }
    {
        if self.count <= place {
            return false;
        }
        !covers(tokens[place] as i64, self.matrix.consumed[event][place])
    }

    // The lowest place that has too few, or the number of places.
    fn first_short(&self, tokens: &[u64; MAX_PLACES], event: usize) -> usize
        requires { Playable self.now tokens.now 1 × (event < self.now.n) }
        ensures { result ≡ lowest_short (places_in self.now) tokens.now event }
    {
        let taken = &self.matrix.consumed[event];
        for j in 0..self.count {
            if !covers(tokens[j] as i64, taken[j]) {
                return j;
            }
        }
        self.count
    }

    // Plays an event: writes the tokens behind it, and says whether each place has enough, by the signs of all surpluses at once. Where one has too
    // few, what is written is not read.
    fn play(&self, tokens: &[u64; MAX_PLACES], event: usize, behind: &mut [u64; MAX_PLACES]) -> bool
        requires { Playable self.now tokens.now 1 × (event < self.now.n) }
        ensures { EventPlayed self.now tokens.now event behind.old behind.new result }
    {
        let (taken, put) = (&self.matrix.consumed[event], &self.matrix.produced[event]);
        let mut all = 0;
        for (j, next) in behind[..self.count].iter_mut().enumerate() {
            let left = surplus(tokens[j] as i64, taken[j]);
            all |= left;
            *next = (left + i64::from(put[j])).cast_unsigned();
        }
        shortfall(all) == 0
    }

    // The same. The place that refused the event last is asked first.
    fn advance(
        &self,
        tokens: &[u64; MAX_PLACES],
        event: usize,
        behind: &mut [u64; MAX_PLACES],
        refusing: &mut [usize; MAX_EVENTS],
    ) -> bool
        requires { Playable self.now tokens.now 1 × (event < self.now.n) }
        ensures { EventPlayed self.now tokens.now event behind.old behind.new result }
    {
        if self.refuses(tokens, event, refusing[event]) {
            return false;
        }
        if self.play(tokens, event, behind) {
            return true;
        }
        refusing[event] = self.first_short(tokens, event);
        false
    }

    // Whether a place has enough tokens for an event, and then for the wanted one.
    fn covers_both_at(
        &self,
        tokens: &[u64; MAX_PLACES],
        event: usize,
        wanted: usize,
        place: usize,
    ) -> bool
        requires { Playable self.now tokens.now 1 × (event < self.now.n) × (wanted < self.now.n) × (place < self.now.count) }
        ensures { result ≡ enough_both (places_in self.now) tokens.now event wanted place }
    {
        let taken = self.matrix.consumed[event][place];
        if !covers(tokens[place] as i64, taken) {
            return false;
        }
        let behind = tokens[place] - u64::from(taken)
            + u64::from(self.matrix.produced[event][place]);
        covers(behind as i64, self.matrix.consumed[wanted][place])
    }

    // Whether each place has. The place that refused the event, or the wanted one behind it, last is asked first.
    fn covers_both(
        &self,
        tokens: &[u64; MAX_PLACES],
        event: usize,
        wanted: usize,
        refusing: &mut [usize; MAX_EVENTS],
    ) -> bool
        requires { Playable self.now tokens.now 1 × (event < self.now.n) × (wanted < self.now.n) }
        ensures { result ≡ moves_both (places_in self.now) tokens.now event wanted }
    {
        let first = refusing[event];
        if first < self.count && !self.covers_both_at(tokens, event, wanted, first) {
            return false;
        }
        for j in 0..self.count {
            if !self.covers_both_at(tokens, event, wanted, j) {
                refusing[event] = j;
                return false;
            }
        }
        true
    }

    // The first event behind which the wanted one is permitted.
    fn last(
        &self,
        tokens: &[u64; MAX_PLACES],
        wanted: usize,
        refusing: &mut [usize; MAX_EVENTS],
    ) -> Option<usize>
        requires { Playable self.now tokens.now 1 × (wanted < self.now.n) }
        ensures { FoundLast self.now tokens.now wanted result }
    {
        for event in 0..self.n {
            if self.covers_both(tokens, event, wanted, refusing) {
                return Some(event);
            }
        }
        None
    }

    // The first word of that many events, at least one, behind which the wanted one is permitted: writes it where there is one. A prefix that a
    // place refuses is left at once, and the tokens behind a permitted one are those before it moved on. For each event `refusing` has the place that
    // refused it last.
    pub fn find_word(
        &self,
        tokens: &[u64; MAX_PLACES],
        word: &mut [u8],
        wanted: usize,
        refusing: &mut [usize; MAX_EVENTS],
    ) -> bool
        requires { Playable self.now tokens.now (length word.old) × (1 ≤ length word.old) × (wanted < self.now.n) }
        ensures { Searched self.now tokens.now wanted word.old word.new result }
    {
        if word.len() == 1 {
            let Some(event) = self.last(tokens, wanted, refusing) else {
                return false;
            };
            word[0] = event as u8;
            return true;
        }
        let mut behind = *tokens;
        for event in 0..self.n {
            if !self.advance(tokens, event, &mut behind, refusing) {
                continue;
            }
            if self.find_word(&behind, &mut word[1..], wanted, refusing) {
                word[0] = event as u8;
                return true;
            }
        }
        false
    }
}
