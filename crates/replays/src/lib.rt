// The replay of a part of a word on eight places side by side, so that the compiler takes several at a time. The contracts cite
// specs/Columns.antt. All are inner functions.
#![tactic(auto)]

ghost use Rattle.std.specs.Prelude.{◌≡◌, true, ◌<◌, get_or, replicate};
ghost use Rattle.places.specs.Machine.{place_of};
ghost use Rattle.replays.specs.Columns.{column_width, event_slots, no_changes, Column, Beside, Changed, Steppable, Stepped, Noted, Replayable, Advanced, CoveredAll};

use limits::MAX_EVENTS;
use places::Place;

// The columns of a table: so many places are replayed at a time.
pub const WIDTH: usize = 8;

// The events, and one more that takes no token and puts none there: it stands before the first event of a part and behind its last one, so that the
// first step and the last are steps as the others.
const EVENTS: usize = MAX_EVENTS + 1;

// What a step from one event adds to the surplus of each place, by the event that it goes to. A struct, since the borrow checker takes no literal of
// arrays in arrays in arrays for a field.
#[derive(Clone, Copy)]
struct Changes {
    to: [[i64; WIDTH]; EVENTS],
}

impl Changes {
    // Writes column j for an event that puts so many tokens there.
    fn write(&mut self, j: usize, produced: u16, consumed: &[u16; MAX_EVENTS])
        requires { j < column_width }
        ensures { Changed self.old self.new j produced (λ e. get_or consumed.now e 0) }
    {
        for (to, taken) in consumed.iter().enumerate() {
            self.to[to][j] = i64::from(produced) - i64::from(*taken);
        }
        self.to[MAX_EVENTS][j] = i64::from(produced);
    }
}

// Eight places, one in each column: `changes[a].to[b]` is what a step from event a to event b adds to the surplus of each place.
#[derive(Drop)]
pub struct Table {
    changes: [Changes; EVENTS],
}

// One step: the surplus of each place, and in `all` the bits of every surplus so far. An index, since two lists are written; two lists, since each is
// added or joined as a vector.
fn step(changes: &[i64; WIDTH], surplus: &mut [i64; WIDTH], all: &mut [i64; WIDTH])
    requires { Steppable changes.now surplus.old }
    ensures stepped { Stepped changes.now surplus.old surplus.new }
    ensures noted { Noted changes.now surplus.old all.old all.new }
{
    for j in 0..WIDTH {
        let next = surplus[j] + changes[j];
        surplus[j] = next;
        all[j] |= next;
    }
}

impl Table {
    // The table of places that take no token and put none there.
    pub fn clear() -> Table
        ensures { result.changes ≡ replicate event_slots no_changes }
    {
        let none = Changes {
            to: [[0; WIDTH]; EVENTS],
        };
        Table {
            changes: [none; EVENTS],
        }
    }

    // Writes the changes of a place into column j.
    pub fn write_column(&mut self, j: usize, place: Place)
        requires { j < column_width }
        ensures { Column (place_of place) self.new.changes j × Beside self.old.changes self.new.changes j }
    {
        for (from, produced) in place.produced.iter().enumerate() {
            self.changes[from].write(j, *produced, &place.consumed);
        }
        self.changes[MAX_EVENTS].write(j, 0, &place.consumed);
    }

    // Replays a part of a word on the places of a table, whose tokens before it are given, and leaves those behind it. True says that no step of it
    // lacks a token; false says nothing, and the tokens count then, too: so no `Option` of them.
    pub fn replay(&self, tokens: &mut [i64; WIDTH], part: &[u8]) -> bool
        requires { Replayable tokens.old self.now.changes part.now }
        ensures advanced { Advanced self.now.changes tokens.old tokens.new part.now }
        ensures covered_all { result ≡ true → CoveredAll self.now.changes tokens.old part.now }
    {
        let mut surplus = *tokens;
        let mut all = [0; WIDTH];
        let mut last = MAX_EVENTS;
        for event in part {
            let event = usize::from(*event);
            step(&self.changes[last].to[event], &mut surplus, &mut all);
            last = event;
        }
        step(&self.changes[last].to[MAX_EVENTS], &mut surplus, &mut all);
        *tokens = surplus;
        all.iter().all(|bits| 0 <= *bits)
    }
}
