// The places of a net side by side, so that the compiler takes several at a time. The contracts cite specs/Matrix.antt.
// All are inner functions.
#![tactic(auto)]

pub mod marking; // the tokens in the columns

ghost use Rattle.std.specs.Prelude.{◌≡◌, true, ℕ, ◌*◌, ◌≤◌, ◌<◌, T, length, set};
ghost use Rattle.laws.specs.Bits.{bit};
ghost use Rattle.limits.specs.Limits.{max_events};
ghost use Rattle.places.specs.Machine.{place_of, place_at};
ghost use Rattle.rows.specs.Rows.{row_size, none, rows_of};
ghost use Rattle.columns.specs.RowFits.{fits_rows};
ghost use Rattle.columns.specs.Matrix.{matrix_width, block_width, clear_matrix, column, SamePlace, Beside, Columns};
ghost use Rattle.columns.specs.Markings.{IsModerate, IsMarking, GoesOn, CoversEvent};

use limits::{MAX_EVENTS, MAX_PLACES};
use marking::{Marking, recount, start};
use places::{Place, has_bit};
use rows::{Counts, counts_of, mask_of};

// The columns of a matrix: as many as a net may have places.
pub const WIDTH: usize = MAX_PLACES;

// So many columns are taken at a time.
const BLOCK: usize = 8;

// The numbers of places, a column for each place. A row has one number of each of them.
#[derive(Drop)]
pub struct Matrix {
    initial: [u16; WIDTH],
    pub produced: [[u16; WIDTH]; MAX_EVENTS],
    pub consumed: [[u16; WIDTH]; MAX_EVENTS],
}

impl Matrix {
    // The matrix of zeros.
    pub fn clear() -> Self
        ensures { result ≡ clear_matrix }
    {
        Matrix {
            initial: [0; WIDTH],
            produced: [[0; WIDTH]; MAX_EVENTS],
            consumed: [[0; WIDTH]; MAX_EVENTS],
        }
    }

    // Writes the numbers of a place into column j. An index, since two lists are written.
    pub fn write_column(&mut self, j: usize, place: Place)
        requires { j < matrix_width }
        ensures { SamePlace (column self.new j) (place_of place) × Beside self.old self.new j }
    {
        self.initial[j] = place.initial;
        for e in 0..MAX_EVENTS {
            self.produced[e][j] = place.produced[e];
            self.consumed[e][j] = place.consumed[e];
        }
    }

    // Writes places into the columns, by number.
    pub fn write(&mut self, places: &[Place])
        requires { length places.now ≤ matrix_width }
        ensures { Columns (λ j. place_of (place_at places.now j)) self.new (length places.now) }
    {
        for (j, place) in places.iter().enumerate() {
            self.write_column(j, *place);
        }
    }
}

// The matrix is lent to the steps of a marking, and no field of it: where its address is read from memory that the tokens are written to, the
// compiler asks before each loop whether the two overlap.
impl Matrix {
    // Makes a marking the one before any event: the initial tokens of so many columns, and of those behind them in the last block. Made anew here it
    // would be copied; so it is lent.
    pub fn start(&self, marking: &mut Marking, count: usize)
        requires { count ≤ matrix_width }
        ensures { IsMarking self.now marking.new × (count ≤ block_width * marking.new.blocks) × (marking.new.counts ≡ none) }
    {
        let blocks = count.div_ceil(BLOCK);
        marking.blocks = blocks;
        marking.counts = [0; MAX_EVENTS];
        start(&mut marking.tokens, BLOCK * blocks, &self.initial);
    }

    // Goes on to counts with `after` occurrences of event i.
    #[inline(always)]
    fn recount(&self, marking: &mut Marking, i: usize, after: u16)
        requires { IsMarking self.now marking.old × (i < max_events) }
        ensures { GoesOn self.now marking.old marking.new (set marking.old.counts i after) }
    {
        let before = marking.counts[i];
        let width = BLOCK * marking.blocks;
        let (produced, consumed) = (&self.produced[i], &self.consumed[i]);
        recount(
            &mut marking.tokens,
            width,
            produced,
            consumed,
            before,
            after,
        );
        marking.counts[i] = after;
    }

    // Goes on to other counts.
    fn advance(&self, marking: &mut Marking, counts: &Counts)
        requires { IsMarking self.now marking.old }
        ensures { GoesOn self.now marking.old marking.new counts.now }
    {
        for (i, count) in counts.iter().enumerate() {
            self.recount(marking, i, *count);
        }
    }

    // Whether the tokens cover what event e takes, in each column, if its bit is set in the mask.
    fn covers_event(&self, marking: &Marking, mask: u16, e: usize) -> bool
        requires { IsModerate marking.now × (e < max_events) }
        ensures { result ≡ true → T (bit mask e) → CoversEvent self.now marking.now e }
    {
        !has_bit(mask, e) || marking.covers(&self.consumed[e])
    }

    // Whether the tokens cover what each event of the mask takes, in each column.
    fn covers_mask(&self, marking: &Marking, mask: u16) -> bool
        requires { IsModerate marking.now }
        ensures { result ≡ true → (e : ℕ) → e < max_events → T (bit mask e) → CoversEvent self.now marking.now e }
    {
        (0..MAX_EVENTS).all(|e| self.covers_event(marking, mask, e))
    }

    // Whether each column permits what the rows of a table allow, where that is found out: false says nothing. The table and the number of its rows are
    // two parameters: a `Rows` would be made for this one call.
    pub fn fit(&self, marking: &mut Marking, table: &[u16], rows: usize) -> bool
        requires marking { IsMarking self.now marking.old }
        requires rows_in_bounds { row_size * rows ≤ length table.now }
        ensures value { result ≡ true → (j : ℕ) → j < block_width * marking.old.blocks
            → fits_rows (column self.now j) (rows_of rows table.now) ≡ true }
        ensures marking { IsMarking self.now marking.new }
    {
        for r in 0..rows {
            self.advance(marking, counts_of(table, r));
            if !self.covers_mask(marking, mask_of(table, r)) {
                return false;
            }
        }
        true
    }
}
