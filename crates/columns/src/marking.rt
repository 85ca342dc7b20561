// The tokens in the columns of a matrix. All are inner functions.
ghost use Rattle.std.specs.Prelude.{◌≡◌, true, ℕ, ◌*◌, ◌≤◌, ◌<◌, pos, length, get_or, replicate};
ghost use Rattle.rows.specs.Rows.{none};
ghost use Rattle.columns.specs.Matrix.{matrix_width, block_width, Moderate, Covered, Shiftable, Shifted, Recounted};

use crate::{BLOCK, WIDTH};
use limits::MAX_EVENTS;
use places::{gain, shortfall, surplus};
use rows::Counts;

// Writes the initial tokens.
pub(crate) fn start(tokens: &mut [i64; WIDTH], width: usize, initial: &[u16; WIDTH])
    requires { width ≤ matrix_width }
    ensures value { (j : ℕ) → j < width → get_or tokens.new j (pos 0) ≡ pos (get_or initial.now j 0) }
    ensures held { Moderate width tokens.new }
{
    for (j, tokens) in tokens[..width].iter_mut().enumerate() {
        *tokens = i64::from(initial[j]);
    }
}

// Adds `times` the numbers of one row to the tokens, and takes off `times` those of another.
fn shift_times(tokens: &mut [i64], plus: &[u16; WIDTH], minus: &[u16; WIDTH], times: u16)
    requires { Shiftable tokens.old }
    ensures { Shifted (length tokens.old) plus.now minus.now tokens.old tokens.new times }
{
    for (j, tokens) in tokens.iter_mut().enumerate() {
        *tokens += gain(times, plus[j], minus[j]);
    }
}

// The same. Mostly it is once, which needs no product.
fn shift(tokens: &mut [i64], plus: &[u16; WIDTH], minus: &[u16; WIDTH], times: u16)
    requires { Shiftable tokens.old }
    ensures { Shifted (length tokens.old) plus.now minus.now tokens.old tokens.new times }
{
    if times == 1 {
        shift_times(tokens, plus, minus, 1);
    } else {
        shift_times(tokens, plus, minus, times);
    }
}

// The tokens where an event goes from `before` to `after` occurrences. Most counts stay. Six parameters and no method of `Marking`: of a struct
// with a ghost field the borrow checker lends an array whole, but no slice of it; once `split_at_mut` has cut it, nothing is known of the tokens.
#[inline(always)]
pub(crate) fn recount(
    tokens: &mut [i64; WIDTH],
    width: usize,
    produced: &[u16; WIDTH],
    consumed: &[u16; WIDTH],
    before: u16,
    after: u16,
)
    requires { (width ≤ matrix_width) × Moderate width tokens.old }
    ensures { Recounted width produced.now consumed.now tokens.old tokens.new before after }
{
    if before < after {
        shift(&mut tokens[..width], produced, consumed, after - before);
        return;
    }
    if after < before {
        shift(&mut tokens[..width], consumed, produced, before - after);
    }
}

// The tokens in the first columns of a matrix after given counts. The columns are in blocks.
#[derive(Drop)]
pub struct Marking {
    pub(crate) blocks: usize,
    pub(crate) counts: Counts,
    pub(crate) tokens: [i64; WIDTH],
    ghost within: { block_width * blocks ≤ matrix_width },
}

impl Marking {
    // The marking of no columns.
    pub fn clear() -> Self
        ensures { (result.blocks ≡ 0) × (result.counts ≡ none) × (result.tokens ≡ replicate matrix_width (pos 0)) }
    {
        Marking {
            blocks: 0,
            counts: [0; MAX_EVENTS],
            tokens: [0; WIDTH],
        }
    }

    // Whether no column lacks a token for an event that takes so many of each. The sign of `all` is set where that of one surplus is, so one test
    // serves for all of them: `shortfall(all)` is no column's shortfall, but 0 exactly when each one's is.
    #[inline(always)]
    pub(crate) fn covers(&self, consumed: &[u16; WIDTH]) -> bool
        requires { Moderate (block_width * self.now.blocks) self.now.tokens }
        ensures { result ≡ true → Covered (block_width * self.now.blocks) self.now.tokens consumed.now }
    {
        let mut all = 0;
        for (j, tokens) in self.tokens[..BLOCK * self.blocks].iter().enumerate() {
            all |= surplus(*tokens, consumed[j]);
        }
        shortfall(all) == 0
    }
}
