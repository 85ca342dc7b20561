// Whether the places of a bundle fit its log, from the rows of the log table. All are inner functions.
#![tactic(auto)]

ghost use Rattle.std.specs.Prelude.{◌≡◌, true, ℕ, ◌+◌, ◌*◌, ◌<◌, ◌≤◌, length, drop};
ghost use Rattle.nets.specs.Nets.{fits};
ghost use Rattle.places.specs.Machine.{place_of, Held};
ghost use Rattle.rows.specs.Rows.{row_size, row_at, rows_of};
ghost use Rattle.bundles.specs.Readers.{events_in, log_in};
ghost use Rattle.bundles.specs.NextPlace.{place_in};
ghost use Rattle.columns.specs.RowFits.{row_fits, fits_rows};
ghost use Rattle.fitting.specs.Fitting.{events_fit, misfit_in, misfit};

use columns::Matrix;
use columns::marking::Marking;
use heads::TakenHead;
use limits::MAX_EVENTS;
use places::{Place, covers, has_bit};
use rows::{counts_of, mask_of};

// Whether the tokens cover what each event of the mask takes. All twelve are tested without a branch: which bits are set is hard to predict.
fn events_fit(tokens: i64, consumed: &[u16; MAX_EVENTS], mask: u16) -> bool
    requires { Held tokens }
    ensures { result ≡ events_fit tokens consumed.now mask }
{
    let mut fit = true;
    for (e, consumed) in consumed.iter().enumerate() {
        fit &= !has_bit(mask, e) | covers(tokens, *consumed);
    }
    fit
}

// Whether a place permits what a row of a table allows. Nothing is computed for a row that nothing follows.
fn row_fits(place: &Place, table: &[u16], row: usize) -> bool
    requires { row_size * row + row_size ≤ length table.now }
    ensures { result ≡ row_fits (place_of place.now) (row_at (drop (row_size * row) table.now)) }
{
    let mask = mask_of(table, row);
    if mask == 0 {
        return true;
    }
    let tokens = place.tokens(counts_of(table, row));
    events_fit(tokens, &place.consumed, mask)
}

// Whether a place permits what the rows of a table allow, which has so many, as in `Matrix::fit`.
fn fits(place: &Place, table: &[u16], rows: usize) -> bool
    requires { row_size * rows ≤ length table.now }
    ensures { result ≡ fits_rows (place_of place.now) (rows_of rows table.now) }
{
    (0..rows).all(|row| row_fits(place, table, row))
}

// Whether the places of a bundle all fit, tested side by side, eight at a time: the columns behind the last place are zero, and fit. False says
// nothing, and so this is no Option: it is the answer also where there is so little to test that clearing the matrix would take longer.
fn all_fit(head: &TakenHead) -> bool
    ensures { result ≡ true → head.now.net.count ≡ misfit_in head.now.net.bundle.now }
{
    let count = head.net.count;
    if count < 8 && head.rows < 8 {
        return false;
    }
    let places = head.places;
    let mut matrix = Matrix::clear();
    matrix.write(&places[..count]);
    let mut marking = Marking::clear();
    matrix.start(&mut marking, count);
    matrix.fit(&mut marking, head.table, head.rows)
}

// Whether place j of a bundle fits.
fn place_fits(head: &TakenHead, j: usize) -> bool
    requires { j < head.now.net.count }
    ensures { result ≡ fits (events_in head.now.net.bundle.now) (log_in head.now.net.bundle.now) (place_in head.now.net.bundle.now j) }
{
    fits(&head.places[j], head.table, head.rows)
}

// The first place of a bundle that does not fit. Each is tested on its own.
fn search_misfit(head: &TakenHead) -> Option<usize>
    ensures { result ≡ misfit head.now.net.bundle.now }
{
    (0..head.net.count).find(|j| !place_fits(head, *j))
}

// The first place of a bundle that does not fit. Mostly all fit, which is faster to find out.
pub fn first_misfit(head: &TakenHead) -> Option<usize>
    ensures { result ≡ misfit head.now.net.bundle.now }
{
    if all_fit(head) {
        return None;
    }
    search_misfit(head)
}
