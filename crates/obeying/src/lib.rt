// Whether the places of a bundle obey the completed words of its log, from the rows of the log table. All are inner functions.
#![tactic(auto)]

ghost use Rattle.std.specs.Prelude.{◌≡◌, ◌+◌, ◌*◌, ◌<◌, ◌≤◌, length, drop};
ghost use Rattle.places.specs.Machine.{place_of};
ghost use Rattle.rows.specs.Rows.{row_size, row_at};
ghost use Rattle.bundles.specs.Layout.{obeys_in};
ghost use Rattle.bundles.specs.Readers.{head_of};
ghost use Rattle.bundles.specs.NextPlace.{place_in};
ghost use Rattle.obeying.specs.Obeying.{row_obeyed, completed_rows, Flags, disobeying};

use heads::TakenHead;
use limits::MAX_ROWS;
use places::Place;
use rows::counts_of;

// Whether the counts of a row leave the tokens of a place as they were.
fn row_obeyed(place: &Place, table: &[u16], row: usize) -> bool
    requires { row_size * row + row_size ≤ length table.now }
    ensures { result ≡ row_obeyed (place_of place.now) (row_at (drop (row_size * row) table.now)) }
{
    place.tokens(counts_of(table, row)) == i64::from(place.initial)
}

// Which rows of the table are those of completed words.
fn completed_rows(head: &TakenHead) -> [bool; MAX_ROWS]
    ensures { Flags (completed_rows head.now.noted.now) result }
{
    let mut completed = [false; MAX_ROWS];
    for row in head.noted.iter().flatten() {
        completed[usize::from(*row)] = true;
    }
    completed
}

// Whether place j of a bundle obeys the completed words: each of their rows is tested once.
fn place_obeys(head: &TakenHead, completed: &[bool; MAX_ROWS], j: usize) -> bool
    requires place { j < head.now.net.count }
    requires flags { Flags (completed_rows head.now.noted.now) completed.now }
    ensures { result ≡ obeys_in (head_of head.now.net.bundle.now) (place_in head.now.net.bundle.now j) }
{
    let place = &head.places[j];
    (0..head.rows).all(|row| !completed[row] || row_obeyed(place, head.table, row))
}

// The first place of a bundle that does not.
fn search_disobeying(head: &TakenHead) -> Option<usize>
    ensures { result ≡ disobeying head.now.net.bundle.now }
{
    let completed = completed_rows(head);
    (0..head.net.count).find(|j| !place_obeys(head, &completed, *j))
}

// The same. A bundle of the old edition has no completed word.
pub fn first_disobeying(head: &TakenHead) -> Option<usize>
    ensures { result ≡ disobeying head.now.net.bundle.now }
{
    if !head.is_new {
        return None;
    }
    search_disobeying(head)
}
