// The rows of a log table, a slice with `ROW` numbers a row: a row found, visited, marked. All are inner functions.
#![tactic(auto)]

pub mod index; // where to look for a row

ghost use Rattle.std.specs.Prelude.{◌≡◌, ◌==◌, ◌&&◌, true, fold, zip, [], ◌∷◌, ◌++◌, ◌+◌, ◌*◌, ◌<◌, ◌≤◌, length, get_or, set, drop};
ghost use Rattle.laws.specs.Lists.{equal};
ghost use Rattle.laws.specs.Bits.{with_bit};
ghost use Rattle.limits.specs.Limits.{max_events};
ghost use Rattle.rows.specs.Rows.{row_size, traffic_offset, row_at, find_row, found, rows_of, new_row, present, one_more, visit, Holds};
ghost use Rattle.rows.specs.Index.{IsIndexed, IsIndexed-prop};

use index::Index;
use limits::MAX_EVENTS;
use places::with_bit;

// The numbers of a row: twelve counts, then the mask, then the traffic. A table is a flat list of numbers, since C lends it so: a row is cut out by
// its number.
pub const ROW: usize = 14;

// Where a row has its traffic.
const TRAFFIC: usize = 13;

// How often each event has occurred.
pub type Counts = [u16; MAX_EVENTS];

// The rows at the front of a table, to be read, with an index of them if there is one.
#[derive(Clone, Copy)]
pub struct Rows<'a> {
    pub table: &'a [u16],
    pub count: usize,
    pub index: Option<&'a Index>,
    pub ghost within: { row_size * count ≤ length table.now },
    pub ghost indexed: { IsIndexed count table.now index } by { IsIndexed-prop count table.now index },
}

// The counts of a row.
pub fn counts_of(table: &[u16], row: usize) -> &Counts
    requires { row_size * row + row_size ≤ length table.now }
    ensures { (result.now ≡ (row_at (drop (row_size * row) table.now)).counts) × (length result.now ≡ max_events) }
{
    let start = ROW * row;
    table[start..start + MAX_EVENTS].as_array().unwrap()
}

// The mask of a row.
pub fn mask_of(table: &[u16], row: usize) -> u16
    requires { row_size * row + row_size ≤ length table.now }
    ensures { result ≡ get_or table.now (row_size * row + max_events) 0 }
{
    table[ROW * row + MAX_EVENTS]
}

// Whether so many counts are equal. No branch is taken on the way, so that the compiler takes several at a time.
fn same_part(row: &[u16], counts: &[u16]) -> bool
    requires { length row.now ≡ length counts.now }
    ensures { result ≡ fold (λ s p. s && (p.0 == p.1)) true (zip row.now counts.now) }
{
    row.iter()
        .zip(counts)
        .fold(true, |same, (a, b)| same & (*a == *b))
}

// Whether a row has these counts. Most rows differ in the first eight, which are one vector: `==` on all takes longer.
pub fn same_counts(row: &Counts, counts: &Counts) -> bool
    ensures { result ≡ equal row.now counts.now }
{
    same_part(&row[..8], &counts[..8]) && same_part(&row[8..], &counts[8..])
}

impl Rows<'_> {
    // The lowest row with these counts. All rows are looked at in turn.
    pub fn scan(&self, counts: &Counts) -> Option<usize>
        ensures { result ≡ found counts.now (rows_of self.now.count self.now.table.now) }
    {
        (0..self.count).find(|r| same_counts(counts_of(self.table, *r), counts))
    }
}

// Appends a row with these counts, mask 0 and traffic 0.
fn append_row(table: &mut [u16], rows: usize, counts: Counts)
    requires { row_size * rows + row_size ≤ length table.old }
    ensures { Holds (rows + 1) (rows_of rows table.old ++ (new_row counts ∷ [])) table.old table.new }
{
    let at = ROW * rows;
    table[at..at + MAX_EVENTS].copy_from_slice(&counts);
    table[at + MAX_EVENTS] = 0;
    table[at + TRAFFIC] = 0;
}

// Appends a row with these counts where row r, which is theirs, is the next one. Returns how many rows there are. The number is no Option: it is what
// `taking` noted of a row that was found, or that is new.
fn append_missing(table: &mut [u16], rows: usize, counts: Counts, r: usize) -> usize
    requires r_value { r ≡ find_row counts (rows_of rows table.old) }
    requires rows_in_bounds { (row_size * rows ≤ length table.old) × (row_size * length (visit counts (rows_of rows table.old)) ≤ length table.old) }
    ensures { Holds result (present counts (rows_of rows table.old)) table.old table.new }
{
    if r < rows {
        return rows;
    }
    append_row(table, rows, counts);
    rows + 1
}

// Adds a word to row r's traffic, whose largest number stays.
fn count_word(table: &mut [u16], r: usize)
    requires { row_size * r + row_size ≤ length table.old }
    ensures { table.new ≡ set table.old (row_size * r + traffic_offset) (one_more (get_or table.old (row_size * r + traffic_offset) 0)) }
{
    let at = ROW * r + TRAFFIC;
    table[at] = table[at].saturating_add(1);
}

// Visits a prefix with these counts: row r, which is theirs, is appended where it is the next one, and has one word more. Returns how many rows
// there are. Here and in `taking` the table and the number of its rows are two parameters, with their facts in clauses, since the caller of the
// library, C too, lends the one and keeps the other. The counts are passed by value: lent, they would be stored for each event of a word.
pub fn visit_row(table: &mut [u16], rows: usize, counts: Counts, r: usize) -> usize
    requires r_value { r ≡ find_row counts (rows_of rows table.old) }
    requires rows_in_bounds { (row_size * rows ≤ length table.old) × (row_size * length (visit counts (rows_of rows table.old)) ≤ length table.old) }
    ensures { Holds result (visit counts (rows_of rows table.old)) table.old table.new }
{
    let k = append_missing(table, rows, counts, r);
    count_word(table, r);
    k
}

// Sets bit e of row r's mask.
pub fn mark_row(table: &mut [u16], r: usize, e: usize)
    requires { (row_size * r + row_size ≤ length table.old) × (e < max_events) }
    ensures { table.new ≡ set table.old (row_size * r + max_events) (with_bit (get_or table.old (row_size * r + max_events) 0) e) }
{
    let at = ROW * r + MAX_EVENTS;
    table[at] = with_bit(table[at], e);
}
