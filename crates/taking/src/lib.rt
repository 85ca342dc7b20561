// Taking a word: its prefixes, shortest first, each with its counts. The row of each is looked up, or numbered where there is none, before
// anything is written.
#![tactic(auto)]

ghost use Rattle.std.specs.Prelude.{◌≡◌, ℕ, ◌+◌, ◌*◌, ◌<◌, ◌≤◌, length, get_or, take, OnOk};
ghost use Rattle.limits.specs.Limits.{max_events, max_rows};
ghost use Rattle.rows.specs.Rows.{row_size, add_event, find_row, rows_of, visit, follow, absent, row_or, new_rows, numbered, take_word, none, Holds, Added};
ghost use Rattle.taking.specs.Numbering.{used, whole_row};
ghost use Rattle.rows.specs.Index.{key as key_of, IsIndexed};
ghost use Rattle.taking.specs.Takable.{Takable};

use limits::{MAX_EVENTS, MAX_LOG_EVENTS, MAX_ROWS};
use rows::index::{Index, multiplier_of};
use rows::{Counts, Rows, mark_row, visit_row};

// Adds an event to the counts. All twelve are written, so that the compiler takes several at a time, and the next comparison need not wait for one
// of them.
fn add_event(counts: &mut Counts, e: usize)
    requires { (e < max_events) × (get_or counts.old e 0 < 65535) }
    ensures { counts.new ≡ add_event counts.old e }
{
    for (i, count) in counts.iter_mut().enumerate() {
        *count += u16::from(i == e);
    }
}

// A prefix of a word: its counts, and their key.
#[derive(Drop)]
struct Prefix {
    counts: Counts,
    key: usize,
    ghost keyed: { key ≡ key_of counts },
}

impl Prefix {
    // The empty prefix.
    fn new() -> Self
        ensures { result.counts ≡ none }
    {
        Prefix {
            counts: [0; MAX_EVENTS],
            key: 0,
        }
    }

    // The prefix with an event more.
    fn push(&mut self, e: usize)
        requires { (e < max_events) × ((i : ℕ) → get_or self.old.counts i 0 < 65535) }
        ensures { self.new.counts ≡ add_event self.old.counts e }
    {
        add_event(&mut self.counts, e);
        self.key += multiplier_of(e);
    }
}

// Notes the row of a prefix: the one that is found, or `next`. Returns the number that the next new row gets. Both are proved to fit two bytes. The
// row's number goes straight to its place in the list: of a pair the caller would put it there.
fn number_row(rows: &Rows, prefix: &Prefix, next: usize, number: &mut u16) -> usize
    requires { (rows.now.count ≤ max_rows) × (next < 65536) }
    ensures value { result ≡ next + absent prefix.now.counts (rows_of rows.now.count rows.now.table.now) }
    ensures number_after { number.new ≡ row_or (rows_of rows.now.count rows.now.table.now) next prefix.now.counts }
{
    match rows.find(&prefix.counts, prefix.key) {
        Some(r) => {
            *number = r as u16;
            next
        }
        None => {
            *number = next as u16;
            next + 1
        }
    }
}

// Notes the rows of the word's prefixes. Returns how many rows there are with them.
fn number_rows(rows: &Rows, word: &[u8], numbers: &mut [u16]) -> usize
    requires takable { Takable rows.now.count rows.now.table.now word.now }
    requires word_in_bounds { length word.now < length numbers.old }
    ensures value { result ≡ rows.now.count + new_rows (rows_of rows.now.count rows.now.table.now) none word.now }
    ensures numbers_after { take (length word.now + 1) numbers.new ≡ numbered (rows_of rows.now.count rows.now.table.now) rows.now.count none word.now }
{
    let mut prefix = Prefix::new();
    let mut next = rows.count;
    // By number: the prefixes are one more than the events. One call for all of them: then the compiler puts `number_row` into it.
    for i in 0..=word.len() {
        next = number_row(rows, &prefix, next, &mut numbers[i]);
        if let Some(event) = word.get(i) {
            prefix.push(usize::from(*event));
        }
    }
    next
}

// Visits a prefix with these counts, whose row is r, and sets the bit of event e, which follows it. Returns how many rows there are.
fn step(table: &mut [u16], rows: usize, counts: Counts, r: usize, e: usize) -> usize
    requires r_value { (r ≡ find_row counts (rows_of rows table.old)) × (e < max_events) }
    requires rows_in_bounds { (row_size * rows ≤ length table.old) × (row_size * length (visit counts (rows_of rows table.old)) ≤ length table.old) }
    ensures { Holds result (follow counts e (visit counts (rows_of rows table.old))) table.old table.new }
{
    let k = visit_row(table, rows, counts, r);
    mark_row(table, r, e);
    k
}

// Takes a word whose rows there is room for, and are noted. Returns how many rows there are. The numbers have an index in the loop, as the last one
// has behind it, that of the whole word.
fn write_word(table: &mut [u16], rows: usize, word: &[u8], numbers: &[u16]) -> usize
    requires takable { Takable rows table.old word.now }
    requires word_in_bounds { row_size * length (take_word (rows_of rows table.old) none word.now) ≤ length table.old }
    requires word_in_bounds_2 { (length word.now < length numbers.now) × (take (length word.now + 1) numbers.now ≡ used (rows_of rows table.old) none word.now) }
    ensures { Holds result (take_word (rows_of rows table.old) none word.now) table.old table.new }
{
    let mut counts = [0; MAX_EVENTS];
    let mut k = rows;
    for (i, event) in word.iter().enumerate() {
        let e = usize::from(*event);
        k = step(table, k, counts, usize::from(numbers[i]), e);
        add_event(&mut counts, e);
    }
    visit_row(table, k, counts, usize::from(numbers[word.len()]))
}

// Takes a word if there is room for its rows, and returns how many rows there are with them. `Err` has how many there would be, where they are too
// many, and the table is then as it was. There is no index for a short word. `numbers` is for the rows of its prefixes, that of the whole word behind
// the others. It is lent as a slice: with an array for each of three sizes the compiler writes slower code. `Takable` is a clause, since the table is
// lent on. (Inner function.)
pub fn add_word(
    table: &mut [u16],
    rows: usize,
    word: &[u8],
    index: Option<&Index>,
    numbers: &mut [u16],
) -> Result<usize, usize>
    requires takable { Takable rows table.old word.now }
    requires index { IsIndexed rows table.old index }
    requires word_in_bounds { length word.now < length numbers.old }
    ensures added { Added max_rows rows word.now table.old table.new result }
    ensures word_after { OnOk result (get_or numbers.new (length word.now) 0 ≡ whole_row (rows_of rows table.old) word.now) }
{
    let held = Rows {
        table,
        count: rows,
        index,
    };
    let more = number_rows(&held, word, numbers);
    if MAX_ROWS < more {
        return Err(more);
    }
    Ok(write_word(table, rows, word, numbers))
}

// A word with fewer events is short: for its few prefixes a scan of the rows takes less time than an index.
const SHORT: usize = 16;

fn add_short_word(table: &mut [u16], rows: usize, word: &[u8]) -> Result<usize, usize>
    requires { Takable rows table.old word.now × (length word.now < 16) }
    ensures { Added max_rows rows word.now table.old table.new result }
{
    let mut numbers = [0; SHORT];
    add_word(table, rows, word, None, &mut numbers)
}

fn add_long_word(table: &mut [u16], rows: usize, word: &[u8]) -> Result<usize, usize>
    requires { Takable rows table.old word.now }
    ensures { Added max_rows rows word.now table.old table.new result }
{
    let mut index = Index::new();
    index.extend(table, 0, rows);
    let mut numbers = [0; MAX_LOG_EVENTS + 1];
    add_word(table, rows, word, Some(&index), &mut numbers)
}

// Takes a word if there is room for its rows, as `add_word`. (Inner function.)
pub fn add_alone(table: &mut [u16], rows: usize, word: &[u8]) -> Result<usize, usize>
    requires { Takable rows table.old word.now }
    ensures { Added max_rows rows word.now table.old table.new result }
{
    if word.len() < SHORT {
        return add_short_word(table, rows, word);
    }
    add_long_word(table, rows, word)
}
