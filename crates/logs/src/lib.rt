// The log table and its summary: taking a log word by word. The contracts cite specs/Answers.antt, and specs/Rows.antt of `rows`.
#![tactic(auto)]

ghost use Rattle.std.specs.Prelude.{◌≡◌, ◌≤◌, length};
ghost use Rattle.rows.specs.Rows.{cleared};
ghost use Rattle.logs.specs.Answers.{table_size, right_event_count, right_summary, fresh_answer, fresh_table, taken_answer, taken_table};

use limits::{MAX_EVENTS, MAX_LOG_EVENTS, MAX_ROWS};
use places::first_bad;
use refusals::{Cause, Refusal};
use rows::ROW;
use taking::add_alone;

// The numbers that a table has at least.
pub const TABLE: usize = ROW * MAX_ROWS;

// What is kept of a log beside its table: the event count n, the rows and the events so far.
#[derive(Clone, Copy, Debug, PartialEq, Eq)]
pub struct Summary {
    pub n: usize,
    pub rows: usize,
    pub events: usize,
}

// The answer of a call on a log: the next summary, or a refusal.
pub type Taken = Result<Summary, Refusal>;

// Clears the first `table_size` numbers. (Inner function.)
pub fn clear(table: &mut [u16])
    requires { table_size ≤ length table.old }
    ensures { table.new ≡ cleared table_size table.old }
{
    table[..TABLE].fill(0);
}

// Whether an event count is 1 to 12.
#[tactic(auto, unfolding(crate::specs::Answers::right_event_count))]
fn right_event_count(n: usize) -> bool
    ensures { result ≡ right_event_count n }
{
    (1..=MAX_EVENTS).contains(&n)
}

// Starts the empty log over n events: clears the first 3,584 numbers of the table and gives its summary.
// Refuses with 5 or 16, and then leaves the table as it was.
pub fn fresh(n: usize, table: &mut [u16]) -> Taken
    ensures value { result ≡ fresh_answer n table.old }
    ensures table_after { table.new ≡ fresh_table (fresh_answer n table.old) table.old }
{
    if table.len() < TABLE {
        return Err(Cause::NumbersShort.at(TABLE));
    }
    if !right_event_count(n) {
        return Err(Cause::StateRange.at(0));
    }
    clear(table);
    Ok(Summary {
        n,
        rows: 1,
        events: 0,
    })
}

impl Summary {
    // Whether its numbers are within their ranges.
    #[tactic(auto, unfolding(crate::specs::Answers::right_summary))]
    fn is_right(self) -> bool
        ensures { result ≡ right_summary self }
    {
        right_event_count(self.n)
            && (1..=MAX_ROWS).contains(&self.rows)
            && self.events <= MAX_LOG_EVENTS
    }

    // Takes a word: puts its rows into the table and gives the next summary.
    // Refuses with 5, 16, 8, 7 or 9, and then leaves the table as it was.
    pub fn take(self, word: &[u8], table: &mut [u16]) -> Taken
        ensures value { result ≡ taken_answer self table.old word.now }
        ensures table_after { table.new ≡ taken_table (taken_answer self table.old word.now) self table.old word.now }
    {
        if table.len() < TABLE {
            return Err(Cause::NumbersShort.at(TABLE));
        }
        if !self.is_right() {
            return Err(Cause::StateRange.at(0));
        }
        if MAX_LOG_EVENTS - self.events < word.len() {
            return Err(Cause::Events.at(0));
        }
        if let Some(bad) = first_bad(word, self.n) {
            return Err(Cause::Value.at(bad));
        }
        let rows = add_alone(table, self.rows, word).map_err(|_| Cause::Rows.at(0))?;
        Ok(Summary {
            rows,
            events: self.events + word.len(),
            ..self
        })
    }
}
