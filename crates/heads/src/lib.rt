// Reading a bundle up to its last place, with the rows of its log taken into a table.
#![tactic(auto)]

ghost use Rattle.std.specs.Prelude.{◌≡◌, ◌≤◌, length, OnOk};
ghost use Rattle.limits.specs.Limits.{max_events, max_log_events, max_rows};
ghost use Rattle.laws.specs.Numbers.{Bytes};
ghost use Rattle.logs.specs.Answers.{table_size};
ghost use Rattle.rows.specs.Index.{IsIndex};
ghost use Rattle.bundles.specs.Keeping.{said, PlacesOf, PlacesOf-prop};
ghost use Rattle.heads.specs.Taken.{Fresh, TakesNext, AllTaken};
ghost use Rattle.heads.specs.Heads.{HeadHeld, HeadHeld-prop, HeadNoted, HeadNoted-prop, HeadIs};

use bundles::net::Net;
use bundles::{First, Reader};
use limits::{MAX_PLACES, MAX_WORDS};
use places::Place;
use refusals::{Cause, Refusal};
use rows::index::Index;
use taking::add_word;

// A log while its words are taken into a table: its rows and events so far, an index of the rows, and room for the rows of a word's prefixes.
// The table is lent on from call to call, so what is true of both stands in clauses.
#[derive(Drop)]
struct LogSoFar {
    rows: usize,
    events: usize,
    index: Index,
    numbers: [u16; 256],
}

impl LogSoFar {
    // The empty log, whose row is in the table.
    #[inline(always)]
    fn new(table: &[u16]) -> Self
        requires { table_size ≤ length table.now }
        ensures { (result.rows ≡ 1) × (result.events ≡ 0) × IsIndex 1 table.now result.index }
    {
        let mut index = Index::new();
        index.extend(table, 0, 1);
        LogSoFar {
            rows: 1,
            events: 0,
            index,
            numbers: [0; 256],
        }
    }

    // Takes the next word of a bundle, and notes its row where it is completed.
    fn take_word(
        &mut self,
        reader: &mut Reader,
        first: First,
        table: &mut [u16],
        noted: &mut Option<u16>,
    ) -> Result<(), Refusal>
        requires bounds { (first.n ≤ max_events)
            × (self.old.rows ≤ max_rows)
            × (self.old.events ≤ max_log_events)
            × (table_size ≤ length table.old)
            × Bytes reader.old.bytes.now }
        requires index { IsIndex self.old.rows table.old self.old.index }
        ensures one_more { TakesNext (said first) reader.old reader.new table.old table.new noted.new self.old self.new result }
        ensures indexed { OnOk result (IsIndex self.new.rows table.new self.new.index) }
    {
        let at = reader.at;
        let entry = reader.entry(first, self.events)?;
        let word = entry.word;
        let taken = add_word(table, self.rows, word, Some(&self.index), &mut self.numbers);
        let rows = taken.map_err(|_| Cause::Rows.at(at))?;
        self.index.extend(table, self.rows, rows);
        self.rows = rows;
        self.events += word.len();
        *noted = entry.completed.then_some(self.numbers[word.len()]);
        Ok(())
    }
}

// Takes the words of a log into a table that has the row of the empty log, and notes the row of each completed one. Returns how many rows the log
// has.
fn take_words(
    reader: &mut Reader,
    first: First,
    count: u8,
    table: &mut [u16],
    noted: &mut [Option<u16>; MAX_WORDS],
) -> Result<usize, Refusal>
    requires { (first.n ≤ max_events) × Fresh table.old × Bytes reader.old.bytes.now }
    ensures { AllTaken (said first) reader.old reader.new count table.old table.new noted.new result }
{
    let mut log = LogSoFar::new(table);
    for row in noted[..usize::from(count)].iter_mut() {
        log.take_word(reader, first, table, row)?;
    }
    Ok(log.rows)
}

// What is taken of a bundle up to its last place: its edition, how many words its log has, its net, and how many rows the log has.
#[derive(Clone, Copy)]
pub struct Taken<'a> {
    pub is_new: bool,
    pub words: u8,
    pub net: Net<'a>,
    pub rows: usize,
}

// A bundle up to its last place, its places by number, a table whose first rows are those of its log, and for each word its row where it is
// completed.
#[derive(Clone, Copy)]
pub struct TakenHead<'a> {
    pub is_new: bool,
    pub net: Net<'a>,
    pub places: &'a [Place; MAX_PLACES],
    pub rows: usize,
    pub table: &'a [u16],
    pub noted: &'a [Option<u16>],
    pub ghost held: { HeadHeld table.now net rows } by { HeadHeld-prop table.now net rows },
    pub ghost marked: { HeadNoted noted.now net is_new } by { HeadNoted-prop noted.now net is_new },
    pub ghost read: { PlacesOf net places.now } by { PlacesOf-prop net places.now },
}

// Reads a bundle up to its last place, takes its log into a table that has the row of the empty log, and notes for each word its row where it is
// completed. `Reader::head` differs in the one line of the words: a closure for it would need a contract longer than the four lines. (Inner
// function.)
pub fn take_head<'a>(
    bundle: &'a [u8],
    table: &mut [u16],
    noted: &mut [Option<u16>; MAX_WORDS],
) -> Result<Taken<'a>, Refusal>
    requires { Fresh table.old }
    ensures { HeadIs bundle.entry table.old table.new noted.new result }
{
    let mut reader = Reader {
        bytes: bundle,
        at: 0,
    };
    let first = reader.first()?;
    let words = reader.any_byte()?;
    let rows = take_words(&mut reader, first, words, table, noted)?;
    let net = reader.places(first.n)?;
    Ok(Taken {
        is_new: first.is_new,
        words,
        net,
        rows,
    })
}
