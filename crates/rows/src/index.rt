// An index of the rows of a table. Each row is in the chain of its key. All are inner functions.
ghost use Rattle.std.specs.Prelude.{◌≡◌, ◌+◌, ◌*◌, ◌<◌, ◌≤◌, length};
ghost use Rattle.limits.specs.Limits.{max_events};
ghost use Rattle.rows.specs.Rows.{row_size, found, rows_of};
ghost use Rattle.rows.specs.Index.{multiplier, key as key_of, chain_count, IsIndex, no_rows};

use crate::{Counts, Rows, counts_of, same_counts};
use limits::MAX_EVENTS;

// A chain for each of 256 remainders of a key, and a place for each row.
const CHAINS: usize = 256;

// The last row of each chain, and for each row the one before it in its chain: two lists, of chains and of rows. A row's number is a byte. What it
// says of a table is a clause (`IsIndex`), since the table is not its own.
#[derive(Drop)]
pub struct Index {
    last: [Option<u8>; CHAINS],
    before: [Option<u8>; CHAINS],
}

// The multiplier of each event in a key. They are odd, so that 256 equal events have 256 chains.
const MULTIPLIERS: [u8; MAX_EVENTS] = [1, 37, 89, 151, 211, 17, 73, 131, 193, 241, 53, 103];

// The multiplier of an event in a key.
pub fn multiplier_of(e: usize) -> usize
    requires { e < max_events }
    ensures { (result ≡ multiplier e) × (result < 256) }
{
    usize::from(MULTIPLIERS[e])
}

// The key of counts.
fn key_of(counts: &Counts) -> usize
    ensures { result ≡ key_of counts.now }
{
    let mut sum = 0;
    for (e, count) in counts.iter().enumerate() {
        sum += multiplier_of(e) * usize::from(*count);
    }
    sum
}

impl Index {
    // An index of no rows.
    #[inline(always)]
    pub fn new() -> Self
        ensures { result ≡ no_rows }
    {
        Index {
            last: [None; CHAINS],
            before: [None; CHAINS],
        }
    }

    // Puts row r, the first behind those indexed and below 256, at the end of the chain of its key.
    fn link(&mut self, table: &[u16], r: usize)
        requires { (r < chain_count)
            × (row_size * r + row_size ≤ length table.now)
            × IsIndex r table.now self.old }
        ensures { IsIndex (r + 1) table.now self.new }
    {
        let chain = key_of(counts_of(table, r)) % CHAINS;
        self.before[r] = self.last[chain];
        self.last[chain] = Some(r as u8);
    }

    // Indexes the rows up to `end`, behind the `start` rows that are indexed.
    pub fn extend(&mut self, table: &[u16], start: usize, end: usize)
        requires { (start ≤ end)
            × (end ≤ chain_count)
            × (row_size * end ≤ length table.now)
            × IsIndex start table.now self.old }
        ensures { IsIndex end table.now self.new }
    {
        for r in start..end {
            self.link(table, r);
        }
    }
}

impl Rows<'_> {
    // The lowest row with these counts. The rows in the chain of their key are looked at, the last first, until there is none before. A `while let`,
    // whose measure shows that it ends: what std states of `successors` says nothing of that.
    fn follow_chain(&self, index: &Index, counts: &Counts, key: usize) -> Option<usize>
        requires { IsIndex self.now.count self.now.table.now index.now × (key ≡ key_of counts.now) }
        ensures { result ≡ found counts.now (rows_of self.now.count self.now.table.now) }
    {
        let mut lowest = None;
        let mut next = index.last[key % CHAINS];
        while let Some(row) = next {
            let r = usize::from(row);
            if same_counts(counts_of(self.table, r), counts) {
                lowest = Some(r);
            }
            next = index.before[r];
        }
        lowest
    }

    // The lowest row with these counts, which have this key. Where there is no index, the word that is taken is short (`taking`).
    pub fn find(&self, counts: &Counts, key: usize) -> Option<usize>
        requires { key ≡ key_of counts.now }
        ensures { result ≡ found counts.now (rows_of self.now.count self.now.table.now) }
    {
        match self.index {
            Some(index) => self.follow_chain(index, counts, key),
            None => self.scan(counts),
        }
    }
}
