// Whether the weights of a certificate hold, from the rows of the log table.
#![tactic(auto)]

ghost use Rattle.std.specs.Prelude.{◌≡◌, true, ℕ, ◌+◌, ◌*◌, ◌≤◌, ◌<◌, length};
ghost use Rattle.limits.specs.Limits.{max_events, max_terms};
ghost use Rattle.nets.specs.Nets.{at};
ghost use Rattle.bundles.specs.Chains.{ReadAs, ReadBy, mapped};
ghost use Rattle.pairs.specs.PairSums.{Bounded};
ghost use Rattle.bundles.specs.Reading.{times};
ghost use Rattle.bundles.specs.Readers.{head_of, term, pairs, weights};
ghost use Rattle.bundles.specs.TermReading.{term_fields};
ghost use Rattle.weights.specs.Terms.{weighed_terms, weighed_by};
ghost use Rattle.weights.specs.TermSums.{HasRoom, with_term};
ghost use Rattle.weights.specs.Totals.{max_number, added_weight, added, sums_hold, paired_hold};

use bundles::Reader;
use bundles::terms::Term;
use heads::TakenHead;
use limits::{MAX_EVENTS, MAX_TERMS};
use pairs::read_pairs;
use places::has_bit;
use refusals::Refusal;
use rows::{Counts, counts_of, mask_of};
use slices::number_at;

// A weight as it is added to the sums: 0 once all weights sum up to more than two bytes. The certificate fails then, and the sums stay in 32 bits.
fn added_weight(total: u32, weight: u32) -> u32
    ensures { result ≡ added_weight total weight }
{
    if total <= u32::from(u16::MAX) {
        weight
    } else {
        0
    }
}

// Adds weight × count at each event.
fn add_counts(sums: &mut [u32; MAX_EVENTS], counts: &Counts, weight: u32)
    requires { (i : ℕ) → at sums.old i + weight * at counts.now i ≤ max_number * max_number }
    ensures { sums.new ≡ added weight (at counts.now) sums.old }
{
    for (i, sum) in sums.iter_mut().enumerate() {
        *sum += weight * u32::from(counts[i]);
    }
}

// The sums of a certificate's terms: of the weights g; at each event i, `before` sums g × u(i), and `of_event` g where f = i; and whether the steps
// of all terms are allowed. `before` and `of_event` are two lists, not one of pairs: the compiler takes each as a vector.
#[derive(Drop)]
struct Sums {
    total: u32,
    before: [u32; MAX_EVENTS],
    of_event: [u32; MAX_EVENTS],
    allowed: bool,
}

impl Sums {
    // Adds a term, whose row is in the table.
    #[inline(always)]
    fn add(&mut self, table: &[u16], term: &Term)
        requires { HasRoom table.now self.old (term_fields term.now) }
        ensures { self.new ≡ with_term table.now self.old (term_fields term.now) }
    {
        let row = usize::from(term.row);
        let event = usize::from(term.event);
        self.total += u32::from(term.weight);
        let weight = added_weight(self.total, u32::from(term.weight));
        add_counts(&mut self.before, counts_of(table, row), weight);
        self.of_event[event] += weight;
        self.allowed &= has_bit(mask_of(table, row), event);
    }

    // Whether the last two inequalities hold with k for the event after the counts. One chain of tests for both: then the compiler keeps the sums in
    // vectors, also while terms are added.
    #[inline(always)]
    fn hold(&self, k: u32, counts: &Counts, event: usize) -> bool
        requires { (k ≤ max_number)
            × ((i : ℕ) → at self.now.before i ≤ max_number * max_number)
            × ((i : ℕ) → at self.now.of_event i ≤ max_number) }
        ensures { result ≡ sums_hold self.now.before self.now.of_event counts.now event k }
    {
        let mut hold = true;
        for (i, count) in counts.iter().enumerate() {
            let count = u32::from(*count);
            let sum = self.before[i];
            hold &= (sum <= k * count)
                & (k * (count + u32::from(event == i)) <= sum + self.of_event[i]);
        }
        hold
    }

    // The same with the sums of pairs, which are added to those of the weights.
    fn hold_paired(&self, paired: &[i64; MAX_EVENTS], k: u32, counts: &Counts, event: usize) -> bool
        requires small { (k ≤ max_number)
            × ((i : ℕ) → at self.now.before i ≤ max_number * max_number)
            × ((i : ℕ) → at self.now.of_event i ≤ max_number) }
        requires bounded { Bounded paired.now }
        ensures { result ≡ paired_hold self.now.before self.now.of_event paired.now counts.now event k }
    {
        let mut hold = true;
        for (i, count) in counts.iter().enumerate() {
            let count = u32::from(*count);
            let sum = i64::from(self.before[i]) + paired[i];
            hold &= (sum <= i64::from(k * count))
                & (i64::from(k * (count + u32::from(event == i)))
                    <= sum + i64::from(self.of_event[i]));
        }
        hold
    }
}

// The next term, as `Reader::term` reads it, but faster where it is there and in range: its five bytes are tested for at once.
#[inline(always)]
fn next_term(reader: &mut Reader, n: usize, rows: usize) -> Result<Term, Refusal>
    ensures { ReadAs term_fields reader.old reader.new result (term n rows) }
{
    let bytes = reader.bytes;
    let at = reader.at;
    if 5 <= bytes.len().saturating_sub(at) {
        let row = number_at(bytes, at);
        let event = bytes[at + 2];
        if usize::from(row) < rows && usize::from(event) < n {
            reader.at = at + 5;
            let weight = number_at(bytes, at + 3);
            return Ok(Term { row, event, weight });
        }
    }
    reader.term(n, rows)
}

// A step that is to be certified: the event after the counts of a row, of a bundle whose head is taken.
#[derive(Clone, Copy)]
pub struct Step<'a> {
    pub head: &'a TakenHead<'a>,
    pub row: usize,
    pub event: u8,
    pub ghost row_there: { row < head.now.rows },
    pub ghost event_there: { event < head.now.net.n },
}

impl Step<'_> {
    ghost use Rattle.weights.specs.Steps.{counts_before, holds_for, holds_paired, pairs_for};

    // The counts before the event.
    #[inline(always)]
    pub fn counts(&self) -> &Counts
        ensures { (result.now ≡ counts_before self.now) × (length result.now ≡ max_events) }
    {
        counts_of(self.head.table, self.row)
    }

    // Reads the pairs behind terms, and says whether the terms' sums hold with them and k for the step. The sums are handed over: so the compiler
    // keeps them in vectors while terms are added.
    fn weigh_pairs(&self, reader: &mut Reader, sums: Sums, k: u32) -> Result<bool, Refusal>
        requires { (k ≤ max_number)
            × ((i : ℕ) → at sums.before i ≤ max_number * max_number)
            × ((i : ℕ) → at sums.of_event i ≤ max_number) }
        ensures { ReadBy reader.old reader.new result
            (mapped (holds_paired self.now sums k) (pairs true (length (head_of self.now.head.now.net.bundle.now).entries))) }
    {
        let pairs = read_pairs(self.head, reader)?;
        let holds = sums.hold_paired(&pairs.weighed, k, self.counts(), usize::from(self.event));
        Ok(sums.allowed & pairs.completed & (sums.total <= k) & holds)
    }

    // Reads so many terms, and in the new edition the pairs behind them, and says whether they hold with k for the step.
    fn weigh_terms(&self, reader: &mut Reader, count: u8, k: u16) -> Result<bool, Refusal>
        requires { count ≤ max_terms }
        ensures { ReadBy reader.old reader.new result
            (weighed_terms (holds_for self.now) k (pairs_for self.now) (times count (term self.now.head.now.net.n self.now.head.now.rows))) }
    {
        let TakenHead {
            net,
            rows,
            table,
            ..
        } = *self.head;
        let mut sums = Sums {
            total: 0,
            before: [0; MAX_EVENTS],
            of_event: [0; MAX_EVENTS],
            allowed: true,
        };
        let n = usize::from(net.n);
        for _term in 0..count {
            let term = next_term(reader, n, rows)?;
            sums.add(table, &term);
        }
        let k = u32::from(k);
        if self.head.is_new {
            return self.weigh_pairs(reader, sums, k);
        }
        let holds = sums.hold(k, self.counts(), usize::from(self.event));
        Ok(sums.allowed & (sums.total <= k) & holds)
    }

    // Reads k, the term count, the terms and the pairs of a certificate, and says whether its weights hold for the step. All of it is read before
    // the answer. (Inner function.)
    pub fn read_weights(&self, reader: &mut Reader) -> Result<bool, Refusal>
        ensures { ReadBy reader.old reader.new result (weighed_by (holds_for self.now) (weights (head_of self.now.head.now.net.bundle.now))) }
    {
        let k = reader.number(|k| 1 <= k)?;
        let count = reader.byte(|count| usize::from(count) <= MAX_TERMS)?;
        self.weigh_terms(reader, count, k)
    }
}
