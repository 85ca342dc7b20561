// The sums of a certificate's pairs, from the rows of the log table.
#![tactic(auto)]

ghost use Rattle.std.specs.Prelude.{◌≡◌, true, ◌*ℤ◌, ◌<◌, pos, length, IfOk};
ghost use Rattle.bundles.specs.Chains.{ReadBy, mapped};
ghost use Rattle.bundles.specs.Layout.{signed};
ghost use Rattle.bundles.specs.Readers.{head_of, pairs};
ghost use Rattle.bundles.specs.TermReading.{pair_fields};
ghost use Rattle.pairs.specs.Pairs.{sums_for, added};
ghost use Rattle.pairs.specs.PairSums.{Bounded, with_pair};

use bundles::Reader;
use bundles::terms::Pair;
use heads::TakenHead;
use limits::{MAX_EVENTS, MAX_PAIRS};
use refusals::Refusal;
use rows::{Counts, counts_of};

// The weight h that its two bytes say, in two's complement.
#[tactic(auto, unfolding(bundles::specs::Layout::signed))]
fn signed(weight: u16) -> i64
    ensures { result ≡ signed weight }
{
    i64::from(weight.cast_signed())
}

// h × u(i).
fn weighed(weight: u16, count: u16) -> i64
    ensures { result ≡ signed weight *ℤ pos count }
{
    signed(weight) * i64::from(count)
}

// Adds h × u(i) at each event.
fn add_counts(sums: &mut [i64; MAX_EVENTS], counts: &Counts, weight: u16)
    requires { Bounded sums.old }
    ensures { sums.new ≡ added (signed weight) counts.now sums.old }
{
    for (i, sum) in sums.iter_mut().enumerate() {
        *sum += weighed(weight, counts[i]);
    }
}

// The sums of pairs: at each event i, of h × u(i) of the words that they name; and whether all these words are completed.
#[derive(Drop)]
pub struct PairSums {
    pub weighed: [i64; MAX_EVENTS],
    pub completed: bool,
}

impl PairSums {
    // Adds a pair, which names a word of the log.
    fn add(&mut self, head: &TakenHead, pair: &Pair)
        requires { (pair.now.word < length head.now.noted.now) × Bounded self.old.weighed }
        ensures { self.new ≡ with_pair head.now self.old (pair_fields pair.now) }
    {
        match head.noted[usize::from(pair.word)] {
            Some(row) => {
                let counts = counts_of(head.table, usize::from(row));
                add_counts(&mut self.weighed, counts, pair.weight);
            }
            None => self.completed = false,
        }
    }
}

// Reads the pairs of a certificate of the new edition, and sums them up. (Inner function.)
pub fn read_pairs(head: &TakenHead, reader: &mut Reader) -> Result<PairSums, Refusal>
    ensures read { ReadBy reader.old reader.new result (mapped (sums_for head.now) (pairs true (length (head_of head.now.net.bundle.now).entries))) }
    ensures bounded { IfOk result (λ sums. Bounded sums.weighed) }
{
    let count = reader.byte(|count| usize::from(count) <= MAX_PAIRS)?;
    let mut sums = PairSums {
        weighed: [0; MAX_EVENTS],
        completed: true,
    };
    for _pair in 0..count {
        let pair = reader.pair(head.noted.len())?;
        sums.add(head, &pair);
    }
    Ok(sums)
}
