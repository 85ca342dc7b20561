// The fields of a certificate: its kind, and a term and a pair of its weights. All are inner functions.
ghost use Rattle.std.specs.Prelude.{◌≡◌, leb};
ghost use Rattle.bundles.specs.Reading.{byte};
ghost use Rattle.bundles.specs.Readers.{term, pair};
ghost use Rattle.bundles.specs.Chains.{ReadAs};
ghost use Rattle.bundles.specs.TermReading.{kind_number, term_fields, pair_fields};

use crate::Reader;
use refusals::{Cause, Refusal};

// What a certificate shows a wrong continuation by: a place that refuses it, or weights.
#[derive(Clone, Copy)]
pub enum Kind {
    Place = 0,
    Weights = 1,
}

impl From<Kind> for u8 {
    ghost from_gives = { λ kind number. number ≡ kind_number kind };

    fn from(kind: Kind) -> u8 {
        // Its discriminant, to which a cast is the one way.
        kind as u8
    }
}

// A term: the number of a row, an event and a weight.
#[derive(Clone, Copy)]
pub struct Term {
    pub row: u16,
    pub event: u8,
    pub weight: u16,
}

// A pair: the number of a word, and a signed weight as its two bytes say it.
#[derive(Clone, Copy)]
pub struct Pair {
    pub word: u8,
    pub weight: u16,
}

impl<'a> Reader<'a> {
    // The kind of a certificate. Another byte is refused where it stands: a `TryFrom` would hand its caller an error that says less.
    #[inline(always)]
    pub fn kind(&mut self) -> Result<Kind, Refusal>
        ensures { ReadAs kind_number self.old self.new result (byte (λ kind. leb kind 1)) }
    {
        let at = self.at;
        match self.any_byte()? {
            0 => Ok(Kind::Place),
            1 => Ok(Kind::Weights),
            _ => Err(Cause::Value.at(at)),
        }
    }

    // A term, where there are so many rows and n events.
    pub fn term(&mut self, n: usize, rows: usize) -> Result<Term, Refusal>
        ensures { ReadAs term_fields self.old self.new result (term n rows) }
    {
        let row = self.number(|row| usize::from(row) < rows)?;
        let event = self.byte(|event| usize::from(event) < n)?;
        let weight = self.any_number()?;
        Ok(Term { row, event, weight })
    }

    // A pair, where there are so many words.
    #[inline(always)]
    pub fn pair(&mut self, words: usize) -> Result<Pair, Refusal>
        ensures { ReadAs pair_fields self.old self.new result (pair words) }
    {
        let word = self.byte(|word| usize::from(word) < words)?;
        let weight = self.any_number()?;
        Ok(Pair { word, weight })
    }
}
