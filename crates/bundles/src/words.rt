// The words of a log: their marks in the new edition, and their events, each below n, at most 1,024 in the whole log. All are inner functions.
ghost use Rattle.std.specs.Prelude.{◌≡◌, ◌≤◌, length};
ghost use Rattle.limits.specs.Limits.{max_log_events};
ghost use Rattle.bundles.specs.Reading.{byte, times, following};
ghost use Rattle.bundles.specs.Readers.{any_rows, mark, entry, entry_after};
ghost use Rattle.bundles.specs.FieldReading.{below};
ghost use Rattle.bundles.specs.WordReading.{events_of};
ghost use Rattle.bundles.specs.Chains.{ReadAs, ReadBy, mapped};
ghost use Rattle.bundles.specs.Keeping.{said, marked};

use crate::{First, Reader};
use limits::MAX_LOG_EVENTS;
use places::first_bad;
use refusals::{Cause, Refusal};

// A word as a log lists it, and whether it is completed.
#[derive(Clone, Copy)]
pub struct Entry<'a> {
    pub word: &'a [u8],
    pub completed: bool,
}

impl<'a> Reader<'a> {
    // So many events. What the bundle has of them is tested as one word, since mostly none is bad.
    #[inline(always)]
    fn events(&mut self, size: u8, n: usize) -> Result<&'a [u8], Refusal>
        requires { self.old.at ≤ length self.old.bytes.now }
        ensures { ReadAs (λ w. w.now) self.old self.new result (times size (byte (below n))) }
    {
        let at = self.at;
        let size = usize::from(size);
        let end = self.bytes.len().min(at + size);
        let word = &self.bytes[at..end];
        if let Some(bad) = first_bad(word, n) {
            return Err(Cause::Value.at(at + bad));
        }
        if word.len() < size {
            return Err(Cause::BundleEnd.at(end));
        }
        self.at = end;
        Ok(word)
    }

    // The mark of a word: a byte in the new edition, 0 partial or 1 completed; none in the old one, where every word is partial.
    #[inline(always)]
    fn mark(&mut self, is_new: bool) -> Result<u8, Refusal>
        ensures { ReadBy self.old self.new result (mark is_new) }
    {
        if is_new {
            self.byte(|mark| mark <= 1)
        } else {
            Ok(0)
        }
    }

    // A word with its mark, where `events` come before it in the log.
    #[inline(always)]
    pub fn entry(&mut self, first: First, events: usize) -> Result<Entry<'a>, Refusal>
        requires { events ≤ max_log_events }
        ensures { ReadAs marked self.old self.new result (entry_after (said first) events) }
    {
        let at = self.at;
        let size = self.any_byte()?;
        if MAX_LOG_EVENTS - events < usize::from(size) {
            return Err(Cause::Events.at(at));
        }
        let mark = self.mark(first.is_new)?;
        let word = self.events(size, usize::from(first.n))?;
        Ok(Entry {
            word,
            completed: mark == 1,
        })
    }

    // The words of a log behind the bundle's first byte: how many events they have.
    #[inline(always)]
    pub fn words(&mut self, first: First, count: usize) -> Result<usize, Refusal>
        ensures { ReadBy self.old self.new result (mapped events_of (following count (entry (any_rows (said first).events) (said first)))) }
    {
        let mut events = 0;
        for _word in 0..count {
            events += self.entry(first, events)?.word.len();
        }
        Ok(events)
    }
}
