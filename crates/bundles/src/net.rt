// The places of a net. Any two bytes are a number, so they are there when so many numbers are. All are inner functions.
ghost use Rattle.std.specs.Prelude.{◌≡◌, cond, ◌+◌, ◌*◌, ◌≤◌, ◌<◌, ltb, length, drop};
ghost use Rattle.laws.specs.Numbers.{number_at};
ghost use Rattle.limits.specs.Limits.{max_events, max_places};
ghost use Rattle.bundles.specs.Readers.{places};
ghost use Rattle.bundles.specs.PlaceReading.{place_size, numbers_at, fields_at, place_there, widened, machine_place, placed};

use crate::Reader;
use limits::{MAX_EVENTS, MAX_PLACES};
use places::Place;
use refusals::{Cause, Refusal};
use slices::number_at;

// The places of a bundle over n events: how many they are, and the offset of the first.
#[derive(Clone, Copy)]
pub struct Net<'a> {
    pub bundle: &'a [u8],
    pub n: u8,
    pub count: usize,
    pub first: usize,
    pub ghost limit: { n ≤ max_events },
    pub ghost few: { count ≤ max_places },
    pub ghost inside: { first + 2 * (count * place_size n) ≤ length bundle.now },
}

impl<'a> Reader<'a> {
    ghost use Rattle.bundles.specs.Chains.{ReadAs};
    ghost use Rattle.bundles.specs.Keeping.{kept};

    // The place count, and the places of n events behind it.
    #[inline(always)]
    pub fn places(&mut self, n: u8) -> Result<Net<'a>, Refusal>
        requires { n ≤ max_events }
        ensures { ReadAs kept self.old self.new result (placed self.old.bytes n (places n)) }
    {
        let count = usize::from(self.byte(|k| usize::from(k) <= MAX_PLACES)?);
        let first = self.at;
        let left = self.numbers_left();
        let numbers = count * (1 + 2 * usize::from(n));
        if left < numbers {
            return Err(Cause::BundleEnd.at(first + 2 * left));
        }
        self.at = first + 2 * numbers;
        Ok(Net {
            bundle: self.bytes,
            n,
            count,
            first,
        })
    }
}

// A number of event i, or zero where there are only n events.
fn kept(number: u16, i: usize, n: usize) -> u16
    ensures { result ≡ cond (ltb i n) number 0 }
{
    if i < n { number } else { 0 }
}

// The numbers of n events from an offset on; zero from n on. Twelve numbers stand behind it, of which the first n are kept: a loop of n turns
// becomes calls that copy and clear memory, which take longer than a row does.
fn row_within(bundle: &[u8], at: usize, n: usize) -> [u16; MAX_EVENTS]
    requires { (n ≤ max_events) × (at + 2 * max_events ≤ length bundle.now) }
    ensures { result ≡ widened (numbers_at n bundle.now at) }
{
    let mut row = [0u16; MAX_EVENTS];
    for (i, number) in row.iter_mut().enumerate() {
        *number = kept(number_at(bundle, at + 2 * i), i, n);
    }
    row
}

// The same, where the bundle may end behind the numbers.
fn row_at_end(bundle: &[u8], at: usize, n: usize) -> [u16; MAX_EVENTS]
    requires { (n ≤ max_events) × (at + 2 * n ≤ length bundle.now) }
    ensures { result ≡ widened (numbers_at n bundle.now at) }
{
    let mut row = [0u16; MAX_EVENTS];
    for (i, number) in row[..n].iter_mut().enumerate() {
        *number = number_at(bundle, at + 2 * i);
    }
    row
}

// The same, anywhere in a bundle.
#[inline(always)]
fn row_at(bundle: &[u8], at: usize, n: usize) -> [u16; MAX_EVENTS]
    requires { (n ≤ max_events) × (at + 2 * n ≤ length bundle.now) }
    ensures { result ≡ widened (numbers_at n bundle.now at) }
{
    if bundle.len() - at < 2 * MAX_EVENTS {
        return row_at_end(bundle, at, n);
    }
    row_within(bundle, at, n)
}

impl<'a> Net<'a> {
    ghost use Rattle.bundles.specs.Keeping.{kept, place_spot, PlacesOf};

    // The offset of place j, or the one behind the last place.
    #[inline(always)]
    pub fn offset(&self, j: usize) -> usize
        requires { j ≤ self.now.count }
        ensures { result ≡ place_spot self.now j }
    {
        self.first + 2 * (j * (1 + 2 * usize::from(self.n)))
    }

    // Place j.
    #[inline(always)]
    pub fn place(&self, j: usize) -> Place
        requires { j < self.now.count }
        ensures { result ≡ machine_place (fields_at self.now.n self.now.bundle.now (place_spot self.now j)) }
    {
        let at = self.offset(j);
        let n = usize::from(self.n);
        Place {
            initial: number_at(self.bundle, at),
            produced: row_at(self.bundle, at + 2, n),
            consumed: row_at(self.bundle, at + 2 + 2 * n, n),
        }
    }

    // The initial tokens of place j alone.
    #[inline(always)]
    pub fn initial(&self, j: usize) -> u16
        requires { j < self.now.count }
        ensures { result ≡ number_at self.now.bundle.now (place_spot self.now j) }
    {
        number_at(self.bundle, self.offset(j))
    }

    // The tokens that event e puts into place j, alone.
    #[inline(always)]
    pub fn produced(&self, j: usize, e: usize) -> u16
        requires { (j < self.now.count) × (e < self.now.n) }
        ensures { result ≡ (place_there (kept self.now) j).produced e }
    {
        number_at(self.bundle, self.offset(j) + 2 * (1 + e))
    }

    // Those that it takes from place j.
    #[inline(always)]
    pub fn consumed(&self, j: usize, e: usize) -> u16
        requires { (j < self.now.count) × (e < self.now.n) }
        ensures { result ≡ (place_there (kept self.now) j).consumed e }
    {
        number_at(
            self.bundle,
            self.offset(j) + 2 * (1 + usize::from(self.n) + e),
        )
    }

    // Writes the places to the front of a list, by number, so that each is read once.
    pub fn read_places(&self, places: &mut [Place; MAX_PLACES])
        ensures listed { PlacesOf self.now places.new }
        ensures rest { drop self.now.count places.new ≡ drop self.now.count places.old }
    {
        for (j, place) in places[..self.count].iter_mut().enumerate() {
            *place = self.place(j);
        }
    }
}
