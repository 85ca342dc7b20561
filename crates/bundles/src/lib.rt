// Reading a bundle: fields, words and places, one behind the other. The contracts cite specs/Readers.antt.
// All are inner functions.
#![tactic(auto)]

pub mod fields; // a byte, a number
pub mod net; // the places of a net, and one of them
pub mod terms; // a certificate's kind, a term, a pair
pub mod words; // a word with its mark, the words of a log

ghost use Rattle.std.specs.Prelude.{◌≡◌};
ghost use Rattle.bundles.specs.Readers.{any_rows, first, head, bundle_head};
ghost use Rattle.bundles.specs.Chains.{ReadAs};
ghost use Rattle.bundles.specs.HeadReading.{headed, head_read};
ghost use Rattle.bundles.specs.Keeping.{said, kept, kept_answer};

use limits::{MAX_EVENTS, NEW_EDITION, size_fits};
use net::Net;
use refusals::{Cause, Refusal};

// The bytes of a bundle, and the offset of the field that is read next. Behind a refusal the offset says nothing: the bundle is refused as a whole.
#[derive(Clone, Copy)]
pub struct Reader<'a> {
    pub bytes: &'a [u8],
    pub at: usize,
}

// What the first byte of a bundle says: whether it is of the new edition, which marks its words, and n.
#[derive(Clone, Copy)]
pub struct First {
    pub is_new: bool,
    pub n: u8,
}

impl<'a> Reader<'a> {
    // The first byte of a bundle: n, the event count, and in the new edition 128 more.
    #[inline(always)]
    pub fn first(&mut self) -> Result<First, Refusal>
        ensures { ReadAs said self.old self.new result first }
    {
        let byte = self.byte(|x| (1..=MAX_EVENTS).contains(&usize::from(x % NEW_EDITION)))?;
        Ok(First {
            is_new: NEW_EDITION <= byte,
            n: byte % NEW_EDITION,
        })
    }

    // The fields of a bundle up to its last place.
    #[inline(always)]
    fn head(&mut self) -> Result<Net<'a>, Refusal>
        ensures { ReadAs kept self.old self.new result (headed self.old.bytes (head any_rows)) }
    {
        let first = self.first()?;
        let count = self.any_byte()?;
        self.words(first, usize::from(count))?;
        self.places(first.n)
    }
}

// A bundle up to its last place: its length, then its fields.
#[inline(always)]
pub fn read_head(bundle: &[u8]) -> Result<Net, Refusal>
    ensures { kept_answer result ≡ head_read bundle.entry (bundle_head bundle.now 0) }
{
    if !size_fits(bundle.len()) {
        return Err(Cause::BundleLength.at(0));
    }
    let mut reader = Reader {
        bytes: bundle,
        at: 0,
    };
    reader.head()
}
