// A bundle that was judged, read again without tests: its parts, and its words and certificates one by one. The contracts cite specs/Contents.antt.
// All are inner functions.
#![tactic(auto)]

pub mod certificates; // the certificates, one behind the other
pub mod words; // the words, likewise

ghost use Rattle.std.specs.Prelude.{◌≡◌, ◌+◌, ◌*◌, length};
ghost use mathlib.Core.List.{flat_map};
ghost use Rattle.bundles.specs.Layout.{first_in, front_bytes, place_bytes};
ghost use Rattle.bundles.specs.Keeping.{said};
ghost use Rattle.contents.specs.Contents.{IsBundle, contents_of, certificates_bytes};
ghost use Rattle.contents.specs.Parts.{IsBundle-prop};
ghost use Rattle.contents.specs.Walks.{AllToCome, AllWords};

use bundles::First;
use certificates::Certificates;
use limits::NEW_EDITION;
use words::Words;

// The parts of a bundle that was judged.
#[derive(Clone, Copy)]
pub struct Parts<'a> {
    pub bundle: &'a [u8],
    // The first byte and the log.
    pub front: &'a [u8],
    pub place_count: u8,
    // The places, of so many bytes each.
    pub places: &'a [u8],
    pub place_size: usize,
    // The certificates, and whether they are of the new edition.
    pub certificates: &'a [u8],
    pub is_new: bool,
    pub ghost judged: { IsBundle bundle.now } by { IsBundle-prop bundle.now },
    pub ghost front_is: { front.now ≡ front_bytes (contents_of bundle.now).head },
    pub ghost count_is: { place_count ≡ length (contents_of bundle.now).head.places },
    pub ghost places_are: { places.now ≡ flat_map place_bytes (contents_of bundle.now).head.places },
    pub ghost size_is: { place_size ≡ 2 * (1 + 2 * (contents_of bundle.now).head.events) },
    pub ghost certificates_are: { certificates.now ≡ certificates_bytes (contents_of bundle.now) },
    pub ghost edition_is: { is_new ≡ (contents_of bundle.now).head.is_new },
}

// What the first byte of a bundle says.
fn first(bundle: &[u8]) -> First
    requires { IsBundle bundle.now }
    ensures { said result ≡ first_in (contents_of bundle.now).head }
{
    let byte = bundle[0];
    First {
        is_new: NEW_EDITION <= byte,
        n: byte % NEW_EDITION,
    }
}

// The length of a bundle's front: where its words end.
fn front_length(bundle: &[u8], is_new: bool) -> usize
    requires judged { IsBundle bundle.now }
    requires edition { is_new ≡ (contents_of bundle.now).head.is_new }
    ensures { result ≡ length (front_bytes (contents_of bundle.now).head) }
{
    let marks = usize::from(is_new);
    let mut at = 2;
    for _word in 0..bundle[1] {
        at += 1 + marks + usize::from(bundle[at]);
    }
    at
}

impl<'a> Parts<'a> {
    // A bundle cut into its parts. That it was judged is asked where it is still whole, and a ghost field behind.
    pub fn of(bundle: &'a [u8]) -> Self
        requires { IsBundle bundle.now }
        ensures { result.bundle ≡ bundle.entry }
    {
        let first = first(bundle);
        let (front, rest) = bundle.split_at(front_length(bundle, first.is_new));
        let (place_count, rest) = rest.split_first().unwrap();
        let place_size = 2 * (1 + 2 * usize::from(first.n));
        let (places, certificates) = rest.split_at(usize::from(*place_count) * place_size);
        Parts {
            bundle,
            front,
            place_count: *place_count,
            places,
            place_size,
            certificates,
            is_new: first.is_new,
        }
    }

    // The words, one by one.
    pub fn each_word(&self) -> Words<'a>
        ensures { AllWords (contents_of self.now.bundle.now) result }
    {
        Words {
            rest: &self.front[2..],
            is_new: self.is_new,
        }
    }

    // The certificates, one by one.
    pub fn each_certificate(&self) -> Certificates<'a>
        ensures { AllToCome (contents_of self.now.bundle.now) result }
    {
        Certificates {
            rest: self.certificates,
            is_new: self.is_new,
        }
    }
}
