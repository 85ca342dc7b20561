// The certificates of a bundle that was judged, one behind the other.
ghost use Rattle.std.specs.Prelude.{◌≡◌, ◌≤◌, true, length};
ghost use Rattle.contents.specs.Certificates.{pieces, weights_size, whole};

use bundles::terms::Kind;

// A certificate: the place that it names, or weights, by all their bytes.
#[derive(Clone, Copy)]
pub enum Certificate<'a> {
    Place(u8),
    Weights(&'a [u8]),
}

// The bytes of the certificates that are still to come, and whether they are of the new edition, where weights have pairs.
#[derive(Drop)]
pub struct Certificates<'a> {
    pub rest: &'a [u8],
    pub is_new: bool,
    pub ghost whole: { whole is_new rest.now ≡ true },
}

// How many bytes weights have that stand in front of others: behind their terms are pairs in the new edition.
#[inline(always)]
fn weights_size(bytes: &[u8], is_new: bool) -> usize
    requires { weights_size is_new bytes.now ≤ length bytes.now }
    ensures { result ≡ weights_size is_new bytes.now }
{
    let terms = 4 + 5 * usize::from(bytes[3]);
    if is_new {
        terms + 1 + 3 * usize::from(bytes[terms])
    } else {
        terms
    }
}

impl<'a> Iterator for Certificates<'a> {
    type Item = Certificate<'a>;

    ghost use Rattle.std.specs.Iterator.{YieldsFirstBy, item_count};
    ghost use Rattle.contents.specs.Shown.{shown};

    ghost next_gives = { YieldsFirstBy shown (λ s. pieces s.is_new s.rest.now) };

    ghost remaining = { item_count (λ s. pieces s.is_new s.rest.now) };

    #[inline(always)]
    fn next(&mut self) -> Option<Certificate<'a>> {
        if *self.rest.first()? == u8::from(Kind::Place) {
            let (certificate, rest) = self.rest.split_at(2);
            self.rest = rest;
            return Some(Certificate::Place(certificate[1]));
        }
        let size = weights_size(self.rest, self.is_new);
        let (certificate, rest) = self.rest.split_at(size);
        self.rest = rest;
        Some(Certificate::Weights(certificate))
    }
}
