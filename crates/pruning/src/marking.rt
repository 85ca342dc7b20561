// Marks for the places that certificates name. All are inner functions.
ghost use Rattle.std.specs.Prelude.{◌≡◌, ◌≤◌, length};
ghost use Rattle.laws.specs.Ranks.{rank};
ghost use Rattle.limits.specs.Limits.{max_places};
ghost use Rattle.bundles.specs.Layout.{bytes_of};
ghost use Rattle.contents.specs.Contents.{IsBundle, contents_of};
ghost use Rattle.pruning.specs.Pruning.{pruned};
ghost use Rattle.pruning.specs.Marking.{marks_of, marked};

use contents::Parts;
use contents::certificates::Certificate;
use limits::MAX_PLACES;

// A mark for each place.
pub type Marks = [bool; MAX_PLACES];

// A bundle's parts, with a mark for each place that a certificate names, and how many of its places have one.
#[derive(Clone, Copy)]
pub struct Marked<'a> {
    pub parts: Parts<'a>,
    pub marks: Marks,
    pub kept: u8,
    pub ghost marks_are: { marks ≡ marks_of (contents_of parts.bundle.now).certificates },
    pub ghost kept_is: { kept ≡ length (pruned (contents_of parts.bundle.now)).head.places },
}

// Marks the places that the certificates name.
pub fn mark_places(parts: &Parts) -> Marks
    ensures { result ≡ marks_of (contents_of parts.now.bundle.now).certificates }
{
    let mut marks = [false; MAX_PLACES];
    for certificate in parts.each_certificate() {
        if let Certificate::Place(place) = certificate {
            marks[usize::from(place)] = true;
        }
    }
    marks
}

// How many of the first places are marked.
pub fn count_marked(marks: &Marks, count: usize) -> usize
    requires { count ≤ max_places }
    ensures { result ≡ rank (marked marks.now) count }
{
    marks.iter().take(count).filter(|mark| **mark).count()
}

impl<'a> Marked<'a> {
    pub fn of(bundle: &'a [u8]) -> Self
        requires { IsBundle bundle.now }
        ensures { result.parts.bundle ≡ bundle.entry }
    {
        let parts = Parts::of(bundle);
        let marks = mark_places(&parts);
        let kept = count_marked(&marks, parts.place_count.into()) as u8;
        Marked { parts, marks, kept }
    }

    // How many places are kept: 64 at most.
    pub fn kept(&self) -> u8
        ensures { result ≡ length (pruned (contents_of self.now.parts.bundle.now)).head.places }
    {
        self.kept
    }

    // The length of the pruned bundle.
    pub fn pruned_length(&self) -> usize
        ensures { result ≡ length (bytes_of (pruned (contents_of self.now.parts.bundle.now))) }
    {
        let places = usize::from(self.kept) * self.parts.place_size;
        self.parts.front.len() + 1 + places + self.parts.certificates.len()
    }
}
