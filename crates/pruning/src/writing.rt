// The parts of a pruned bundle, written one behind the other. All are inner functions.
ghost use Rattle.std.specs.Prelude.{◌≡◌, ◌≤◌, length};
ghost use mathlib.Core.List.{flat_map};
ghost use Rattle.laws.specs.Lists.{tabulate};
ghost use Rattle.laws.specs.Parts.{front};
ghost use Rattle.laws.specs.Ranks.{rank};
ghost use Rattle.limits.specs.Limits.{max_places};
ghost use Rattle.bundles.specs.Layout.{place_bytes, bytes_of};
ghost use Rattle.contents.specs.Contents.{contents_of, certificates_bytes};
ghost use Rattle.pruning.specs.Pruning.{pruned};
ghost use Rattle.pruning.specs.Marking.{marked};
ghost use Rattle.writer.specs.Pushing.{HasRoom, Pushed};

use crate::marking::{Marked, Marks};
use bundles::terms::Kind;
use contents::certificates::Certificate;
use limits::MAX_PLACES;
use writer::Writer;

// The new number of each place: how many before it are marked.
pub fn numbers_of(marks: &Marks) -> [u8; MAX_PLACES]
    ensures { result ≡ tabulate max_places (rank (marked marks.now)) }
{
    let mut numbers = [0; MAX_PLACES];
    let mut next = 0;
    for (j, number) in numbers.iter_mut().enumerate() {
        *number = next;
        next += u8::from(marks[j]);
    }
    numbers
}

impl Marked<'_> {
    // The new number of each place.
    pub fn numbers(&self) -> [u8; MAX_PLACES]
        ensures { result ≡ tabulate max_places (rank (marked self.now.marks)) }
    {
        numbers_of(&self.marks)
    }

    // The places that are marked, as they are.
    pub fn write_places(&self, writer: &mut Writer)
        requires { HasRoom writer.old (flat_map place_bytes (pruned (contents_of self.now.parts.bundle.now)).head.places) }
        ensures { Pushed writer.old writer.new (flat_map place_bytes (pruned (contents_of self.now.parts.bundle.now)).head.places) }
    {
        let places = self.parts.places.chunks_exact(self.parts.place_size);
        for (place, mark) in places.zip(&self.marks) {
            if *mark {
                writer.push(place);
            }
        }
    }

    // The certificates, with the new numbers of their places.
    pub fn write_certificates(&self, writer: &mut Writer)
        requires { HasRoom writer.old (certificates_bytes (pruned (contents_of self.now.parts.bundle.now))) }
        ensures { Pushed writer.old writer.new (certificates_bytes (pruned (contents_of self.now.parts.bundle.now))) }
    {
        let numbers = self.numbers();
        for certificate in self.parts.each_certificate() {
            match certificate {
                Certificate::Place(place) => writer.push(&[
                    u8::from(Kind::Place),
                    numbers[usize::from(place)],
                ]),
                Certificate::Weights(bytes) => writer.push(bytes),
            }
        }
    }

    // Writes the pruned bundle to the front of the output: the first byte and the log, the place count, the places, the certificates.
    pub fn write(&self, output: &mut [u8])
        requires { length (bytes_of (pruned (contents_of self.now.parts.bundle.now))) ≤ length output.old }
        ensures { output.new ≡ front (bytes_of (pruned (contents_of self.now.parts.bundle.now))) output.old }
    {
        let mut writer = Writer { output, end: 0 };
        writer.push(self.parts.front);
        writer.push(&[self.kept]);
        self.write_places(&mut writer);
        self.write_certificates(&mut writer);
    }
}
