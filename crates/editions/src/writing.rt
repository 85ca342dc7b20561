// A bundle's parts, written one behind the other in an edition. All are inner functions.
ghost use Rattle.std.specs.Prelude.{◌≡◌, ◌≤◌, length};
ghost use mathlib.Core.List.{flat_map};
ghost use Rattle.laws.specs.Every.{Every};
ghost use Rattle.laws.specs.Parts.{front};
ghost use Rattle.nets.specs.Entries.{NoneCompleted};
ghost use Rattle.bundles.specs.Layout.{entry_bytes, certificate_bytes, bytes_of};
ghost use Rattle.verdicts.specs.OldEdition.{NoPairs};
ghost use Rattle.contents.specs.Contents.{contents_of};
ghost use Rattle.editions.specs.Converting.{in_edition};
ghost use Rattle.editions.specs.EditionLaws.{Convertible};
ghost use Rattle.writer.specs.Pushing.{HasRoom, Pushed};

use bundles::terms::Kind;
use contents::Parts;
use contents::certificates::Certificate;
use limits::NEW_EDITION;
use writer::Writer;

// The mark of a word that is not completed, and the count of no pairs: each a byte that the new edition has and the old one has not.
const PARTIAL: u8 = 0;

const NO_PAIRS: u8 = 0;

// The words, of which none is completed.
fn write_words(parts: &Parts, is_new: bool, writer: &mut Writer)
    requires partial { NoneCompleted (contents_of parts.now.bundle.now).head.entries }
    requires room { HasRoom writer.old (flat_map (entry_bytes is_new) (contents_of parts.now.bundle.now).head.entries) }
    ensures { Pushed writer.old writer.new (flat_map (entry_bytes is_new) (contents_of parts.now.bundle.now).head.entries) }
{
    for word in parts.each_word() {
        writer.push(&[word.events.len() as u8, PARTIAL][..1 + usize::from(is_new)]);
        writer.push(word.events);
    }
}

// The certificates, of which none has pairs.
fn write_certificates(parts: &Parts, is_new: bool, writer: &mut Writer)
    requires pairs { Every NoPairs (contents_of parts.now.bundle.now).certificates }
    requires room { HasRoom writer.old (flat_map (certificate_bytes is_new) (contents_of parts.now.bundle.now).certificates) }
    ensures { Pushed writer.old writer.new (flat_map (certificate_bytes is_new) (contents_of parts.now.bundle.now).certificates) }
{
    for certificate in parts.each_certificate() {
        match certificate {
            Certificate::Place(place) => writer.push(&[u8::from(Kind::Place), place]),
            Certificate::Weights(bytes) => {
                let terms = bytes.len() - usize::from(parts.is_new);
                writer.push(&bytes[..terms]);
                writer.push(&[NO_PAIRS][..usize::from(is_new)]);
            }
        }
    }
}

// Writes a bundle to the front of the output, in an edition.
pub fn write_in_edition(parts: &Parts, is_new: bool, output: &mut [u8])
    requires plain { Convertible (contents_of parts.now.bundle.now) }
    requires room { length (bytes_of (in_edition is_new (contents_of parts.now.bundle.now))) ≤ length output.old }
    ensures { output.new ≡ front (bytes_of (in_edition is_new (contents_of parts.now.bundle.now))) output.old }
{
    let first = parts.front[0] % NEW_EDITION + NEW_EDITION * u8::from(is_new);
    let mut writer = Writer { output, end: 0 };
    writer.push(&[first, parts.front[1]]);
    write_words(parts, is_new, &mut writer);
    writer.push(&[parts.place_count]);
    writer.push(parts.places);
    write_certificates(parts, is_new, &mut writer);
}
