// Sealed files: 1 to 128 blocks of 512 bytes that hold a bundle of 1 to 64,512 bytes.
// The contracts cite specs/Block.antt, a block, and specs/File.antt, a file.
#![tactic(auto)]

pub mod contents; // the bundle of a file
pub mod rules; // what a block and a file must keep

ghost use Rattle.std.specs.Prelude.{◌≡◌, length};
ghost use Rattle.refusals.specs.Answers.{answer, written};
ghost use Rattle.block.specs.File.{opened};

use contents::SoundFile;
use refusals::{Cause, Written};
use rules::{first_fault, length_fits};

// Opens a sealed file: writes its bundle to the front of the output and returns the bundle's length.
// Refuses with 1; then, for the lowest faulty block, with 17, 18 or 2; then with 3. A refusal leaves the output as it was.
#[tactic(auto, using(crate::specs::OpenEnds::fault_told))]
pub fn open(file: &[u8], output: &mut [u8]) -> Written
    ensures value { result ≡ answer (opened file.now) (length output.old) }
    ensures output_after { output.new ≡ written (opened file.now) output.old }
{
    if !length_fits(file.len()) {
        return Err(Cause::FileLength.at(0));
    }
    first_fault(file)?;
    let sound = SoundFile { bytes: file };
    let length = sound.bundle_length();
    if output.len() < length {
        return Err(Cause::OutputShort.at(length));
    }
    sound.write_bundle(output);
    Ok(length)
}
