// Sealing a bundle of 1 to 64,512 bytes. The contracts cite specs/Block.antt and specs/File.antt of `block`.
#![tactic(auto)]

pub mod building; // the blocks of a bundle

ghost use Rattle.std.specs.Prelude.{◌≡◌, length};
ghost use Rattle.refusals.specs.Answers.{answer, written};
ghost use Rattle.block.specs.File.{sealed};

use building::write_blocks;
use limits::size_fits;
use refusals::{Cause, Written};

// Seals a bundle: writes its sealed file to the front of the output and returns the file's length.
// Refuses with 4 or 3, and then leaves the output as it was.
pub fn seal(bundle: &[u8], output: &mut [u8]) -> Written
    ensures value { result ≡ answer (sealed bundle.now) (length output.old) }
    ensures output_after { output.new ≡ written (sealed bundle.now) output.old }
{
    let size = bundle.len();
    if !size_fits(size) {
        return Err(Cause::BundleLength.at(0));
    }
    let length = 512 * size.div_ceil(504);
    if output.len() < length {
        return Err(Cause::OutputShort.at(length));
    }
    write_blocks(bundle, output);
    Ok(length)
}
