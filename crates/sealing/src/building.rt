// The blocks of a bundle, each written where it stands in the output. (Inner functions.)
ghost use Rattle.std.specs.Prelude.{◌≡◌, ◌*◌, ◌≤◌, length};
ghost use Rattle.laws.specs.Parts.{front};
ghost use Rattle.limits.specs.Limits.{max_bundle_size};
ghost use Rattle.block.specs.Block.{block};
ghost use Rattle.block.specs.File.{blocks_for, sealed_file};

use slices::{write_at, write_number};
use sums::sums_of;

// Writes the block of a number and contents: both, the used count, zeros behind the contents, and the sums of all these.
fn write_block(output: &mut [u8], number: usize, contents: &[u8])
    requires { (length output.old ≡ 512) × (length contents.now ≤ 504) }
    ensures { output.new ≡ block number contents.now }
{
    let used = contents.len();
    write_number(output, 0, number);
    write_number(output, 2, used);
    write_at(output, 4, contents);
    output[4 + used..508].fill(0);
    let sums = sums_of(output.first_chunk().unwrap());
    write_number(output, 508, sums.plain.into());
    write_number(output, 510, sums.position.into());
}

// Writes the blocks of a bundle to the front of the output. Each is cut out by its offset: nothing is known of a slice behind its `chunks_mut`.
pub fn write_blocks(bundle: &[u8], output: &mut [u8])
    requires in_bounds { (1 ≤ length bundle.now) × (length bundle.now ≤ max_bundle_size) }
    requires bundle_in_bounds { 512 * blocks_for (length bundle.now) ≤ length output.old }
    ensures { output.new ≡ front (sealed_file bundle.now) output.old }
{
    for (k, part) in bundle.chunks(504).enumerate() {
        write_block(&mut output[512 * k..512 * (k + 1)], k, part);
    }
}
