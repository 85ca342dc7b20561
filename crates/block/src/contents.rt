// The bundle that a file holds that keeps the rules. (Inner functions.)
ghost use Rattle.std.specs.Prelude.{◌≡◌, ◌≤◌, length};
ghost use Rattle.laws.specs.Parts.{front};
ghost use Rattle.block.specs.Block.{used_count, used_contents};
ghost use Rattle.block.specs.File.{bundle_of, Sound};

use crate::rules::Block;
use slices::{number_at, write_at};

// A file that keeps the rules.
#[derive(Clone, Copy)]
pub struct SoundFile<'a> {
    pub bytes: &'a [u8],
    pub ghost sound: { Sound bytes.now },
}

// The contents that a block uses.
fn contents_of(block: &Block) -> &[u8]
    requires { used_count block.now ≤ 504 }
    ensures { result.now ≡ used_contents block.now }
{
    let used = usize::from(number_at(block, 2));
    &block[4..4 + used]
}

impl SoundFile<'_> {
    // The length of its bundle: every block but the last is full.
    pub fn bundle_length(self) -> usize
        ensures { result ≡ length (bundle_of self.entry.bytes.now) }
    {
        let (blocks, _) = self.bytes.as_chunks::<512>();
        let (last, full) = blocks.split_last().unwrap();
        504 * full.len() + contents_of(last).len()
    }

    // Writes its bundle to the front of the output, by offsets: nothing is known of a slice behind its `chunks_mut`.
    pub fn write_bundle(self, output: &mut [u8])
        requires { length (bundle_of self.bytes.now) ≤ length output.old }
        ensures { output.new ≡ front (bundle_of self.entry.bytes.now) output.old }
    {
        let (blocks, _) = self.bytes.as_chunks::<512>();
        for (k, block) in blocks.iter().enumerate() {
            write_at(output, 504 * k, contents_of(block));
        }
    }
}
