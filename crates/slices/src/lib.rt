// Inner functions on slices of bytes that several crates share: reading and writing numbers of two bytes, and bytes, at an offset.
#![tactic(auto)]

ghost use Rattle.std.specs.Prelude.{◌≡◌, ◌+◌, ◌≤◌, ◌<◌, length};
ghost use Rattle.laws.specs.Parts.{spliced};
ghost use Rattle.laws.specs.Numbers.{number_at, le16};

// The number in the two bytes at `at`, the low byte first.
#[tactic(auto, unfolding(laws::specs::Numbers::number_at))]
pub fn number_at(bytes: &[u8], at: usize) -> u16
    requires { at + 1 < length bytes.now }
    ensures { result ≡ number_at bytes.now at }
{
    u16::from_le_bytes([bytes[at], bytes[at + 1]])
}

// Copies `piece` into `output` from `at` on.
pub fn write_at(output: &mut [u8], at: usize, piece: &[u8])
    requires { at + length piece.now ≤ length output.old }
    ensures { output.new ≡ spliced at piece.now output.old }
{
    output[at..at + piece.len()].copy_from_slice(piece);
}

// Writes a number to the two bytes at `at`, the low byte first; of a number of more bytes the lowest two. A `usize`, since callers write lengths and
// positions, too: as a `u16` each would be cast.
pub fn write_number(output: &mut [u8], at: usize, number: usize)
    requires { at + 2 ≤ length output.old }
    ensures { output.new ≡ spliced at (le16 number) output.old }
{
    let [low, high, ..] = number.to_le_bytes();
    write_at(output, at, &[low, high]);
}
