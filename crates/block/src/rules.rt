// What a block and a file must keep to be taken. (Inner functions.)
ghost use Rattle.std.specs.Prelude.{◌≡◌};
ghost use Rattle.laws.specs.Lists.{all};
ghost use Rattle.block.specs.Block.{is_zero, right_count, right_use, right_sums, fault};
ghost use Rattle.block.specs.File.{first_fault, right_length};
ghost use Rattle.block.specs.Faults.{fault_number, as_result};

use limits::MAX_FILE_SIZE;
use refusals::{Cause, Refusal};
use slices::number_at;
use sums::{Sums, sums_of};

// The bytes of a block: its number, its used count, 504 bytes of contents and the two sums of all these.
pub type Block = [u8; 512];

#[tactic(auto, unfolding(laws::specs::Lists::all))]
fn all_zero(bytes: &[u8]) -> bool
    ensures { result ≡ all is_zero bytes.now }
{
    bytes.iter().all(|byte| *byte == 0)
}

// Whether a block may use `used` bytes. `last` is a fact about the block, as in the definition, and so it is where it is handed on to here.
#[tactic(auto, unfolding(crate::specs::Block::right_count))]
fn count_fits(used: u16, last: bool) -> bool
    ensures { result ≡ right_count last used }
{
    if last {
        (1..=504).contains(&used)
    } else {
        used == 504
    }
}

// Whether a block uses as many bytes as it may, and those that it does not use are zero.
fn use_fits(block: &Block, last: bool) -> bool
    ensures { result ≡ right_use last block.now }
{
    let used = number_at(block, 2);
    count_fits(used, last) && all_zero(&block[4 + usize::from(used)..508])
}

#[tactic(auto, unfolding(crate::specs::Block::right_sums))]
fn sums_match(block: &Block) -> bool
    ensures { result ≡ right_sums block.now }
{
    let written = Sums {
        plain: number_at(block, 508),
        position: number_at(block, 510),
    };
    written == sums_of(block.first_chunk().unwrap())
}

// The first rule that a block breaks, if it does: an Option of a cause, since `fault` of the definitions is the number of a cause alone.
fn fault_of(block: &Block, number: usize, last: bool) -> Option<Cause>
    ensures { fault_number result ≡ fault last number block.now }
{
    if usize::from(number_at(block, 0)) != number {
        return Some(Cause::BlockNumber);
    }
    if !use_fits(block, last) {
        return Some(Cause::BlockUse);
    }
    if !sums_match(block) {
        return Some(Cause::BlockSums);
    }
    None
}

// Whether a file may have this length.
#[tactic(auto, unfolding(crate::specs::File::right_length))]
pub fn length_fits(size: usize) -> bool
    ensures { result ≡ right_length size }
{
    (1..=MAX_FILE_SIZE).contains(&size) && size % 512 == 0
}

// Refuses the lowest block with a fault, if there is one.
pub fn first_fault(file: &[u8]) -> Result<(), Refusal>
    ensures { result ≡ as_result (first_fault file.now) }
{
    let (blocks, _) = file.as_chunks::<512>();
    for (k, block) in blocks.iter().enumerate() {
        if let Some(cause) = fault_of(block, k, k + 1 == blocks.len()) {
            return Err(cause.at(k));
        }
    }
    Ok(())
}
