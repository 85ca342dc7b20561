// Opening and sealing.
ghost use Rattle.std.specs.Prelude.{◌≡◌, length};
ghost use Rattle.refusals.specs.Answers.{answer as answer_to, written, number_of};
ghost use Rattle.block.specs.File.{opened, sealed};
ghost use Rattle.numbers.specs.Numbers.{with_value};

use numbers::handed;

// Opens a sealed file. answer[0]: the length of the bundle, in front of the output.
#[unsafe(no_mangle)]
pub extern "C" fn hov_open(file: &[u8], output: &mut [u8], answer: &mut [u64; 4]) -> u32
    ensures value { result ≡ number_of (answer_to (opened file.now) (length output.old)) }
    ensures output_after { output.new ≡ written (opened file.now) output.old }
    ensures answer_after { answer.new ≡ with_value answer.old (answer_to (opened file.now) (length output.old)) }
{
    handed(block::open(file, output), answer)
}

// Seals a bundle. answer[0]: the length of the sealed file, in front of the output.
#[unsafe(no_mangle)]
pub extern "C" fn hov_seal(bundle: &[u8], output: &mut [u8], answer: &mut [u64; 4]) -> u32
    ensures value { result ≡ number_of (answer_to (sealed bundle.now) (length output.old)) }
    ensures output_after { output.new ≡ written (sealed bundle.now) output.old }
    ensures answer_after { answer.new ≡ with_value answer.old (answer_to (sealed bundle.now) (length output.old)) }
{
    handed(sealing::seal(bundle, output), answer)
}
