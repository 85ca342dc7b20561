// Screening.
ghost use Rattle.std.specs.Prelude.{◌≡◌};
ghost use Rattle.screening.specs.Screening.{screened, screened_joined, screened_number};
ghost use Rattle.numbers.specs.Numbers.{with_screened};

use numbers::handed;

// Screens a word with a bundle. Returns 256 where the word is stopped: answer[0] to [2] are then the position of the first refused step, the
// lowest place that refuses it, and how many tokens that place lacks there.
#[unsafe(no_mangle)]
pub extern "C" fn hov_screen(bundle: &[u8], word: &[u8], answer: &mut [u64; 4]) -> u32
    ensures value { result ≡ screened_number (screened bundle.now word.now) }
    ensures answer_after { answer.new ≡ with_screened answer.old (screened bundle.now word.now) }
{
    handed(screening::screen(bundle, word), answer)
}

// Screens a word with the places of two bundles, those of the first one first. Returns as `hov_screen` does; the places of the second bundle
// are numbered behind those of the first.
#[unsafe(no_mangle)]
pub extern "C" fn hov_screen_joined(
    first: &[u8],
    second: &[u8],
    word: &[u8],
    answer: &mut [u64; 4],
) -> u32
    ensures value { result ≡ screened_number (screened_joined first.now second.now word.now) }
    ensures answer_after { answer.new ≡ with_screened answer.old (screened_joined first.now second.now word.now) }
{
    handed(screening::screen_joined(first, second, word), answer)
}
