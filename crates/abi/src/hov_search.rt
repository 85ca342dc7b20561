// The search for a word.
ghost use Rattle.std.specs.Prelude.{◌≡◌};
ghost use Rattle.search.specs.Searching.{reaching, sized, word_written};
ghost use Rattle.numbers.specs.Numbers.{sized_number, with_size};

use limits::MAX_REACH_EVENTS;
use numbers::handed;

// A shortest word of at most five events that leads to a wanted event: the net of a bundle permits the word, and that event behind it. `word` is
// five bytes: the word's events are put at the front, a byte each, and the rest stays. answer[0]: how many events it has. Returns 257, and `word`
// and `answer` stay, where there is no such word.
#[unsafe(no_mangle)]
pub extern "C" fn hov_reach(
    bundle: &[u8],
    wanted: usize,
    word: &mut [u8; MAX_REACH_EVENTS],
    answer: &mut [u64; 4],
) -> u32
    ensures value { result ≡ sized_number (sized (reaching bundle.now wanted)) }
    ensures word_after { word.new ≡ word_written (reaching bundle.now wanted) word.old }
    ensures answer_after { answer.new ≡ with_size answer.old (sized (reaching bundle.now wanted)) }
{
    handed(search::reach_into(bundle, wanted, word), answer)
}
