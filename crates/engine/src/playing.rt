// One event on the places of a bundle that was read. The contracts cite specs/Playing.antt. All are inner functions.
ghost use Rattle.std.specs.Prelude.{◌≡◌, ℕ, ◌≤◌, ◌<◌, length, get_or};
ghost use Rattle.laws.specs.Parts.{front};
ghost use Rattle.nets.specs.Carrying.{initials, AllEnough, tokens_behind, play as played};
ghost use Rattle.engine.specs.Playing.{places_of, Ready, lack_in, left_by};

use bundles::net::Net;
use places::{covers, shortfall, surplus};

// The lowest place that has too few tokens for an event, and how many it lacks.
#[derive(Clone, Copy)]
pub struct Lack {
    pub place: usize,
    pub shortfall: u64,
}

// Writes the initial tokens of the places to the front of the numbers.
pub fn write_initial(net: &Net, tokens: &mut [u64])
    requires { net.now.count ≤ length tokens.old }
    ensures written { tokens.new ≡ front (initials (places_of net.now)) tokens.old }
    ensures most { (j : ℕ) → j < net.now.count → get_or tokens.new j 0 ≤ 65535 }
{
    for (j, held) in tokens[..net.count].iter_mut().enumerate() {
        *held = u64::from(net.initial(j));
    }
}

// The lowest place that has too few tokens for an event.
fn find_short(net: &Net, tokens: &[u64], event: usize) -> Option<Lack>
    requires { Ready net.now tokens.now event }
    ensures { result ≡ lack_in (played (places_of net.now) tokens.now event) }
{
    for j in 0..net.count {
        let held = tokens[j] as i64;
        let consumed = net.consumed(j, event);
        if !covers(held, consumed) {
            return Some(Lack {
                place: j,
                shortfall: shortfall(surplus(held, consumed)),
            });
        }
    }
    None
}

// Moves the tokens of the places, which are enough for an event.
fn move_tokens(net: &Net, tokens: &mut [u64], event: usize)
    requires ready { Ready net.now tokens.old event }
    requires enough { AllEnough (places_of net.now) tokens.old event }
    ensures { tokens.new ≡ front (tokens_behind (places_of net.now) tokens.old event) tokens.old }
{
    for (j, held) in tokens[..net.count].iter_mut().enumerate() {
        *held = *held - u64::from(net.consumed(j, event)) + u64::from(net.produced(j, event));
    }
}

// Plays an event: all places are tested before a token is moved. None where every place has enough.
pub fn play(net: &Net, tokens: &mut [u64], event: usize) -> Option<Lack>
    requires { Ready net.now tokens.old event }
    ensures value { result ≡ lack_in (played (places_of net.now) tokens.old event) }
    ensures tokens_after { tokens.new ≡ left_by (played (places_of net.now) tokens.old event) tokens.old }
{
    if let Some(lack) = find_short(net, tokens, event) {
        return Some(lack);
    }
    move_tokens(net, tokens, event);
    None
}
