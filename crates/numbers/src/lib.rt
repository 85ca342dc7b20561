// Answers handed out as numbers: what is returned is 0, the number of a refusal, 256 for a word or an event that is stopped, or 257 where no word is
// found; `answer` takes the result's numbers, or in answer[0] the refusal's spot. C takes them so. Numbers are cast, since std has no `From` of
// `usize` for `u64`. The contracts cite specs/Numbers.antt. All are inner functions.
#![tactic(auto)]

ghost use Rattle.std.specs.Prelude.{◌≡◌, ℕ, List, Ok};
ghost use Rattle.refusals.specs.Answers.{Answer, number_of};
ghost use Rattle.logs.specs.Answers.{taken_number};
ghost use Rattle.verdicts.specs.Judging.{verdict_number};
ghost use Rattle.screening.specs.Screening.{screened_number, stopped_number};
ghost use Rattle.numbers.specs.Numbers.{with_value, with_taken, with_verdict, with_stop, with_screened, stepped_number, with_stepped};
ghost use Rattle.numbers.specs.Numbers.{sized_number, with_size, sized_refused, done_number, with_done, RefusedAlike};
ghost use Rattle.numbers.specs.Numbers.{value_refused, taken_refused, verdict_refused, screened_refused, stepped_refused, done_refused};

use engine::Outcome;
use logs::Summary;
use refusals::Refusal;
use stops::Stop;
use verdicts::Tally;

// A result that is handed out as numbers.
pub trait Numbers {
    // The number of an answer with such a result.
    ghost number: { Answer Self → ℕ };

    // What `answer` holds afterwards.
    ghost shown: { List ℕ → Answer Self → List ℕ };

    // Hands a result out.
    fn write(self, answer: &mut [u64; 4]) -> u32
        ensures value { result ≡ number (Ok self) }
        ensures answer_after { answer.new ≡ shown answer.old (Ok self) };

    // Every refusal is handed out alike.
    ghost refused: { RefusedAlike number shown };
}

// A length.
#[tactic(auto, unfolding(refusals::specs::Answers::number_of, refusals::specs::Answers::value_of, crate::specs::Numbers::with_value))]
impl Numbers for usize {
    ghost number = { number_of };

    ghost shown = { with_value };

    ghost refused = { value_refused };

    fn write(self, answer: &mut [u64; 4]) -> u32 {
        answer[0] = self as u64;
        0
    }
}

// The summary of a log.
#[tactic(auto, unfolding(logs::specs::Answers::taken_number, crate::specs::Numbers::with_taken))]
impl Numbers for Summary {
    ghost number = { taken_number };

    ghost shown = { with_taken };

    ghost refused = { taken_refused };

    fn write(self, answer: &mut [u64; 4]) -> u32 {
        answer[0] = self.n as u64;
        answer[1] = self.rows as u64;
        answer[2] = self.events as u64;
        0
    }
}

// The counts of an accepted bundle.
#[tactic(auto, unfolding(verdicts::specs::Judging::verdict_number, crate::specs::Numbers::with_verdict))]
impl Numbers for Tally {
    ghost number = { verdict_number };

    ghost shown = { with_verdict };

    ghost refused = { verdict_refused };

    fn write(self, answer: &mut [u64; 4]) -> u32 {
        answer[0] = self.rows as u64;
        answer[1] = self.allowed as u64;
        answer[2] = self.by_place as u64;
        answer[3] = self.by_weights as u64;
        0
    }
}

// Hands a stop out.
#[tactic(auto, unfolding(crate::specs::Numbers::with_stop))]
fn write_stop(stop: Stop, answer: &mut [u64; 4]) -> u32
    ensures value { result ≡ stopped_number }
    ensures answer_after { answer.new ≡ with_stop answer.old stop }
{
    answer[0] = stop.position as u64;
    answer[1] = stop.place as u64;
    answer[2] = stop.shortfall;
    256
}

// Where a word is stopped, if it is.
#[tactic(auto, unfolding(screening::specs::Screening::screened_number, crate::specs::Numbers::with_screened))]
impl Numbers for Option<Stop> {
    ghost number = { screened_number };

    ghost shown = { with_screened };

    ghost refused = { screened_refused };

    fn write(self, answer: &mut [u64; 4]) -> u32 {
        match self {
            None => 0,
            Some(stop) => write_stop(stop, answer),
        }
    }
}

// What a step did.
#[tactic(auto, unfolding(crate::specs::Numbers::stepped_number, crate::specs::Numbers::with_stepped))]
impl Numbers for Outcome {
    ghost number = { stepped_number };

    ghost shown = { with_stepped };

    ghost refused = { stepped_refused };

    fn write(self, answer: &mut [u64; 4]) -> u32 {
        match self {
            Outcome::Moved(number) => {
                answer[0] = number as u64;
                0
            }
            Outcome::Stopped(stop) => write_stop(stop, answer),
        }
    }
}

// How many events the word has that is found, if there is one.
#[tactic(auto, unfolding(crate::specs::Numbers::sized_number, crate::specs::Numbers::with_size))]
impl Numbers for Option<usize> {
    ghost number = { sized_number };

    ghost shown = { with_size };

    ghost refused = { sized_refused };

    fn write(self, answer: &mut [u64; 4]) -> u32 {
        let Some(length) = self else {
            return 257;
        };
        answer[0] = length as u64;
        0
    }
}

// Nothing but that it is done.
#[tactic(auto, unfolding(crate::specs::Numbers::done_number, crate::specs::Numbers::with_done))]
impl Numbers for () {
    ghost number = { done_number };

    ghost shown = { with_done };

    ghost refused = { done_refused };

    fn write(self, answer: &mut [u64; 4]) -> u32 {
        0
    }
}

// Hands an answer out as numbers.
pub fn handed<T: Numbers>(given: Result<T, Refusal>, answer: &mut [u64; 4]) -> u32
    ensures value { result ≡ T.number given }
    ensures answer_after { answer.new ≡ T.shown answer.old given }
{
    match given {
        Ok(x) => x.write(answer),
        Err(r) => {
            answer[0] = r.spot as u64;
            u32::from(r.number)
        }
    }
}
