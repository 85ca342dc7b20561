// Refusals: what every call answers where it gives no result.
#![tactic(auto)]

ghost use Rattle.std.specs.Prelude.{◌≡◌};
ghost use Rattle.refusals.specs.Answers.{refusal};
ghost use Rattle.refusals.specs.Table.{number};

// A call that is refused: the number of the cause, and the spot that the table names for it; its spot is 0 for a cause that has none. No `Cause` and no
// Option: C, the program and the statements about every number speak of these two numbers. `Cause::at` makes them.
#[derive(Clone, Copy, Debug, PartialEq, Eq)]
pub struct Refusal {
    pub number: u8,
    pub spot: usize,
}

// The answer of a call that writes bytes to an output: the length written, or a refusal.
pub type Written = Result<usize, Refusal>;

// The causes, with their numbers in the refusal table.
#[derive(Clone, Copy, Debug, PartialEq, Eq)]
pub enum Cause {
    // A file's length is 0, no multiple of 512, or above 65,536.
    FileLength = 1,
    // A block's sums are wrong.
    BlockSums = 2,
    // The output is shorter than the result.
    OutputShort = 3,
    // A bundle's length is 0 or above 64,512, or that of a bundle that would be written is above it.
    BundleLength = 4,
    // A slice of numbers that the call writes is too short: the table, or the tokens of places.
    NumbersShort = 5,
    // The bundle ends before or inside a field.
    BundleEnd = 6,
    // A value is outside its range, or names a row, an event or a place that isn't there.
    Value = 7,
    // The events would pass 1,024.
    Events = 8,
    // The rows would pass 256.
    Rows = 9,
    // A place doesn't fit the log.
    PlaceMisfit = 10,
    // The place that a certificate lists doesn't refuse the step.
    PlacePermits = 11,
    // A certificate's weights don't hold, or one of its steps isn't allowed.
    Weights = 12,
    // Bytes follow the last certificate.
    BytesFollow = 13,
    // A screened word is above 65,535 events, or a run would be.
    WordLength = 14,
    // An event of a screened word or of a run, or the event that a word is to lead to, is not below n.
    WordEvent = 15,
    // A state that is handed back to a call is outside its ranges: a summary, or the tokens of places.
    StateRange = 16,
    // A block's number is not its position.
    BlockNumber = 17,
    // A block's used count is wrong, or an unused byte of its contents is not zero.
    BlockUse = 18,
    // The event counts of two bundles that are joined are not the same.
    EventCounts = 19,
    // A place does not obey a completed word of the log: its effect on the place is not 0.
    PlaceDisobeys = 20,
    // A word is completed, and the old edition has no mark for it.
    WordCompleted = 21,
    // The event counts of a bundle and of the one that replaces it are not the same.
    ReplacedEvents = 22,
    // The net that replaces another stops on the events so far.
    RunStopped = 23,
}

impl Cause {
    // The refusal of this cause at a spot. Its number is the discriminant, to which a cast is the one way.
    pub fn at(self, spot: usize) -> Refusal
        ensures { result ≡ refusal (number self) spot }
    {
        Refusal {
            number: self as u8,
            spot,
        }
    }
}
