// The limits of files, bundles, logs and words, by name. Every crate takes them from here; specs/Limits.antt has them in small letters.
#![tactic(auto)]

ghost use Rattle.std.specs.Prelude.{◌≡◌};
ghost use Rattle.limits.specs.Limits.{right_size};

// A sealed file's bytes.
pub const MAX_FILE_SIZE: usize = 65536;

// A bundle's bytes.
pub const MAX_BUNDLE_SIZE: usize = 64512;

// The events of a bundle, and so the counts of a row and the in and out numbers of a place.
pub const MAX_EVENTS: usize = 12;

// The events of a log, in all its words.
pub const MAX_LOG_EVENTS: usize = 1024;

// The rows of a log.
pub const MAX_ROWS: usize = 256;

// The places of a net.
pub const MAX_PLACES: usize = 64;

// A slot for each number that a byte can say: more than the words of a log.
pub const MAX_WORDS: usize = 256;

// The terms of a certificate.
pub const MAX_TERMS: usize = 64;

// The pairs of a certificate.
pub const MAX_PAIRS: usize = 64;

// What the first byte of a bundle has beyond its event count in the new edition.
pub const NEW_EDITION: u8 = 128;

// The events of a screened word.
pub const MAX_WORD_EVENTS: usize = 65535;

// The events of a word that is searched for.
pub const MAX_REACH_EVENTS: usize = 5;

// The most tokens that a run can leave in a place: 65,535 at first, and 65,535 more at each of 65,535 events.
pub const MAX_TOKENS: u64 = 4294901760;

// Whether a bundle may have so many bytes. (Inner function.)
#[tactic(auto, unfolding(crate::specs::Limits::right_size))]
pub fn size_fits(size: usize) -> bool
    ensures { result ≡ right_size size }
{
    (1..=MAX_BUNDLE_SIZE).contains(&size)
}
