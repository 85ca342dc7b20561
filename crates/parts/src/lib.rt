// The search in a long word, part by part: eight places are replayed side by side, and one by one only in a part where one of them may refuse a
// step. The contracts cite specs/Parts.antt and specs/SideBySide.antt. All are inner functions.
#![tactic(auto)]

ghost use Rattle.std.specs.Prelude.{◌≡◌, [], ◌-◌, min, ◌≤◌, ◌<◌, None, length, replicate};
ghost use Rattle.bundles.specs.Keeping.{place_spot};
ghost use Rattle.replays.specs.Columns.{column_width, event_slots, no_changes};
ghost use Rattle.stops.specs.Onward.{end_of, Late, Onward, Searched};
ghost use Rattle.parts.specs.Parts.{long_word, Initial, MarkedAll, MarkedEight, eight};
ghost use Rattle.parts.specs.SideBySide.{Columns};

use bundles::net::Net;
use limits::MAX_PLACES;
use replays::{Table, WIDTH};
use stops::{Search, Stop};

// A word that is shorter is searched pair by pair: writing the tables would take longer than they spare. It is the length of the first part, too.
const LONG: usize = 1024;

// The length of the other parts: the tables are written for each anew.
const PART: usize = 4096;

// The initial tokens of the places of a net, and zeros.
fn initial_tokens(net: &Net) -> [i64; MAX_PLACES]
    ensures { Initial net.now.n net.now.bundle.now net.now.first net.now.count [] result }
{
    let mut marking = [0; MAX_PLACES];
    for (j, tokens) in marking[..net.count].iter_mut().enumerate() {
        *tokens = i64::from(net.initial(j));
    }
    marking
}

// Writes the changes of up to eight places of a net, from number `first` on, into a table of none. It is lent: handed out, its 11 kB would be copied.
fn write_table(net: &Net, first: usize, table: &mut Table)
    requires { (first ≤ net.now.count) × (table.old.changes ≡ replicate event_slots no_changes) }
    ensures { Columns net.now.n net.now.bundle.now (place_spot net.now first) (min column_width (net.now.count - first)) table.new.changes }
{
    for j in 0..WIDTH.min(net.count - first) {
        table.write_column(j, net.place(first + j));
    }
}

// A search in a word whose first `done` steps are permitted by each place.
#[derive(Clone, Copy)]
struct Part<'a> {
    search: Search<'a>,
    done: usize,
}

impl<'a> Part<'a> {
    // The first refused step of up to eight places from number `first` on, whose tokens behind the steps that are done are given. Where there is
    // none, the tokens behind the word are left: they are lent on to the replay, which moves them.
    fn search_eight(&self, first: usize, tokens: &mut [i64; WIDTH]) -> Option<Stop>
        requires { (first < self.now.search.net.count) × MarkedEight self.now.search first self.now.done tokens.old }
        ensures late { Late self.now.search self.now.done result }
        ensures onward { Onward self.now.search first (eight self.now.search first) None result }
        ensures marked { result ≡ None → MarkedEight self.now.search first (length self.now.search.word.now) tokens.new }
    {
        let before = *tokens;
        let mut table = Table::clear();
        write_table(&self.search.net, first, &mut table);
        if table.replay(tokens, &self.search.word[self.done..]) {
            return None;
        }
        let end = first + WIDTH.min(self.search.net.count - first);
        self.search
            .search_from(first..end, self.done, None, |j, _| before[j - first])
    }

    // The first refused step of the places of the net, whose tokens behind the steps that are done are given. Where there is none, the tokens behind
    // the word are left. The places are followed eight at a time, up to the best position so far. The tokens are lent from part to part: handed out
    // in a `Result`, 512 bytes would be copied at each call.
    fn search_part(&self, marking: &mut [i64; MAX_PLACES]) -> Option<Stop>
        requires { MarkedAll self.now.search self.now.done marking.old }
        ensures late { Late self.now.search self.now.done result }
        ensures onward { Onward self.now.search 0 self.now.search.net.count None result }
        ensures marked { result ≡ None → MarkedAll self.now.search (length self.now.search.word.now) marking.new }
    {
        let mut best = None;
        for first in (0..self.search.net.count).step_by(WIDTH) {
            // The tokens are copied out and back: nothing is known of an array behind its `first_chunk_mut`.
            let mut tokens = *marking[first..].first_chunk().unwrap();
            let front = Part {
                search: self.search.front(self.search.end(best)),
                ..*self
            };
            best = front.search_eight(first, &mut tokens).or(best);
            marking[first..first + WIDTH].copy_from_slice(&tokens);
        }
        best
    }
}

// The first refused step of a long word behind its first part, whose steps are permitted, part by part; the tokens behind it are given.
fn search_rest(search: &Search, marking: &mut [i64; MAX_PLACES]) -> Option<Stop>
    requires { (long_word ≤ length search.now.word.now) × MarkedAll search.now long_word marking.old }
    ensures late { Late search.now 0 result }
    ensures onward { Onward search.now 0 search.now.net.count None result }
{
    for done in (LONG..search.word.len()).step_by(PART) {
        let end = search.word.len().min(done + PART);
        let part = Part {
            search: search.front(end),
            done,
        };
        if let Some(stop) = part.search_part(marking) {
            return Some(stop);
        }
    }
    None
}

// The first refused step of a long word. The first part is short, since a word that is refused is often refused early.
fn search_parts(search: &Search) -> Option<Stop>
    requires { long_word ≤ length search.now.word.now }
    ensures late { Late search.now 0 result }
    ensures onward { Onward search.now 0 search.now.net.count None result }
{
    let mut marking = initial_tokens(&search.net);
    let part = Part {
        search: search.front(LONG),
        done: 0,
    };
    if let Some(stop) = part.search_part(&mut marking) {
        return Some(stop);
    }
    search_rest(search, &mut marking)
}

// The first refused step of a word with the places of a net, which follow those whose first refused step is `from`, a late one.
fn search_long(search: &Search, from: Option<Stop>) -> Option<Stop>
    requires { (long_word ≤ end_of search.now from) × (end_of search.now from ≤ length search.now.word.now) }
    ensures { Searched search.now from result }
{
    let part = search.front(search.end(from));
    search_parts(&part).or(from)
}

// The first refused step of a word with the places of a net, which follow those whose first refused step is `from`. A long word with three places or
// more is searched part by part, eight places at a time.
pub fn search_places(search: &Search, from: Option<Stop>) -> Option<Stop>
    requires { Late search.now 0 from }
    ensures { Searched search.now from result }
{
    if LONG <= search.end(from) && 2 < search.net.count {
        return search_long(search, from);
    }
    search.search_short(from)
}
