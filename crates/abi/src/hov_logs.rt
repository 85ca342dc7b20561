// The log table.
ghost use Rattle.std.specs.Prelude.{◌≡◌};
ghost use Rattle.logs.specs.Answers.{fresh_answer, fresh_table, taken_answer, taken_table, taken_number};
ghost use Rattle.numbers.specs.Numbers.{with_taken};

use logs::Summary;
use numbers::handed;

// Starts the empty log over n events. answer[0], [1], [2]: n, rows and events of its summary.
#[unsafe(no_mangle)]
pub extern "C" fn hov_fresh(n: usize, table: &mut [u16], answer: &mut [u64; 4]) -> u32
    ensures value { result ≡ taken_number (fresh_answer n table.old) }
    ensures table_after { table.new ≡ fresh_table (fresh_answer n table.old) table.old }
    ensures answer_after { answer.new ≡ with_taken answer.old (fresh_answer n table.old) }
{
    handed(logs::fresh(n, table), answer)
}

// Takes a word into the log with this summary, whose numbers C hands over one by one. answer[0], [1], [2]: n, rows and events of the next summary.
#[unsafe(no_mangle)]
pub extern "C" fn hov_take(
    n: usize,
    rows: usize,
    events: usize,
    word: &[u8],
    table: &mut [u16],
    answer: &mut [u64; 4],
) -> u32
    ensures value { result ≡ taken_number (taken_answer (record { n = n; rows = rows; events = events }) table.old word.now) }
    ensures table_after { table.new ≡ taken_table (taken_answer (record { n = n; rows = rows; events = events }) table.old word.now) (record { n = n; rows = rows; events = events }) table.old word.now }
    ensures answer_after { answer.new ≡ with_taken answer.old (taken_answer (record { n = n; rows = rows; events = events }) table.old word.now) }
{
    let summary = Summary { n, rows, events };
    handed(summary.take(word, table), answer)
}
