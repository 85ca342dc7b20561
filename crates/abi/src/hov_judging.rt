// Judging.
ghost use Rattle.std.specs.Prelude.{◌≡◌, length};
ghost use Rattle.verdicts.specs.Judging.{verdict, verdict_number, table_after};
ghost use Rattle.numbers.specs.Numbers.{with_verdict};

use numbers::handed;

// Judges a bundle. answer[0] to [3]: the rows, the allowed steps, and the certificates of kind 0 and of kind 1.
#[unsafe(no_mangle)]
pub extern "C" fn hov_judge(bundle: &[u8], table: &mut [u16], answer: &mut [u64; 4]) -> u32
    ensures value { result ≡ verdict_number (verdict (length table.old) bundle.now) }
    ensures table_after { table.new ≡ table_after bundle.now table.old }
    ensures answer_after { answer.new ≡ with_verdict answer.old (verdict (length table.old) bundle.now) }
{
    handed(judging::judge(bundle, table), answer)
}
