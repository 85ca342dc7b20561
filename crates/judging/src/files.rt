// Judging a sealed file: opening, then judging its bundle.
ghost use Rattle.std.specs.Prelude.{◌≡◌, length};
ghost use Rattle.refusals.specs.Answers.{fitted, written};
ghost use Rattle.block.specs.File.{opened};
ghost use Rattle.judging.specs.Files.{file_verdict, file_table};

use crate::judge;
use verdicts::Verdict;

// The verdict on a sealed file. Once the file is opened, its bundle stands in front of the room, accepted or not. Inner function, of the program:
// the room is its own, and no output.
// Refuses with 1, then 17, 18 or 2, then 3, and room and table stay as they were; then as `judge`.
#[tactic(auto, using(crate::specs::Files::opening_told))]
pub fn judge_file(file: &[u8], room: &mut [u8], table: &mut [u16]) -> Verdict
    ensures value { result ≡ file_verdict file.now (length room.old) (length table.old) }
    ensures room_after { room.new ≡ written (opened file.now) room.old }
    ensures table_after { table.new ≡ file_table (fitted (opened file.now) (length room.old)) table.old }
{
    let size = block::open(file, room)?;
    judge(&room[..size], table)
}
