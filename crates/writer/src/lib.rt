// An output that is written from its front, piece by piece. The contracts cite specs/Pushing.antt.
#![tactic(auto)]

ghost use Rattle.std.specs.Prelude.{◌≤◌, ◌+◌, length};
ghost use Rattle.writer.specs.Pushing.{HasRoom, Pushed};

use slices::write_at;

// An output, and the end of what is written to its front: not the rest alone, since contracts speak of the whole output. How much room there has to
// be goes by what is written, so it is a clause.
#[derive(Drop)]
pub struct Writer<'a> {
    pub output: &'a mut [u8],
    pub end: usize,
}

impl Writer<'_> {
    // Writes bytes behind those that are written. (Inner function.)
    #[inline(always)]
    pub fn push(&mut self, bytes: &[u8])
        requires { HasRoom self.old bytes.now }
        ensures { Pushed self.old self.new bytes.now }
    {
        write_at(self.output, self.end, bytes);
        self.end += bytes.len();
    }
}
