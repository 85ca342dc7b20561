// The words of a bundle that was judged, one behind the other.
ghost use Rattle.std.specs.Prelude.{◌≡◌, true};
ghost use Rattle.contents.specs.Words.{entries_of, whole};

// A word: its events, and whether it is completed.
#[derive(Clone, Copy)]
pub struct Word<'a> {
    pub events: &'a [u8],
    pub completed: bool,
}

// The bytes of the words that are still to come, and whether they are of the new edition, where each has a mark behind its length.
#[derive(Drop)]
pub struct Words<'a> {
    pub rest: &'a [u8],
    pub is_new: bool,
    pub ghost whole: { whole is_new rest.now ≡ true },
}

impl<'a> Iterator for Words<'a> {
    type Item = Word<'a>;

    ghost use Rattle.std.specs.Iterator.{YieldsFirstBy, item_count};
    ghost use Rattle.contents.specs.Shown.{shown_word};

    ghost next_gives = { YieldsFirstBy shown_word (λ s. entries_of s.is_new s.rest.now) };

    ghost remaining = { item_count (λ s. entries_of s.is_new s.rest.now) };

    #[inline(always)]
    fn next(&mut self) -> Option<Word<'a>> {
        let size = usize::from(*self.rest.first()?);
        let marks = usize::from(self.is_new);
        let (word, rest) = self.rest.split_at(1 + marks + size);
        self.rest = rest;
        Some(Word {
            events: &word[1 + marks..],
            completed: self.is_new && word[1] == 1,
        })
    }
}
