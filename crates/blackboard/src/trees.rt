// What is shown of a tree map: the runs of slots that are used, with all that is stored. A refused tree is shown too,
// since its words and its fields can always be read. And the calls in place, which no other map has.
use crate::asked::Told;
use crate::calls::Shown;
use crate::{calls, names, runs, show};
use std::io;
use tree::Tree;

impl Shown for Tree {
    fn shown(self, rt: &impl Print) -> io::Result<()> {
        let words = self.words();
        runs::left(rt, &words, 1024, self.summary())?;
        runs::beside(rt, self.full(), self.count())?;
        show::text(rt, b"\n")
    }
}

// Trees that are not sound: by the summary, with a bit too many and with one too few; by the mark of full words, with a bit
// too few and with one too many; and by the count, too high and too low.
pub fn unsound() -> [(&'static str, Tree); 6] {
    let empty = Tree::new_empty();
    let full = Tree::new_full();
    [
        (names::NO_SLOT_UNDER_SUMMARY_1, empty.with_summary(1)),
        (
            names::ALL_SLOTS_UNDER_SUMMARY_32767,
            full.with_summary(32767),
        ),
        (names::FULL_TREE_WITH_FULL_MARK_32767, full.with_full(32767)),
        (names::EMPTY_TREE_WITH_FULL_MARK_1, empty.with_full(1)),
        (names::EMPTY_TREE_WITH_COUNT_1, empty.with_count(1)),
        (names::FULL_TREE_WITH_COUNT_1023, full.with_count(1023)),
    ]
}

impl<'a, P: Print> Told<'a, P, Tree> {
    pub fn take_in_place(&self, n: usize, a: usize) -> io::Result<()> {
        self.ask_run("take in place", n, a)?;
        calls::left(self.rt, in_place::take_in_copy(self.map, n, a))
    }

    pub fn free_in_place(&self, start: usize, n: usize) -> io::Result<()> {
        self.ask_range("free in place", start, n)?;
        calls::left(self.rt, in_place::free_in_copy(self.map, start, n))
    }
}
