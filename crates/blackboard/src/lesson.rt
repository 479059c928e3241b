// The stories of docs/LESSON.md, each call on the map or the state that the one before left. The lesson's pictures
// are made of these lines.
use crate::asked::on;
use crate::names;
use jobs::Jobs;
use std::io;
use tree::Tree;
use word::Word;

// Slots that are freed twice: at once, and after another has taken them again.
pub fn second_free(rt: &impl Print) -> io::Result<()> {
    let mut story = on(rt, names::A_SECOND_FREE, Word::new_empty());
    story.at_first()?;
    story.taken(4, 2)?;
    story.freed(0, 4)?;
    story.freed(0, 4)?;
    story.taken(4, 2)?;
    story.freed(0, 4)
}

// A free that names no slot, on a map with some.
pub fn free_of_none(rt: &impl Print) -> io::Result<()> {
    let map = Word::new_empty().claim(0, 6).map;
    let mut story = on(rt, names::A_FREE_OF_NO_ENTRIES, map);
    story.at_first()?;
    story.freed(0, 0)
}

// Slots that are freed when their job is reaped, and taken again before its status is recorded.
pub fn free_at_reaping(rt: &impl Print) -> io::Result<()> {
    let mut story = on(rt, names::A_FREE_AT_REAPING, Word::new_empty());
    story.at_first()?;
    story.taken(4, 2)?;
    story.freed(0, 4)?;
    story.taken(4, 2)
}

// The same groups where a reaped slot is not free.
pub fn same_day_with_jobs(rt: &impl Print) -> io::Result<()> {
    let mut story = on(rt, names::THE_SAME_DAY_WITH_JOBS, Jobs::new_empty());
    story.at_first()?;
    story.started(4, 2)?;
    story.reaped(0, 4)?;
    story.started(4, 2)?;
    story.recorded(0, 4)?;
    story.started(4, 2)
}

// Recording before reaping, reaping twice, recording twice; and then late calls, when another group has the slots.
pub fn shortcuts(rt: &impl Print) -> io::Result<()> {
    let mut story = on(rt, names::THE_SHORTCUTS, Jobs::new_empty());
    story.at_first()?;
    story.started(4, 2)?;
    story.recorded(0, 4)?;
    story.reaped(0, 4)?;
    story.reaped(0, 4)?;
    story.recorded(0, 4)?;
    story.recorded(0, 4)?;
    story.started(4, 2)?;
    story.recorded(0, 4)?;
    story.reaped(0, 4)
}

// A full word that is opened by a free, and filled again by a take.
pub fn mark_cleared(rt: &impl Print) -> io::Result<()> {
    let full = Tree::new_empty().claim(0, 64).map;
    let mut story = on(rt, names::A_MARK_THAT_IS_CLEARED, full);
    story.at_first()?;
    story.freed(10, 1)?;
    story.next_free(0)?;
    story.taken(1, 0)
}

// The same free, after which the mark still stands.
pub fn mark_stays(rt: &impl Print) -> io::Result<()> {
    let opened = Tree::new_empty().claim(0, 64).map.free(10, 1).map;
    let mut story = on(rt, names::A_MARK_THAT_STAYS, opened.with_full(1));
    story.at_first()?;
    story.next_free(0)?;
    story.taken(1, 0)
}

// The same two calls in two orders.
pub fn moved_take(rt: &impl Print) -> io::Result<()> {
    let first = Word::new_empty().claim(0, 1).map;
    let mut story = on(rt, names::FREE_THEN_TAKE, first);
    story.at_first()?;
    story.freed(0, 1)?;
    story.taken(1, 0)?;
    let mut moved = on(rt, names::TAKE_THEN_FREE, first);
    moved.at_first()?;
    moved.taken(1, 0)?;
    moved.freed(0, 1)
}
