// What a call leaves of a map that has a summary: the runs of used slots, first and last slot of each, and what is stored
// beside them. The same for a tree, for the third level and for a state of jobs, whose reaped slots are said as runs too.
use crate::show;
use std::io;
use tree::Stored;

// One slot further: where a run of used slots begins or ends, that is printed. Answers the slot where it
// is used; `last` is the slot before it, where that one is.
fn edge(
    rt: &impl Print,
    last: Option<usize>,
    slot: usize,
    used: bool,
) -> io::Result<Option<usize>> {
    match (last, used) {
        (None, true) => print!(rt; " {slot}")?,
        (Some(last), false) => print!(rt; "..{last}")?,
        _ => {}
    }
    Ok(used.then_some(slot))
}

// The runs, beginning and end of each. After the last slot a run ends.
fn put(rt: &impl Print, words: &[u64], slots: usize) -> io::Result<()> {
    let mut last = None;
    for slot in 0..slots {
        last = edge(rt, last, slot, rows::get(words, slot))?;
    }
    edge(rt, last, slots, false)?;
    Ok(())
}

// The runs of slots that these words hold, none said as such. How many slots stands beside the words, since of a slice
// alone it is not known that 64 times its length is a number.
pub fn held(rt: &impl Print, words: &[u64], slots: usize) -> io::Result<()> {
    if rows::count(words) == 0 {
        show::text(rt, b" none")?;
    }
    put(rt, words, slots)
}

// What is left: the slots of these words, so many in all, under the summary.
pub fn left(rt: &impl Print, words: &[u64], slots: usize, summary: u16) -> io::Result<()> {
    show::text(rt, b", leaves")?;
    held(rt, words, slots)?;
    under(rt, summary)
}

fn under(rt: &impl Print, summary: u16) -> io::Result<()> {
    print!(rt; " under summary {summary}")
}

// What is stored beside the summary: the mark of full words and the count.
pub fn beside(rt: &impl Print, full: u16, count: u16) -> io::Result<()> {
    print!(rt; ", full mark {full}, count {count}")
}

// All that a tree stores.
pub fn stored(rt: &impl Print, stored: Stored) -> io::Result<()> {
    under(rt, stored.summary)?;
    beside(rt, stored.full, stored.count)
}
