// What is shown of a third level: what a tree shows. The summary is the one over the trees; after it stand the trees
// that store anything but 0, those side by side that store the same as first and last. A refused map is shown too.
use crate::calls::Shown;
use crate::{runs, show};
use std::{array, io};
use third::Third;
use tree::Stored;

// What each tree stores.
fn stored(map: Third) -> [Stored; 16] {
    let summaries = map.summaries();
    let fulls = map.fulls();
    let counts = map.counts();
    array::from_fn(|i| Stored {
        summary: summaries[i],
        full: fulls[i],
        count: counts[i],
    })
}

// The trees from `first` to `last`, which all store this. Where it is 0 throughout, it is not said.
fn group(rt: &impl Print, first: usize, last: usize, stored: Stored) -> io::Result<()> {
    if stored.summary | stored.full | stored.count == 0 {
        return Ok(());
    }
    print!(rt; ", trees {first}..{last}")?;
    runs::stored(rt, stored)
}

// Those side by side that store the same, together.
fn groups(rt: &impl Print, map: Third) -> io::Result<()> {
    let stored = stored(map);
    let mut first = 0;
    for last in 0..16 {
        if last == 15 || stored[last] != stored[last + 1] {
            group(rt, first, last, stored[last])?;
            first = last + 1;
        }
    }
    Ok(())
}

impl Shown for Third {
    fn shown(self, rt: &impl Print) -> io::Result<()> {
        let words = self.words();
        runs::left(rt, &words, 16384, self.summary())?;
        groups(rt, self)?;
        show::text(rt, b"\n")
    }
}
