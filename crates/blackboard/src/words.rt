// What is shown of a word map: its slots in a row.
use crate::calls::Shown;
use crate::show;
use std::io;
use word::Word;

// `#` for a used slot, a dot for a free one.
fn slot_drawn(rt: &impl Print, map: Word, slot: usize) -> io::Result<()> {
    match map.get(slot) {
        Ok(true) => show::text(rt, b"#"),
        Ok(false) => show::text(rt, b"."),
        Err(why) => show::refusal(rt, why),
    }
}

impl Shown for Word {
    // Slot 0 first.
    fn shown(self, rt: &impl Print) -> io::Result<()> {
        show::text(rt, b", leaves ")?;
        for slot in 0..64 {
            slot_drawn(rt, self, slot)?;
        }
        show::text(rt, b"\n")
    }
}
