// What a call answers: document 01's refusals by name, and what several crates answer. A call that can be
// refused answers a `Result`. Rests on nothing.
#![tactic(auto)]

ghost use Rattle.answers.specs.Refusals.{NumberSays};

// Why a call was refused, in the order of document 01's numbers, 1 to 12.
#[derive(Clone, Copy, PartialEq, Eq)]
pub enum Refusal {
    // 1: the tree's summary is at odds with its words.
    Unsound = 1,
    // 2: the call names no slot at all.
    NoEntries = 2,
    // 3: the alignment is too great for the map.
    AlignmentTooGreat = 3,
    // 4: a range, an index, a position or a buffer's part ends past the end.
    PastTheEnd = 4,
    // 5: a slot to be freed is free already.
    AlreadyFree = 5,
    // 6: a slot to be claimed is used.
    AlreadyUsed = 6,
    // 7: no start fits, or no slot is free from the start on.
    NoRoom = 7,
    // 8: the alignment is 0 or no power of two.
    NotAPowerOfTwo = 8,
    // 9: no multiple at or above the value fits the width.
    NoMultipleFits = 9,
    // 10: an end lies before its start.
    EndBeforeStart = 10,
    // 11: the buffer for a report, or for a list of runs, is too short.
    ReportTooShort = 11,
    // 12: the record is too long.
    RecordTooLong = 12,
}

impl Refusal {
    // The number that document 01 gives this refusal. Not a `From`: `why.number()` says what a `u8` is.
    pub fn number(self) -> u8
        ensures { NumberSays self result }
    {
        self as u8
    }
}

// What an accepted change of a map says: where the run that was taken starts, or only that it is done.
#[derive(Clone, Copy, PartialEq, Eq)]
pub enum Reply {
    At(usize),
    Done,
}

// What a change comes to, its reply or why it was refused, and the map it leaves. A struct and no `Result`
// of the map, since a refused call hands back the very map too (`Leaves` of each map).
#[derive(Clone, Copy)]
pub struct Changed<E, M> {
    pub answer: Result<Reply, E>,
    pub map: M,
}

// So many slots side by side, from a start on.
#[derive(Clone, Copy, PartialEq, Eq)]
pub struct Run {
    pub start: usize,
    pub length: usize,
}
