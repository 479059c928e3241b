// The word map: 64 slots in one word. Every word map is sound. A call takes the map by value and
// hands it back with its answer; a refused call hands back the very map. Rests on `judges` and `rows`.
#![tactic(auto)]

ghost use Rattle.word.specs.Says.{NewEmptySays, NewFullSays, HoldingSays, BitsSays, TakeSays, ClaimSays, FreeSays, SetSays, NextFreeSays, GetSays, EmptySays, UsedSays, CapacitySays};
ghost use Rattle.answers.specs.Answers.{left_with};
ghost use Rattle.word.specs.Inner.{painted_word};
ghost use Rattle.word.specs.Layout.{IsWord};
ghost use Rattle.std.specs.Prelude.{◌≡◌};

use answers::{Changed, Refusal, Reply};
use judges::Size;
use rows::Masks;

// Slot i is bit i; 1 means used.
#[derive(Clone, Copy)]
pub struct Word {
    bits: u64,
}

#[tactic(auto, using(crate::proofs::Values::is_word))]
impl Word {
    // The map with no slot used.
    #[tactic(auto, unfolding(bits::specs::Digits::number, views::specs::Words::listed))]
    pub fn new_empty() -> Word
        ensures { NewEmptySays result }
    {
        Word { bits: 0 }
    }

    // The map with each slot used.
    #[tactic(auto, unfolding(bits::specs::Digits::number, views::specs::Words::listed))]
    pub fn new_full() -> Word
        ensures { NewFullSays result }
    {
        Word { bits: u64::MAX }
    }

    // The map that holds the slots of this word, bit by bit.
    pub fn holding(bits: u64) -> Word
        ensures { HoldingSays bits result }
    {
        Word { bits }
    }

    // The slots as one word.
    pub fn bits(self) -> u64
        ensures { BitsSays self result }
    {
        let slots = self.bits;
        slots
    }

    // Takes n slots at the lowest free start that is a multiple of 2^a, and answers that start.
    // Refused, the lowest number first: 2 where n is 0, 3 where a is 6 or more, 4 where n is
    // above 64, 7 where no start fits. A refusal hands back the very map.
    pub fn take(self, n: usize, a: usize) -> Changed<Refusal, Word>
        ensures { TakeSays self n a result }
    {
        let mut map = self;
        let answer = map.taken(n, a);
        Changed { answer, map }
    }

    // Claims the n slots from `start` on, each of which must be free. Refused: 2 where n is 0,
    // 4 where the range does not end within 64 slots, 6 where a slot is used. A refusal hands
    // back the very map.
    pub fn claim(self, start: usize, n: usize) -> Changed<Refusal, Word>
        ensures { ClaimSays self start n result }
    {
        let mut map = self;
        let answer = map.claimed(start, n);
        Changed { answer, map }
    }

    // Frees the n slots from `start` on, each of which must be used. Refused: 2 where n is 0, 4
    // where the range does not end within 64 slots, 5 where a slot is free already. A refusal
    // hands back the very map.
    pub fn free(self, start: usize, n: usize) -> Changed<Refusal, Word>
        ensures { FreeSays self start n result }
    {
        let mut map = self;
        let answer = map.freed(start, n);
        Changed { answer, map }
    }

    // Gives the n slots from `start` on the value `used`, whatever they held. Refused: 2 where
    // n is 0, 4 where the range does not end within 64 slots. A refusal hands back the very
    // map.
    pub fn set(self, start: usize, n: usize, used: bool) -> Changed<Refusal, Word>
        ensures { SetSays self start n used result }
    {
        let mut map = self;
        let answer = map.given(start, n, used);
        Changed { answer, map }
    }

    // The least free slot from `start` on. Refused: 4 where `start` is 64 or more, 7 where no
    // slot is free from there on.
    pub fn next_free(self, start: usize) -> Result<usize, Refusal>
        ensures { NextFreeSays self start result }
    {
        let words = [self.bits];
        let unmarked = [0];
        judges::next_free(&words, &unmarked, Size::Word, start)
    }

    // Whether the slot is used. Refused: 4 where the slot is 64 or more.
    pub fn get(self, slot: usize) -> Result<bool, Refusal>
        ensures { GetSays self slot result }
    {
        let words = [self.bits];
        judges::get(&words, Size::Word, slot)
    }

    // Whether no slot is used. Never refused.
    #[tactic(auto, using(crate::proofs::Values::is_word, crate::proofs::Outcomes::empty_shown), unfolding(slots::specs::View::answered, answers::specs::Said::judged, slots::specs::Calls::empty_call))]
    pub fn empty(self) -> bool
        ensures { EmptySays self result }
    {
        self.bits == 0
    }

    // How many slots are used. Never refused.
    #[tactic(auto, unfolding(slots::specs::View::answered, answers::specs::Said::judged, slots::specs::Calls::used_call))]
    pub fn used(self) -> usize
        ensures { UsedSays self result }
    {
        places::count(self.bits)
    }

    // How many slots there are. Never refused.
    #[tactic(auto, unfolding(slots::specs::Calls::capacity))]
    pub fn capacity(self) -> usize
        ensures { CapacitySays result }
    {
        judges::capacity(Size::Word)
    }

    // ---- the changes, each in place: a refusal leaves the very map
    // The tree and the third level have the same methods. A trait over the three would have to state words, marks
    // and check 1, each with a law, for methods of two or three lines. `IsWord` is asked, since of a map behind a
    // `&` the check does not know that its number fits.

    fn taken(&mut self, n: usize, a: usize) -> Result<Reply, Refusal>
        requires { IsWord self.old }
        ensures { TakeSays self.old n a (left_with result self.new) }
    {
        let words = [self.bits];
        let unmarked = [0];
        let start = judges::take(&words, &unmarked, Size::Word, n, a)?;
        self.carry_out(start, n, true, Masks::Shifts);
        Ok(Reply::At(start))
    }

    fn claimed(&mut self, start: usize, n: usize) -> Result<Reply, Refusal>
        requires { IsWord self.old }
        ensures { ClaimSays self.old start n (left_with result self.new) }
    {
        let words = [self.bits];
        let done = judges::change(&words, Size::Word, start, n, true)?;
        self.carry_out(start, n, true, Masks::Table);
        Ok(done)
    }

    fn freed(&mut self, start: usize, n: usize) -> Result<Reply, Refusal>
        requires { IsWord self.old }
        ensures { FreeSays self.old start n (left_with result self.new) }
    {
        let words = [self.bits];
        let done = judges::change(&words, Size::Word, start, n, false)?;
        self.carry_out(start, n, false, Masks::Shifts);
        Ok(done)
    }

    fn given(&mut self, start: usize, n: usize, used: bool) -> Result<Reply, Refusal>
        requires { IsWord self.old }
        ensures { SetSays self.old start n used (left_with result self.new) }
    {
        let done = judges::range(Size::Word, start, n)?;
        self.carry_out(start, n, used, Masks::Table);
        Ok(done)
    }

    // ---- an accepted call, carried out in the word

    // The n slots from `start` on get the value `used`.
    fn carry_out(&mut self, start: usize, n: usize, used: bool, masks: Masks)
        ensures { self.new ≡ painted_word self.old.bits start n used }
    {
        let mut words = [self.bits];
        rows::paint(&mut words, start, n, used, masks);
        self.bits = words[0];
    }
}
