// The tree map: 1,024 slots in sixteen words, and three fields that are stored beside them. A call takes
// the map by value and hands it back with its answer; a refused call hands back the very map. A tree is
// sound when all three agree with the words: summary bit i is 1 exactly if word i is not 0, bit i of the
// mark of full words is 1 exactly if word i is all ones, and the count is the number of used slots. Take,
// claim, free, set, next_free, get, empty and used refuse any other with 1, before all else. Capacity,
// and what makes a tree or reads its words and its fields, answer for every tree. Rests on `judges` and
// `rows`.
#![tactic(auto)]

ghost use Rattle.tree.specs.Says.{NewEmptySays, NewFullSays, HoldingSays, WithSummarySays, WithFullSays, WithCountSays, WordsSays, SummarySays, FullSays, CountSays, TakeSays, ClaimSays, FreeSays, SetSays, NextFreeSays, GetSays, EmptySays, UsedSays, CapacitySays, StoredOfSays, SoundSays};
ghost use Rattle.answers.specs.Answers.{left_with};
ghost use Rattle.tree.specs.Inner.{Checked, RangeJudged, ChangeJudged, TakeJudged, painted_tree, set_tree, touched_tree};
ghost use Rattle.tree.specs.Layout.{IsTree};
ghost use Rattle.views.specs.Count.{moved_count};
ghost use Rattle.std.specs.Prelude.{◌≡◌};

use answers::{Changed, Refusal, Reply};
use judges::Size;
use rows::{Mark, Masks};

// What is stored beside the words of a tree: bit i of the summary is 1 exactly if word i is not 0, bit i
// of the mark of full words exactly if word i is all ones; and the count of used slots.
#[derive(Clone, Copy, PartialEq, Eq)]
pub struct Stored {
    pub summary: u16,
    pub full: u16,
    pub count: u16,
}

// Slot s is bit s % 64 of word s / 64; 1 means used. A call copies it by its fields: as one, it would be
// copied by `memcpy`, which the archive for C must not need.
#[derive(Clone, Copy)]
pub struct Tree {
    words: [u64; 16],
    stored: Stored,
}

#[tactic(auto, using(crate::proofs::Values::is_tree), unfolding(slots::specs::Calls::capacity))]
impl Tree {
    // The map with no slot used.
    pub fn new_empty() -> Tree
        ensures { NewEmptySays result }
    {
        Tree {
            words: [0; 16],
            stored: Stored {
                summary: 0,
                full: 0,
                count: 0,
            },
        }
    }

    // The map with each slot used.
    pub fn new_full() -> Tree
        ensures { NewFullSays result }
    {
        Tree {
            words: [u64::MAX; 16],
            stored: Stored {
                summary: u16::MAX,
                full: u16::MAX,
                count: 1024,
            },
        }
    }

    // The map that holds the slots of these words, with the fields that are theirs.
    pub fn holding(words: [u64; 16]) -> Tree
        ensures { HoldingSays words result }
    {
        let stored = stored_of(&words);
        Tree { words, stored }
    }

    // The same map with another summary, sound or not: what comes from outside can be either. Never
    // refused.
    pub fn with_summary(self, summary: u16) -> Tree
        ensures { WithSummarySays self summary result }
    {
        let stored = Stored {
            summary,
            ..self.stored
        };
        Tree { stored, ..self }
    }

    // The same map with another mark of full words, sound or not. Never refused.
    pub fn with_full(self, full: u16) -> Tree
        ensures { WithFullSays self full result }
    {
        let stored = Stored {
            full,
            ..self.stored
        };
        Tree { stored, ..self }
    }

    // The same map with another stored count, sound or not. Never refused.
    pub fn with_count(self, count: u16) -> Tree
        ensures { WithCountSays self count result }
    {
        let stored = Stored {
            count,
            ..self.stored
        };
        Tree { stored, ..self }
    }

    // The words, of every tree. Never refused.
    pub fn words(self) -> [u64; 16]
        ensures { WordsSays self result }
    {
        self.words
    }

    // The summary, of every tree. Never refused.
    pub fn summary(self) -> u16
        ensures { SummarySays self result }
    {
        self.stored.summary
    }

    // The mark of full words, of every tree. Never refused.
    pub fn full(self) -> u16
        ensures { FullSays self result }
    {
        self.stored.full
    }

    // The stored count, of every tree. Never refused.
    pub fn count(self) -> u16
        ensures { CountSays self result }
    {
        self.stored.count
    }

    // Takes n slots at the lowest free start that is a multiple of 2^a, and answers that start.
    // Refused, the lowest number first: 1 where the tree is not sound, 2 where n is 0, 3 where
    // a is 10 or more, 4 where n is above 1,024, 7 where no start fits. A refusal hands back
    // the very map.
    pub fn take(self, n: usize, a: usize) -> Changed<Refusal, Tree>
        ensures { TakeSays self n a result }
    {
        let mut map = Tree { ..self };
        let answer = map.taken(n, a);
        Changed { answer, map }
    }

    // Claims the n slots from `start` on, each of which must be free. Refused: 1 where the tree
    // is not sound, 2 where n is 0, 4 where the range does not end within 1,024 slots, 6 where
    // a slot is used. A refusal hands back the very map.
    pub fn claim(self, start: usize, n: usize) -> Changed<Refusal, Tree>
        ensures { ClaimSays self start n result }
    {
        let mut map = Tree { ..self };
        let answer = map.claimed(start, n);
        Changed { answer, map }
    }

    // Frees the n slots from `start` on, each of which must be used. Refused: 1 where the tree
    // is not sound, 2 where n is 0, 4 where the range does not end within 1,024 slots, 5 where
    // a slot is free already. A refusal hands back the very map.
    pub fn free(self, start: usize, n: usize) -> Changed<Refusal, Tree>
        ensures { FreeSays self start n result }
    {
        let mut map = Tree { ..self };
        let answer = map.freed(start, n);
        Changed { answer, map }
    }

    // Gives the n slots from `start` on the value `used`, whatever they held. Refused: 1 where
    // the tree is not sound, 2 where n is 0, 4 where the range does not end within 1,024 slots.
    // A refusal hands back the very map.
    pub fn set(self, start: usize, n: usize, used: bool) -> Changed<Refusal, Tree>
        ensures { SetSays self start n used result }
    {
        let mut map = Tree { ..self };
        let answer = map.given(start, n, used);
        Changed { answer, map }
    }

    // The least free slot from `start` on. Refused: 1 where the tree is not sound, 4 where
    // `start` is 1,024 or more, 7 where no slot is free from there on.
    pub fn next_free(self, start: usize) -> Result<usize, Refusal>
        ensures { NextFreeSays self start result }
    {
        let fulls = [self.checked()?.full];
        judges::next_free(&self.words, &fulls, Size::Tree, start)
    }

    // Whether the slot is used. Refused: 1 where the tree is not sound, 4 where the slot is
    // 1,024 or more.
    pub fn get(self, slot: usize) -> Result<bool, Refusal>
        ensures { GetSays self slot result }
    {
        self.checked()?;
        judges::get(&self.words, Size::Tree, slot)
    }

    // Whether no slot is used: the summary alone tells it of a sound map. Refused: 1 where the
    // tree is not sound.
    pub fn empty(self) -> Result<bool, Refusal>
        ensures { EmptySays self result }
    {
        Ok(self.checked()?.summary == 0)
    }

    // How many slots are used: of a sound map the stored count. Refused: 1 where the tree is not sound.
    pub fn used(self) -> Result<u64, Refusal>
        ensures { UsedSays self result }
    {
        Ok(self.checked()?.count as u64)
    }

    // How many slots there are, on every tree. Never refused.
    pub fn capacity(self) -> usize
        ensures { CapacitySays result }
    {
        judges::capacity(Size::Tree)
    }

    // ---- the changes, each in place: a refusal leaves the very map
    // `IsTree` is asked, here and below: of a map behind a `&` the check knows how many words it has, but not
    // that its numbers fit. No ghost field: it would stand in the record that every definition of `specs/`
    // builds (`tree_of`).

    fn taken(&mut self, n: usize, a: usize) -> Result<Reply, Refusal>
        requires { IsTree self.old }
        ensures { TakeSays self.old n a (left_with result self.new) }
    {
        let start = self.judged_take(n, a)?;
        self.carry_out(start, n, true, Masks::Shifts);
        Ok(Reply::At(start))
    }

    fn claimed(&mut self, start: usize, n: usize) -> Result<Reply, Refusal>
        requires { IsTree self.old }
        ensures { ClaimSays self.old start n (left_with result self.new) }
    {
        let done = self.judged_change(start, n, true)?;
        self.carry_out(start, n, true, Masks::Table);
        Ok(done)
    }

    fn freed(&mut self, start: usize, n: usize) -> Result<Reply, Refusal>
        requires { IsTree self.old }
        ensures { FreeSays self.old start n (left_with result self.new) }
    {
        let done = self.judged_change(start, n, false)?;
        self.carry_out(start, n, false, Masks::Shifts);
        Ok(done)
    }

    fn given(&mut self, start: usize, n: usize, used: bool) -> Result<Reply, Refusal>
        requires { IsTree self.old }
        ensures { SetSays self.old start n used (left_with result self.new) }
    {
        let done = self.judged_range(start, n)?;
        self.set_out(start, n, used);
        Ok(done)
    }

    // ---- check 1, in front of the judges

    // What is stored, of a sound tree; refused with 1 where the tree is not sound.
    fn checked(&self) -> Result<Stored, Refusal>
        ensures { Checked self.now result }
    {
        if !sound(&self.words, self.stored) {
            return Err(Refusal::Unsound);
        }
        Ok(self.stored)
    }

    // Done where the map is sound and the n slots from `start` on are a range of it, and else the refusal.
    fn judged_range(&self, start: usize, n: usize) -> Result<Reply, Refusal>
        ensures { RangeJudged self.now start n result }
    {
        self.checked()?;
        judges::range(Size::Tree, start, n)
    }

    // Done where claim accepts, or free where `used` is false, and else the refusal.
    fn judged_change(&self, start: usize, n: usize, used: bool) -> Result<Reply, Refusal>
        ensures { ChangeJudged self.now start n used result }
    {
        self.checked()?;
        judges::change(&self.words, Size::Tree, start, n, used)
    }

    // The start that take grants, or its refusal. The search goes by the mark of full words.
    fn judged_take(&self, n: usize, a: usize) -> Result<usize, Refusal>
        requires { IsTree self.now }
        ensures { TakeJudged self.now n a result }
    {
        let marks = [self.checked()?.full];
        judges::take(&self.words, &marks, Size::Tree, n, a)
    }

    // ---- an accepted call, carried out in the words

    // The n slots from `start` on, which had the other value, get the value `used`: the bits of every word
    // that they reach are brought up to date, and the count moves by n.
    fn carry_out(&mut self, start: usize, n: usize, used: bool, masks: Masks)
        ensures { self.new ≡ painted_tree self.old start n used }
    {
        rows::paint(&mut self.words, start, n, used, masks);
        let count = moved(self.stored.count, n, used);
        self.touch(start, n, count);
    }

    // The same where the slots may have held anything: they are counted anew.
    fn set_out(&mut self, start: usize, n: usize, used: bool)
        ensures { self.new ≡ set_tree self.old start n used }
    {
        rows::paint(&mut self.words, start, n, used, Masks::Table);
        let counted = rows::count(&self.words);
        self.touch(start, n, counted);
    }

    // Brings the bits of every word that the n slots from `start` on reach up to date, and stores this
    // count.
    fn touch(&mut self, start: usize, n: usize, counted: u16)
        ensures { self.new ≡ touched_tree self.old start n counted }
    {
        self.stored = Stored {
            summary: rows::touched(&self.words, self.stored.summary, start, n, Mark::Used),
            full: rows::touched(&self.words, self.stored.full, start, n, Mark::Full),
            count: counted,
        };
    }
}

// ---- what is stored

// What a tree of these words has stored.
pub fn stored_of(words: &[u64]) -> Stored
    ensures { StoredOfSays words.now result }
{
    Stored {
        summary: rows::marks(words, Mark::Used),
        full: rows::marks(words, Mark::Full),
        count: rows::count(words),
    }
}

// Whether that is what is stored: all three fields agree with the words. Not `stored_of(words) == stored`,
// which takes 214 instructions where this takes 160.
pub fn sound(words: &[u64], stored: Stored) -> bool
    ensures { SoundSays words.now stored result }
{
    if rows::marks(words, Mark::Used) != stored.summary {
        return false;
    }
    if rows::marks(words, Mark::Full) != stored.full {
        return false;
    }
    rows::count(words) == stored.count
}

// The count with n more, or n fewer, in sixteen bits: by the value that the slots get, as `moved_count` has it.
fn moved(count: u16, n: usize, up: bool) -> u16
    ensures { result ≡ moved_count count n up }
{
    let by = (n % 65536) as u16;
    if up {
        return count.wrapping_add(by);
    }
    count.wrapping_sub(by)
}
