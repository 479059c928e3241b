// The third level: 16,384 slots in 256 words, sixteen trees side by side. Each tree has its summary, its
// mark of full words and its count, and one more summary stands over them. A call takes the map by value
// and hands it back with its answer; a refused call hands back the very map. A map is sound when each of
// its trees is, and bit i of the summary over them is 1 exactly if tree i holds a used slot. Take, claim,
// free, set, next_free, get, empty and used refuse any other with 1, before all else. Capacity, and what
// makes a map or reads its fields, answer for every map. A run may cross from tree to tree. Rests on
// `judges`, `rows` and `tree`.
#![tactic(auto)]

ghost use Rattle.third.specs.Says.{NewEmptySays, NewFullSays, HoldingSays, WithSummariesSays, WithFullsSays, WithCountsSays, WordsSays, SummariesSays, FullsSays, CountsSays, SummarySays, TakeSays, ClaimSays, FreeSays, SetSays, NextFreeSays, GetSays, EmptySays, UsedSays, CapacitySays};
ghost use Rattle.answers.specs.Answers.{left_with};
ghost use Rattle.third.specs.Inner.{SoundSays, TreeSoundSays, RangeJudged, ChangeJudged, TakeJudged, TotalSays, painted_third, renewed_third};
ghost use Rattle.third.specs.Layout.{stored_at, IsThird};
ghost use Rattle.views.specs.Summary.{summary_of};
ghost use Rattle.views.specs.Trees.{tree_words};
ghost use Rattle.tree.specs.Says as Tree;
ghost use Rattle.std.specs.Prelude.{◌≡◌, MatchResult, true, false, ◌<◌};

use answers::{Changed, Refusal, Reply};
use judges::Size;
use rows::{Mark, Masks};
use tree::Stored;

// Slot s is bit s % 64 of word s / 64; 1 means used. Tree i is the words from 16 * i on, with summary i,
// mark of full words i and count i.
// Three arrays, and not one of `Stored`: `SummariesSays`, `FullsSays`, `CountsSays` and their `With..` promise
// each as a list of its own, and the search borrows the marks as one slice.
#[derive(Clone, Copy)]
pub struct Third {
    words: [u64; 256],
    summaries: [u16; 16],
    fulls: [u16; 16],
    counts: [u16; 16],
    summary: u16,
}

#[tactic(auto, using(crate::proofs::Values::is_third))]
impl Third {
    // The map with no slot used.
    pub fn new_empty() -> Third
        ensures { NewEmptySays result }
    {
        Third {
            words: [0; 256],
            summaries: [0; 16],
            fulls: [0; 16],
            counts: [0; 16],
            summary: 0,
        }
    }

    // The map with each slot used.
    pub fn new_full() -> Third
        ensures { NewFullSays result }
    {
        Third {
            words: [u64::MAX; 256],
            summaries: [u16::MAX; 16],
            fulls: [u16::MAX; 16],
            counts: [1024; 16],
            summary: u16::MAX,
        }
    }

    // The map that holds the slots of these words, with the fields that are theirs.
    pub fn holding(words: [u64; 256]) -> Third
        ensures { HoldingSays words result }
    {
        let mut map = Third {
            words,
            ..Third::new_empty()
        };
        map.renew(0, SLOTS);
        map.summary = top(&map.summaries);
        map
    }

    // The same map with other summaries, sound or not: what comes from outside can be either. Never
    // refused.
    pub fn with_summaries(self, summaries: [u16; 16], summary: u16) -> Third
        ensures { WithSummariesSays self summaries summary result }
    {
        Third {
            summaries,
            summary,
            ..self
        }
    }

    // The same map with other marks of full words, sound or not. Never refused.
    pub fn with_fulls(self, fulls: [u16; 16]) -> Third
        ensures { WithFullsSays self fulls result }
    {
        Third { fulls, ..self }
    }

    // The same map with other stored counts, sound or not. Never refused.
    pub fn with_counts(self, counts: [u16; 16]) -> Third
        ensures { WithCountsSays self counts result }
    {
        Third { counts, ..self }
    }

    // The words, of every map. Never refused.
    pub fn words(self) -> [u64; 256]
        ensures { WordsSays self result }
    {
        self.words
    }

    // The summaries of the trees, of every map. Never refused.
    pub fn summaries(self) -> [u16; 16]
        ensures { SummariesSays self result }
    {
        self.summaries
    }

    // The trees' marks of full words, of every map. Never refused.
    pub fn fulls(self) -> [u16; 16]
        ensures { FullsSays self result }
    {
        self.fulls
    }

    // The stored counts of the trees, of every map. Never refused.
    pub fn counts(self) -> [u16; 16]
        ensures { CountsSays self result }
    {
        self.counts
    }

    // The summary over the trees, of every map. Never refused.
    pub fn summary(self) -> u16
        ensures { SummarySays self result }
    {
        let over = self.summary;
        over
    }

    // Takes n slots at the lowest free start that is a multiple of 2^a, and answers that start.
    // Refused, the lowest number first: 1 where the map is not sound, 2 where n is 0, 3 where a is
    // 14 or more, 4 where n is above 16,384, 7 where no start fits. A refusal hands back the very map.
    pub fn take(self, n: usize, a: usize) -> Changed<Refusal, Third>
        ensures { TakeSays self n a result }
    {
        let mut map = self;
        let answer = map.taken(n, a);
        Changed { answer, map }
    }

    // Claims the n slots from `start` on, each of which must be free. Refused: 1 where the map is not
    // sound, 2 where n is 0, 4 where the range does not end within 16,384 slots, 6 where a slot is
    // used. A refusal hands back the very map.
    pub fn claim(self, start: usize, n: usize) -> Changed<Refusal, Third>
        ensures { ClaimSays self start n result }
    {
        let mut map = self;
        let answer = map.claimed(start, n);
        Changed { answer, map }
    }

    // Frees the n slots from `start` on, each of which must be used. Refused: 1 where the map is not
    // sound, 2 where n is 0, 4 where the range does not end within 16,384 slots, 5 where a slot is
    // free already. A refusal hands back the very map.
    pub fn free(self, start: usize, n: usize) -> Changed<Refusal, Third>
        ensures { FreeSays self start n result }
    {
        let mut map = self;
        let answer = map.freed(start, n);
        Changed { answer, map }
    }

    // Gives the n slots from `start` on the value `used`, whatever they held. Refused: 1 where the
    // map is not sound, 2 where n is 0, 4 where the range does not end within 16,384 slots. A refusal
    // hands back the very map.
    pub fn set(self, start: usize, n: usize, used: bool) -> Changed<Refusal, Third>
        ensures { SetSays self start n used result }
    {
        let mut map = self;
        let answer = map.given(start, n, used);
        Changed { answer, map }
    }

    // The least free slot from `start` on. Refused: 1 where the map is not sound, 4 where `start` is
    // 16,384 or more, 7 where no slot is free from there on.
    pub fn next_free(self, start: usize) -> Result<usize, Refusal>
        ensures { NextFreeSays self start result }
    {
        let fulls = &self.checked()?.fulls;
        judges::next_free(&self.words, fulls, Size::Third, start)
    }

    // Whether the slot is used. Refused: 1 where the map is not sound, 4 where the slot is 16,384 or
    // more.
    pub fn get(self, slot: usize) -> Result<bool, Refusal>
        ensures { GetSays self slot result }
    {
        self.checked()?;
        judges::get(&self.words, Size::Third, slot)
    }

    // Whether no slot is used: the summary over the trees alone tells it of a sound map. Refused: 1
    // where the map is not sound.
    pub fn empty(self) -> Result<bool, Refusal>
        ensures { EmptySays self result }
    {
        Ok(self.checked()?.summary == 0)
    }

    // How many slots are used: of a sound map the sum of the stored counts. Refused: 1 where the map is
    // not sound.
    pub fn used(self) -> Result<u64, Refusal>
        ensures { UsedSays self result }
    {
        Ok(total(&self.checked()?.counts))
    }

    // How many slots there are, on every map. Never refused.
    #[tactic(auto, unfolding(slots::specs::Calls::capacity))]
    pub fn capacity(self) -> usize
        ensures { CapacitySays result }
    {
        judges::capacity(Size::Third)
    }

    // ---- the changes, each in place: a refusal leaves the very map
    // `IsThird` is asked, here and below: of a map behind a `&` the check knows how long its arrays are, but not
    // that their numbers fit. No ghost field: it would stand in the record that every definition of `specs/`
    // builds.

    fn taken(&mut self, n: usize, a: usize) -> Result<Reply, Refusal>
        requires { IsThird self.old }
        ensures { TakeSays self.old n a (left_with result self.new) }
    {
        let start = self.judged_take(n, a)?;
        self.carry_out(start, n, true, Masks::Shifts);
        Ok(Reply::At(start))
    }

    fn claimed(&mut self, start: usize, n: usize) -> Result<Reply, Refusal>
        requires { IsThird self.old }
        ensures { ClaimSays self.old start n (left_with result self.new) }
    {
        let done = self.judged_change(start, n, true)?;
        self.carry_out(start, n, true, Masks::Table);
        Ok(done)
    }

    fn freed(&mut self, start: usize, n: usize) -> Result<Reply, Refusal>
        requires { IsThird self.old }
        ensures { FreeSays self.old start n (left_with result self.new) }
    {
        let done = self.judged_change(start, n, false)?;
        self.carry_out(start, n, false, Masks::Shifts);
        Ok(done)
    }

    fn given(&mut self, start: usize, n: usize, used: bool) -> Result<Reply, Refusal>
        requires { IsThird self.old }
        ensures { SetSays self.old start n used (left_with result self.new) }
    {
        let done = self.judged_range(start, n)?;
        self.carry_out(start, n, used, Masks::Table);
        Ok(done)
    }

    // ---- check 1, in front of the judges

    // The very map, where it is sound; refused with 1 where it is not. Inlined, as the reference would else leave
    // the function, and the map that a free changes would be copied twice more.
    #[inline(always)]
    fn checked(&self) -> Result<&Third, Refusal>
        requires { IsThird self.now }
        ensures { MatchResult result (λ map. (map.now ≡ self.now) × SoundSays self.now true) (λ why. (why ≡ Refusal.Unsound) × SoundSays self.now false) }
    {
        if !self.sound() {
            return Err(Refusal::Unsound);
        }
        Ok(self)
    }

    // Done where the map is sound and the n slots from `start` on are a range of it, and else the refusal.
    fn judged_range(&self, start: usize, n: usize) -> Result<Reply, Refusal>
        requires { IsThird self.now }
        ensures { RangeJudged self.now start n result }
    {
        self.checked()?;
        judges::range(Size::Third, start, n)
    }

    // Done where claim accepts, or free where `used` is false, and else the refusal.
    fn judged_change(&self, start: usize, n: usize, used: bool) -> Result<Reply, Refusal>
        requires { IsThird self.now }
        ensures { ChangeJudged self.now start n used result }
    {
        self.checked()?;
        judges::change(&self.words, Size::Third, start, n, used)
    }

    // The start that take grants, or its refusal. The search goes by the marks of full words.
    fn judged_take(&self, n: usize, a: usize) -> Result<usize, Refusal>
        requires { IsThird self.now }
        ensures { TakeJudged self.now n a result }
    {
        let marks = &self.checked()?.fulls;
        judges::take(&self.words, marks, Size::Third, n, a)
    }

    // ---- an accepted call, carried out in the words

    // The n slots from `start` on get the value `used`: what is stored of each tree that they reach is made
    // anew, and the summary over the trees.
    fn carry_out(&mut self, start: usize, n: usize, used: bool, masks: Masks)
        ensures { self.new ≡ painted_third self.old start n used }
    {
        rows::paint(&mut self.words, start, n, used, masks);
        self.renew(start, n);
        self.summary = top(&self.summaries);
    }

    // ---- what is stored

    // Whether each tree is sound, and the summary over them is theirs.
    fn sound(&self) -> bool
        requires { IsThird self.now }
        ensures { SoundSays self.now result }
    {
        (0..TREES).all(|i| self.tree_sound(i)) && self.summary == top(&self.summaries)
    }

    // Whether tree i is sound.
    fn tree_sound(&self, i: usize) -> bool
        requires { i < 16 }
        ensures { TreeSoundSays self.now i result }
    {
        tree::sound(self.tree_words(i), self.stored(i))
    }

    // What is to be stored of tree i.
    fn tree_stored(&self, i: usize) -> Stored
        requires { i < 16 }
        ensures { Tree.StoredOfSays (tree_words self.now.words i) result }
    {
        tree::stored_of(self.tree_words(i))
    }

    // The words of tree i.
    fn tree_words(&self, i: usize) -> &[u64]
        requires { i < 16 }
        ensures { result.now ≡ tree_words self.now.words i }
    {
        let first = TREE_WORDS * i;
        &self.words[first..first + TREE_WORDS]
    }

    // What is stored of tree i.
    fn stored(&self, i: usize) -> Stored
        requires { i < 16 }
        ensures { result ≡ stored_at self.now i }
    {
        Stored {
            summary: self.summaries[i],
            full: self.fulls[i],
            count: self.counts[i],
        }
    }

    // Makes what is stored of each tree that the n slots from `start` on reach anew.
    fn renew(&mut self, start: usize, n: usize)
        ensures { self.new ≡ renewed_third self.old start n }
    {
        let end = rows::end_of(SLOTS, start, n);
        for i in start / TREE_SLOTS..end.div_ceil(TREE_SLOTS) {
            let new = self.tree_stored(i);
            (self.summaries[i], self.fulls[i], self.counts[i]) = (new.summary, new.full, new.count);
        }
    }
}

const TREES: usize = 16;

const TREE_WORDS: usize = 16;

const TREE_SLOTS: usize = 1024;

const SLOTS: usize = 16384;

// The sum of the counts.
fn total(counts: &[u16; 16]) -> u64
    ensures { TotalSays counts.now result }
{
    counts.iter().map(|&count| u64::from(count)).sum()
}

// The summary over the trees: bit i is 1 exactly if summary i is not 0.
fn top(summaries: &[u16; 16]) -> u16
    ensures { result ≡ summary_of summaries.now }
{
    rows::marks(&summaries.map(u64::from), Mark::Used)
}
