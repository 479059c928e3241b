// Reaped is not free: the tree map with a second mark on each slot. A slot is free, running or reaped.
// Starting a group takes its slots, which then run. When a job has ended, its slots are reaped. Only
// when the status is recorded are they free again, and can be granted. A state is sound when its tree
// is and each reaped slot is used. Start, reap, record, state, empty and used refuse any other with 1,
// before all else. Capacity, and what makes a state or reads its fields, answer for every state. There
// is no plain free, claim or set, and no way to the tree inside. Rests on `tree`, `judges` and `rows`.
#![tactic(auto)]

ghost use Rattle.std.specs.Prelude.{◌≡◌};
ghost use Rattle.answers.specs.Answers.{left_with};
ghost use Rattle.slots.specs.Jobs.{state_by};
ghost use Rattle.jobs.specs.declared.JobRefusal.TheVariants.{Map};
ghost use Rattle.jobs.specs.JobAnswers.{slot_state};
ghost use Rattle.jobs.specs.Layout.{AreJobs};
ghost use Rattle.jobs.specs.Inner.{ReapedUsedSays, KeptTreeSays, RangeJudged, ReapJudged, RecordJudged};
ghost use Rattle.jobs.specs.Says.{NumberSays, NewEmptySays, HoldingSays, WordsSays, SummarySays, FullSays, CountSays, ReapedSays, StartSays, ReapSays, RecordSays, StateSays, EmptySays, UsedSays, CapacitySays};

use answers::{Changed, Refusal, Reply};
use judges::Size;
use rows::Masks;
use tree::Tree;

// Why a call was refused.
#[derive(Clone, Copy, PartialEq, Eq)]
pub enum JobRefusal {
    // 1 to 12: as the maps below refuse. 1 is also said where a reaped slot is not used.
    Map(Refusal),
    // 13: a slot to be reaped is not running.
    NotRunning,
    // 14: a slot whose status is to be recorded is not reaped.
    NotReaped,
}

impl JobRefusal {
    // The number that the papers give this refusal. By this name, and no `From`, as `NumberSays` promises it;
    // and no cast, as one of the cases holds a refusal of the maps.
    pub fn number(self) -> u8
        ensures { NumberSays self result }
    {
        match self {
            JobRefusal::Map(why) => why.number(),
            JobRefusal::NotRunning => 13,
            JobRefusal::NotReaped => 14,
        }
    }
}

// A map's refusal is one of this crate, by the same number.
impl From<Refusal> for JobRefusal {
    ghost from_gives = { λ why refusal. refusal ≡ Map why };

    fn from(why: Refusal) -> JobRefusal {
        Self::Map(why)
    }
}

// What a slot is.
#[derive(Clone, Copy, PartialEq, Eq)]
pub enum State {
    Free,
    Running,
    Reaped,
}

// The tree has the used slots, which are those that run and those that are reaped. In the words beside
// it slot s is bit s % 64 of word s / 64; 1 means reaped.
#[derive(Clone, Copy)]
pub struct Jobs {
    tree: Tree,
    reaped: [u64; 16],
}

#[tactic(auto, using(crate::proofs::Values::are_jobs), unfolding(slots::specs::Calls::capacity))]
impl Jobs {
    // The state with each slot free.
    pub fn new_empty() -> Jobs
        ensures { NewEmptySays result }
    {
        Jobs {
            tree: Tree::new_empty(),
            reaped: [0; 16],
        }
    }

    // The state with this tree and these reaped slots, sound or not: what comes from outside can be
    // either. Never refused.
    pub fn holding(tree: Tree, reaped: [u64; 16]) -> Jobs
        ensures { HoldingSays tree reaped result }
    {
        Jobs { tree, reaped }
    }

    // The tree's words, of every state. Never refused.
    pub fn words(self) -> [u64; 16]
        ensures { WordsSays self result }
    {
        self.tree.words()
    }

    // The tree's summary, of every state. Never refused.
    pub fn summary(self) -> u16
        ensures { SummarySays self result }
    {
        self.tree.summary()
    }

    // The tree's mark of full words, of every state. Never refused.
    pub fn full(self) -> u16
        ensures { FullSays self result }
    {
        self.tree.full()
    }

    // The tree's stored count, of every state. Never refused.
    pub fn count(self) -> u16
        ensures { CountSays self result }
    {
        self.tree.count()
    }

    // The words of the reaped slots, of every state. Never refused.
    pub fn reaped(self) -> [u64; 16]
        ensures { ReapedSays self result }
    {
        self.reaped
    }

    // Starts a group: takes n slots at the lowest free start that is a multiple of 2^a, and answers
    // that start. Refused, the lowest number first: 1 where the state is not sound, 2 where n is 0,
    // 3 where a is 10 or more, 4 where n is above 1,024, 7 where no start fits. A refusal hands back
    // the very state.
    pub fn start(self, n: usize, a: usize) -> Changed<JobRefusal, Jobs>
        ensures { StartSays self n a result }
    {
        let mut map = self;
        let answer = map.started(n, a);
        Changed { answer, map }
    }

    // Reaps the n slots from `start` on, each of which must be running. Refused: 1 where the state is
    // not sound, 2 where n is 0, 4 where the range does not end within 1,024 slots, 13 where a slot is
    // not running. A refusal hands back the very state.
    pub fn reap(self, start: usize, n: usize) -> Changed<JobRefusal, Jobs>
        ensures { ReapSays self start n result }
    {
        let mut map = self;
        let answer = map.ended(start, n);
        Changed { answer, map }
    }

    // Records the status of the n slots from `start` on, each of which must be reaped, and frees them.
    // Refused: 1 where the state is not sound, 2 where n is 0, 4 where the range does not end within
    // 1,024 slots, 14 where a slot is not reaped. A refusal hands back the very state.
    pub fn record(self, start: usize, n: usize) -> Changed<JobRefusal, Jobs>
        ensures { RecordSays self start n result }
    {
        let mut map = self;
        let answer = map.recorded(start, n);
        Changed { answer, map }
    }

    // What the slot is. Refused: 1 where the state is not sound, 4 where the slot is 1,024 or more.
    pub fn state(self, slot: usize) -> Result<State, Refusal>
        ensures { StateSays self slot result }
    {
        let used = self.kept_tree()?.get(slot)?;
        Ok(state_by(used, rows::get(&self.reaped, slot)))
    }

    // Whether each slot is free. Refused: 1 where the state is not sound.
    pub fn empty(self) -> Result<bool, Refusal>
        ensures { EmptySays self result }
    {
        self.kept_tree()?.empty()
    }

    // How many slots are running or reaped. Refused: 1 where the state is not sound.
    pub fn used(self) -> Result<u64, Refusal>
        ensures { UsedSays self result }
    {
        self.kept_tree()?.used()
    }

    // How many slots there are, of every state. Never refused.
    pub fn capacity(self) -> usize
        ensures { CapacitySays result }
    {
        judges::capacity(Size::Tree)
    }

    // ---- the changes, each in place: a refusal leaves the very state
    // `AreJobs` is asked, since of a state behind a `&` the check does not know that its numbers fit.

    // Start's, which is the tree's take.
    fn started(&mut self, n: usize, a: usize) -> Result<Reply, JobRefusal>
        requires { AreJobs self.old }
        ensures { StartSays self.old n a (left_with result self.new) }
    {
        let kept = self.kept_tree()?;
        let taken = kept.take(n, a);
        let reply = taken.answer?;
        self.tree = taken.map;
        Ok(reply)
    }

    // Reap's.
    fn ended(&mut self, start: usize, n: usize) -> Result<Reply, JobRefusal>
        requires { AreJobs self.old }
        ensures { ReapSays self.old start n (left_with result self.new) }
    {
        let done = self.judged_reap(start, n)?;
        rows::paint(&mut self.reaped, start, n, true, Masks::Shifts);
        Ok(done)
    }

    // Record's. What is recorded was reaped, so it is used, and the tree frees it.
    fn recorded(&mut self, start: usize, n: usize) -> Result<Reply, JobRefusal>
        requires { AreJobs self.old }
        ensures { RecordSays self.old start n (left_with result self.new) }
    {
        let done = self.judged_record(start, n)?;
        self.tree = self.tree.free(start, n).map;
        rows::paint(&mut self.reaped, start, n, false, Masks::Shifts);
        Ok(done)
    }

    // ---- check 1, in front of the others

    // Whether each reaped slot is used, asked word by word.
    fn reaped_used(&self) -> bool
        ensures { ReapedUsedSays self.now result }
    {
        let words = self.tree.words();
        words
            .iter()
            .zip(self.reaped.iter())
            .all(|(word, reaped)| places::all_used(*word, *reaped))
    }

    // The tree, where each reaped slot is used, and else the refusal: 1. Whether the tree is sound it
    // says itself.
    fn kept_tree(&self) -> Result<Tree, Refusal>
        ensures { KeptTreeSays self.now result }
    {
        if !self.reaped_used() {
            return Err(Refusal::Unsound);
        }
        Ok(self.tree)
    }

    // Done where the state is sound and the n slots from `start` on are a range of it, and else the
    // refusal. The tree is asked for its count, which it refuses exactly where it is not sound.
    fn judged_range(&self, start: usize, n: usize) -> Result<Reply, Refusal>
        ensures { RangeJudged self.now start n result }
    {
        let tree = self.kept_tree()?;
        tree.used()?;
        judges::range(Size::Tree, start, n)
    }

    // Done where reap accepts, and else the refusal.
    fn judged_reap(&self, start: usize, n: usize) -> Result<Reply, JobRefusal>
        ensures { ReapJudged self.now start n result }
    {
        self.judged_range(start, n)?;
        let words = self.tree.words();
        if !rows::all_used(&words, start, n) {
            return Err(JobRefusal::NotRunning);
        }
        if !rows::all_free(&self.reaped, start, n) {
            return Err(JobRefusal::NotRunning);
        }
        Ok(Reply::Done)
    }

    // Done where record accepts, and else the refusal.
    fn judged_record(&self, start: usize, n: usize) -> Result<Reply, JobRefusal>
        ensures { RecordJudged self.now start n result }
    {
        self.judged_range(start, n)?;
        if !rows::all_used(&self.reaped, start, n) {
            return Err(JobRefusal::NotReaped);
        }
        Ok(Reply::Done)
    }
}

// What a slot with these marks is.
fn state_by(used: bool, reaped: bool) -> State
    ensures { slot_state result ≡ state_by used reaped }
{
    if reaped {
        return State::Reaped;
    }
    if used {
        return State::Running;
    }
    State::Free
}
