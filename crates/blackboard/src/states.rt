// The states of the crate jobs: the call, its answer, and what is then left as a tree shows it. After that stand the runs
// of reaped slots. A refused state is shown too, since all of it can always be read.
use crate::asked::Told;
use crate::{runs, show};
use answers::{Changed, Reply};
use jobs::{JobRefusal, Jobs, State};
use std::io;

fn answer(rt: &impl Print, answer: Result<Reply, JobRefusal>) -> io::Result<()> {
    show::answer(rt, answer.map_err(|why| why.number()))
}

fn left(rt: &impl Print, changed: Changed<JobRefusal, Jobs>) -> io::Result<()> {
    let jobs = changed.map;
    let words = jobs.words();
    let reaped = jobs.reaped();
    answer(rt, changed.answer)?;
    runs::left(rt, &words, 1024, jobs.summary())?;
    runs::beside(rt, jobs.full(), jobs.count())?;
    show::text(rt, b", reaped")?;
    runs::held(rt, &reaped, 1024)?;
    show::text(rt, b"\n")
}

impl<'a, P: Print> Told<'a, P, Jobs> {
    pub fn start(&self, n: usize, a: usize) -> io::Result<()> {
        self.ask_run("start", n, a)?;
        left(self.rt, self.map.start(n, a))
    }

    pub fn reap(&self, start: usize, n: usize) -> io::Result<()> {
        self.ask_range("reap", start, n)?;
        left(self.rt, self.map.reap(start, n))
    }

    pub fn record(&self, start: usize, n: usize) -> io::Result<()> {
        self.ask_range("record", start, n)?;
        left(self.rt, self.map.record(start, n))
    }

    pub fn state(&self, slot: usize) -> io::Result<()> {
        self.ask_slot("state of", slot)?;
        match self.map.state(slot) {
            Ok(State::Free) => show::text(self.rt, b": free\n"),
            Ok(State::Running) => show::text(self.rt, b": running\n"),
            Ok(State::Reaped) => show::text(self.rt, b": reaped\n"),
            Err(why) => show::refusal(self.rt, why),
        }
    }

    pub fn counts(&self) -> io::Result<()> {
        self.ask("empty")?;
        show::truth_answer(self.rt, self.map.empty())?;
        self.ask("used")?;
        show::number_answer(self.rt, self.map.used())?;
        self.ask("capacity")?;
        show::value(self.rt, self.map.capacity())
    }
}

// ---- the lesson's stories, in which the slots stand in a row

// What `state` says of the slot: a dot for free, `#` for running, `r` for reaped.
fn slot_drawn(rt: &impl Print, jobs: Jobs, slot: usize) -> io::Result<()> {
    match jobs.state(slot) {
        Ok(State::Free) => show::text(rt, b"."),
        Ok(State::Running) => show::text(rt, b"#"),
        Ok(State::Reaped) => show::text(rt, b"r"),
        Err(why) => show::refusal(rt, why),
    }
}

// The first 64 slots in a row, slot 0 first, to the end of the line.
fn drawn(rt: &impl Print, jobs: Jobs) -> io::Result<()> {
    show::text(rt, b", leaves ")?;
    for slot in 0..64 {
        slot_drawn(rt, jobs, slot)?;
    }
    show::text(rt, b"\n")
}

impl<'a, P: Print> Told<'a, P, Jobs> {
    // The state that a story begins with.
    pub fn at_first(&self) -> io::Result<()> {
        self.ask("at first")?;
        drawn(self.rt, self.map)
    }

    // The answer and the row. The story goes on with the state that is left.
    fn go_on(&mut self, changed: Changed<JobRefusal, Jobs>) -> io::Result<()> {
        self.map = changed.map;
        answer(self.rt, changed.answer)?;
        drawn(self.rt, self.map)
    }

    pub fn started(&mut self, n: usize, a: usize) -> io::Result<()> {
        self.ask_run("start", n, a)?;
        self.go_on(self.map.start(n, a))
    }

    pub fn reaped(&mut self, start: usize, n: usize) -> io::Result<()> {
        self.ask_range("reap", start, n)?;
        self.go_on(self.map.reap(start, n))
    }

    pub fn recorded(&mut self, start: usize, n: usize) -> io::Result<()> {
        self.ask_range("record", start, n)?;
        self.go_on(self.map.record(start, n))
    }
}
