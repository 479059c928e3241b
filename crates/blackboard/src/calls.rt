// The calls on a map of any size: what is asked, its answer, and what is then left.
use crate::asked::Told;
use crate::show;
use answers::{Changed, Refusal};
use maps::Map;
use std::io;

// What a map shows of itself: what it leaves, to the end of the line.
pub trait Shown: Map {
    fn shown(self, rt: &impl Print) -> io::Result<()>;
}

// The answer, and the map that is left.
pub fn left<M: Shown>(rt: &impl Print, changed: Changed<Refusal, M>) -> io::Result<()> {
    show::answer(rt, changed.answer.map_err(|why| why.number()))?;
    changed.map.shown(rt)
}

impl<'a, P: Print, M: Shown> Told<'a, P, M> {
    pub fn take(&self, n: usize, a: usize) -> io::Result<()> {
        self.ask_run("take", n, a)?;
        left(self.rt, self.map.take(n, a))
    }

    pub fn claim(&self, start: usize, n: usize) -> io::Result<()> {
        self.ask_range("claim", start, n)?;
        left(self.rt, self.map.claim(start, n))
    }

    pub fn free(&self, start: usize, n: usize) -> io::Result<()> {
        self.ask_range("free", start, n)?;
        left(self.rt, self.map.free(start, n))
    }

    pub fn set(&self, start: usize, n: usize, used: bool) -> io::Result<()> {
        let call = if used { "set used" } else { "set free" };
        self.ask_range(call, start, n)?;
        left(self.rt, self.map.set(start, n, used))
    }

    pub fn next_free(&self, start: usize) -> io::Result<()> {
        self.ask_slot("next free from", start)?;
        show::number_answer(self.rt, self.map.next_free(start))
    }

    pub fn get(&self, slot: usize) -> io::Result<()> {
        self.ask_slot("is used", slot)?;
        show::truth_answer(self.rt, self.map.get(slot))
    }

    pub fn counts(&self) -> io::Result<()> {
        self.ask("empty")?;
        show::truth_answer(self.rt, self.map.empty())?;
        self.ask("used")?;
        show::number_answer(self.rt, self.map.used())?;
        self.ask("capacity")?;
        show::value(self.rt, self.map.capacity())
    }

    // ---- the lesson's stories

    // The map that a story begins with.
    pub fn at_first(&self) -> io::Result<()> {
        self.ask("at first")?;
        self.map.shown(self.rt)
    }

    // A take, after which the story goes on with the map that is left.
    pub fn taken(&mut self, n: usize, a: usize) -> io::Result<()> {
        self.take(n, a)?;
        self.map = self.map.take(n, a).map;
        Ok(())
    }

    // The same of a free.
    pub fn freed(&mut self, start: usize, n: usize) -> io::Result<()> {
        self.free(start, n)?;
        self.map = self.map.free(start, n).map;
        Ok(())
    }
}
