// What the lines tell of, and what is asked of it: its name, the call and its numbers. The answer follows on the same line.
use std::io;

// A map of any size, or what holds one: a state of jobs, or an image. With it its name and where it is told.
#[derive(Drop)]
pub struct Told<'a, P, M> {
    pub rt: &'a P,
    pub name: &'a str,
    pub map: M,
}

// As in `on(rt, names::FULL_TREE, Tree::new_full()).take(1, 0)`: the name, the call and what came of it are one line.
pub fn on<'a, P: Print, M>(rt: &'a P, name: &'a str, map: M) -> Told<'a, P, M> {
    Told { rt, name, map }
}

impl<'a, P: Print, M> Told<'a, P, M> {
    // A call without numbers.
    pub fn ask(&self, call: &str) -> io::Result<()> {
        let name = self.name;
        print!(self.rt; "{name}: {call}")
    }

    // A call on a slot, or from a slot on.
    pub fn ask_slot(&self, call: &str, slot: usize) -> io::Result<()> {
        let name = self.name;
        print!(self.rt; "{name}: {call} {slot}")
    }

    // A call on so many slots from a start on.
    pub fn ask_range(&self, call: &str, start: usize, n: usize) -> io::Result<()> {
        let name = self.name;
        print!(self.rt; "{name}: {call} from {start}, {n}")
    }

    // A call for so many slots, wherever they are at a multiple of this power of two.
    pub fn ask_run(&self, call: &str, n: usize, a: usize) -> io::Result<()> {
        let name = self.name;
        print!(self.rt; "{name}: {call} {n} at a multiple of 2^{a}")
    }
}
