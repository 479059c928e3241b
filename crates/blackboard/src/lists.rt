// The runs of a tree as the crate gaps lists them, and its longest free run. A run is said as start+length, and dots stand for
// runs that go on in the step of the two before them. A buffer has 1,026 numbers, two more than the longest list, and a call is
// lent its first numbers: how many stands beside the buffer, since more of it is shown. All of them were 65535, which no list
// holds. After the list stand the number that follows it, and how many from there to the buffer's end are as they were.
ghost use Rattle.std.specs.Prelude.{◌<◌, ◌≤◌, length};

use crate::asked::{Told, on};
use crate::edges::tree_with;
use crate::{names, show, trees};
use answers::Refusal;
use std::io;
use tree::Tree;

const AS_IT_WAS: u16 = 65535;

// Those of used slots, or those of free ones. Not `gaps::runs`, which both are a call of: so both are run here.
fn runs_of(map: Tree, used: bool, list: &mut [u16]) -> Result<u64, Refusal> {
    if used {
        gaps::used_runs(map, list)
    } else {
        gaps::free_runs(map, list)
    }
}

// ---- what a list holds

// How many numbers the list has: none where the call is refused, and 1,024 at most.
fn numbers(said: Result<u64, Refusal>) -> usize
    ensures { result ≤ 1024 }
{
    2 * said.unwrap_or(0).min(512) as usize
}

// Whether run `i` is as long as the one before it, and as far from it as that is from the one before.
fn in_step(runs: &[[u16; 2]], i: usize) -> bool
    requires { i < length runs.now }
{
    if i < 2 {
        return false;
    }
    let [before, last, this] = [runs[i - 2], runs[i - 1], runs[i]];
    this[1] == last[1] && this[0].saturating_sub(last[0]) == last[0].saturating_sub(before[0])
}

// Whether run `i` is in step, and so is the next one.
fn left_out(runs: &[[u16; 2]], i: usize) -> bool
    requires { i < length runs.now }
{
    i + 1 < runs.len() && in_step(runs, i) && in_step(runs, i + 1)
}

// ---- parts of a line

// Run `i`. Where it is left out, dots stand for it and for those left out beside it.
fn run(rt: &impl Print, runs: &[[u16; 2]], i: usize) -> io::Result<()>
    requires { i < length runs.now }
{
    let [start, length] = runs[i];
    if !left_out(runs, i) {
        print!(rt; " {start}+{length}")
    } else if i > 0 && left_out(runs, i - 1) {
        Ok(())
    } else {
        show::text(rt, b" ..")
    }
}

// How many runs there are, and the list; none is said as such.
fn listed(rt: &impl Print, count: u64, list: &[u16]) -> io::Result<()> {
    let (runs, _) = list.as_chunks::<2>();
    print!(rt; ": {count}, list")?;
    if runs.is_empty() {
        show::text(rt, b" none")?;
    }
    for i in 0..runs.len() {
        run(rt, runs, i)?;
    }
    Ok(())
}

fn answer(rt: &impl Print, said: Result<u64, Refusal>, list: &[u16]) -> io::Result<()> {
    match said {
        Ok(count) => listed(rt, count, list),
        Err(why) => show::refused(rt, why.number()),
    }
}

// ---- lines

impl<'a, P: Print> Told<'a, P, Tree> {
    fn runs(&self, used: bool, size: usize) -> io::Result<()>
        requires { size ≤ 1026 }
    {
        let mut list = [AS_IT_WAS; 1026];
        let said = runs_of(self.map, used, &mut list[..size]);
        self.ask(if used { "used runs" } else { "free runs" })?;
        print!(self.rt; ", lent {size} numbers")?;
        let end = numbers(said);
        answer(self.rt, said, &list[..end])?;
        let next = list[end];
        let unchanged = list[end..].iter().filter(|n| **n == AS_IT_WAS).count();
        println!(self.rt; ", then {next}, unchanged {unchanged}")
    }

    fn both(&self, size: usize) -> io::Result<()>
        requires { size ≤ 1026 }
    {
        self.runs(false, size)?;
        self.runs(true, size)
    }

    fn longest(&self) -> io::Result<()> {
        self.ask("longest free run")?;
        match gaps::longest_free(self.map) {
            Ok(run) => {
                let start = run.start;
                let length = run.length;
                println!(self.rt; ": {start}+{length}")
            }
            Err(why) => show::refusal(self.rt, why),
        }
    }

    // Both lists, and the longest free run.
    fn each_call(&self) -> io::Result<()> {
        self.both(1024)?;
        self.longest()
    }
}

// ---- what is asked

// Every other slot, slot 0 among them: each word has its bits 0, 2 and so on.
fn even_slots() -> Tree {
    Tree::holding([6148914691236517205; 16])
}

fn odd_slots() -> Tree {
    Tree::holding([12297829382473034410; 16])
}

fn without(map: Tree, start: usize, n: usize) -> Tree {
    map.free(start, n).map
}

// No slot, all slots, every other slot; and the first or the last slot alone, used or free.
pub fn of_maps(rt: &impl Print) -> io::Result<()> {
    let full = Tree::new_full();
    on(rt, names::EMPTY_TREE, Tree::new_empty()).each_call()?;
    on(rt, names::FULL_TREE, full).each_call()?;
    on(rt, names::TREE_WITH_EVEN_SLOTS, even_slots()).each_call()?;
    on(rt, names::TREE_WITH_ODD_SLOTS, odd_slots()).each_call()?;
    on(rt, names::TREE_WITH_SLOT_0, tree_with(0, 1)).each_call()?;
    on(rt, names::TREE_WITH_SLOT_1023, tree_with(1023, 1)).each_call()?;
    on(rt, names::TREE_WITHOUT_SLOT_0, without(full, 0, 1)).each_call()?;
    on(rt, names::TREE_WITH_SLOTS_0_TO_1022, without(full, 1023, 1)).each_call()
}

// Runs across the edge of two words, and runs that end at one.
pub fn at_words(rt: &impl Print) -> io::Result<()> {
    let full = Tree::new_full();
    on(rt, names::TREE_WITH_SLOTS_60_TO_67, tree_with(60, 8)).each_call()?;
    on(rt, names::TREE_WITHOUT_SLOTS_60_TO_67, without(full, 60, 8)).each_call()?;
    on(rt, names::TREE_WITH_SLOTS_64_TO_127, tree_with(64, 64)).each_call()?;
    on(rt, names::TREE_WITH_SLOTS_0_TO_959, tree_with(0, 960)).each_call()
}

// Two gaps that are equally long, and two of which the later is longer by a slot.
pub fn two_gaps(rt: &impl Print) -> io::Result<()> {
    let gap = without(Tree::new_full(), 100, 100);
    on(
        rt,
        names::TREE_WITHOUT_SLOTS_100_TO_199_400_TO_499,
        without(gap, 400, 100),
    )
    .each_call()?;
    on(
        rt,
        names::TREE_WITHOUT_SLOTS_100_TO_199_400_TO_500,
        without(gap, 400, 101),
    )
    .each_call()
}

// Buffers that are too short, also where a list would have no runs, and one that is longer than it has to be.
pub fn buffers(rt: &impl Print) -> io::Result<()> {
    on(rt, names::EMPTY_TREE, Tree::new_empty()).both(0)?;
    on(rt, names::FULL_TREE, Tree::new_full()).both(1023)?;
    on(rt, names::TREE_WITH_EVEN_SLOTS, even_slots()).both(1023)?;
    on(rt, names::TREE_WITH_EVEN_SLOTS, even_slots()).both(1026)
}

// A tree that is not sound, also where the buffer is too short and where all slots are used: 1 comes before 11 and before 7.
pub fn unsound_trees(rt: &impl Print) -> io::Result<()> {
    for (name, map) in trees::unsound() {
        let bad = on(rt, name, map);
        bad.each_call()?;
        bad.both(1023)?;
    }
    Ok(())
}

// Groups that start and groups that don't: 346 slots are free, and the longest gap has 110. docs/pictures/gaps.svg is made of
// these lines.
pub fn seven_gaps(rt: &impl Print) -> io::Result<()> {
    let mut map = without(Tree::new_full(), 150, 26);
    map = without(map, 260, 60);
    map = without(map, 410, 110);
    map = without(map, 592, 16);
    map = without(map, 736, 84);
    map = without(map, 922, 38);
    map = without(map, 1012, 12);
    let seven = on(rt, names::TREE_WITH_SEVEN_GAPS, map);
    seven.each_call()?;
    seven.take(346, 0)?;
    seven.take(111, 0)?;
    seven.take(110, 0)
}
