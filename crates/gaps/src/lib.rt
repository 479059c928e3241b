// The gaps of a tree, for an operator who asks why a group won't start: its free runs, each as long as
// possible, lowest first, as start and length in a lent buffer of 16-bit numbers; the longest of them;
// and its used runs by the same laws. A tree that is not sound is refused with 1, before all else. Rests
// on `tree` and `rows`.
#![tactic(auto)]

ghost use Rattle.std.specs.Prelude.{◌≡◌, [], ◌∷◌, ◌≤◌, ◌-◌, length};
ghost use Rattle.bits.specs.Range.{least};
ghost use Rattle.views.specs.Painting.{slot_in};
ghost use Rattle.slots.specs.Runs.{first_best};
ghost use Rattle.slots.specs.Gaps.{having, longer};
ghost use Rattle.gaps.specs.Says.{RunsSays, FreeRunsSays, UsedRunsSays, LongestFreeSays};
ghost use Rattle.gaps.specs.Inner.{SoundWordsSays, PutRunsSays, LongestSays, NextRunSays};

use answers::{Refusal, Run};
use tree::Tree;

// How many slots a tree has, and how many numbers the buffer must hold: a tree has at most half as many
// runs as slots, and each is two numbers.
const SLOTS: usize = 1024;

// Writes the runs of slots whose value is `used` to the front of the buffer, and answers how many there
// are, 0 where no slot has the value. The numbers after them stay. Refused: 1 where the tree is not sound,
// 11 where the buffer has fewer than 1,024 numbers. A refusal leaves every number as it was.
pub fn runs(tree: Tree, used: bool, list: &mut [u16]) -> Result<u64, Refusal>
    ensures { RunsSays tree used list.old result list.new }
{
    let words = sound_words(tree)?;
    if list.len() < SLOTS {
        return Err(Refusal::ReportTooShort);
    }
    let count = put_runs(&words, used, list);
    Ok(count as u64)
}

// The free runs: 0 on a full map. Two functions beside `runs`, as document 01's request has both.
pub fn free_runs(tree: Tree, list: &mut [u16]) -> Result<u64, Refusal>
    ensures { FreeRunsSays tree list.old result list.new }
{
    runs(tree, false, list)
}

// The used runs: 0 on an empty map.
pub fn used_runs(tree: Tree, list: &mut [u16]) -> Result<u64, Refusal>
    ensures { UsedRunsSays tree list.old result list.new }
{
    runs(tree, true, list)
}

// The longest free run, the lowest on a tie. Refused: 1 where the tree is not sound, 7 where it is full.
pub fn longest_free(tree: Tree) -> Result<Run, Refusal>
    ensures { LongestFreeSays tree result }
{
    longest(&sound_words(tree)?).ok_or(Refusal::NoRoom)
}

// The words of a tree that is sound, and else refusal 1: the tree is asked for its count, which it refuses
// exactly where it is not sound.
fn sound_words(tree: Tree) -> Result<[u64; 16], Refusal>
    ensures { SoundWordsSays tree result }
{
    tree.used()?;
    Ok(tree.words())
}

// ---- from run to run, in two loops. `successors` was tried: to the library it has no end, and `reduce` asks
// for one; and what a buffer holds after `as_chunks_mut` has lent it in pairs is not said.

// Writes the runs, and answers how many there are. The flat buffer, and how many beside it, are what
// `FreeRunsSays` promises.
fn put_runs(words: &[u64; 16], used: bool, list: &mut [u16]) -> usize
    requires { 1024 ≤ length list.old }
    ensures { PutRunsSays words.now used list.old result list.new }
{
    let mut count = 0;
    let mut from = 0;
    while let Some(next) = next_run(words, used, from) {
        list[2 * count] = next.start as u16;
        list[2 * count + 1] = next.length as u16;
        count += 1;
        from = next.start + next.length;
    }
    count
}

// The longest free run, the lowest on a tie, if there is one.
fn longest(words: &[u64; 16]) -> Option<Run>
    ensures { LongestSays words.now result }
{
    let mut best = next_run(words, false, 0)?;
    let mut from = best.start + best.length;
    while let Some(next) = next_run(words, false, from) {
        best = better(best, next);
        from = next.start + next.length;
    }
    Some(best)
}

// The longer of two runs, and of two that are equally long the one that was found before.
fn better(best: Run, next: Run) -> Run
    ensures { result ≡ first_best longer best (next ∷ []) }
{
    if best.length < next.length {
        return next;
    }
    best
}

// The next run from `from` on, if there is one.
fn next_run(words: &[u64; 16], used: bool, from: usize) -> Option<Run>
    requires { from ≤ 1024 }
    ensures { NextRunSays words.now used from result }
{
    let start = next_of(words, used, from);
    let end = next_of(words, !used, start);
    if start == end {
        return None;
    }
    Some(Run {
        start,
        length: end - start,
    })
}

// The least slot from `from` on whose value is `used`, or 1,024, where a run that reaches the end ends. By the
// value, as `having` has it. No word is passed over by a mark.
fn next_of(words: &[u64; 16], used: bool, from: usize) -> usize
    requires { from ≤ 1024 }
    ensures { result ≡ least (having used (slot_in words.now)) from (1024 - from) }
{
    let unmarked = [0];
    if used {
        return rows::first_used(words, &unmarked, from, SLOTS);
    }
    rows::first_free(words, &unmarked, from).min(SLOTS)
}
