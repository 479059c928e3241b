// What an operator is shown of a tree who asks why a group won't start: its free runs, its used runs,
// the longest free run and how many slots are free, a line each. Rests on `gaps` and `texts`.
#![tactic(auto)]

ghost use Rattle.std.specs.Prelude.{◌≡◌, true};
ghost use Rattle.texts.specs.Texts.{put_all};
ghost use Rattle.slots.specs.Gaps.{runs_of, longest_call};
ghost use Rattle.slots.specs.View.{answered};
ghost use Rattle.tree.specs.Layout.{slot_of, tree_view};
ghost use Rattle.gap_report.specs.Lines.{run_line, run_lines, longest_line, slots_line};
ghost use Rattle.gap_report.specs.Says.{WriteSays};
ghost use Rattle.gap_report.specs.Inner.{lines_in};

use answers::{Refusal, Run};
use tree::Tree;

const SLOTS: u64 = 1024;

// Writes the lines to the front of the text, and answers how long they are. The bytes after them stay.
// Refused with 1 where the tree is not sound, and then every byte is as it was.
pub fn write(tree: Tree, text: &mut [u8; 20480]) -> Result<u64, Refusal>
    ensures { WriteSays tree text.old result text.new }
{
    let used = tree.used()?;
    let after_free = put_runs(tree, false, b"free run ", text, 0);
    let after_used = put_runs(tree, true, b"used run ", text, after_free);
    let after_longest = put_longest(tree, text, after_used);
    Ok(put_slots(SLOTS - used, text, after_longest) as u64)
}

// Each function below puts lines into the text from offset `at` on, and answers the offset after them. The
// offset stays beside the text: without it each would have to ask for room, where `texts::put` leaves both.

// The runs of slots whose value is `used`, each behind the word.
fn put_runs(tree: Tree, used: bool, word: &[u8], text: &mut [u8], at: usize) -> usize
    requires { tree_view.is_sound tree ≡ true }
    ensures { (result, text.new) ≡ put_all (at, text.old) (run_lines word.now (runs_of 10 used (slot_of tree))) }
{
    let mut list = [0u16; 1024];
    let count = gaps::runs(tree, used, &mut list).unwrap() as usize;
    let (runs, _) = list[..2 * count].as_chunks();
    put_list(runs, word, text, at)
}

// Runs that are two numbers each.
fn put_list(runs: &[[u16; 2]], word: &[u8], text: &mut [u8], at: usize) -> usize
    ensures { (result, text.new) ≡ put_all (at, text.old) (lines_in word.now runs.now) }
{
    let mut end = at;
    for [start, length] in runs {
        let run = Run {
            start: usize::from(*start),
            length: usize::from(*length),
        };
        end = put_run(run, word, text, end);
    }
    end
}

// The longest free run, or that there is none.
fn put_longest(tree: Tree, text: &mut [u8], at: usize) -> usize
    ensures { (result, text.new) ≡ put_all (at, text.old) (longest_line (answered tree_view tree (longest_call 10 (slot_of tree)))) }
{
    match gaps::longest_free(tree) {
        Ok(run) => put_run(run, b"longest free run ", text, at),
        Err(_) => texts::put(text, at, b"longest free run none\n"),
    }
}

// A run behind a word: its start and its length.
fn put_run(run: Run, word: &[u8], text: &mut [u8], at: usize) -> usize
    ensures { (result, text.new) ≡ put_all (at, text.old) (run_line word.now run) }
{
    let after_word = texts::put(text, at, word);
    let after_start = texts::put_number(text, after_word, run.start as u64);
    let after_space = texts::put(text, after_start, b" ");
    let after_length = texts::put_number(text, after_space, run.length as u64);
    texts::put(text, after_length, b"\n")
}

// How many slots are free.
fn put_slots(free: u64, text: &mut [u8], at: usize) -> usize
    ensures { (result, text.new) ≡ put_all (at, text.old) (slots_line free) }
{
    let after_word = texts::put(text, at, b"free slots ");
    let after_number = texts::put_number(text, after_word, free);
    texts::put(text, after_number, b"\n")
}
