// What the measurement calls from outside: takes and frees one after the other on a map that is lent as
// its words, a tree by value and in place, the third level and the word by value; and listings of a
// tree's runs. Thin: a fold or a loop over the calls of `tree`, of `in_place`, of `third`, of `word` and of `gaps`.
#![tactic(auto)]

ghost use Rattle.std.specs.Prelude.{◌≡◌, ◌*◌, ◌≤◌, true, false};
ghost use Rattle.bits.specs.Range.{count};
ghost use Rattle.views.specs.Painting.{slot_in};
ghost use Rattle.answers.specs.Answers.{answer_says};
ghost use Rattle.measured.specs.Gaps.{ListsSays, LongestSays, count_of, numbers_of};
ghost use Rattle.measured.specs.Series.{TakesSays, FreesSays, ThirdTakesSays, ThirdFreesSays, WordTakesSays, WordFreesSays};

use answers::{Refusal, Run};
use third::Third;
use tree::Tree;
use word::Word;

// Stores the words that are left, and answers how many slots are used.
fn left_in<const N: usize>(words: &mut [u64; N], left: [u64; N]) -> usize
    requires { N ≤ 256 }
    ensures used { result ≡ count (slot_in left.entry) 0 (N * 64) }
    ensures words { words.new ≡ left.entry }
{
    *words = left;
    rows::count(&left) as usize
}

// One function for each map, by value and in place, and for each listing, and no generic one: C calls each by
// its name, and an export has no type parameter.

// So many takes of n slots at a multiple of 2^a; a take that is refused changes nothing. Answers how
// many slots are used then. Never refused.
#[unsafe(no_mangle)]
pub extern "C" fn slots_takes(words: &mut [u64; 16], n: usize, a: usize, times: usize) -> usize
    ensures { TakesSays words.old n a times result words.new }
{
    let map = (0..times).fold(Tree::holding(*words), |tree, _| tree.take(n, a).map);
    left_in(words, map.words())
}

// A free of n slots from each of the starts; a free that is refused changes nothing. Answers how many
// slots are used then. Never refused.
#[unsafe(no_mangle)]
pub extern "C" fn slots_frees(words: &mut [u64; 16], starts: &[u64], n: usize) -> usize
    ensures { FreesSays words.old starts.now n result words.new }
{
    let map = starts.iter().fold(
        Tree::holding(*words),
        |tree, start| tree.free(*start as usize, n).map,
    );
    left_in(words, map.words())
}

// The same, by the in-place forms.
#[unsafe(no_mangle)]
pub extern "C" fn slots_takes_in_place(
    words: &mut [u64; 16],
    n: usize,
    a: usize,
    times: usize,
) -> usize
    ensures { TakesSays words.old n a times result words.new }
{
    let map = (0..times).fold(Tree::holding(*words), |tree, _| {
        in_place::take_in_copy(tree, n, a).map
    });
    left_in(words, map.words())
}

#[unsafe(no_mangle)]
pub extern "C" fn slots_frees_in_place(words: &mut [u64; 16], starts: &[u64], n: usize) -> usize
    ensures { FreesSays words.old starts.now n result words.new }
{
    let map = starts.iter().fold(Tree::holding(*words), |tree, start| {
        in_place::free_in_copy(tree, *start as usize, n).map
    });
    left_in(words, map.words())
}

// ---- the same at the third level

#[unsafe(no_mangle)]
pub extern "C" fn third_takes(words: &mut [u64; 256], n: usize, a: usize, times: usize) -> usize
    ensures { ThirdTakesSays words.old n a times result words.new }
{
    let map = (0..times).fold(Third::holding(*words), |third, _| third.take(n, a).map);
    left_in(words, map.words())
}

#[unsafe(no_mangle)]
pub extern "C" fn third_frees(words: &mut [u64; 256], starts: &[u64], n: usize) -> usize
    ensures { ThirdFreesSays words.old starts.now n result words.new }
{
    let map = starts.iter().fold(
        Third::holding(*words),
        |third, start| third.free(*start as usize, n).map,
    );
    left_in(words, map.words())
}

// ---- the same at the word

#[unsafe(no_mangle)]
pub extern "C" fn word_takes(words: &mut [u64; 1], n: usize, a: usize, times: usize) -> usize
    ensures { WordTakesSays words.old n a times result words.new }
{
    let map = (0..times).fold(Word::holding(words[0]), |word, _| word.take(n, a).map);
    left_in(words, [map.bits()])
}

#[unsafe(no_mangle)]
pub extern "C" fn word_frees(words: &mut [u64; 1], starts: &[u64], n: usize) -> usize
    ensures { WordFreesSays words.old starts.now n result words.new }
{
    let map = starts.iter().fold(
        Word::holding(words[0]),
        |word, start| word.free(*start as usize, n).map,
    );
    left_in(words, [map.bits()])
}

// ---- the gaps of a tree

// So many listings of the free runs, one after the other in the same buffer; one that is refused writes
// nothing. Answers what the last one does, 0 where it is refused or where none is asked for. Never
// refused.
#[unsafe(no_mangle)]
pub extern "C" fn gaps_free(words: &[u64; 16], list: &mut [u16], times: usize) -> usize
    ensures { ListsSays false words.now list.old times result list.new }
{
    lists(words, false, list, times)
}

// The same of the used runs.
#[unsafe(no_mangle)]
pub extern "C" fn gaps_used(words: &[u64; 16], list: &mut [u16], times: usize) -> usize
    ensures { ListsSays true words.now list.old times result list.new }
{
    lists(words, true, list, times)
}

// The listings of the runs of slots whose value is `used`.
fn lists(words: &[u64; 16], used: bool, list: &mut [u16], times: usize) -> usize
    ensures { ListsSays used words.now list.old times result list.new }
{
    let tree = Tree::holding(*words);
    let mut count = 0;
    for _ in 0..times {
        count = count_of(gaps::runs(tree, used, list));
    }
    count
}

// Asks so many times for the longest free run, and leaves its start and its length, both 0 where there
// is none; where it is not asked for, what there was. Never refused.
#[unsafe(no_mangle)]
pub extern "C" fn gaps_longest(words: &[u64; 16], found: &mut [u64; 2], times: usize)
    ensures { LongestSays words.now found.old times found.new }
{
    let tree = Tree::holding(*words);
    for _ in 0..times {
        *found = numbers_of(gaps::longest_free(tree));
    }
}

fn count_of(said: Result<u64, Refusal>) -> usize
    ensures { result ≡ count_of (answer_says said) }
{
    said.unwrap_or(0) as usize
}

fn numbers_of(said: Result<Run, Refusal>) -> [u64; 2]
    ensures { result ≡ numbers_of (answer_says said) }
{
    match said {
        Ok(run) => [run.start as u64, run.length as u64],
        Err(_) => [0, 0],
    }
}
