// The edges of each public function: the last argument that is accepted, the first that is not, and
// those where a wrap or a shift by 64 would show.
use crate::asked::{Told, on};
use crate::{names, show, trees};
use jobs::Jobs;
use maps::Map;
use std::io;
use third::Third;
use tree::Tree;
use word::Word;

pub fn masks(rt: &impl Print) -> io::Result<()> {
    show::low_mask(rt, 0)?;
    show::low_mask(rt, 1)?;
    show::low_mask(rt, 63)?;
    show::low_mask(rt, 64)?;
    show::low_mask(rt, 65)?;
    show::one_bit(rt, 0)?;
    show::one_bit(rt, 63)?;
    show::one_bit(rt, 64)?;
    show::mask(rt, 0, 63)?;
    show::mask(rt, 5, 5)?;
    show::mask(rt, 63, 63)?;
    show::mask(rt, 3, 1)?;
    show::mask(rt, 0, 64)?;
    show::mask(rt, 65, 64)
}

pub fn rounding(rt: &impl Print) -> io::Result<()> {
    show::align_up(rt, 0u64, 1)?;
    show::align_up(rt, 18446744073709551615u64, 1)?;
    show::align_up(rt, 9223372036854775808u64, 9223372036854775808)?;
    show::align_up(rt, 9223372036854775809u64, 9223372036854775808)?;
    show::align_down(rt, 18446744073709551615u64, 4096)?;
    show::align_down(rt, 4095u64, 4096)?;
    show::is_aligned(rt, 0u64, 4096)?;
    show::is_aligned(rt, 8192u64, 4096)?;
    show::is_aligned(rt, 4097u64, 4096)?;
    show::align_up(rt, 4294963200u32, 4096)?;
    show::align_up(rt, 4294963201u32, 4096)?;
    show::align_up(rt, 4294967295u32, 3)?;
    show::align_down(rt, 4294967295u32, 4096)?;
    show::align_down(rt, 7u32, 0)?;
    show::is_aligned(rt, 4294963200u32, 4096)?;
    show::is_aligned(rt, 6u32, 6)
}

pub fn pages(rt: &impl Print) -> io::Result<()> {
    show::page_align_up(rt, 1)?;
    show::page_align_up(rt, 18446744073709547520)?;
    show::page_align_up(rt, 18446744073709547521)?;
    show::page_align_up(rt, 18446744073709551615)?;
    show::round_to_pages(rt, 0)?;
    show::round_to_pages(rt, 1)?;
    show::round_to_pages(rt, 4096)?;
    show::round_to_pages(rt, 4097)?;
    show::round_to_pages(rt, 18446744073709547520)?;
    show::round_to_pages(rt, 18446744073709547521)?;
    show::round_to_pages(rt, 18446744073709551615)?;
    show::page_offset(rt, 4096)?;
    show::page_offset(rt, 18446744073709551615)
}

pub fn clearing(rt: &impl Print) -> io::Result<()> {
    show::clear(rt, 0, 8)?;
    show::clear(rt, 2, 5)?;
    show::clear(rt, 0, 1)?;
    show::clear(rt, 3, 3)?;
    show::clear(rt, 8, 8)?;
    show::clear(rt, 5, 2)?;
    show::clear(rt, 0, 9)?;
    show::clear(rt, 12, 9)
}

// ---- maps

// The map with these slots too.
fn with<M: Map>(map: M, start: usize, n: usize) -> M {
    map.set(start, n, true).map
}

fn word_with(start: usize, n: usize) -> Word {
    with(Word::new_empty(), start, n)
}

pub fn tree_with(start: usize, n: usize) -> Tree {
    with(Tree::new_empty(), start, n)
}

// The map with these slots, made of its words.
fn third_with(start: usize, n: usize) -> Third {
    Third::holding(with(Third::new_empty(), start, n).words())
}

// ---- the word map

pub fn word_takes(rt: &impl Print) -> io::Result<()> {
    let empty = on(rt, names::EMPTY_WORD, Word::new_empty());
    empty.take(64, 5)?;
    empty.take(0, 6)?;
    empty.take(65, 6)?;
    empty.take(65, 5)?;
    empty.take(18446744073709551615, 0)?;
    empty.take(1, 18446744073709551615)?;
    on(rt, names::FULL_WORD, Word::new_full()).take(1, 0)
}

pub fn word_takes_around(rt: &impl Print) -> io::Result<()> {
    let first = on(rt, names::WORD_WITH_SLOT_0, word_with(0, 1));
    first.take(63, 0)?;
    first.take(64, 0)?;
    first.take(1, 5)?;
    first.take(32, 5)?;
    first.take(33, 5)?;
    let third = on(rt, names::WORD_WITH_SLOT_2, word_with(2, 1));
    third.take(2, 0)?;
    third.take(3, 0)?;
    third.take(4, 1)?;
    third.take(4, 3)?;
    let low = on(rt, names::WORD_WITH_SLOTS_0_TO_62, word_with(0, 63));
    low.take(1, 0)?;
    low.take(1, 1)
}

pub fn word_claims(rt: &impl Print) -> io::Result<()> {
    let empty = on(rt, names::EMPTY_WORD, Word::new_empty());
    let tenth = on(rt, names::WORD_WITH_SLOT_10, word_with(10, 1));
    empty.claim(0, 64)?;
    empty.claim(63, 1)?;
    empty.claim(63, 2)?;
    empty.claim(64, 0)?;
    empty.claim(64, 1)?;
    empty.claim(18446744073709551615, 2)?;
    tenth.claim(8, 2)?;
    tenth.claim(8, 3)
}

pub fn word_frees(rt: &impl Print) -> io::Result<()> {
    let empty = on(rt, names::EMPTY_WORD, Word::new_empty());
    let full = on(rt, names::FULL_WORD, Word::new_full());
    let tenth = on(rt, names::WORD_WITH_SLOT_10, word_with(10, 1));
    full.free(0, 64)?;
    full.free(63, 1)?;
    full.free(0, 0)?;
    full.free(1, 18446744073709551615)?;
    empty.free(0, 1)?;
    empty.free(60, 5)?;
    tenth.free(10, 1)?;
    tenth.free(10, 2)
}

pub fn word_sets(rt: &impl Print) -> io::Result<()> {
    let full = on(rt, names::FULL_WORD, Word::new_full());
    let tenth = on(rt, names::WORD_WITH_SLOT_10, word_with(10, 1));
    on(rt, names::EMPTY_WORD, Word::new_empty()).set(0, 64, true)?;
    tenth.set(8, 4, true)?;
    tenth.set(8, 4, false)?;
    full.set(62, 2, false)?;
    full.set(62, 3, false)?;
    full.set(65, 0, false)
}

pub fn word_questions(rt: &impl Print) -> io::Result<()> {
    let empty = on(rt, names::EMPTY_WORD, Word::new_empty());
    let full = on(rt, names::FULL_WORD, Word::new_full());
    let low = on(rt, names::WORD_WITH_SLOTS_0_TO_62, word_with(0, 63));
    empty.next_free(0)?;
    empty.next_free(63)?;
    empty.next_free(64)?;
    full.next_free(0)?;
    full.next_free(18446744073709551615)?;
    low.next_free(5)?;
    full.get(63)?;
    full.get(64)?;
    empty.get(0)?;
    low.get(62)?;
    low.get(63)?;
    empty.counts()?;
    full.counts()?;
    low.counts()
}

// ---- the tree map

pub fn tree_takes(rt: &impl Print) -> io::Result<()> {
    let empty = on(rt, names::EMPTY_TREE, Tree::new_empty());
    empty.take(1024, 9)?;
    empty.take(1025, 9)?;
    empty.take(1025, 10)?;
    empty.take(0, 10)?;
    empty.take(1, 10)?;
    empty.take(18446744073709551615, 0)?;
    empty.take(1, 18446744073709551615)?;
    on(rt, names::FULL_TREE, Tree::new_full()).take(1, 0)
}

pub fn tree_takes_around(rt: &impl Print) -> io::Result<()> {
    let first = on(rt, names::TREE_WITH_SLOT_0, tree_with(0, 1));
    first.take(1, 9)?;
    first.take(64, 0)?;
    first.take(1023, 0)?;
    first.take(1024, 0)?;
    first.take(512, 9)?;
    first.take(513, 9)
}

pub fn tree_takes_across(rt: &impl Print) -> io::Result<()> {
    let inner = on(rt, names::TREE_WITH_SLOT_70, tree_with(70, 1));
    inner.take(70, 0)?;
    inner.take(71, 0)?;
    inner.take(71, 3)?;
    inner.take(200, 6)?;
    let most = on(rt, names::TREE_WITH_SLOTS_0_TO_1022, tree_with(0, 1023));
    most.take(1, 0)?;
    most.take(1, 1)?;
    inner.take_in_place(71, 3)?;
    on(rt, names::FULL_TREE, Tree::new_full()).take_in_place(1, 0)
}

pub fn tree_claims(rt: &impl Print) -> io::Result<()> {
    let empty = on(rt, names::EMPTY_TREE, Tree::new_empty());
    let across = on(rt, names::TREE_WITH_SLOTS_60_TO_67, tree_with(60, 8));
    empty.claim(0, 1024)?;
    empty.claim(63, 2)?;
    empty.claim(1023, 2)?;
    empty.claim(1024, 0)?;
    empty.claim(1024, 1)?;
    empty.claim(18446744073709551615, 2)?;
    across.claim(0, 60)?;
    across.claim(0, 61)?;
    across.claim(68, 956)
}

pub fn tree_frees(rt: &impl Print) -> io::Result<()> {
    let full = on(rt, names::FULL_TREE, Tree::new_full());
    let across = on(rt, names::TREE_WITH_SLOTS_60_TO_67, tree_with(60, 8));
    full.free(0, 1024)?;
    full.free(63, 2)?;
    full.free(64, 64)?;
    full.free(0, 0)?;
    full.free(1, 18446744073709551615)?;
    on(rt, names::EMPTY_TREE, Tree::new_empty()).free(0, 1)?;
    across.free(60, 8)?;
    across.free(60, 9)?;
    across.free(62, 4)?;
    across.free(64, 4)
}

pub fn tree_sets(rt: &impl Print) -> io::Result<()> {
    let full = on(rt, names::FULL_TREE, Tree::new_full());
    let across = on(rt, names::TREE_WITH_SLOTS_60_TO_67, tree_with(60, 8));
    across.set(50, 100, true)?;
    across.set(50, 100, false)?;
    full.set(1000, 24, false)?;
    full.set(1000, 25, false)?;
    full.set(1025, 0, false)?;
    across.free_in_place(62, 4)?;
    across.free_in_place(60, 9)
}

pub fn tree_questions(rt: &impl Print) -> io::Result<()> {
    let empty = on(rt, names::EMPTY_TREE, Tree::new_empty());
    let full = on(rt, names::FULL_TREE, Tree::new_full());
    let most = on(rt, names::TREE_WITH_SLOTS_0_TO_1022, tree_with(0, 1023));
    empty.next_free(0)?;
    most.next_free(0)?;
    most.next_free(1023)?;
    full.next_free(1023)?;
    full.next_free(18446744073709551615)?;
    full.get(1023)?;
    full.get(1024)?;
    empty.get(0)?;
    most.get(1022)?;
    most.get(1023)?;
    empty.counts()?;
    full.counts()?;
    most.counts()
}

// Words 0 to 14 are full. A search passes over them; a take that fills word 15 marks it, a free that opens a full word
// clears its mark, and a set counts anew.
pub fn full_words(rt: &impl Print) -> io::Result<()> {
    let map = on(rt, names::TREE_WITH_SLOTS_0_TO_959, tree_with(0, 960));
    map.next_free(0)?;
    map.next_free(959)?;
    map.next_free(1023)?;
    map.counts()?;
    map.take(63, 0)?;
    map.take(64, 6)?;
    map.take(65, 0)?;
    map.free(0, 1)?;
    map.free(63, 2)?;
    map.set(900, 100, true)?;
    map.set(900, 100, false)
}

// Every call but capacity refuses a tree of which a field is at odds with the words, before all else.
fn unsound_tree<P: Print>(bad: Told<P, Tree>) -> io::Result<()> {
    bad.take(0, 10)?;
    bad.take_in_place(1, 0)?;
    bad.claim(18446744073709551615, 2)?;
    bad.free(0, 0)?;
    bad.free_in_place(1, 1)?;
    bad.set(0, 1, true)?;
    bad.next_free(1024)?;
    bad.get(0)?;
    bad.counts()
}

// By the summary, with a bit too many and with one too few; by the mark of full words, with a bit too few, with one too many,
// and with that of the neighbouring word; and by the count, too high and too low.
pub fn unsound_trees(rt: &impl Print) -> io::Result<()> {
    let bad = trees::unsound();
    for (name, tree) in &bad[..4] {
        unsound_tree(on(rt, name, *tree))?;
    }
    let neighbour = tree_with(0, 64).with_full(2);
    unsound_tree(on(rt, names::TREE_WITH_SLOTS_0_TO_63_FULL_MARK_2, neighbour))?;
    for (name, tree) in &bad[4..] {
        unsound_tree(on(rt, name, *tree))?;
    }
    Ok(())
}

// ---- the third level

pub fn third_takes(rt: &impl Print) -> io::Result<()> {
    let empty = on(rt, names::EMPTY_THIRD, Third::new_empty());
    empty.take(16384, 13)?;
    empty.take(2000, 0)?;
    empty.take(16385, 13)?;
    empty.take(16385, 14)?;
    empty.take(0, 14)?;
    empty.take(1, 14)?;
    empty.take(18446744073709551615, 0)?;
    empty.take(1, 18446744073709551615)?;
    on(rt, names::FULL_THIRD, Third::new_full()).take(1, 0)
}

pub fn third_takes_around(rt: &impl Print) -> io::Result<()> {
    let first = on(rt, names::THIRD_WITH_SLOT_0, third_with(0, 1));
    first.take(1, 13)?;
    first.take(1024, 0)?;
    first.take(1024, 10)?;
    first.take(8192, 13)?;
    first.take(8193, 13)?;
    first.take(16383, 0)?;
    first.take(16384, 13)
}

pub fn third_takes_across(rt: &impl Print) -> io::Result<()> {
    let across = on(
        rt,
        names::THIRD_WITH_SLOTS_1000_TO_1099,
        third_with(1000, 100),
    );
    let most = on(rt, names::THIRD_WITH_SLOTS_0_TO_16382, third_with(0, 16383));
    across.take(1000, 0)?;
    across.take(1001, 0)?;
    across.take(1001, 10)?;
    across.take(14261, 0)?;
    across.take(15285, 0)?;
    most.take(1, 0)?;
    most.take(1, 1)
}

pub fn third_claims(rt: &impl Print) -> io::Result<()> {
    let empty = on(rt, names::EMPTY_THIRD, Third::new_empty());
    let across = on(
        rt,
        names::THIRD_WITH_SLOTS_1000_TO_1099,
        third_with(1000, 100),
    );
    empty.claim(0, 16384)?;
    empty.claim(1023, 2)?;
    empty.claim(15359, 2)?;
    empty.claim(16383, 1)?;
    empty.claim(16383, 2)?;
    empty.claim(16384, 0)?;
    empty.claim(16384, 1)?;
    empty.claim(18446744073709551615, 2)?;
    across.claim(0, 1000)?;
    across.claim(0, 1001)?;
    across.claim(1100, 15284)
}

pub fn third_frees(rt: &impl Print) -> io::Result<()> {
    let full = on(rt, names::FULL_THIRD, Third::new_full());
    let across = on(
        rt,
        names::THIRD_WITH_SLOTS_1000_TO_1099,
        third_with(1000, 100),
    );
    full.free(0, 16384)?;
    full.free(1023, 2)?;
    full.free(15359, 2)?;
    full.free(1024, 1024)?;
    full.free(0, 0)?;
    full.free(1, 18446744073709551615)?;
    on(rt, names::EMPTY_THIRD, Third::new_empty()).free(0, 1)?;
    across.free(1000, 100)?;
    across.free(1000, 101)?;
    across.free(1000, 24)?;
    across.free(1024, 76)
}

pub fn third_sets(rt: &impl Print) -> io::Result<()> {
    let full = on(rt, names::FULL_THIRD, Third::new_full());
    let across = on(
        rt,
        names::THIRD_WITH_SLOTS_1000_TO_1099,
        third_with(1000, 100),
    );
    on(rt, names::EMPTY_THIRD, Third::new_empty()).set(15359, 2, true)?;
    across.set(500, 3000, true)?;
    across.set(500, 3000, false)?;
    full.set(1023, 14338, false)?;
    full.set(16000, 384, false)?;
    full.set(16000, 385, false)?;
    full.set(16385, 0, false)
}

pub fn third_questions(rt: &impl Print) -> io::Result<()> {
    let empty = on(rt, names::EMPTY_THIRD, Third::new_empty());
    let full = on(rt, names::FULL_THIRD, Third::new_full());
    let across = on(
        rt,
        names::THIRD_WITH_SLOTS_1000_TO_1099,
        third_with(1000, 100),
    );
    empty.next_free(16383)?;
    empty.next_free(16384)?;
    full.next_free(0)?;
    full.next_free(18446744073709551615)?;
    on(rt, names::THIRD_WITH_SLOTS_0_TO_16382, third_with(0, 16383)).next_free(0)?;
    across.next_free(1000)?;
    full.get(16383)?;
    full.get(16384)?;
    empty.get(0)?;
    across.get(1024)?;
    across.get(1100)?;
    empty.counts()?;
    full.counts()?;
    across.counts()
}

// Trees 0 to 4 are full, and word 0 of tree 5.
pub fn full_trees(rt: &impl Print) -> io::Result<()> {
    let map = on(rt, names::THIRD_WITH_SLOTS_0_TO_5200, third_with(0, 5201));
    map.next_free(0)?;
    map.next_free(5119)?;
    map.next_free(16383)?;
    map.counts()?;
    map.take(47, 0)?;
    map.take(1, 10)?;
    map.free(0, 1024)?;
    map.free(5119, 2)?;
    map.set(5100, 300, true)?;
    map.set(5100, 300, false)
}

// Every call but capacity refuses a map of which a tree is not sound, or the summary over them is wrong, before all else.
fn unsound_third<P: Print>(bad: Told<P, Third>) -> io::Result<()> {
    bad.take(0, 14)?;
    bad.take(16385, 14)?;
    bad.claim(18446744073709551615, 2)?;
    bad.free(0, 0)?;
    bad.set(0, 1, true)?;
    bad.next_free(16384)?;
    bad.get(16384)?;
    bad.counts()
}

// By the summary of one tree alone; by the one over them alone, with a bit too many and with one too few; and by both.
pub fn unsound_summaries(rt: &impl Print) -> io::Result<()> {
    let full = Third::new_full();
    let mut odd = [u16::MAX; 16];
    odd[15] = 32767;
    let bad = full.with_summaries(odd, u16::MAX);
    unsound_third(on(rt, names::FULL_THIRD_TREE_15_UNDER_32767, bad))?;
    let none = [0; 16];
    let bad = Third::new_empty().with_summaries(none, 1);
    unsound_third(on(rt, names::EMPTY_THIRD_UNDER_SUMMARY_1, bad))?;
    let bad = full.with_summaries(full.summaries(), 32767);
    unsound_third(on(rt, names::FULL_THIRD_UNDER_SUMMARY_32767, bad))?;
    let bad = third_with(0, 1).with_summaries(none, 0);
    unsound_third(on(rt, names::THIRD_WITH_SLOT_0_UNDER_NO_SUMMARY, bad))
}

// By the mark of full words of one tree: a bit too few, one too many, and that of the next word, which is in the next tree.
pub fn unsound_marks(rt: &impl Print) -> io::Result<()> {
    let mut fulls = [u16::MAX; 16];
    fulls[15] = 32767;
    let bad = Third::new_full().with_fulls(fulls);
    unsound_third(on(rt, names::FULL_THIRD_TREE_15_WITH_FULL_MARK_32767, bad))?;
    let mut first = [0; 16];
    first[0] = 1;
    let bad = Third::new_empty().with_fulls(first);
    unsound_third(on(rt, names::EMPTY_THIRD_TREE_0_WITH_FULL_MARK_1, bad))?;
    let mut next = [0; 16];
    next[1] = 1;
    let bad = third_with(960, 64).with_fulls(next);
    unsound_third(on(
        rt,
        names::THIRD_WITH_SLOTS_960_TO_1023_MARKED_IN_TREE_1,
        bad,
    ))
}

// By the count of one tree, too high and too low; and by those of two trees, whose sum is right.
pub fn unsound_counts(rt: &impl Print) -> io::Result<()> {
    let mut high = [0; 16];
    high[15] = 1;
    let bad = Third::new_empty().with_counts(high);
    unsound_third(on(rt, names::EMPTY_THIRD_TREE_15_WITH_COUNT_1, bad))?;
    let mut low = [1024; 16];
    low[0] = 1023;
    let bad = Third::new_full().with_counts(low);
    unsound_third(on(rt, names::FULL_THIRD_TREE_0_WITH_COUNT_1023, bad))?;
    let mut exchanged = [0; 16];
    exchanged[0] = 76;
    exchanged[1] = 24;
    let bad = third_with(1000, 100).with_counts(exchanged);
    unsound_third(on(
        rt,
        names::THIRD_WITH_SLOTS_1000_TO_1099_COUNTS_EXCHANGED,
        bad,
    ))
}

// ---- the states of jobs

// The state with these slots running.
fn running(start: usize, n: usize) -> Jobs {
    Jobs::holding(tree_with(start, n), [0; 16])
}

// The state with these slots reaped.
fn reaped(start: usize, n: usize) -> Jobs {
    let tree = tree_with(start, n);
    Jobs::holding(tree, tree.words())
}

// Four reaped slots within a run of eight, over the end of a word.
fn partly_reaped() -> Jobs {
    Jobs::holding(tree_with(60, 8), tree_with(62, 4).words())
}

pub fn job_starts(rt: &impl Print) -> io::Result<()> {
    let empty = on(rt, names::EMPTY_JOBS, Jobs::new_empty());
    empty.start(1024, 9)?;
    empty.start(1025, 9)?;
    empty.start(1025, 10)?;
    empty.start(0, 10)?;
    empty.start(1, 10)?;
    empty.start(18446744073709551615, 0)?;
    empty.start(1, 18446744073709551615)?;
    on(rt, names::JOBS_ALL_RUNNING, running(0, 1024)).start(1, 0)?;
    on(rt, names::JOBS_ALL_REAPED, reaped(0, 1024)).start(1, 0)
}

// A reaped slot is passed over as a running one is.
pub fn job_starts_around(rt: &impl Print) -> io::Result<()> {
    let first = on(rt, names::JOBS_WITH_SLOT_0_REAPED, reaped(0, 1));
    first.start(1, 0)?;
    first.start(1, 9)?;
    first.start(1023, 0)?;
    first.start(1024, 0)?;
    let most = on(
        rt,
        names::JOBS_WITH_SLOTS_0_TO_1022_RUNNING,
        running(0, 1023),
    );
    most.start(1, 0)?;
    most.start(1, 1)?;
    let partly = on(
        rt,
        names::JOBS_WITH_SLOTS_60_TO_67_OF_WHICH_62_TO_65_REAPED,
        partly_reaped(),
    );
    partly.start(60, 0)?;
    partly.start(61, 0)?;
    partly.start(61, 6)?;
    partly.start(956, 0)?;
    partly.start(957, 0)
}

// What reap and record have in common: no slot of the empty state passes, and each of a state with all slots as they have to
// be does.
fn edges_of_ranges<P: Fn(&str, Jobs, usize, usize) -> io::Result<()>>(
    pass: &P,
    name: &str,
    all: Jobs,
) -> io::Result<()>
    requires { P.IsAlwaysCallable pass.now }
{
    let empty = Jobs::new_empty();
    pass(names::EMPTY_JOBS, empty, 0, 0)?;
    pass(names::EMPTY_JOBS, empty, 1025, 0)?;
    pass(names::EMPTY_JOBS, empty, 1023, 2)?;
    pass(names::EMPTY_JOBS, empty, 1024, 1)?;
    pass(names::EMPTY_JOBS, empty, 18446744073709551615, 2)?;
    pass(names::EMPTY_JOBS, empty, 0, 1)?;
    pass(names::EMPTY_JOBS, empty, 0, 1024)?;
    pass(name, all, 0, 1024)?;
    pass(name, all, 0, 1025)?;
    pass(name, all, 1023, 1)?;
    pass(name, all, 1023, 2)?;
    pass(name, all, 64, 64)?;
    pass(name, all, 1, 18446744073709551615)
}

// The same over the end of a word, and in a run of which a part is reaped.
fn edges_across<P: Fn(&str, Jobs, usize, usize) -> io::Result<()>>(
    pass: &P,
    name: &str,
    across: Jobs,
) -> io::Result<()>
    requires { P.IsAlwaysCallable pass.now }
{
    pass(name, across, 60, 8)?;
    pass(name, across, 62, 4)?;
    pass(name, across, 64, 4)?;
    pass(name, across, 59, 9)?;
    pass(name, across, 60, 9)?;
    let partly = partly_reaped();
    let other = names::JOBS_WITH_SLOTS_60_TO_67_OF_WHICH_62_TO_65_REAPED;
    pass(other, partly, 60, 2)?;
    pass(other, partly, 60, 3)?;
    pass(other, partly, 66, 2)?;
    pass(other, partly, 65, 3)?;
    pass(other, partly, 62, 4)?;
    pass(other, partly, 63, 2)?;
    pass(other, partly, 61, 5)?;
    pass(other, partly, 62, 5)?;
    pass(other, partly, 60, 8)
}

pub fn reaps(rt: &impl Print) -> io::Result<()> {
    let reap = |name: &str, jobs: Jobs, start: usize, n: usize| on(rt, name, jobs).reap(start, n);
    edges_of_ranges(&reap, names::JOBS_ALL_RUNNING, running(0, 1024))?;
    on(rt, names::JOBS_ALL_REAPED, reaped(0, 1024)).reap(0, 1024)?;
    edges_across(
        &reap,
        names::JOBS_WITH_SLOTS_60_TO_67_RUNNING,
        running(60, 8),
    )
}

pub fn records(rt: &impl Print) -> io::Result<()> {
    let record = |name: &str, jobs: Jobs, start: usize, n: usize| on(rt, name, jobs).record(
        start, n,
    );
    edges_of_ranges(&record, names::JOBS_ALL_REAPED, reaped(0, 1024))?;
    on(rt, names::JOBS_ALL_RUNNING, running(0, 1024)).record(0, 1024)?;
    edges_across(
        &record,
        names::JOBS_WITH_SLOTS_60_TO_67_REAPED,
        reaped(60, 8),
    )
}

pub fn job_questions(rt: &impl Print) -> io::Result<()> {
    let empty = on(rt, names::EMPTY_JOBS, Jobs::new_empty());
    let partly = on(
        rt,
        names::JOBS_WITH_SLOTS_60_TO_67_OF_WHICH_62_TO_65_REAPED,
        partly_reaped(),
    );
    empty.state(0)?;
    empty.state(1023)?;
    empty.state(1024)?;
    empty.state(18446744073709551615)?;
    partly.state(59)?;
    partly.state(61)?;
    partly.state(62)?;
    partly.state(65)?;
    partly.state(66)?;
    partly.state(68)?;
    on(rt, names::JOBS_ALL_RUNNING, running(0, 1024)).state(1023)?;
    on(rt, names::JOBS_ALL_REAPED, reaped(0, 1024)).state(1023)?;
    empty.counts()?;
    on(rt, names::JOBS_ALL_RUNNING, running(0, 1024)).counts()?;
    on(rt, names::JOBS_ALL_REAPED, reaped(0, 1024)).counts()?;
    partly.counts()
}

// Every call but capacity refuses a state that is not sound, before all else.
fn unsound_state<P: Print>(bad: Told<P, Jobs>) -> io::Result<()> {
    bad.start(0, 10)?;
    bad.start(1, 0)?;
    bad.reap(0, 0)?;
    bad.reap(18446744073709551615, 2)?;
    bad.reap(0, 1)?;
    bad.record(0, 0)?;
    bad.record(18446744073709551615, 2)?;
    bad.record(0, 1)?;
    bad.state(0)?;
    bad.state(1024)?;
    bad.counts()
}

// By the summary, with a bit too many and with one too few; by the mark of full words and by the count; and by the first slot
// and by the last, reaped and not used.
pub fn unsound_jobs(rt: &impl Print) -> io::Result<()> {
    let none = [0; 16];
    let bad = Jobs::holding(Tree::new_empty().with_summary(1), none);
    unsound_state(on(rt, names::JOBS_WITH_NO_SLOT_UNDER_SUMMARY_1, bad))?;
    let bad = Jobs::holding(tree_with(0, 1).with_summary(0), none);
    unsound_state(on(rt, names::JOBS_WITH_SLOT_0_RUNNING_UNDER_NO_SUMMARY, bad))?;
    let bad = Jobs::holding(Tree::new_full().with_summary(32767), [u64::MAX; 16]);
    unsound_state(on(rt, names::JOBS_ALL_REAPED_UNDER_SUMMARY_32767, bad))?;
    let bad = Jobs::holding(Tree::new_full().with_full(32767), [u64::MAX; 16]);
    unsound_state(on(rt, names::JOBS_ALL_REAPED_WITH_FULL_MARK_32767, bad))?;
    let bad = Jobs::holding(tree_with(0, 1).with_count(0), none);
    unsound_state(on(rt, names::JOBS_WITH_SLOT_0_RUNNING_AND_COUNT_0, bad))?;
    let bad = Jobs::holding(Tree::new_empty(), tree_with(0, 1).words());
    unsound_state(on(rt, names::JOBS_WITH_SLOT_0_REAPED_AND_NOT_USED, bad))?;
    let bad = Jobs::holding(tree_with(0, 1023), tree_with(1023, 1).words());
    unsound_state(on(rt, names::JOBS_WITH_SLOT_1023_REAPED_AND_NOT_USED, bad))
}
