// The examples of document 01 that are run, each printed with its answer, and the edges of every
// public function beside them. A program that shares nothing with this one prints the same lines.
#![tactic(auto)]

mod asked;
mod calls;
mod edges;
mod images;
mod lesson;
mod lists;
mod names;
mod runs;
mod show;
mod states;
mod thirds;
mod trees;
mod words;

use asked::on;
use std::io;
use tree::Tree;
use word::Word;

fn main(rt: HostRuntime) -> io::Result<()> {
    documented(&rt)?;
    edges::masks(&rt)?;
    edges::rounding(&rt)?;
    edges::pages(&rt)?;
    edges::clearing(&rt)?;
    edges::word_takes(&rt)?;
    edges::word_takes_around(&rt)?;
    edges::word_claims(&rt)?;
    edges::word_frees(&rt)?;
    edges::word_sets(&rt)?;
    edges::word_questions(&rt)?;
    edges::tree_takes(&rt)?;
    edges::tree_takes_around(&rt)?;
    edges::tree_takes_across(&rt)?;
    edges::tree_claims(&rt)?;
    edges::tree_frees(&rt)?;
    edges::tree_sets(&rt)?;
    edges::tree_questions(&rt)?;
    edges::full_words(&rt)?;
    edges::unsound_trees(&rt)?;
    edges::third_takes(&rt)?;
    edges::third_takes_around(&rt)?;
    edges::third_takes_across(&rt)?;
    edges::third_claims(&rt)?;
    edges::third_frees(&rt)?;
    edges::third_sets(&rt)?;
    edges::third_questions(&rt)?;
    edges::full_trees(&rt)?;
    edges::unsound_summaries(&rt)?;
    edges::unsound_marks(&rt)?;
    edges::unsound_counts(&rt)?;
    edges::job_starts(&rt)?;
    edges::job_starts_around(&rt)?;
    edges::reaps(&rt)?;
    edges::records(&rt)?;
    edges::job_questions(&rt)?;
    edges::unsound_jobs(&rt)?;
    lesson::second_free(&rt)?;
    lesson::free_of_none(&rt)?;
    lesson::free_at_reaping(&rt)?;
    lesson::same_day_with_jobs(&rt)?;
    lesson::shortcuts(&rt)?;
    lesson::mark_cleared(&rt)?;
    lesson::mark_stays(&rt)?;
    lesson::moved_take(&rt)?;
    images::of_maps(&rt)?;
    images::writes(&rt)?;
    images::reads(&rt)?;
    images::record(&rt)?;
    images::refused_calls(&rt)?;
    images::wrong_images(&rt)?;
    lists::of_maps(&rt)?;
    lists::at_words(&rt)?;
    lists::two_gaps(&rt)?;
    lists::buffers(&rt)?;
    lists::unsound_trees(&rt)?;
    lists::seven_gaps(&rt)
}

// The lines of "Maps on the blackboard" that have no star.
fn documented(rt: &impl Print) -> io::Result<()> {
    show::align_up(rt, 4097u64, 4096)?;
    show::align_up(rt, 18446744073709547520u64, 4096)?;
    show::align_up(rt, 18446744073709547521u64, 4096)?;
    show::align_up(rt, 5u64, 3)?;
    show::align_up(rt, 5u64, 0)?;
    show::align_down(rt, 5u64, 3)?;
    show::align_down(rt, 5u64, 0)?;
    show::is_aligned(rt, 5u64, 3)?;
    show::is_aligned(rt, 5u64, 0)?;
    show::overlap(rt, 0, 4, 4, 8)?;
    show::overlap(rt, 0, 3, 4, 8)?;
    show::overlap(rt, 5, 3, 0, 10)?;
    let word = on(rt, names::EMPTY_WORD, Word::new_empty());
    word.take(1, 5)?;
    word.take(1, 6)?;
    let tree = on(rt, names::EMPTY_TREE, Tree::new_empty());
    tree.next_free(1023)?;
    tree.next_free(1024)?;
    on(rt, names::FULL_TREE, Tree::new_full()).next_free(0)
}
