// What can be done to one word of 64 slots without judging it: masks for a run, are these places all
// free, all used, paint them, the first free place, the count. Place i, counted from the lowest,
// holds a 1 where slot i is used. No function refuses; each answers for every input. Rests on `bits`.
#![tactic(auto)]

ghost use Rattle.places.specs.Places.{RunMaskSays, AllFreeSays, AllUsedSays, MarkSays, UnmarkSays, PaintSays, FirstFreeSays, CountSays};

// Ones at the n places from `start` on that a word has, built by shifts.
#[tactic(auto, using(crate::proofs::Reasons::no_run, crate::proofs::Reasons::run_to_the_end, crate::proofs::Reasons::run_by_shifts), unfolding(crate::specs::Places::run_mask))]
pub fn run_mask(start: usize, n: usize) -> u64
    ensures { RunMaskSays start n result }
{
    if 64 <= start {
        return 0;
    }
    if 64 <= n {
        return u64::MAX << start;
    }
    !(u64::MAX << n) << start
}

// The same mask, read from the table of low masks and moved up. Two functions, for the law
// `run_mask_one_answer` says that the two ways agree.
#[tactic(auto, using(crate::proofs::Reasons::no_run, crate::proofs::Reasons::run_by_table), unfolding(crate::specs::Places::run_mask, bits::specs::Masks::low_mask))]
pub fn table_mask(start: usize, n: usize) -> u64
    ensures { RunMaskSays start n result }
{
    if 64 <= start {
        return 0;
    }
    bits::low_mask(n) << start
}

// Whether each place of the mask is free in the word.
#[tactic(auto, using(crate::proofs::Reasons::free_by_mask), unfolding(crate::specs::Places::free_in))]
pub fn all_free(word: u64, mask: u64) -> bool
    ensures { AllFreeSays word mask result }
{
    word & mask == 0
}

// Whether each place of the mask is used in the word. Not one function with `all_free`: each is one
// comparison, and a parameter that says which would be a test more.
#[tactic(auto, using(crate::proofs::Reasons::used_by_mask), unfolding(crate::specs::Places::used_in))]
pub fn all_used(word: u64, mask: u64) -> bool
    ensures { AllUsedSays word mask result }
{
    word & mask == mask
}

// The word with each place of the mask used, and the others as they are.
#[tactic(auto, using(crate::proofs::Reasons::marked), unfolding(crate::specs::Places::painted_in))]
pub fn mark(word: u64, mask: u64) -> u64
    ensures { MarkSays word mask result }
{
    word | mask
}

// The word with each place of the mask free, and the others as they are.
#[tactic(auto, using(crate::proofs::Reasons::unmarked), unfolding(crate::specs::Places::painted_in))]
pub fn unmark(word: u64, mask: u64) -> u64
    ensures { UnmarkSays word mask result }
{
    word & !mask
}

// The word with each place of the mask given the value `used`, and the others as they are. The value is
// handed in, and no function: `PaintSays` is over it.
pub fn paint(word: u64, mask: u64, used: bool) -> u64
    ensures { PaintSays word mask used result }
{
    if used {
        return mark(word, mask);
    }
    unmark(word, mask)
}

// The least free place from `from` on, or 64 where there is none: the trailing zeros of the
// complement, of which the places below `from` are shifted out and back in as zeros. 64 and no
// `Option`: `FirstFreeSays` promises `free_from`, which answers the end, as the zeros of 0 are counted.
#[tactic(auto, using(crate::proofs::Reasons::free_beyond, crate::proofs::Reasons::first_by_zeros), unfolding(slots::specs::Lowest::free_from))]
pub fn first_free(word: u64, from: usize) -> usize
    ensures { FirstFreeSays word from result }
{
    if 64 <= from {
        return 64;
    }
    ((!word >> from) << from).trailing_zeros() as usize
}

// How many places are used.
#[tactic(auto, using(bits::specs::Digits::ones_count))]
pub fn count(word: u64) -> usize
    ensures { CountSays word result }
{
    word.count_ones() as usize
}
