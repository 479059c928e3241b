// The judges: what each call answers on the words of a sound map, at every size of map. Each is over
// the words, lent, and a size; a size is one case of `Size`. What searches also goes by marks of full
// words, as `rows` has them: a word that is marked counts as full, whatever it holds. A map puts check 1,
// whether it is sound, in front. A range is two numbers and no struct, here and in the crates above, as the
// calls of document 01 and the exports for C have it. Rests on `rows`.
#![tactic(auto)]

ghost use Rattle.judges.specs.Sizes.{exponent_of, ExponentSays, CapacitySays};
ghost use Rattle.answers.specs.Refusals.{number_of};
ghost use Rattle.views.specs.Painting.{slot_in};
ghost use Rattle.judges.specs.Judged.{ready_for, unready_for, RangeSays, ChangeSays, TakeSays, NextFreeSays, GetSays, NextFreeInSays, LowestStartSays};
ghost use Rattle.slots.specs.Tries.{next_try};
ghost use Rattle.std.specs.Prelude.{◌≡◌, ◌≤◌, ◌<◌, ◌^◌};

use answers::{Refusal, Reply};

// How large a map is: 2^6 slots, 2^10 or 2^14. A size is the exponent of its capacity.
#[derive(Clone, Copy)]
pub enum Size {
    Word = 6,
    Tree = 10,
    Third = 14,
}

// The exponent of the capacity.
pub fn exponent(size: Size) -> usize
    ensures { ExponentSays size result }
{
    size as usize
}

// How many slots a map of this size has.
pub fn capacity(size: Size) -> usize
    ensures { CapacitySays size result }
{
    1 << exponent(size)
}

// Done where the n slots from `start` on are a range of the map, and else the refusal: 2 where n is
// 0, 4 where the range does not end within the map. No sum is made that could wrap.
pub fn range(size: Size, start: usize, n: usize) -> Result<Reply, Refusal>
    ensures { RangeSays size start n result }
{
    let slots = capacity(size);
    if n == 0 {
        return Err(Refusal::NoEntries);
    }
    if slots < start {
        return Err(Refusal::PastTheEnd);
    }
    if slots - start < n {
        return Err(Refusal::PastTheEnd);
    }
    Ok(Reply::Done)
}

// What claim answers, where `used` is true, and what free answers, where it is false: each of the n
// slots from `start` on has to have the other value. The range's refusals come first, then 6 or 5.
pub fn change(
    words: &[u64],
    size: Size,
    start: usize,
    n: usize,
    used: bool,
) -> Result<Reply, Refusal>
    ensures { ChangeSays words.now size start n used result }
{
    range(size, start, n)?;
    if !ready(words, start, n, used) {
        return Err(unready(used));
    }
    Ok(Reply::Done)
}

// Whether each of the n slots from `start` on has the value that the change takes from it. The value is given
// and no function is, here and in `unready`: `ChangeSays` is over the value.
fn ready(words: &[u64], start: usize, n: usize, used: bool) -> bool
    ensures { result ≡ ready_for used (slot_in words.now) start n }
{
    if used {
        return rows::all_free(words, start, n);
    }
    rows::all_used(words, start, n)
}

// The refusal where one has not.
fn unready(used: bool) -> Refusal
    ensures { number_of result ≡ unready_for used }
{
    if used {
        return Refusal::AlreadyUsed;
    }
    Refusal::AlreadyFree
}

// The start that take grants, or its refusal: 2, 3, 4 or 7.
pub fn take<'a>(
    words: &'a [u64],
    fulls: &'a [u16],
    size: Size,
    n: usize,
    a: usize,
) -> Result<usize, Refusal>
    ensures { TakeSays words.now fulls.now size n a result }
{
    if n == 0 {
        return Err(Refusal::NoEntries);
    }
    if exponent(size) <= a {
        return Err(Refusal::AlignmentTooGreat);
    }
    if capacity(size) < n {
        return Err(Refusal::PastTheEnd);
    }
    lowest_start(words, fulls, size, n, a)
}

// The least free slot from `start` on, or the refusal: 4 or 7.
pub fn next_free<'a>(
    words: &'a [u64],
    fulls: &'a [u16],
    size: Size,
    start: usize,
) -> Result<usize, Refusal>
    ensures { NextFreeSays words.now fulls.now size start result }
{
    if capacity(size) <= start {
        return Err(Refusal::PastTheEnd);
    }
    next_free_in(words, fulls, size, start)
}

// Whether the slot is used, or refusal 4.
pub fn get(words: &[u64], size: Size, slot: usize) -> Result<bool, Refusal>
    ensures { GetSays words.now size slot result }
{
    if capacity(size) <= slot {
        return Err(Refusal::PastTheEnd);
    }
    Ok(rows::get(words, slot))
}

// ---- the search

// The least free slot from `start` on, or that there is no room: what take and next free share.
fn next_free_in<'a>(
    words: &'a [u64],
    fulls: &'a [u16],
    size: Size,
    start: usize,
) -> Result<usize, Refusal>
    ensures { NextFreeInSays words.now fulls.now size start result }
{
    let free = rows::first_free(words, fulls, start);
    if capacity(size) <= free {
        return Err(Refusal::NoRoom);
    }
    Ok(free)
}

// The lowest start that fits, or that there is no room: the search that take makes. It leaves at
// once where no slot is free from the try on.
fn lowest_start<'a>(
    words: &'a [u64],
    fulls: &'a [u16],
    size: Size,
    n: usize,
    a: usize,
) -> Result<usize, Refusal>
    requires { (0 < n) × (n ≤ 2 ^ exponent_of size) × (a < exponent_of size) }
    ensures { LowestStartSays words.now fulls.now size n a result }
{
    let last = capacity(size) - n;
    // A `while`, since the step is not one: what was found says which start is next.
    let mut start = 0;
    while start <= last {
        // The form that document 01 names for take: no `?`.
        let Ok(free) = next_free_in(words, fulls, size, start) else {
            return Err(Refusal::NoRoom);
        };
        if free == start {
            if rows::fits(words, fulls, start, n) {
                return Ok(start);
            }
        }
        start = next_try(start, free, a);
    }
    Err(Refusal::NoRoom)
}

// The next multiple of 2^a: after `start` where the run from there did not fit, and else after the
// used slots before `free`.
fn next_try(start: usize, free: usize, a: usize) -> usize
    requires { (start ≤ free) × (free ≤ 32768) × (a < 14) }
    ensures { result ≡ next_try start free a }
{
    if free == start {
        return ((start >> a) + 1) << a;
    }
    (((free - 1) >> a) + 1) << a
}
