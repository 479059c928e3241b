// Words of 64 slots in a row: slot s is place s % 64 of word s / 64, and a slot past the words is not
// used. What can be done to them without judging it, by the same code for one word, for sixteen and
// for 256. No function refuses; each answers for every input. No map has more than 256 words: of a
// longer row the rest is not looked at. Rests on `places`.
#![tactic(auto)]

ghost use Rattle.std.specs.Prelude.{◌≡◌, ◌-◌, ◌≤◌, ◌<◌, ◌*◌, ◌^◌};
ghost use Rattle.bits.specs.Range.{bit};
ghost use Rattle.places.specs.Places.{RunMaskSays};
ghost use Rattle.views.specs.Painting.{slots_in, slot_in, end_in, part_mask};
ghost use Rattle.views.specs.Full.{marked as wordMarked};
ghost use Rattle.views.specs.Marks.{part_words};
ghost use Rattle.rows.specs.Rows.{mark_test, open_from, mask_has, run_has, GetSays, CountSays, FirstFreeSays, FirstUsedSays, AllFreeSays, FitsSays, AllUsedSays, PaintSays, MarksSays, TouchedSays, EndOfSays, with_bit};

// Where the masks of a run come from: claim and set read the table of low masks, take and free build
// them by shifts.
#[derive(Clone, Copy, PartialEq, Eq, Debug)]
pub enum Masks {
    Table,
    Shifts,
}

// Which words are marked: those that are not 0, or those that are all ones.
#[derive(Clone, Copy, PartialEq, Eq, Debug)]
pub enum Mark {
    Used,
    Full,
}

const MOST_WORDS: usize = 256;

const MOST_SLOTS: usize = 16384;

// How many words a mark tells of, a bit each.
const PARTS: usize = 16;

// Whether the slot is used; past the words, no.
#[tactic(auto, using(views::specs::Painting::slot_past, crate::proofs::Reasons::word_of, crate::proofs::Reasons::read_slot))]
pub fn get(words: &[u64], slot: usize) -> bool
    ensures { GetSays words.now slot result }
{
    if slots(words) <= slot {
        return false;
    }
    (words[slot / 64] >> (slot % 64)) % 2 == 1
}

// How many slots are used.
#[tactic(auto, using(crate::proofs::Reasons::words_lent, views::specs::Painting::slots_most))]
pub fn count(words: &[u64]) -> u16
    ensures { CountSays words.now result }
{
    let mut total = 0;
    for word in &words[..slots(words) / 64] {
        total += places::count(*word);
    }
    total as u16
}

// The least free slot from `from` on, those past the words among them; 16,384 where `from` is there
// or beyond. The slot `from` itself is asked first, and only then words: where it is free, a search goes
// on without waiting for a count of zeros. `fulls` marks full words, sixteen to a mark: from there on a
// word that is marked counts as full, whatever it holds, and is passed over.
// Two parameters and no struct, here and in `judges`: `FirstFreeSays`, `FitsSays` and `TakeSays` speak of two
// lists, and each map holds them apart. The end and no `Option`, here and in `first_used`: `FirstFreeSays` and
// `FirstUsedSays` promise it, and each caller compares what it is told with an end of its own.
pub fn first_free<'a>(words: &'a [u64], fulls: &'a [u16], from: usize) -> usize
    ensures { FirstFreeSays words.now fulls.now from result }
{
    if MOST_SLOTS <= from {
        return MOST_SLOTS;
    }
    if !get(words, from) {
        return from;
    }
    let end = slots(words);
    // A `while`, since the step is not one: the marks say which word is next.
    let mut start = from;
    while start < end {
        let i = start / 64;
        let place = places::first_free(words[i], start % 64);
        if place < 64 {
            if !marked(fulls, i) {
                return i * 64 + place;
            }
        }
        start = next_open(fulls, i + 1) * 64;
    }
    end
}

// The least used slot from `from` on and before `end`, or `end` where there is none: where a run of free
// slots ends. Past the words no slot is used. Where `end` is not above `from` the answer is `from`.
// `fulls` marks full words as above: a word that is marked counts as full. Not one function with
// `first_free`, which jumps by the marks where this one stops at them.
pub fn first_used<'a>(words: &'a [u64], fulls: &'a [u16], from: usize, end: usize) -> usize
    ensures { FirstUsedSays words.now fulls.now from end result }
{
    if end <= from {
        return from;
    }
    for i in from / 64..end.min(slots(words)).div_ceil(64) {
        let start = from.max(i * 64);
        if marked(fulls, i) {
            return start;
        }
        let place = places::first_free(!words[i], start % 64);
        if place < 64 {
            return end.min(i * 64 + place);
        }
    }
    end
}

// Whether each of the n slots from `start` on is free; past the words, each is.
pub fn all_free(words: &[u64], start: usize, n: usize) -> bool
    ensures { AllFreeSays words.now start n result }
{
    if slots(words) <= start {
        return true;
    }
    all_are(words, start, n, false)
}

// The same where `fulls` marks full words, sixteen to a mark: no slot of a word that is marked counts as
// free.
pub fn fits<'a>(words: &'a [u64], fulls: &'a [u16], start: usize, n: usize) -> bool
    ensures { FitsSays words.now fulls.now start n result }
{
    if !all_free(words, start, n) {
        return false;
    }
    if n == 0 {
        return true;
    }
    let end = end_of(slots(words), start, n);
    for reached in start / 64..end.div_ceil(64) {
        if marked(fulls, reached) {
            return false;
        }
    }
    true
}

// Whether each of the n slots from `start` on is used; past the words, none is.
pub fn all_used(words: &[u64], start: usize, n: usize) -> bool
    ensures { AllUsedSays words.now start n result }
{
    if n == 0 {
        return true;
    }
    let held = slots(words);
    if held <= start {
        return false;
    }
    if held - start < n {
        return false;
    }
    all_are(words, start, n, true)
}

// Whether each of the n slots from `start` on that there are has the value `used`, asked word by word:
// the run's part of its first word, then whole words, then what is left of it in its last.
fn all_are(words: &[u64], start: usize, n: usize, used: bool) -> bool
    requires { start < slots_in words.now }
    ensures { result ≡ run_has used (slot_in words.now) start (end_in (slots_in words.now) start n - start) }
{
    if !word_is(words[start / 64], places::run_mask(start % 64, n), used) {
        return false;
    }
    let end = end_of(slots(words), start, n);
    let last = end / 64;
    for i in start / 64 + 1..last {
        if !word_is(words[i], places::run_mask(0, 64), used) {
            return false;
        }
    }
    if last == start / 64 || end % 64 == 0 {
        return true;
    }
    word_is(words[last], places::run_mask(0, end % 64), used)
}

// Whether each place of the mask has the value `used` in the word: by the value, as `mask_has` and the walk
// above have it, so that one proof does for both.
fn word_is(word: u64, mask: u64, used: bool) -> bool
    ensures { result ≡ mask_has used word mask }
{
    if used {
        return places::all_used(word, mask);
    }
    places::all_free(word, mask)
}

// Gives the n slots from `start` on the value `used`, as far as there are slots. `masks` changes nothing
// else than where the masks come from.
pub fn paint(words: &mut [u64], start: usize, n: usize, used: bool, masks: Masks)
    ensures { PaintSays words.old start n used words.new }
{
    let end = end_of(slots(words), start, n);
    for i in start / 64..end.div_ceil(64) {
        words[i] = places::paint(words[i], part_mask(start, end, i, masks), used);
    }
}

// ---- marks of a part of the words, sixteen at most: bit i is 1 exactly if word i is not 0, or exactly
// if it is all ones, as `mark` says

// The marks that a part has.
#[tactic(auto, using(crate::proofs::Reasons::part_lent))]
pub fn marks(part: &[u64], mark: Mark) -> u16
    ensures { MarksSays part.now mark result }
{
    let mut marks = 0;
    for (i, word) in part[..words_of(part)].iter().enumerate() {
        marks |= mark_bit(*word, i, mark);
    }
    marks
}

// The marks with the bit of each word that the n slots from `start` on reach brought up to date, set or
// cleared; the other bits stay.
#[tactic(auto, using(crate::proofs::Reasons::part_most))]
pub fn touched(part: &[u64], marks: u16, start: usize, n: usize, mark: Mark) -> u16
    ensures { TouchedSays part.now marks start n mark result }
{
    let end = end_of(words_of(part) * 64, start, n);
    let mut updated = marks;
    for i in start / 64..end.div_ceil(64) {
        updated = with_bit(updated, part[i], i, mark);
    }
    updated
}

// The marks with bit i as the word has it.
#[tactic(auto, using(crate::proofs::Reasons::replaced))]
fn with_bit(marks: u16, word: u64, i: usize, mark: Mark) -> u16
    requires { i < 16 }
    ensures { result ≡ with_bit marks (mark_test mark word) i }
{
    (marks & !(1 << i)) | mark_bit(word, i, mark)
}

#[tactic(auto, using(crate::proofs::Reasons::shifted_bit))]
fn mark_bit(word: u64, i: usize, mark: Mark) -> u16
    requires { i < 16 }
    ensures { result ≡ bit (mark_test mark word) * 2 ^ i }
{
    u16::from(is_marked(word, mark)) << i
}

fn is_marked(word: u64, mark: Mark) -> bool
    ensures { result ≡ mark_test mark word }
{
    match mark {
        Mark::Used => word != 0,
        Mark::Full => word == u64::MAX,
    }
}

// How many words a part has, sixteen at most.
#[tactic(auto, unfolding(views::specs::Marks::part_words))]
fn words_of(part: &[u64]) -> usize
    ensures { result ≡ part_words part.now }
{
    part.len().min(PARTS)
}

// ---- going by the marks of full words

// Whether word i is marked; past the marks, no. The same as `get` but for the size of a word, and
// without its end after 256 words: one function would need a trait for both sizes, and to be told of the end.
#[tactic(auto, using(crate::proofs::Reasons::unmarked_past, crate::proofs::Reasons::read_mark))]
fn marked(fulls: &[u16], i: usize) -> bool
    ensures { result ≡ wordMarked fulls.now i }
{
    if fulls.len() <= i / PARTS {
        return false;
    }
    (fulls[i / PARTS] >> (i % PARTS)) % 2 == 1
}

// The least word from `from` on that is not marked, or 256: the first free place of a mark. 256 and no
// `Option`: the search that asks goes on from it, and so ends.
fn next_open(fulls: &[u16], from: usize) -> usize
    requires { from ≤ 256 }
    ensures { result ≡ open_from fulls.now from }
{
    // A `while`, since the step is not one: a mark without a free place passes sixteen words.
    let mut i = from;
    while i < MOST_WORDS {
        if fulls.len() <= i / PARTS {
            return i;
        }
        let first = i / PARTS * PARTS;
        let place = places::first_free(u64::from(fulls[i / PARTS]), i % PARTS);
        if place < PARTS {
            return first + place;
        }
        i = first + PARTS;
    }
    MOST_WORDS
}

// ---- runs

// How many slots the words hold.
#[tactic(auto, unfolding(views::specs::Painting::slots_in))]
fn slots(words: &[u64]) -> usize
    ensures { result ≡ slots_in words.now }
{
    words.len().min(MOST_WORDS) * 64
}

// Where the n slots from `start` on end, among so many.
#[tactic(auto, unfolding(views::specs::Painting::end_in))]
pub fn end_of(slots: usize, start: usize, n: usize) -> usize
    ensures { EndOfSays slots start n result }
{
    start.saturating_add(n).min(slots)
}

// Ones at the places of word i that lie in the run from `start` to `end`.
#[tactic(auto, using(crate::proofs::Reasons::part_to_end, crate::proofs::Reasons::part_none, crate::proofs::Reasons::part_inside))]
fn part_mask(start: usize, end: usize, i: usize, masks: Masks) -> u64
    requires { (i * 64 < end) × (end ≤ 16384) }
    ensures { result ≡ part_mask start end i }
{
    let first = i * 64;
    if start <= first {
        return mask_from(0, end - first, masks);
    }
    if end <= start {
        return 0;
    }
    mask_from(start - first, end - start, masks)
}

// A run's mask, from the table or by shifts.
fn mask_from(start: usize, n: usize, masks: Masks) -> u64
    ensures { RunMaskSays start n result }
{
    match masks {
        Masks::Table => places::table_mask(start, n),
        Masks::Shifts => places::run_mask(start, n),
    }
}
