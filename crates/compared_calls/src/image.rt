// Requests and answers: 152 bytes, numbers low byte first, read and written as nineteen groups of eight.
// After those of a call on a third level come its 256 words, 2,048 bytes. A call is a number here, as the programs that
// ask have it; `calls` has those on a map as an enum.
//
//   byte 0      the call; of an answer: 0 refused, 1 done, 2 a number, 3 no, 4 yes
//   byte 1      the value for set
//   bytes 2, 3  the summary; of a third level the one over its trees
//   bytes 4, 5  the mark of full words, and 0 of a third level, which has none of its own
//   bytes 6, 7  the count, and 0 of a third level
//   from 8      a number: the entries of a take, else the start, the slot or the value; of an answer
//               its number, or the refusal's
//   from 16     a second number: the exponent, the entries, the alignment
//   from 24     the sixteen words; a word map is the first of them. Of a third level the fields of its
//               trees stand in their place, eight bytes a tree: bytes 0, 1 the summary, 2, 3 the mark
//               of full words, 4, 5 the count, and 0 in the last two
ghost use Rattle.std.specs.Prelude.{◌<◌};

use crate::said;
use crate::said::Said;
use answers::Refusal;

pub(crate) type Image = [[u8; 8]; 19];

// The group where the words begin, or the fields of the trees.
const WORDS: usize = 3;

// An answer that says nothing yet, with the request's map.
pub(crate) fn blank(request: &Image) -> Image {
    let mut answer = *request;
    answer[0][0] = 0;
    answer[0][1] = 0;
    answer[1] = [0; 8];
    answer[2] = [0; 8];
    answer
}

pub(crate) fn call(request: &Image) -> u8 {
    request[0][0]
}

// The value for set.
pub(crate) fn used(request: &Image) -> bool {
    request[0][1] == 1
}

pub(crate) fn first(request: &Image) -> u64 {
    u64::from_le_bytes(request[1])
}

pub(crate) fn second(request: &Image) -> u64 {
    u64::from_le_bytes(request[2])
}

pub(crate) fn words(request: &Image) -> [u64; 16] {
    rest(request).map(u64::from_le_bytes)
}

pub(crate) fn summary(request: &Image) -> u16 {
    half(request[0], 2)
}

pub(crate) fn full(request: &Image) -> u16 {
    half(request[0], 4)
}

pub(crate) fn count(request: &Image) -> u16 {
    half(request[0], 6)
}

pub(crate) fn summaries(request: &Image) -> [u16; 16] {
    of_trees(request, 0)
}

pub(crate) fn fulls(request: &Image) -> [u16; 16] {
    of_trees(request, 2)
}

pub(crate) fn counts(request: &Image) -> [u16; 16] {
    of_trees(request, 4)
}

pub(crate) fn put_said(answer: &mut Image, said: Result<Said, Refusal>) {
    let (kind, number) = said::kind_and_number(said);
    answer[0][0] = kind;
    answer[1] = number.to_le_bytes();
}

pub(crate) fn put_word(answer: &mut Image, word: u64) {
    answer[WORDS] = word.to_le_bytes();
}

pub(crate) fn put_words(answer: &mut Image, words: [u64; 16]) {
    answer[WORDS..].copy_from_slice(&words.map(u64::to_le_bytes));
}

pub(crate) fn put_summary(answer: &mut Image, summary: u16) {
    put_half(&mut answer[0], 2, summary);
}

pub(crate) fn put_full(answer: &mut Image, full: u16) {
    put_half(&mut answer[0], 4, full);
}

pub(crate) fn put_count(answer: &mut Image, count: u16) {
    put_half(&mut answer[0], 6, count);
}

pub(crate) fn put_summaries(answer: &mut Image, summaries: [u16; 16]) {
    put_of_trees(answer, 0, summaries);
}

pub(crate) fn put_fulls(answer: &mut Image, fulls: [u16; 16]) {
    put_of_trees(answer, 2, fulls);
}

pub(crate) fn put_counts(answer: &mut Image, counts: [u16; 16]) {
    put_of_trees(answer, 4, counts);
}

// The groups of the words, or of the trees.
fn rest(request: &Image) -> [[u8; 8]; 16] {
    let mut rest = [[0; 8]; 16];
    rest.copy_from_slice(&request[WORDS..]);
    rest
}

// A field of each tree of a third level, by its place among the tree's eight bytes.
fn of_trees(request: &Image, place: usize) -> [u16; 16]
    requires { place < 7 }
{
    let mut fields = [0; 16];
    for (field, tree) in fields.iter_mut().zip(&rest(request)) {
        *field = half(*tree, place);
    }
    fields
}

fn put_of_trees(answer: &mut Image, place: usize, fields: [u16; 16])
    requires { place < 7 }
{
    for (tree, field) in answer[WORDS..].iter_mut().zip(fields) {
        put_half(tree, place, field);
    }
}

// A number of two bytes, by its place in a group.
fn half(group: [u8; 8], place: usize) -> u16
    requires { place < 7 }
{
    u16::from_le_bytes([group[place], group[place + 1]])
}

fn put_half(group: &mut [u8; 8], place: usize, n: u16)
    requires { place < 7 }
{
    group[place..place + 2].copy_from_slice(&n.to_le_bytes());
}
