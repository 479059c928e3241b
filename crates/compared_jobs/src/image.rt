// Requests and answers: 38 numbers of 64 bits, each as eight bytes, low byte first. A call
// is a number and no enum, as the programs that ask have it: it is looked at once, and any other makes the empty state.
//
//   0         the call; of an answer its kind: 0 refused, 1 done, 2 a number, 3 no, 4 yes, 5 what a slot is
//   1         the slots of a start, else the start of a range or the slot; of an answer its number, or the
//             refusal's, or the slot's: 0 free, 1 running, 2 reaped
//   2         the exponent of a start, else the slots of a range; of an answer 0
//   3         the summary
//   4         the mark of full words
//   5         the stored count
//   6 to 21   the words of the used slots
//   22 to 37  the words of the reaped slots
ghost use Rattle.std.specs.Prelude.{◌+◌, ◌≤◌};

use crate::said;
use crate::said::Said;
use jobs::{JobRefusal, Jobs};
use tree::Tree;

const USED: usize = 6;

const REAPED: usize = 22;

// The state of a request, sound or not.
pub(crate) fn jobs(asked: &[u64; 38]) -> Jobs {
    let tree = Tree::holding(words(asked, USED))
        .with_summary(low_half(asked[3]))
        .with_full(low_half(asked[4]))
        .with_count(low_half(asked[5]));
    Jobs::holding(tree, words(asked, REAPED))
}

// The answer with what was said and the state that is left.
pub(crate) fn answer(said: Result<Said, JobRefusal>, left: Jobs) -> [u64; 38] {
    let mut answer = [0u64; 38];
    (answer[0], answer[1]) = said::kind_and_number(said);
    answer[3] = u64::from(left.summary());
    answer[4] = u64::from(left.full());
    answer[5] = u64::from(left.count());
    answer[USED..REAPED].copy_from_slice(&left.words());
    answer[REAPED..].copy_from_slice(&left.reaped());
    answer
}

// The sixteen numbers from this place on.
fn words(numbers: &[u64; 38], at: usize) -> [u64; 16]
    requires { at + 16 ≤ 38 }
{
    let mut words = [0u64; 16];
    words.copy_from_slice(&numbers[at..at + 16]);
    words
}

fn low_half(n: u64) -> u16 {
    (n & 0xffff) as u16
}
