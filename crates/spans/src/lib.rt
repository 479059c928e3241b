// Closed intervals of numbers, and clearing a part of a buffer. Rests on `answers`.
#![tactic(auto)]

ghost use Rattle.spans.specs.Overlap.{OverlapSays};
ghost use Rattle.spans.specs.Clearing.{ClearSays};

use answers::Refusal;

// Whether some number lies in both closed intervals, from `x_first` to `x_last` and from `y_first` to
// `y_last`; refused with 10 where one of them ends before it starts.
#[tactic(auto, unfolding(crate::specs::Overlap::overlaps, answers::specs::Said::judged))]
pub fn overlap(x_first: u64, x_last: u64, y_first: u64, y_last: u64) -> Result<bool, Refusal>
    ensures { OverlapSays x_first x_last y_first y_last result }
{
    if x_last < x_first || y_last < y_first {
        return Err(Refusal::EndBeforeStart);
    }
    Ok(x_first <= y_last && y_first <= x_last)
}

// Writes zero to the bytes from offset `start` up to, not including, offset `end`, and to no other;
// refused with 4 where the buffer ends before `end`, and then with 10 where `end` is before `start`.
// A refusal leaves every byte as it was.
#[tactic(auto, unfolding(crate::specs::Clearing::cleared, answers::specs::Said::judged, answers::specs::Said::leaving))]
pub fn clear(bytes: &mut [u8], start: usize, end: usize) -> Result<(), Refusal>
    ensures { ClearSays bytes.old start end result bytes.new }
{
    if bytes.len() < end {
        return Err(Refusal::PastTheEnd);
    }
    if end < start {
        return Err(Refusal::EndBeforeStart);
    }
    bytes[start..end].fill(0);
    Ok(())
}
