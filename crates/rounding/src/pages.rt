// Pages of 4,096 bytes, at 64 bits.
ghost use Rattle.rounding.specs.Pages.{PageAlignUpSays, RoundToPagesSays, PageOffsetSays};

use crate::align_up;
use answers::Refusal;

const PAGE_SIZE: u64 = 4096;

// The first page boundary that is not below x; refused with 9 where it does not fit 64 bits.
pub fn page_align_up(x: u64) -> Result<u64, Refusal>
    ensures { PageAlignUpSays x result }
{
    align_up(x, PAGE_SIZE)
}

// How many pages x bytes take; a page that is only begun counts. Never refused: the count fits 64
// bits also where the page's end does not.
pub fn round_to_pages(x: u64) -> u64
    ensures { RoundToPagesSays x result }
{
    let whole = x / PAGE_SIZE;
    if page_offset(x) == 0 {
        return whole;
    }
    whole + 1
}

// How far x lies into its page. Never refused.
pub fn page_offset(x: u64) -> u64
    ensures { PageOffsetSays x result }
{
    x & (PAGE_SIZE - 1)
}
