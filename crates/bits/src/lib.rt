// Bit fields of 64-bit numbers: the lowest places, one place, the places from one to another.
// A place is counted from the lowest, 0, to the highest, 63. Rests on `answers`.
#![tactic(auto)]

ghost use Rattle.bits.specs.Masks.{LowMaskSays, OneBitSays, MaskSays};

use answers::Refusal;

// Entry k has ones in the k lowest places.
const LOW_MASKS: [u64; 65] = [
    0x0,
    0x1,
    0x3,
    0x7,
    0xf,
    0x1f,
    0x3f,
    0x7f,
    0xff,
    0x1ff,
    0x3ff,
    0x7ff,
    0xfff,
    0x1fff,
    0x3fff,
    0x7fff,
    0xffff,
    0x1_ffff,
    0x3_ffff,
    0x7_ffff,
    0xf_ffff,
    0x1f_ffff,
    0x3f_ffff,
    0x7f_ffff,
    0xff_ffff,
    0x1ff_ffff,
    0x3ff_ffff,
    0x7ff_ffff,
    0xfff_ffff,
    0x1fff_ffff,
    0x3fff_ffff,
    0x7fff_ffff,
    0xffff_ffff,
    0x1_ffff_ffff,
    0x3_ffff_ffff,
    0x7_ffff_ffff,
    0xf_ffff_ffff,
    0x1f_ffff_ffff,
    0x3f_ffff_ffff,
    0x7f_ffff_ffff,
    0xff_ffff_ffff,
    0x1ff_ffff_ffff,
    0x3ff_ffff_ffff,
    0x7ff_ffff_ffff,
    0xfff_ffff_ffff,
    0x1fff_ffff_ffff,
    0x3fff_ffff_ffff,
    0x7fff_ffff_ffff,
    0xffff_ffff_ffff,
    0x1_ffff_ffff_ffff,
    0x3_ffff_ffff_ffff,
    0x7_ffff_ffff_ffff,
    0xf_ffff_ffff_ffff,
    0x1f_ffff_ffff_ffff,
    0x3f_ffff_ffff_ffff,
    0x7f_ffff_ffff_ffff,
    0xff_ffff_ffff_ffff,
    0x1ff_ffff_ffff_ffff,
    0x3ff_ffff_ffff_ffff,
    0x7ff_ffff_ffff_ffff,
    0xfff_ffff_ffff_ffff,
    0x1fff_ffff_ffff_ffff,
    0x3fff_ffff_ffff_ffff,
    0x7fff_ffff_ffff_ffff,
    0xffff_ffff_ffff_ffff,
];

// The number with ones in the k lowest places, read from the table; all 64 places for a k above 64.
// Never refused.
pub fn low_mask(k: usize) -> u64
    ensures { LowMaskSays k result }
{
    LOW_MASKS[k.min(64)]
}

// The number with a one at this place alone; refused with 4 for a place above 63.
pub fn one_bit(position: usize) -> Result<u64, Refusal>
    ensures { OneBitSays position result }
{
    if 63 < position {
        return Err(Refusal::PastTheEnd);
    }
    Ok(1 << position)
}

// The number with ones from place `start` to place `end`, both included; refused with 4 for an end
// above 63, then with 10 for an end before its start. No shift is by 64: of all ones, as many are
// kept as the range has places, and moved up to its start.
pub fn mask(start: usize, end: usize) -> Result<u64, Refusal>
    ensures { MaskSays start end result }
{
    if 63 < end {
        return Err(Refusal::PastTheEnd);
    }
    if end < start {
        return Err(Refusal::EndBeforeStart);
    }
    Ok((u64::MAX >> (63 - (end - start))) << start)
}
