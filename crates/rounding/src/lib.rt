// Rounding to multiples of a power of two by masks, at 32 and at 64 bits, and pages.
// Rests on `answers`; its proofs rest on `bits` too.
#![tactic(auto)]

pub mod pages;

ghost use Rattle.std.specs.Prelude.{◌≡◌, ℕ};
ghost use Rattle.rounding.specs.Widths.{IsWidth, narrow, wide, ToU64Says, FromU64Says, AlignUpSays, AlignDownSays, IsAlignedSays, MaskSays};

use answers::Refusal;

// The numbers of so many binary digits, at most 64.
pub trait Width: Copy {
    // How many digits, and the number that a value is.
    ghost width: { ℕ };

    ghost number: { Self → ℕ };

    // The greatest of them.
    ghost MAX: { ℕ };

    const MAX: u64;

    // Not `Into<u64>`: that would ask each `impl` for a law more, that what it gives is the number.
    fn to_u64(self) -> u64
        ensures { ToU64Says width number self result };

    // The lowest digits, as many as there are. Digits are cut off, so it is no `From`.
    fn from_u64(n: u64) -> Self
        ensures { FromU64Says width number n result };

    // What each `impl` must prove: `MAX`, and that a value is known by its number.
    ghost laws: { IsWidth width MAX };

    ghost known: { (one other : Self) → number one ≡ number other → one ≡ other };
}

impl Width for u32 {
    ghost width = { 32 };

    ghost number = { λ n. n };

    ghost MAX = { 4_294_967_295 };

    ghost laws = { narrow };

    ghost known = { λ one other same. same };

    const MAX: u64 = u32::MAX as u64;

    fn to_u64(self) -> u64 {
        u64::from(self)
    }

    fn from_u64(n: u64) -> u32 {
        (n % 4_294_967_296) as u32
    }
}

impl Width for u64 {
    ghost width = { 64 };

    ghost number = { λ n. n };

    ghost MAX = { 18_446_744_073_709_551_615 };

    ghost laws = { wide };

    ghost known = { λ one other same. same };

    const MAX: u64 = u64::MAX;

    fn to_u64(self) -> u64 {
        self
    }

    fn from_u64(n: u64) -> u64 {
        n
    }
}

// The least multiple of `align` that is not below `value`; refused with 8 where `align` is 0 or no
// power of two, and then with 9 where no such multiple fits the width.
pub fn align_up<N: Width>(value: N, align: N) -> Result<N, Refusal>
    ensures { AlignUpSays N.width N.number value align result }
{
    let mask = mask_below(align)?;
    let value = value.to_u64();
    if N::MAX - mask < value {
        return Err(Refusal::NoMultipleFits);
    }
    Ok(N::from_u64((value + mask) & !mask))
}

// The greatest multiple of `align` that is not above `value`; refused with 8 where `align` is 0 or
// no power of two.
pub fn align_down<N: Width>(value: N, align: N) -> Result<N, Refusal>
    ensures { AlignDownSays N.width N.number value align result }
{
    let mask = mask_below(align)?;
    Ok(N::from_u64(value.to_u64() & !mask))
}

// Whether `value` is a multiple of `align`; refused with 8 where `align` is 0 or no power of two.
pub fn is_aligned<N: Width>(value: N, align: N) -> Result<bool, Refusal>
    ensures { IsAlignedSays N.width N.number value align result }
{
    let mask = mask_below(align)?;
    Ok(value.to_u64() & mask == 0)
}

// The digits below that of the alignment; refused with 8 where it is 0 or no power of two.
fn mask_below<N: Width>(align: N) -> Result<u64, Refusal>
    ensures { MaskSays N.width N.number align result }
{
    let align = align.to_u64();
    if !align.is_power_of_two() {
        return Err(Refusal::NotAPowerOfTwo);
    }
    Ok(align - 1)
}
