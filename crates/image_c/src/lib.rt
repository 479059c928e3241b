// What a host in C calls, by these names: take, free and used on an image that it lends. Each hands its call
// on to `image`, whose function of the same name says what it does and what it refuses. Thin. Rests on
// `image`.
#![tactic(auto)]

ghost use Rattle.image.specs.Says.{TakeTells, FreeTells, UsedTells};

// Takes n slots at the lowest free start that is a multiple of 2^a, and answers that start. Refused, in
// this order: -16 where the bytes are no image, -1 where its summary is at odds with its words, -2 where
// n is 0, -3 where a is 10 or more, -4 where n is above 1,024, -7 where no start fits.
#[unsafe(no_mangle)]
pub extern "C" fn slotmap_take(image: &mut [u8], n: usize, a: usize) -> i32
    ensures { TakeTells image.old n a result image.new }
{
    image::slotmap_take(image, n, a)
}

// Frees the n slots from `start` on, each of which must be used, and answers 0. Refused, in this order:
// -16, -1, -2 where n is 0, -4 where the range does not end within 1,024 slots, -5 where a slot is free
// already.
#[unsafe(no_mangle)]
pub extern "C" fn slotmap_free(image: &mut [u8], start: usize, n: usize) -> i32
    ensures { FreeTells image.old start n result image.new }
{
    image::slotmap_free(image, start, n)
}

// How many slots are used. Refused, in this order: -16, -1.
#[unsafe(no_mangle)]
pub extern "C" fn slotmap_used(image: &[u8]) -> i32
    ensures { UsedTells image.now result image.now }
{
    image::slotmap_used(image)
}
