// Rounding, pages, overlap and masks: 49 up, 50 down, 51 divisible, 52 to 54 the same at 32 bits, 55
// up to a page, 56 a count of pages, 57 the offset in a page, 58 overlap with the first two words'
// interval, 59 one bit, 60 the mask from bit to bit.
use crate::image;
use crate::image::Image;
use crate::said::Said;
use answers::Refusal;
use rounding::{align_down, align_up, is_aligned, pages};

// The map is handed back as it came.
pub(crate) fn answered(request: &Image, number: u8) -> Image {
    let mut answer = image::blank(request);
    image::put_said(&mut answer, told(request, number));
    answer
}

// A number that is none of these asks for the mask.
fn told(request: &Image, number: u8) -> Result<Said, Refusal> {
    let x = image::first(request);
    let y = image::second(request);
    match number {
        49 => align_up(x, y).map(Said::from),
        50 => align_down(x, y).map(Said::from),
        51 => is_aligned(x, y).map(Said::from),
        52 => align_up(low_half(x), low_half(y)).map(Said::from),
        53 => align_down(low_half(x), low_half(y)).map(Said::from),
        54 => is_aligned(low_half(x), low_half(y)).map(Said::from),
        55 => pages::page_align_up(x).map(Said::from),
        56 => Ok(Said::from(pages::round_to_pages(x))),
        57 => Ok(Said::from(pages::page_offset(x))),
        58 => overlap(request, x, y).map(Said::from),
        59 => bits::one_bit(x as usize).map(Said::from),
        _ => bits::mask(x as usize, y as usize).map(Said::from),
    }
}

fn overlap(request: &Image, x: u64, y: u64) -> Result<bool, Refusal> {
    let words = image::words(request);
    spans::overlap(x, y, words[0], words[1])
}

fn low_half(n: u64) -> u32 {
    (n & 0xffff_ffff) as u32
}
