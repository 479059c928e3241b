// Calls on a word map: 17 to 24.
use crate::calls::Call;
use crate::image::Image;
use crate::{calls, image};
use word::Word;

pub(crate) fn answered(request: &Image, call: Call) -> Image {
    let map = Word::holding(image::words(request)[0]);
    let (said, left) = calls::made(request, call, map);
    let mut answer = image::blank(request);
    image::put_said(&mut answer, said);
    image::put_word(&mut answer, left.bits());
    answer
}
