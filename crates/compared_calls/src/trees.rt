// Calls on a tree, which may be at odds with itself: 1 to 8; 33 take and 35 free in place.
use crate::calls::Call;
use crate::image::Image;
use crate::said::Said;
use crate::{calls, image};
use answers::Refusal;
use tree::Tree;

pub(crate) fn answered(request: &Image, call: Call) -> Image {
    answer(request, calls::made(request, call, map(request)))
}

pub(crate) fn taken_in_place(request: &Image) -> Image {
    let n = image::first(request) as usize;
    let a = image::second(request) as usize;
    let taken = in_place::take_in_copy(map(request), n, a);
    answer(request, calls::changed(taken))
}

pub(crate) fn freed_in_place(request: &Image) -> Image {
    let start = image::first(request) as usize;
    let n = image::second(request) as usize;
    let freed = in_place::free_in_copy(map(request), start, n);
    answer(request, calls::changed(freed))
}

fn map(request: &Image) -> Tree {
    let map = Tree::holding(image::words(request)).with_summary(image::summary(request));
    map.with_full(image::full(request))
        .with_count(image::count(request))
}

fn answer(request: &Image, made: (Result<Said, Refusal>, Tree)) -> Image {
    let (said, left) = made;
    let mut answer = image::blank(request);
    image::put_said(&mut answer, said);
    image::put_words(&mut answer, left.words());
    image::put_summary(&mut answer, left.summary());
    image::put_full(&mut answer, left.full());
    image::put_count(&mut answer, left.count());
    answer
}
