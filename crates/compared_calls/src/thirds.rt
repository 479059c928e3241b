// Calls on a third level, which may be at odds with itself: 65 to 72.
use crate::calls::Call;
use crate::image::Image;
use crate::{calls, image};
use third::Third;

// The answer, and the words that come behind it.
pub(crate) fn answered(request: &Image, call: Call, words: [u64; 256]) -> (Image, [u64; 256]) {
    let (said, left) = calls::made(request, call, map(request, words));
    let mut answer = image::blank(request);
    image::put_said(&mut answer, said);
    image::put_summaries(&mut answer, left.summaries());
    image::put_fulls(&mut answer, left.fulls());
    image::put_counts(&mut answer, left.counts());
    image::put_summary(&mut answer, left.summary());
    (answer, left.words())
}

fn map(request: &Image, words: [u64; 256]) -> Third {
    let map = Third::holding(words);
    let map = map.with_summaries(image::summaries(request), image::summary(request));
    map.with_fulls(image::fulls(request))
        .with_counts(image::counts(request))
}
