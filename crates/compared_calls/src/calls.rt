// Calls on a map of any size.
use crate::image;
use crate::image::Image;
use crate::said::Said;
use answers::{Changed, Refusal};
use maps::Map;

#[derive(Clone, Copy)]
pub enum Call {
    Take,
    Claim,
    Free,
    Set,
    NextFree,
    Get,
    Empty,
    Used,
}

// By its number in a request on a tree; of a word map the numbers are 16 higher, of a third level 64. Any that is none of
// these is carried out as the last.
impl From<u8> for Call {
    fn from(number: u8) -> Call {
        match number {
            1 => Call::Take,
            2 => Call::Claim,
            3 => Call::Free,
            4 => Call::Set,
            5 => Call::NextFree,
            6 => Call::Get,
            7 => Call::Empty,
            _ => Call::Used,
        }
    }
}

// What the call says, and the map that it leaves, which for a question is the one that came.
pub(crate) fn made<M: Map>(request: &Image, call: Call, map: M) -> (Result<Said, Refusal>, M) {
    let x = image::first(request) as usize;
    let y = image::second(request) as usize;
    match call {
        Call::Take => changed(map.take(x, y)),
        Call::Claim => changed(map.claim(x, y)),
        Call::Free => changed(map.free(x, y)),
        Call::Set => changed(map.set(x, y, image::used(request))),
        Call::NextFree => (map.next_free(x).map(Said::from), map),
        Call::Get => (map.get(x).map(Said::from), map),
        Call::Empty => (map.empty().map(Said::from), map),
        Call::Used => (map.used().map(Said::from), map),
    }
}

pub(crate) fn changed<M: Map>(changed: Changed<Refusal, M>) -> (Result<Said, Refusal>, M) {
    (changed.answer.map(Said::from), changed.map)
}
