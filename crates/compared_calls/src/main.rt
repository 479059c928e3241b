// Single calls, for comparisons with the original: a request names a call, its numbers and the map
// that it is made on, and the answer has what was said and the map that is left (`image`). It ends
// with its input.
#![tactic(auto)]

mod calls;
mod image;
mod numbers;
mod said;
mod thirds;
mod trees;
mod words;

use calls::Call;
use image::Image;
use std::io;
use std::io::{ErrorKind, Read};

// `main` and `served` stand so in three programs: a library for them would have no answer to promise, since no contract
// says what a stream gives.
fn main(rt: HostRuntime) -> io::Result<()> {
    match served(&rt, &mut rt.stdin()) {
        Err(why) if why.kind() == ErrorKind::UnexpectedEof => Ok(()),
        ended => ended,
    }
}

// Answers request after request. The input's end is an error of the read that meets it.
fn served(rt: &impl Print, input: &mut impl Read) -> io::Result<()> {
    let mut request = [[0u8; 8]; 19];
    let mut words = [[0u8; 8]; 256];
    // A loop has to end, and no run uses up so many turns.
    for _ in 0..u64::MAX {
        input.read_exact(request.as_flattened_mut())?;
        let number = image::call(&request);
        if number > 64 {
            input.read_exact(words.as_flattened_mut())?;
            let call = Call::from(number - 64);
            let (answer, left) = thirds::answered(&request, call, words.map(u64::from_le_bytes));
            rt.write_all(answer.as_flattened())?;
            rt.write_all(left.map(u64::to_le_bytes).as_flattened())?;
        } else {
            rt.write_all(answered(&request, number).as_flattened())?;
        }
    }
    Ok(())
}

fn answered(request: &Image, number: u8) -> Image {
    match number {
        1..=8 => trees::answered(request, Call::from(number)),
        17..=24 => words::answered(request, Call::from(number - 16)),
        33 => trees::taken_in_place(request),
        35 => trees::freed_in_place(request),
        _ => numbers::answered(request, number),
    }
}
