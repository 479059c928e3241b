// Single calls on jobs, for comparisons: a request names a call, its numbers and the state that it is
// made on, and the answer has what was said and the state that is left (`image`). It ends with its
// input.
#![tactic(auto)]

mod image;
mod said;

use answers::{Changed, Refusal};
use jobs::{JobRefusal, Jobs};
use said::Said;
use std::io;
use std::io::{ErrorKind, Read};

// `main` and `served` stand so in three programs: a library for them would have no answer to promise, since no contract
// says what a stream gives.
fn main(rt: HostRuntime) -> io::Result<()> {
    match served(&rt, &mut rt.stdin()) {
        Err(why) if why.kind() == ErrorKind::UnexpectedEof => Ok(()),
        ended => ended,
    }
}

// Answers request after request. The input's end is an error of the read that meets it.
fn served(rt: &impl Print, input: &mut impl Read) -> io::Result<()> {
    let mut request = [[0u8; 8]; 38];
    // A loop has to end, and no run uses up so many turns.
    for _ in 0..u64::MAX {
        input.read_exact(request.as_flattened_mut())?;
        let answer = answered(&request.map(u64::from_le_bytes)).map(u64::to_le_bytes);
        rt.write_all(answer.as_flattened())?;
    }
    Ok(())
}

// The calls: 1 start, 2 reap, 3 record, 4 state, 5 empty, 6 used, 7 capacity. Any other makes the empty
// state, whatever came.
fn answered(asked: &[u64; 38]) -> [u64; 38] {
    let jobs = image::jobs(asked);
    let x = asked[1] as usize;
    let y = asked[2] as usize;
    let call = asked[0];
    match call {
        1 => changed(jobs.start(x, y)),
        2 => changed(jobs.reap(x, y)),
        3 => changed(jobs.record(x, y)),
        4 => told(jobs.state(x).map(Said::from), jobs),
        5 => told(jobs.empty().map(Said::from), jobs),
        6 => told(jobs.used().map(Said::from), jobs),
        7 => told(Ok(Said::from(jobs.capacity())), jobs),
        _ => told(Ok(Said::Done), Jobs::new_empty()),
    }
}

fn changed(changed: Changed<JobRefusal, Jobs>) -> [u64; 38] {
    image::answer(changed.answer.map(Said::from), changed.map)
}

// What a question is answered, which only the maps below can refuse.
fn told(said: Result<Said, Refusal>, jobs: Jobs) -> [u64; 38] {
    image::answer(said.map_err(JobRefusal::Map), jobs)
}
