// A call, its arguments and its answer, on one line.
use answers::{Refusal, Reply};
use rounding::Width;
use std::fmt::Display;
use std::io;

pub fn text(rt: &impl Print, words: &[u8]) -> io::Result<()> {
    rt.write_all(words)
}

pub fn value(rt: &impl Print, value: impl Display + Drop) -> io::Result<()> {
    println!(rt; ": {value}")
}

// A refusal by its number, which three crates give to refusals of their own.
pub fn refused(rt: &impl Print, why: u8) -> io::Result<()> {
    print!(rt; ": refused {why}")
}

pub fn refusal(rt: &impl Print, why: Refusal) -> io::Result<()> {
    refused(rt, why.number())?;
    text(rt, b"\n")
}

pub fn number_answer(
    rt: &impl Print,
    answer: Result<impl Display + Drop, Refusal>,
) -> io::Result<()> {
    match answer {
        Ok(n) => value(rt, n),
        Err(why) => refusal(rt, why),
    }
}

pub fn truth_answer(rt: &impl Print, answer: Result<bool, Refusal>) -> io::Result<()> {
    match answer {
        Ok(yes) => value(rt, if yes { "yes" } else { "no" }),
        Err(why) => refusal(rt, why),
    }
}

pub fn low_mask(rt: &impl Print, k: usize) -> io::Result<()> {
    print!(rt; "low mask {k}")?;
    value(rt, bits::low_mask(k))
}

pub fn one_bit(rt: &impl Print, position: usize) -> io::Result<()> {
    print!(rt; "one bit {position}")?;
    number_answer(rt, bits::one_bit(position))
}

pub fn mask(rt: &impl Print, start: usize, end: usize) -> io::Result<()> {
    print!(rt; "mask from {start} to {end}")?;
    number_answer(rt, bits::mask(start, end))
}

// What a line of rounding begins with: nothing at 64 bits.
fn width<N: Width>(rt: &impl Print) -> io::Result<()> {
    if N::MAX == u64::from(u32::MAX) {
        text(rt, b"at 32 bits ")?;
    }
    Ok(())
}

pub fn align_up<N: Width + Display + Drop>(rt: &impl Print, v: N, align: N) -> io::Result<()> {
    width::<N>(rt)?;
    print!(rt; "round up {v} to {align}")?;
    number_answer(rt, rounding::align_up(v, align))
}

pub fn align_down<N: Width + Display + Drop>(rt: &impl Print, v: N, align: N) -> io::Result<()> {
    width::<N>(rt)?;
    print!(rt; "round down {v} to {align}")?;
    number_answer(rt, rounding::align_down(v, align))
}

pub fn is_aligned<N: Width + Display + Drop>(rt: &impl Print, v: N, align: N) -> io::Result<()> {
    width::<N>(rt)?;
    print!(rt; "is {v} a multiple of {align}")?;
    truth_answer(rt, rounding::is_aligned(v, align))
}

pub fn page_align_up(rt: &impl Print, x: u64) -> io::Result<()> {
    print!(rt; "round up to a page {x}")?;
    number_answer(rt, rounding::pages::page_align_up(x))
}

pub fn round_to_pages(rt: &impl Print, x: u64) -> io::Result<()> {
    print!(rt; "pages for {x}")?;
    value(rt, rounding::pages::round_to_pages(x))
}

pub fn page_offset(rt: &impl Print, x: u64) -> io::Result<()> {
    print!(rt; "page offset of {x}")?;
    value(rt, rounding::pages::page_offset(x))
}

pub fn overlap(
    rt: &impl Print,
    x_first: u64,
    x_last: u64,
    y_first: u64,
    y_last: u64,
) -> io::Result<()> {
    print!(rt; "overlap {x_first}..{x_last} and {y_first}..{y_last}")?;
    truth_answer(rt, spans::overlap(x_first, x_last, y_first, y_last))
}

// Each byte as it is, or a dot for a zero.
fn held(rt: &impl Print, bytes: &[u8]) -> io::Result<()> {
    for byte in bytes {
        let sign = if *byte == 0 { b'.' } else { *byte };
        text(rt, &[sign])?;
    }
    Ok(())
}

// The buffer holds the letters a to h; what it holds afterwards stands before the answer.
pub fn clear(rt: &impl Print, start: usize, end: usize) -> io::Result<()> {
    let mut bytes = *b"abcdefgh";
    let answer = spans::clear(&mut bytes, start, end);
    print!(rt; "clear {start}..{end} leaves ")?;
    held(rt, &bytes)?;
    match answer {
        Ok(()) => text(rt, b": ok\n"),
        Err(why) => refusal(rt, why),
    }
}

// ---- the answers of a map

// Where a run was granted, or that the call is done.
fn reply(rt: &impl Print, reply: Reply) -> io::Result<()> {
    match reply {
        Reply::At(start) => print!(rt; ": at {start}"),
        Reply::Done => text(rt, b": ok"),
    }
}

// A refusal of whichever crate by its number.
pub fn answer(rt: &impl Print, answer: Result<Reply, u8>) -> io::Result<()> {
    match answer {
        Ok(said) => reply(rt, said),
        Err(why) => refused(rt, why),
    }
}
