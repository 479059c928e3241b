// The lines of a report, as bytes.
ghost use Rattle.std.specs.Prelude.{◌≡◌, ◌≤◌, length};
ghost use Rattle.report.specs.Report.{written, numbered, over};
ghost use Rattle.runner.specs.Inner.{line_says, answer_line};

use answers::{Refusal, Reply};

// A line of a field: what a call said, or what became of a field that was no call.
#[derive(Drop)]
pub enum Line {
    Said(Result<Reply, Refusal>),
    Skipped,
    Stopped,
    Short,
}

// Each function puts bytes at the start of what it is lent of the report, and answers how many.

pub(crate) fn put_line(report: &mut [u8], line: Line) -> usize
    requires { length (written (line_says line)) ≤ length report.old }
    ensures value { result ≡ length (written (line_says line)) }
    ensures report_after { report.new ≡ over (written (line_says line)) report.old }
{
    match line {
        Line::Said(answer) => put_answer(report, answer),
        Line::Skipped => put(report, b"skip\n"),
        Line::Stopped => put(report, b"bad\n"),
        Line::Short => put(report, b"cut\n"),
    }
}

fn put_answer(report: &mut [u8], answer: Result<Reply, Refusal>) -> usize
    requires { length (written (answer_line answer)) ≤ length report.old }
    ensures value { result ≡ length (written (answer_line answer)) }
    ensures report_after { report.new ≡ over (written (answer_line answer)) report.old }
{
    match answer {
        Ok(Reply::At(start)) => put_number(report, b"at ", start as u64),
        Ok(Reply::Done) => put(report, b"ok\n"),
        Err(why) => put_number(report, b"no ", why.number() as u64),
    }
}

// A word, a number in decimal, and the end of the line.
pub(crate) fn put_number(report: &mut [u8], word: &[u8], n: u64) -> usize
    requires { length (numbered word.now n) ≤ length report.old }
    ensures value { result ≡ length (numbered word.now n) }
    ensures report_after { report.new ≡ over (numbered word.now n) report.old }
{
    let after_word = put(report, word);
    let after_number = texts::put_number(report, after_word, n);
    texts::put(report, after_number, b"\n")
}

pub(crate) fn put(report: &mut [u8], words: &[u8]) -> usize
    requires { length words.now ≤ length report.old }
    ensures value { result ≡ length words.now }
    ensures report_after { report.new ≡ over words.now report.old }
{
    texts::put(report, 0, words)
}
