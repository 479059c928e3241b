// Many records in one run, for comparisons: each record on standard input has its length before it,
// in four bytes, low byte first, and what the program slotgaps would write for it, which begins with
// what slotmap would, goes to standard output in the same way. It ends with its input, or where a record
// is longer than it can hold.
#![tactic(auto)]

ghost use Rattle.std.specs.Prelude.{◌≤◌, length};

use std::io;
use std::io::{ErrorKind, Read};
use tree::Tree;

// `main` and `served` stand so in three programs: a library for them would have no answer to promise, since no contract
// says what a stream gives.
fn main(rt: HostRuntime) -> io::Result<()> {
    match served(&rt, &mut rt.stdin()) {
        Err(why) if why.kind() == ErrorKind::UnexpectedEof => Ok(()),
        ended => ended,
    }
}

// Answers record after record. The input's end is an error of the read that meets it.
fn served(rt: &impl Print, input: &mut impl Read) -> io::Result<()> {
    let mut head = [0; 4];
    let mut record = [0; 65536];
    // A loop has to end, and no run uses up so many turns.
    for _ in 0..u64::MAX {
        input.read_exact(&mut head)?;
        let count = u32::from_le_bytes(head) as usize;
        let Some(bytes) = record.get_mut(..count) else {
            return Ok(());
        };
        input.read_exact(bytes)?;
        answer(rt, bytes)?;
    }
    Ok(())
}

// Writes what slotgaps writes for the record.
fn answer(rt: &impl Print, record: &[u8]) -> io::Result<()> {
    let mut report = [0; 54624];
    let ran = runner::run_map(record, &mut report);
    let Ok(length) = ran.answer else {
        return write(rt, b"big\n", b"");
    };
    write_with(rt, &report[..length as usize], ran.map)
}

// The map is sound, so its lines are not refused.
fn write_with(rt: &impl Print, report: &[u8], map: Tree) -> io::Result<()>
    requires { length report.now ≤ 65536 }
{
    let mut lines = [0; 20480];
    let Ok(length) = gap_report::write(map, &mut lines) else {
        return Err(ErrorKind::Other.into());
    };
    write(rt, report, &lines[..length as usize])
}

fn write(rt: &impl Print, report: &[u8], lines: &[u8]) -> io::Result<()>
    requires { (length report.now ≤ 65536) × (length lines.now ≤ 65536) }
{
    let length = (report.len() + lines.len()) as u32;
    rt.write_all(&length.to_le_bytes())?;
    rt.write_all(report)?;
    rt.write_all(lines)
}
