// The program for an operator who asks why a group won't start: a record on standard input, its report
// on standard output, and after it the free runs and the used runs of the map that the record leaves,
// the longest free run and how many slots are free. Where the record is too long, only the line `big`.
// What these are is `runner`'s and `gap_report`'s; this reads and writes. A read that fails leaves no
// report, and a write that fails may leave a part of it: each is told on standard error. What is whole
// ends in a line `free slots`, or is the line `big`.
#![tactic(auto)]

ghost use Rattle.std.specs.Prelude.{◌≤◌, length, IfOk};

use std::io;
use std::io::{ErrorKind, Read};
use tree::Tree;

// One byte more than the longest record, so that a longer one is seen to be so.
const READ_MOST: usize = 32769;

fn main(rt: HostRuntime) -> io::Result<()> {
    let mut record = [0; READ_MOST];
    let count = match read_record(&mut rt.stdin(), &mut record) {
        Ok(count) => count,
        Err(why) => return eprintln!(rt; "slotgaps: standard input: {why}"),
    };
    match show(&rt, &record[..count]) {
        Ok(()) => Ok(()),
        Err(why) => eprintln!(rt; "slotgaps: standard output: {why}"),
    }
}

// Writes the report, and then the lines of the map that is left.
fn show(rt: &impl Print, record: &[u8]) -> io::Result<()> {
    let mut report = [0; 54624];
    let ran = runner::run_map(record, &mut report);
    let Ok(length) = ran.answer else {
        return rt.write_all(b"big\n");
    };
    rt.write_all(&report[..length as usize])?;
    show_map(rt, ran.map)
}

// The map is sound, so its lines are not refused.
fn show_map(rt: &impl Print, map: Tree) -> io::Result<()> {
    let mut lines = [0; 20480];
    let Ok(length) = gap_report::write(map, &mut lines) else {
        return Err(ErrorKind::Other.into());
    };
    rt.write_all(&lines[..length as usize])
}

// Reads until the input ends, the record is full or a read fails, however many pieces come: a `while`, since a
// read says how many bytes came. `slotmap` has the same: a library's function states one answer, and what a read
// gives no contract can say.
fn read_record(input: &mut impl Read, record: &mut [u8]) -> io::Result<usize>
    ensures { IfOk result (λ count. count ≤ length «record».old) }
{
    let mut done = 0;
    while done < record.len() {
        let count = input.read(&mut record[done..])?;
        if count == 0 {
            break;
        }
        done += count;
    }
    Ok(done)
}
