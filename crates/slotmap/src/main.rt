// The program: a record on standard input, its report on standard output, or only the line `big`
// where the record is too long. What a report is, and that it fits, is the runner's; this reads and
// writes. A read that fails leaves no report, and a write that fails may leave a part of one: each is
// told on standard error. A whole report ends in a line `used`, or is the line `big`.
#![tactic(auto)]

ghost use Rattle.std.specs.Prelude.{◌≤◌, length, IfOk};

use std::io;
use std::io::Read;

// One byte more than the longest record, so that a longer one is seen to be so.
const READ_MOST: usize = 32769;

fn main(rt: HostRuntime) -> io::Result<()> {
    let mut record = [0; READ_MOST];
    let count = match read_record(&mut rt.stdin(), &mut record) {
        Ok(count) => count,
        Err(why) => return eprintln!(rt; "slotmap: standard input: {why}"),
    };
    let mut text = [0; 54624];
    let length = runner::output(&record[..count], &mut text);
    match rt.write_all(&text[..length]) {
        Ok(()) => Ok(()),
        Err(why) => eprintln!(rt; "slotmap: standard output: {why}"),
    }
}

// Reads until the input ends, the record is full or a read fails, however many pieces come: a `while`, since a
// read says how many bytes came. `slotgaps` has the same: a library's function states one answer, and what a read
// gives no contract can say.
fn read_record(input: &mut impl Read, record: &mut [u8]) -> io::Result<usize>
    ensures { IfOk result (λ count. count ≤ length «record».old) }
{
    let mut done = 0;
    while done < record.len() {
        let count = input.read(&mut record[done..])?;
        if count == 0 {
            break;
        }
        done += count;
    }
    Ok(done)
}
