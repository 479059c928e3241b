// The runner: a record of calls in, a report out, over lent slices. It starts from an empty tree, and
// each line of the report is the answer of its own call on the map that the one before left. Rests on
// `tree`.
#![tactic(auto)]

mod fields;
mod lines;

ghost use Rattle.std.specs.Prelude.{◌≤◌, length};
ghost use Rattle.report.specs.Report.{RunSays, RunMapSays, OutputSays};
ghost use Rattle.runner.specs.Inner.{RefusedSays, SaidSays, StepSays};

use answers::{Changed, Refusal};
use fields::Field;
use lines::Line;
use tree::Tree;

// The longest record, and room for the longest report that one can have.
const RECORD_MOST: usize = 32768;

const REPORT_LEAST: usize = 54624;

// What a run said, and the map that the record leaves. The map stands beside the answer, and not in it,
// since `run_map` promises one on a refusal too.
#[derive(Drop)]
pub struct Ran {
    pub answer: Result<u64, Refusal>,
    pub map: Tree,
}

// A field's line, and the map that it leaves.
#[derive(Drop)]
struct Step {
    line: Line,
    map: Tree,
}

// Writes the report of the record at the start of `report`, and answers its length; the bytes after
// it stay. Refused with 12 where the record is longer than 32,768 bytes, and then with 11 where the
// buffer is shorter than 54,624. A refusal leaves every byte of the buffer as it was.
pub fn run(record: &[u8], report: &mut [u8]) -> Result<u64, Refusal>
    ensures { RunSays «record».now report.old result report.new }
{
    run_map(record, report).answer
}

// The same, with the map that the record leaves; where the run is refused that is the empty map.
pub fn run_map(record: &[u8], report: &mut [u8]) -> Ran
    ensures { RunMapSays «record».now report.old result.answer result.map report.new }
{
    if RECORD_MOST < record.len() {
        return refused(Refusal::RecordTooLong);
    }
    if report.len() < REPORT_LEAST {
        return refused(Refusal::ReportTooShort);
    }
    reported(record, report)
}

fn refused(why: Refusal) -> Ran
    ensures { RefusedSays why result.answer result.map }
{
    Ran {
        answer: Err(why),
        map: Tree::new_empty(),
    }
}

// Writes the lines of the record's fields, each carried out on the map that the one before left, and
// last how many slots are used. Answers the report's length, with the map that is left.
fn reported(record: &[u8], report: &mut [u8]) -> Ran
    requires { (length «record».now ≤ 32768) × (54624 ≤ length report.old) }
    ensures { RunMapSays «record».now report.old result.answer result.map report.new }
{
    let mut map = Tree::new_empty();
    let mut next = 0;
    let mut length = 0;
    // A `while`, since fields differ in length.
    while next < record.len() {
        let piece = fields::field_at(record, next);
        let step = carried_out(map, piece.field);
        length += lines::put_line(&mut report[length..], step.line);
        map = step.map;
        next = piece.next;
    }
    let used = map.used().unwrap();
    length += lines::put_number(&mut report[length..], b"used ", used);
    Ran {
        answer: Ok(length as u64),
        map,
    }
}

// What the program writes for the record: its report, or where the record is too long only the line
// `big`. It stands at the start of `text`, and the bytes after it stay. Answers its length. Never
// refused.
pub fn output(record: &[u8], text: &mut [u8; 54624]) -> usize
    ensures { OutputSays «record».now text.old result text.new }
{
    match run(record, text) {
        Ok(length) => length as usize,
        Err(_) => lines::put(text, b"big\n"),
    }
}

// Carries a field out on the map.
fn carried_out(map: Tree, field: Field) -> Step
    ensures { StepSays map field result }
{
    match field {
        Field::Take { n, a } => said(map.take(n, a)),
        Field::Claim { start, n } => said(map.claim(start, n)),
        Field::Free { start, n } => said(map.free(start, n)),
        Field::Skip => Step {
            line: Line::Skipped,
            map,
        },
        Field::Bad => Step {
            line: Line::Stopped,
            map,
        },
        Field::Cut => Step {
            line: Line::Short,
            map,
        },
    }
}

// The line of a call, and the map that it left.
fn said(changed: Changed<Refusal, Tree>) -> Step
    ensures { SaidSays changed result }
{
    Step {
        line: Line::Said(changed.answer),
        map: changed.map,
    }
}
