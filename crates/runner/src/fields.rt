// Cutting a record into fields: a tag of one byte, a length of two, a body. Numbers are low byte first.
ghost use Rattle.std.specs.Prelude.{◌≡◌, ◌<◌, length};
ghost use Rattle.report.specs.Fields.{kind_of, may_hold, field_of, number_at};
ghost use Rattle.runner.specs.Inner.{kind_says, field_says, PieceSays};

// What a tag asks for.
#[derive(Clone, Copy)]
enum Kind {
    Take,
    Claim,
    Free,
    Skip,
    Stop,
}

// A field: a call with its numbers, one that is passed over, a stop, or what is not there whole.
#[derive(Drop)]
pub enum Field {
    Take { n: usize, a: usize },
    Claim { start: usize, n: usize },
    Free { start: usize, n: usize },
    Skip,
    Bad,
    Cut,
}

// A field, and the offset from which on there is more to read.
#[derive(Drop)]
pub struct Piece {
    pub field: Field,
    pub next: usize,
}

// The field that begins at offset `at`. After a stop nothing is left to read. The whole record is lent, and
// not its rest: `guesses_the_rest_from_the_first_field`, which is refused here, reads the record's first byte.
pub(crate) fn field_at(record: &[u8], at: usize) -> Piece
    requires { at < length «record».now }
    ensures { PieceSays «record».now at result }
{
    let end = record.len();
    if end - at < 3 {
        return Piece {
            field: Field::Cut,
            next: end,
        };
    }
    let kind = kind_of(record[at]);
    let length = number_at(record, at + 1);
    if !may_hold(kind, length) {
        return Piece {
            field: Field::Bad,
            next: end,
        };
    }
    let body = at + 3;
    if end - body < length {
        return Piece {
            field: Field::Cut,
            next: end,
        };
    }
    let next = body + length;
    let field = field_of(kind, &record[body..next]);
    Piece { field, next }
}

// Tags are decided by range.
fn kind_of(tag: u8) -> Kind
    ensures { kind_says result ≡ kind_of tag }
{
    match tag {
        1 => Kind::Take,
        2 => Kind::Claim,
        3 => Kind::Free,
        4..=127 => Kind::Skip,
        _ => Kind::Stop,
    }
}

// Whether a body of this kind may be so long; for a tag that stops the run none may.
fn may_hold(kind: Kind, length: usize) -> bool
    ensures { result ≡ may_hold (kind_says kind) length }
{
    match kind {
        Kind::Take => length == 3,
        Kind::Claim => length == 4,
        Kind::Free => length == 4,
        Kind::Skip => true,
        Kind::Stop => false,
    }
}

// The field of this kind with this body.
fn field_of(kind: Kind, body: &[u8]) -> Field
    ensures { field_says result ≡ field_of (kind_says kind) body.now }
{
    let first = number_at(body, 0);
    let second = number_at(body, 2);
    match kind {
        Kind::Take => Field::Take {
            n: first,
            a: second,
        },
        Kind::Claim => Field::Claim {
            start: first,
            n: second,
        },
        Kind::Free => Field::Free {
            start: first,
            n: second,
        },
        Kind::Skip => Field::Skip,
        Kind::Stop => Field::Bad,
    }
}

// The number in the two bytes from offset `at` on, low byte first; a byte that is not there counts
// nothing, so this is more than `from_le_bytes`.
fn number_at(bytes: &[u8], at: usize) -> usize
    ensures { result ≡ number_at bytes.now at }
{
    match &bytes[at.min(bytes.len())..] {
        [] => 0,
        [low] => *low as usize,
        [low, high, ..] => u16::from_le_bytes([*low, *high]) as usize,
    }
}
