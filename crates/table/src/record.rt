// The record at the start of a table part, its kind, and the parts that it makes.
ghost use Rattle.std.specs.Prelude.{◌≡◌, ◌+◌, ◌*◌, ◌≤◌, ◌<◌, eqb, length, drop};
ghost use Rattle.std.specs.Result.{result_ok};
ghost use Rattle.rules.specs.Fields.{word};
ghost use Rattle.rules.specs.Table.{kind_of, span_of, inner, after};
ghost use Rattle.table.specs.Kinds.{number_of, kind_named, kind_there};

use fields::{half_at, word_at};

// The kinds of records, in the order of their numbers, 1 to 13.
#[derive(Clone, Copy, PartialEq, Eq)]
pub enum Kind {
    Procedure = 1,
    Skip,
    Set,
    If,
    While,
    Spawn,
    Suspend,
    Await,
    Constant,
    Variable,
    Binary,
    Unary,
    Guard,
}

// A byte that names no kind.
#[derive(Clone, Copy)]
pub struct NoKind;

impl TryFrom<u8> for Kind {
    type Error = NoKind;

    ghost try_from_gives = { λ number result. result_ok result ≡ kind_named number };

    fn try_from(number: u8) -> Result<Self, NoKind> {
        match number {
            1 => Ok(Kind::Procedure),
            2 => Ok(Kind::Skip),
            3 => Ok(Kind::Set),
            4 => Ok(Kind::If),
            5 => Ok(Kind::While),
            6 => Ok(Kind::Spawn),
            7 => Ok(Kind::Suspend),
            8 => Ok(Kind::Await),
            9 => Ok(Kind::Constant),
            10 => Ok(Kind::Variable),
            11 => Ok(Kind::Binary),
            12 => Ok(Kind::Unary),
            13 => Ok(Kind::Guard),
            _ => Err(NoKind),
        }
    }
}

// The kind of the record that starts at `off`; none behind the last, or where the byte names none.
pub fn kind_at(table: &[u8], off: usize) -> Option<Kind>
    ensures { result ≡ kind_there table.now off }
{
    Kind::try_from(*table.get(off)?).ok()
}

// Whether the first record of a part is of this kind.
pub fn is(part: &[u8], kind: Kind) -> bool
    requires { 8 ≤ length part.now }
    ensures { result ≡ eqb (kind_of part.now) (number_of kind) }
{
    part[0] == kind as u8
}

// How many following records the first record encloses.
pub fn span_of(part: &[u8]) -> usize
    requires { 8 ≤ length part.now }
    ensures { (result ≡ span_of part.now) × (result < 65536) }
{
    usize::from(half_at(part, 2))
}

// The 32 bits of the first record's value.
pub fn word_of(part: &[u8]) -> u32
    requires { 8 ≤ length part.now }
    ensures { (result ≡ word part.now 4) × (result < 4294967296) }
{
    word_at(part, 4)
}

// What the first record encloses, from its first enclosed byte to its end.
pub fn enclosed(part: &[u8]) -> &[u8]
    requires { 8 + 8 * span_of part.now ≤ length part.now }
    ensures { result.now ≡ inner part.now }
{
    let end = 8 + 8 * span_of(part);
    &part[8..end]
}

// What follows the first record and all that it encloses.
pub fn beyond(part: &[u8]) -> &[u8]
    requires { 8 + 8 * span_of part.now ≤ length part.now }
    ensures { result.now ≡ after part.now }
{
    let end = 8 + 8 * span_of(part);
    &part[end..]
}

// A part without its first off bytes.
pub fn from(part: &[u8], off: usize) -> &[u8]
    requires { off ≤ length part.now }
    ensures { result.now ≡ drop off part.now }
{
    &part[off..]
}
