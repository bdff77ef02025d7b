// The check of a table: accepted, or the rule that is broken and the place of the earliest fault.
ghost use Rattle.std.specs.Prelude.{◌≡◌, true, ◌&&◌, leb, List, ℕ, ◌+◌, ◌*◌, ◌≤◌, ◌<◌, length, IfOk, IfErr};
ghost use Rattle.rules.specs.Fields.{signed};
ghost use Rattle.rules.specs.Table.{is_of, ends_fit, span_fits, value_fits, kind_row, kind_of, span_of, record_fault, enclosed, check_e, check_rows, check_spawns, names_none, procedures, records, length_fits, fine, check};
ghost use Rattle.rules.specs.Demand.{Bytes};
ghost use Rattle.table.specs.Kinds.{number_of};
ghost use Rattle.table.specs.Refusals.{verdict_of};
ghost use Rattle.table.specs.Check.{sort_of, ends_of, encloses_of, fault_of, fault_in, Fields, Part, Row, OfRow, OfOperator, enclosing, head_of};

use crate::record::{Kind, beyond, enclosed, from, kind_at, span_of, word_of};
use crate::refusal::{Refusal, Rule};

// What is due where a record stands.
#[derive(Clone, Copy, PartialEq, Eq)]
pub enum Sort {
    Procedure,
    Statement,
    Expression,
}

// Where what a record encloses must end, in its part.
#[derive(Clone, Copy)]
pub enum Ends {
    AtEnd,
    BeforeEnd,
    Within,
}

// What a kind encloses.
#[derive(Clone, Copy)]
pub enum Encloses {
    Nothing,
    Statements,
    OneExpression,
    ExpressionStatements,
    TwoExpressions,
}

// The columns of the table of kinds.
impl Kind {
    pub fn sort(self) -> Sort
        ensures { is_of (sort_of result) (number_of self) ≡ true }
    {
        match self {
            Kind::Procedure => Sort::Procedure,
            Kind::Constant | Kind::Variable | Kind::Binary | Kind::Unary => Sort::Expression,
            _ => Sort::Statement,
        }
    }

    fn encloses(self) -> Encloses
        ensures { encloses_of result ≡ (kind_row (number_of self)).encloses }
    {
        match self {
            Kind::Procedure => Encloses::Statements,
            Kind::Set | Kind::Spawn | Kind::Unary | Kind::Guard => Encloses::OneExpression,
            Kind::If | Kind::While => Encloses::ExpressionStatements,
            Kind::Binary => Encloses::TwoExpressions,
            _ => Encloses::Nothing,
        }
    }

    fn name_fits(self, name: u8) -> bool
        ensures { result ≡ (leb (kind_row (number_of self)).least name && leb name (kind_row (number_of self)).most) }
    {
        // Only a spawn's least name is not 0. Limits are looked up; tests would make a jump.
        let most = match self {
            Kind::Set | Kind::Spawn | Kind::Await | Kind::Variable => 64,
            Kind::Binary => 7,
            Kind::Unary => 1,
            _ => 0,
        };
        name <= most && (self != Kind::Spawn || 8 <= name)
    }

    fn value_fits(self, value: u32) -> bool
        ensures { result ≡ value_fits (kind_row (number_of self)).field (signed value) }
    {
        match self {
            Kind::Spawn => value <= 255,
            Kind::Constant => true,
            _ => value == 0,
        }
    }
}

impl Encloses {
    // Whether a record that encloses this may enclose so many records.
    fn span_fits(self, span: usize) -> bool
        ensures { result ≡ span_fits (encloses_of self) span }
    {
        match self {
            Encloses::Nothing => span == 0,
            Encloses::Statements => true,
            Encloses::OneExpression | Encloses::ExpressionStatements => 1 <= span,
            Encloses::TwoExpressions => 2 <= span,
        }
    }
}

impl Ends {
    fn fit(self, end: usize, len: usize) -> bool
        ensures { result ≡ ends_fit (ends_of self) end len }
    {
        match self {
            Ends::AtEnd => end == len,
            Ends::BeforeEnd => end < len,
            Ends::Within => end <= len,
        }
    }
}

// The kind of a record with these fields, or the first rule that it breaks. Numbers and not the part, so that they stay in registers.
#[inline(always)]
fn fields_kind(
    number: u8,
    name: u8,
    span: usize,
    value: u32,
    len: usize,
    sort: Sort,
    ends: Ends,
) -> Result<Kind, Rule>
    requires { span < 65536 }
    ensures fault { (p : List ℕ) → Fields p number name span value len → fault_of result ≡ record_fault (sort_of sort) (ends_of ends) p }
    ensures kind { IfOk result (λ kind. number ≡ number_of kind) }
{
    let kind = Kind::try_from(number)?;
    if kind.sort() != sort {
        return Err(Rule::Kind);
    }
    if !ends.fit(8 + 8 * span, len) || !kind.encloses().span_fits(span) {
        return Err(Rule::Span);
    }
    if !kind.name_fits(name) {
        return Err(Rule::Name);
    }
    if !kind.value_fits(value) {
        return Err(Rule::Value);
    }
    Ok(kind)
}

// The kind of the first record of a part, or the first rule that it breaks; at is its place in the table. (kept: the place beside the part, and what is asked
// of both in clauses. What a record encloses is handed on as a slice; a struct of the two would be made anew at each record.)
#[inline(always)]
fn record_kind(part: &[u8], sort: Sort, at: usize, ends: Ends) -> Result<Kind, Refusal>
    requires { Part at part.now }
    ensures fault { fault_in result ≡ record_fault (sort_of sort) (ends_of ends) part.now }
    ensures place { IfErr result (λ refusal. refusal.place ≡ at) }
    ensures kind { IfOk result (λ kind. kind_of part.now ≡ number_of kind) }
{
    fields_kind(
        part[0],
        part[1],
        span_of(part),
        word_of(part),
        part.len(),
        sort,
        ends,
    )
    .map_err(|rule| rule.at(at))
}

// The expression that a part starts with, with so many levels left for it; at is its place in the table. A constant or a variable is checked in
// place, without a step of the recursion.
#[cycle(expr_operands)]
#[inline(always)]
fn check_expr(part: &[u8], at: usize, left: usize, ends: Ends) -> Result<(), Refusal>
    requires { Part at part.now }
    ensures { verdict_of result ≡ check_e left at (ends_of ends) part.now }
{
    let kind = record_kind(part, Sort::Expression, at, ends)?;
    if left == 0 {
        return Err(Rule::Depth.at(at));
    }
    match kind {
        Kind::Unary | Kind::Binary => check_operands(kind, part, at, left - 1),
        _ => Ok(()),
    }
}

// The operands of an operator, with so many levels left for each. The last one's check is one call for both kinds, since it is inlined.
#[cycle(expr_operands)]
fn check_operands(kind: Kind, part: &[u8], at: usize, left: usize) -> Result<(), Refusal>
    requires { OfOperator at part.now × (kind_of part.now ≡ number_of kind) }
    ensures { verdict_of result ≡ enclosed (check_e left) (λ j q. fine) (enclosing part.now) at part.now }
{
    let mut last = enclosed(part);
    let mut next = at + 1;
    if let Kind::Binary = kind {
        check_expr(last, next, left, Ends::BeforeEnd)?;
        next += 1 + span_of(last);
        last = beyond(last);
    }
    check_expr(last, next, left, Ends::AtEnd)
}

// The first record of a row, with the expression that it encloses if any: what it encloses.
fn check_head(part: &[u8], sort: Sort, at: usize, left: usize) -> Result<Encloses, Refusal>
    requires { Part at part.now × OfRow (sort_of sort) }
    ensures verdict { verdict_of result ≡ head_of (sort_of sort) left at part.now }
    ensures encloses { IfOk result (λ e. encloses_of e ≡ enclosing part.now) }
{
    let kind = record_kind(part, sort, at, Ends::Within)?;
    if left == 0 {
        return Err(Rule::Depth.at(at));
    }
    let encloses = kind.encloses();
    match encloses {
        Encloses::OneExpression => check_expr(enclosed(part), at + 1, left - 1, Ends::AtEnd)?,
        Encloses::ExpressionStatements => {
            check_expr(enclosed(part), at + 1, left - 1, Ends::Within)?
        }
        _ => {}
    }
    Ok(encloses)
}

// A row of procedures or statements, with left levels for them.
fn check_rows(part: &[u8], sort: Sort, at: usize, left: usize) -> Result<(), Refusal>
    requires { Row at part.now × OfRow (sort_of sort) }
    ensures { verdict_of result ≡ check_rows (sort_of sort) left at part.now }
{
    let mut off: usize = 0;
    let mut i = at;
    // kept: the step to the next record is what this one encloses, once it is checked, which no range or iterator can say before.
    while off < part.len() {
        let rest = from(part, off);
        match check_head(rest, sort, i, left)? {
            Encloses::Nothing => {
                // The next record stands right here, whatever the span says: so the loop need not wait for it.
                off += 8;
                i += 1;
                continue;
            }
            // A body without statements costs no call.
            Encloses::Statements => {
                let body = enclosed(rest);
                if !body.is_empty() {
                    check_rows(body, Sort::Statement, i + 1, left - 1)?;
                }
            }
            Encloses::ExpressionStatements => {
                let test = enclosed(rest);
                let body = beyond(test);
                if !body.is_empty() {
                    let next = i + 2 + span_of(test);
                    check_rows(body, Sort::Statement, next, left - 1)?;
                }
            }
            _ => {}
        }
        let span = span_of(rest);
        off += 8 + 8 * span;
        i += 1 + span;
    }
    Ok(())
}

// How many records of a table are procedures.
fn procedures_in(table: &[u8]) -> usize
    requires { Row 0 table.now }
    ensures { result ≡ procedures (records table.now) table.now }
{
    let mut count = 0;
    for record in table.chunks_exact(8) {
        if kind_at(record, 0) == Some(Kind::Procedure) {
            count += 1;
        }
    }
    count
}

// Whether the first record of a part is a spawn of none of n procedures.
fn names_none(part: &[u8], n: usize) -> bool
    requires { 8 ≤ length part.now }
    ensures { result ≡ names_none n part.now }
{
    kind_at(part, 0) == Some(Kind::Spawn)
        && n <= word_of(part).cast_signed().unsigned_abs() as usize
}

// The spawns of a table of n procedures.
fn check_spawns(table: &[u8], n: usize) -> Result<(), Refusal>
    requires { Row 0 table.now }
    ensures { verdict_of result ≡ check_spawns (records table.now) n 0 table.now }
{
    for (i, record) in table.chunks_exact(8).enumerate() {
        if names_none(record, n) {
            return Err(Rule::Procedure.at(i));
        }
    }
    Ok(())
}

fn length_fits(len: usize) -> bool
    ensures { result ≡ length_fits len }
{
    len != 0 && len % 8 == 0 && len <= 32768
}

// A table that is accepted.
#[derive(Clone, Copy)]
pub struct Accepted<'a> {
    pub bytes: &'a [u8],
    ghost fine: { check bytes.now ≡ fine },
    ghost in_bytes: { Bytes bytes.now },
}

// A whole table, of any content and length.
pub fn check_table(table: &[u8]) -> Result<Accepted, Refusal>
    ensures verdict { verdict_of result ≡ check table.now }
    ensures accepted { IfOk result (λ a. a.bytes.now ≡ table.now) }
{
    if !length_fits(table.len()) {
        return Err(Rule::TableLength.at(0));
    }
    let rows = check_rows(table, Sort::Procedure, 0, 17);
    let spawns = check_spawns(table, procedures_in(table));
    rows?;
    spawns?;
    Ok(Accepted { bytes: table })
}
