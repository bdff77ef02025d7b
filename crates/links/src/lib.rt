// Where each statement of an accepted table leads, and where its procedures start, in one pass over the records.

#![tactic(auto)]

ghost use Rattle.std.specs.Prelude.{◌≡◌, ◌+◌, ◌≤◌, ◌<◌, length, set, replicate};
ghost use Rattle.rules.specs.Table.{span_of, body_of, recipe_of};
ghost use Rattle.rules.specs.Places.{nowhere, points_s, points_b, points_r};
ghost use Rattle.links.specs.Linked.{Linked};
ghost use Rattle.links.specs.Links.{linked, started, BodySpelt, first_of, place_after};

use table::check::Accepted;
use table::record::{Kind, beyond, enclosed, kind_at, span_of};

// The place after each statement, by the statement's index, and the first place of each of the procedures 0 to 255.
#[derive(Clone, Copy)]
pub struct Links {
    pub next: [u16; 4096],
    pub starts: [u16; 256],
}

// An accepted table with its links.
#[derive(Clone, Copy)]
pub struct LinkedTable<'a> {
    pub table: Accepted<'a>,
    pub links: &'a Links,
    ghost linked: { Linked (recipe_of table.bytes.now) links.now },
}

// An index as a place.
fn place(i: usize) -> u16
    requires { i ≤ 4096 }
    ensures { result ≡ i }
{
    i as u16
}

// The place after the first statement of a row: the next statement, or what follows the row.
fn place_after(part: &[u8], at: usize, follow: u16) -> u16
    requires { (8 ≤ length part.now) × (at + 1 + span_of part.now ≤ 4096) }
    ensures { result ≡ place_after part.now at follow }
{
    let span = span_of(part);
    let behind = place(at + 1 + span);
    if part.len() == 8 + 8 * span {
        return follow;
    }
    behind
}

// Links the first statement of a row and all that it encloses; `then` is the place after it. `left` bounds how deep the calls go. (kept: a part
// with its index, as in the check.)
#[cycle(link_body_link_statement)]
fn link_statement(part: &[u8], at: usize, then: u16, left: usize, next: &mut [u16; 4096])
    requires { BodySpelt at left part.now × (0 < length part.now) }
    ensures { next.new ≡ linked (points_s (first_of (body_of part.now)) at then) at next.old }
{
    next[at] = then;
    // What follows the body of an if is what follows the if, of a while the while again.
    let follow = match kind_at(part, 0) {
        Some(Kind::If) => then,
        Some(Kind::While) => place(at),
        _ => return,
    };
    let test = enclosed(part);
    link_body(beyond(test), at + 2 + span_of(test), follow, left - 1, next);
}

// Links a row of statements; `follow` is the place after the last.
#[cycle(link_body_link_statement)]
fn link_body(part: &[u8], at: usize, follow: u16, left: usize, next: &mut [u16; 4096])
    requires { BodySpelt at left part.now }
    ensures { next.new ≡ linked (points_b (body_of part.now) at follow) at next.old }
{
    let mut rest = part;
    let mut here = at;
    // kept: the step to the next record is what this one encloses, which no range or library iterator says; one of our own would carry the same part
    // and index, and laws of its own.
    while 0 < rest.len() {
        link_statement(rest, here, place_after(rest, here, follow), left, next);
        here = here + 1 + span_of(rest);
        // A call's result cannot be laid where its own argument is.
        let more = beyond(rest);
        rest = more;
    }
}

// A procedure past the last number that `starts` has room for is given no start.
fn put_start(starts: &mut [u16], number: usize, first: u16)
    ensures { starts.new ≡ set starts.old number first }
{
    // kept: of what a slice ends as behind `get_mut` the library says the length alone.
    if number < starts.len() {
        starts[number] = first;
    }
}

impl Links {
    // Nothing linked yet.
    pub fn none() -> Links
        ensures { result ≡ record { next = replicate 4096 0; starts = replicate 256 0 } }
    {
        Links {
            next: [0; 4096],
            starts: [0; 256],
        }
    }

    // Links an accepted table.
    pub fn set(&mut self, table: Accepted)
        ensures next_after { self.new.next ≡ linked (points_r (recipe_of table.entry.bytes.now) 0 nowhere) 0 self.old.next }
        ensures starts_after { self.new.starts ≡ started (recipe_of table.entry.bytes.now) self.old.starts }
    {
        let mut rest = table.bytes;
        let mut at = 0;
        let mut number = 0;
        // kept: as in `link_body`, the step is what the record encloses.
        while 0 < rest.len() {
            let end = at + 1 + span_of(rest);
            link_body(enclosed(rest), at + 1, place(end), 16, &mut self.next);
            put_start(&mut self.starts, number, place(at + 1));
            let more = beyond(rest);
            rest = more;
            at = end;
            number += 1;
        }
    }

    // An accepted table with its links, which are set.
    pub fn link<'a>(&'a mut self, table: Accepted<'a>) -> LinkedTable<'a>
        ensures { result.table.bytes.now ≡ table.entry.bytes.now }
    {
        self.set(table);
        LinkedTable { table, links: self }
    }
}
