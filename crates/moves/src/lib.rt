// What the active task does next.

#![tactic(auto)]

ghost use Rattle.std.specs.Prelude.{◌≡◌, ℕ, true, cond, ◌+◌, ◌≤◌, get_or};
ghost use Rattle.rules.specs.Values.{truth};
ghost use Rattle.rules.specs.Table.{kind_of, span_of, recipe_of};
ghost use Rattle.rules.specs.Standing.{at_place};
ghost use Rattle.rules.specs.State as R;
ghost use Rattle.table.specs.Kinds.{number_of};
ghost use Rattle.state.specs.View.{task_of};
ghost use Rattle.ready.specs.Ready.{Placed};
ghost use Rattle.moves.specs.Moves.{MovesIn, Part, Enclosing, MovesAt, into_body};

use expr::{Env, eval};
use links::{LinkedTable, Links};
use state::Task;
use table::record::{Kind, enclosed, from, kind_at, span_of, word_of};

// On to a place; a variable's name, its new value and the next place; the name of the variable for the new task's number,
// the place where that task starts, its argument and the next place; to the back of the queue, at the next place; to the
// back, where it stands, with what its log record carries; the end.
#[derive(Clone, Copy)]
pub enum Move {
    Goes(u16),
    Sets(u8, i32, u16),
    Spawns(u8, u16, i32, u16),
    Gives(u16),
    Waits(i32),
    Ends,
}

// The record of the table that a part starts with, its kind and its place.
#[derive(Clone, Copy)]
struct Record<'a> {
    kind: Kind,
    part: &'a [u8],
    place: usize,
    ghost named: { kind_of part.now ≡ number_of kind },
    ghost within: { place + 1 + span_of part.now ≤ 4096 },
}

// Where the body of an if or a while leads.
fn body_of(found: Record, follow: u16) -> u16
    requires { Enclosing found.part.now }
    ensures { result ≡ into_body found.entry.part.now found.entry.place follow }
{
    let span = span_of(enclosed(found.part));
    let first = found.place + 2 + span;
    if 1 + span < span_of(found.part) {
        return first as u16;
    }
    match found.kind {
        Kind::If => follow,
        _ => found.place as u16,
    }
}

// Where the test of an if or a while leads, by its value.
fn branch(found: Record, follow: u16, v: i32) -> u16
    requires { Enclosing found.part.now }
    ensures { result ≡ cond (truth v) (into_body found.entry.part.now found.entry.place follow) follow }
{
    if v == 0 {
        return follow;
    }
    body_of(found, follow)
}

// What a task does at the statement that a record starts; none, where its expression has no value.
fn statement(found: Record, links: &Links, env: Env) -> Option<Move>
    requires { Part found.part.now × (2 ≤ kind_of found.part.now) × (at_place (kind_of found.part.now) ≡ true) }
    ensures { (t : R.Task ℕ) → t.parameter ≡ env.entry.parameter → MovesAt links.now.starts found.entry.part.now found.entry.place (get_or links.now.next found.entry.place 0) env.entry.variables.now t result }
{
    let part = found.part;
    let follow = links.next[found.place];
    let name = part[1];
    let m = match found.kind {
        Kind::Skip => Move::Goes(follow),
        Kind::Set => Move::Sets(name, eval(enclosed(part), env)?, follow),
        Kind::Spawn => {
            let v = eval(enclosed(part), env)?;
            Move::Spawns(name, links.starts[word_of(part) as usize], v, follow)
        }
        Kind::Suspend => Move::Gives(follow),
        Kind::Await => Move::Waits(env.variable(name)),
        // A guard: it waits for no number, whatever its value now. (kept: 0, which its log record carries.)
        Kind::Guard => Move::Waits(0),
        // An if or a while.
        _ => Move::Goes(branch(found, follow, eval(enclosed(part), env)?)),
    };
    Some(m)
}

// What the active task does next; none, where its expression has no value. (kept: the task beside the variables, here and in `active`. The variables are
// changed in place while the task goes on by value: a struct of both would borrow them anew at each step.)
pub fn move_of(linked: LinkedTable, t: Task, variables: &[i32; 64]) -> Option<Move>
    requires { Placed (recipe_of linked.table.bytes.now) (task_of t) }
    ensures { MovesIn (recipe_of linked.entry.table.bytes.now) variables.now (task_of t) result }
{
    let place = usize::from(t.place);
    let off = 8 * place;
    match kind_at(linked.table.bytes, off) {
        None | Some(Kind::Procedure) => Some(Move::Ends),
        Some(kind) => {
            let found = Record {
                kind,
                part: from(linked.table.bytes, off),
                place,
            };
            let env = Env {
                variables,
                parameter: t.parameter,
            };
            statement(found, linked.links, env)
        }
    }
}
