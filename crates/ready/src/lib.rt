// Which queued tasks are ready.

#![tactic(auto)]

ghost use Rattle.std.specs.Prelude.{◌≡◌, true, false, ℕ, ◌*◌, ◌<◌, IfSome};
ghost use Rattle.rules.specs.Recipe.{Recipe};
ghost use Rattle.rules.specs.Table.{recipe_of};
ghost use Rattle.table.specs.Kinds.{kind_there};
ghost use Rattle.rules.specs.Places.{at, is_place};
ghost use Rattle.rules.specs.State as R;
ghost use Rattle.rules.specs.Scheduler.{is_live, is_ready, can_go};
ghost use Rattle.rules.specs.Steps.{is_done, recipes, go_to, past_at};
ghost use Rattle.state.specs.View.{task_of, entry, queue_of};
ghost use Rattle.links.specs.Linked.{Leads};
ghost use Rattle.ready.specs.Ready.{readiness_of, idle, ready_in, first_in, natural, Describes, NotDone, Placed, Waiting};

use expr::{Env, eval};
use links::Links;
use state::{State, Task};
use table::check::Accepted;
use table::record::{Kind, enclosed, from, is, kind_at};

// A state goes beside the table that it runs, and that its tasks stand at places is said in clauses, here and above. (kept: a state is another one after each
// step, so a struct of both would be made anew each time.)

#[derive(Clone, Copy)]
pub enum Wait {
    Ready,
    Waits(i32),
    AtGuard,
}

// A queued task, and whether it is ready, waits for a number, or waits at a guard.
#[derive(Clone, Copy)]
pub struct Queued {
    pub task: Task,
    pub wait: Wait,
}

// The number that a value is, if it is one.
pub fn natural(v: i32) -> Option<u32>
    ensures { result ≡ natural v }
{
    u32::try_from(v).ok()
}

// Whether a wait for a value is over: it is 0, or the number of a task that is over.
fn is_done(s: &State, v: i32) -> bool
    ensures { (x : Recipe) → result ≡ is_done s.now.issued (is_live (recipes x) (queue_of s.now.queue)) v }
{
    let Some(number) = natural(v) else {
        return false;
    };
    number == 0 || (number <= u32::from(s.issued) && s.queue.position(number).is_none())
}

// Whether a task at a guard is ready: whether its expression is true now, with the task's own parameter. Without a value it is untrue.
fn guarded(table: Accepted, s: &State, t: Task) -> Wait
    requires { Placed (recipe_of table.bytes.now) (task_of t) × (kind_there table.bytes.now (8 * t.place) ≡ Some Kind.Guard) }
    ensures { readiness_of result ≡ ready_in table.entry.bytes.now (idle s.now) (task_of t) }
{
    let part = from(table.bytes, 8 * usize::from(t.place));
    let env = Env {
        variables: &s.variables,
        parameter: t.parameter,
    };
    match eval(enclosed(part), env) {
        Some(v) if v != 0 => Wait::Ready,
        _ => Wait::AtGuard,
    }
}

// Whether a task is ready, or what it waits for. Of the number `known` it is known that it is not done: as a rule, tasks that wait one
// behind another wait for the same.
fn wait_of(table: Accepted, s: &State, t: Task, known: Option<i32>) -> Wait
    requires { Placed (recipe_of table.bytes.now) (task_of t) × IfSome known (NotDone table.bytes.now (idle s.now)) }
    ensures { readiness_of result ≡ ready_in table.entry.bytes.now (idle s.now) (task_of t) }
{
    let off = 8 * usize::from(t.place);
    match kind_at(table.bytes, off) {
        Some(Kind::Await) => {
            let env = Env {
                variables: &s.variables,
                parameter: t.parameter,
            };
            let v = env.variable(table.bytes[off + 1]);
            if Some(v) != known && is_done(s, v) {
                return Wait::Ready;
            }
            Wait::Waits(v)
        }
        Some(Kind::Guard) => guarded(table, s, t),
        _ => Wait::Ready,
    }
}

// What a task waits for, of which it is known that it waits.
fn held_by(table: Accepted, s: &State, t: Task) -> Wait
    requires { Placed (recipe_of table.bytes.now) (task_of t) × (is_ready (ready_in table.bytes.now (idle s.now) (task_of t)) ≡ false) }
    ensures { readiness_of result ≡ ready_in table.entry.bytes.now (idle s.now) (task_of t) }
{
    let record = from(table.bytes, 8 * usize::from(t.place));
    if is(record, Kind::Guard) {
        return Wait::AtGuard;
    }
    let env = Env {
        variables: &s.variables,
        parameter: t.parameter,
    };
    Wait::Waits(env.variable(record[1]))
}

// The queued task i from the front, of which it is known that it waits: who is done or whether its guard is true is not looked for again.
pub fn waiting_at(table: Accepted, s: &State, i: usize) -> Queued
    requires { Waiting table.bytes.now s.now.queue × (i < s.now.queue.len) × (can_go (recipes (recipe_of table.bytes.now)) (idle s.now) (entry s.now.queue i) ≡ false) }
    ensures { Describes table.entry.bytes.now s.now i result }
{
    let task = s.queue.task(i);
    Queued {
        task,
        wait: held_by(table, s, task),
    }
}

// How many tasks stand before the first that is ready; none, if none is. Who waits is a matter of place and parameter: a task that has
// both of the last one that waits is not tested again.
pub fn first_ready(table: Accepted, s: &State) -> Option<usize>
    requires { Waiting table.bytes.now s.now.queue }
    ensures { result ≡ first_in table.entry.bytes.now (idle s.now) }
{
    let mut known = None; // a number that is not done
    let mut last = None; // where the last task that waits stands, and its parameter
    for i in 0..s.queue.len {
        let task = s.queue.task(i);
        let standing = Some((task.place, task.parameter));
        if standing != last {
            match wait_of(table, s, task, known) {
                Wait::Ready => return Some(i),
                Wait::Waits(v) => known = Some(v),
                Wait::AtGuard => {}
            }
            last = standing;
        }
    }
    None
}

// The place of a task that becomes active: past its await or its guard, if it stood at one. (kept: the table and the links apart. Of the links it asks less than
// `LinkedTable` says.)
pub fn past(table: Accepted, links: &Links, place: u16) -> u16
    requires { (is_place (recipe_of table.bytes.now) place ≡ true) × Leads (recipe_of table.bytes.now) links.now.next }
    ensures { (t : R.Task ℕ) → t.place ≡ place → past_at (at (recipe_of table.entry.bytes.now) place) t ≡ go_to t result }
{
    let i = usize::from(place);
    match kind_at(table.bytes, 8 * i) {
        Some(Kind::Await | Kind::Guard) => links.next[i],
        _ => place,
    }
}
