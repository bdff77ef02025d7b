// The tries with no task active: the first ready task is looked for once, those before it are turned, and it is taken up.

#![tactic(auto)]

ghost use Rattle.std.specs.Prelude.{◌≡◌, List, ℕ, ◌+◌, ◌-◌, ◌*◌, ◌/◌, ◌≤◌, ◌<◌, length};
ghost use Rattle.std.proofs.Math.Option.{some};
ghost use Rattle.rules.specs.Recipe.{Recipe};
ghost use Rattle.rules.specs.Table.{recipe_of};
ghost use Rattle.rules.specs.State as R;
ghost use Rattle.rules.specs.Log.{taken};
ghost use Rattle.rules.specs.Scheduler.{Run, goes, test};
ghost use Rattle.rules.specs.Steps.{recipes};
ghost use Rattle.state.specs.View.{turn};
ghost use Rattle.ready.specs.Ready.{idle};
ghost use Rattle.count.specs.Along.{Along, Decides};
ghost use Rattle.idle.specs.Idle.{carried_by, Turning, Idling, Tries};

use count::{Count, Stop, note};
use events::{Event, put_event};
use ready::{Wait, first_ready, waiting_at};
use state::State;
use table::check::Accepted;

// How many tasks were turned, the count, and why no task was then taken up, if none was.
#[derive(Clone, Copy)]
pub struct Tried {
    pub turns: usize,
    pub count: Count,
    pub stop: Option<Stop>,
}

impl Tried {
    // A call that stops before any try.
    fn stopped(stop: Stop, count: Count) -> Tried
        ensures { result ≡ record { turns = 0; count = count; stop = Some stop } }
    {
        Tried {
            turns: 0,
            count,
            stop: Some(stop),
        }
    }
}

// What the log record of a task's turn carries: the number that it waits for, and 0 where there is none.
fn carried(wait: Wait) -> i32
    ensures { result ≡ carried_by wait }
{
    match wait {
        Wait::Waits(z) => z,
        Wait::Ready | Wait::AtGuard => 0,
    }
}

// The first k queued tasks, none of them ready, are turned to the back: their log records and the count.
fn turn_first(table: Accepted, s: &State, k: usize, log: &mut [u8], before: Count) -> Count
    requires { Turning table.bytes.now s.now k log.old before }
    ensures along { (u : Run (recipes (recipe_of table.entry.bytes.now))) (budget : ℕ) (given : List ℕ) → before.steps + k ≤ budget → Along (recipe_of table.entry.bytes.now) u budget given before log.old (idle s.now) → Along (recipe_of table.entry.bytes.now) u budget given result log.new (turn k (idle s.now)) }
    ensures counts { (result.steps ≡ before.steps + k) × (result.written ≡ before.written + 8 * k) }
{
    for i in 0..k {
        let x = waiting_at(table, s, i);
        put_event(
            log,
            before.written + 8 * i,
            Event::Turned(x.task.number, carried(x.wait)),
        );
    }
    Count {
        steps: before.steps + (k as u32),
        written: before.written + 8 * k,
    }
}

// A task that is ready is taken up, if budget and log have room for it.
fn take(number: u16, budget: u32, log: &mut [u8], n: Count) -> Result<Count, Stop>
    requires { (n.steps ≤ budget) × (n.written ≤ length log.old) }
    ensures { (x : Recipe) (c : R.State) → Decides x (test (recipes x) (budget - n.steps) ((length log.old - n.written) / 8) (goes (some (taken number)) c)) result n log.old log.new }
{
    if n.steps == budget {
        return Err(Stop::Paused);
    }
    note(Event::Taken(number), log, n)
}

// Tries until a task is taken up, or the call stops.
pub fn try_all(table: Accepted, s: &State, budget: u32, log: &mut [u8], before: Count) -> Tried
    requires { Idling table.bytes.now s.now budget log.old before }
    ensures within { result.turns ≤ s.now.queue.len }
    ensures taken_up { result.stop ≡ None → (result.turns < s.now.queue.len) × (before.steps < result.count.steps) }
    ensures tries { (u : Run (recipes (recipe_of table.entry.bytes.now))) (given : List ℕ) → Along (recipe_of table.entry.bytes.now) u budget given before log.old (idle s.now) → Tries (recipe_of table.entry.bytes.now) u budget given result.count log.new (turn result.turns (idle s.now)) result.stop }
{
    if s.queue.len == 0 {
        return Tried::stopped(Stop::Finished, before);
    }
    let Some(ahead) = first_ready(table, s) else {
        return Tried::stopped(Stop::Stuck, before);
    };
    let left = (budget - before.steps) as usize;
    let room = (log.len() - before.written) / 8;
    let k = ahead.min(left).min(room);
    let n = turn_first(table, s, k, log, before);
    match take(s.queue.task(k).number, budget, log, n) {
        Ok(count) => Tried {
            turns: k,
            count,
            stop: None,
        },
        Err(stop) => Tried {
            turns: k,
            count: n,
            stop: Some(stop),
        },
    }
}
