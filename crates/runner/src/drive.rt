// The steps of a run call, until it stops.
ghost use Rattle.std.specs.Prelude.{◌≡◌, ◌<◌, true};
ghost use Rattle.rules.specs.Table.{recipe_of};
ghost use Rattle.rules.specs.Places.{at, is_place};
ghost use Rattle.rules.specs.Steps.{go_to, past_at};
ghost use Rattle.state.specs.View.{task_of, entry, view, put_back, spawn};
ghost use Rattle.rules.proofs.Fit.{Fit};
ghost use Rattle.runner.specs.Drive.{Drives};

use active::proceed;
use count::{Bounds, Count, Stop};
use idle::try_all;
use links::LinkedTable;
use moves::Move;
use ready::past;
use state::{State, Task};

// Why a call stopped, its count, and the state that it leaves.
#[derive(Clone, Copy)]
pub struct Ran {
    pub stop: Stop,
    pub count: Count,
    pub state: State,
}

impl Ran {
    // A call that stops so.
    fn stopped(stop: Stop, count: Count, state: State) -> Ran
        ensures { result ≡ record { stop = stop; count = count; state = state } }
    {
        Ran { stop, count, state }
    }
}

// The front of the queue as it becomes active: past its await or its guard, if it stands at one.
fn onward(linked: LinkedTable, s: &State) -> Task
    requires { is_place (recipe_of linked.table.bytes.now) (entry s.now.queue 0).place ≡ true }
    ensures past_await { task_of result ≡ past_at (at (recipe_of linked.entry.table.bytes.now) (entry s.now.queue 0).place) (entry s.now.queue 0) }
    ensures moved { task_of result ≡ go_to (entry s.now.queue 0) result.place }
{
    let task = s.queue.task(0);
    task.at(past(linked.table, linked.links, task.place))
}

// The state gives way to what a method makes of it. In a function as small as this the compiler copies the queue twice, in the loop below three times.
fn put_back(s: &mut State)
    ensures { view s.new ≡ put_back (view s.old).active (view s.old) }
{
    *s = s.put_back();
}

fn spawn(s: &mut State, place: u16, argument: i32)
    requires live { s.old.queue.len < 31 }
    requires issued { s.old.issued < 65535 }
    ensures { view s.new ≡ spawn place argument (view s.old) }
{
    *s = s.spawn(place, argument);
}

// All steps of a call. (kept: that the state fits the table is a clause, as in `why`. The check of a block says it, and then each step.) Where no
// task is stored in the queue, an arm assigns the new state to the variable that held the old one: joined in one function, the arms would copy
// all of it.
pub fn drive(linked: LinkedTable, first: State, budget: u32, log: &mut [u8]) -> Ran
    requires { Fit (recipe_of linked.table.bytes.now) (view first) }
    ensures { Drives linked.entry.table.bytes.now first budget log.old log.new result }
{
    let mut s = first;
    let mut n = Count {
        steps: 0,
        written: 0,
    };
    loop {
        if let Some(task) = s.active {
            let bounds = Bounds {
                queued: s.queue.len,
                issued: s.issued,
                budget,
            };
            let p = proceed(linked, log, task, &mut s.variables, bounds, n);
            s.active = Some(p.task);
            n = p.count;
            match p.left {
                Err(stop) => return Ran::stopped(stop, n, s),
                Ok(Move::Spawns(_, start, v, _)) => spawn(&mut s, start, v),
                Ok(Move::Ends) => s = s.end(),
                // It gave way or waits: a move that leaves the queue alone does not come here.
                Ok(_) => put_back(&mut s),
            }
        } else {
            let w = try_all(linked.table, &s, budget, log, n);
            n = w.count;
            if w.turns != 0 {
                s = s.turn(w.turns);
            }
            if let Some(stop) = w.stop {
                return Ran::stopped(stop, n, s);
            }
            let task = onward(linked, &s);
            s = s.take_up(task);
        }
    }
}
