// The step tests, the step count and the log of a run call.

#![tactic(auto)]

ghost use Rattle.std.specs.Prelude.{◌≡◌, List, ℕ, suc, ◌-◌, ◌/◌, ◌≤◌, ◌<◌, length, IfOk};
ghost use Rattle.std.proofs.Math.Option.{some};
ghost use Rattle.rules.specs.Recipe.{Recipe};
ghost use Rattle.rules.specs.State as R;
ghost use Rattle.rules.specs.Scheduler.{goes, next_act, test, number_of};
ghost use Rattle.rules.specs.Steps.{recipes};
ghost use Rattle.moves.specs.Moves.{act_in};
ghost use Rattle.events.specs.Events.{event_of};
ghost use Rattle.count.specs.Along.{ending_of, halted_by, counted, Decides};

use events::{Event, Halt, outcome_of, put_event};
use moves::Move;

// The steps made and the bytes of the log written. (kept: the log goes beside it. Each contract is an equation about what the lent log ends as, and a struct
// that borrows it would put that behind a second borrow.)
#[derive(Clone, Copy)]
pub struct Count {
    pub steps: u32,
    pub written: usize,
}

// What the tests before a step go by, besides the log: the tasks queued, the number issued last, and the budget.
#[derive(Clone, Copy)]
pub struct Bounds {
    pub queued: usize,
    pub issued: u16,
    pub budget: u32,
}

// The names of the stops.
#[derive(Clone, Copy, PartialEq, Eq)]
pub enum Stop {
    Finished,
    Paused,
    Stuck,
    Tasks,
    Spent,
    Logfull,
    NoValue,
}

impl From<Halt> for Stop {
    ghost from_gives = { λ halt result. ending_of result ≡ halted_by halt };

    fn from(halt: Halt) -> Self {
        match halt {
            Halt::Tasks => Stop::Tasks,
            Halt::Spent => Stop::Spent,
            Halt::NoValue => Stop::NoValue,
        }
    }
}

impl From<Stop> for u32 {
    ghost from_gives = { λ stop result. result ≡ number_of (ending_of stop) };

    // The number of a stop's ending.
    fn from(stop: Stop) -> Self {
        match stop {
            Stop::Finished => 0,
            Stop::Paused => 1,
            Stop::Stuck => 2,
            Stop::Tasks => 3,
            Stop::Spent => 4,
            Stop::Logfull => 5,
            Stop::NoValue => 24,
        }
    }
}

// A step within the budget that writes this event: the count after it, or that the log is full.
pub fn note(e: Event, log: &mut [u8], n: Count) -> Result<Count, Stop>
    requires { (n.written ≤ length log.old) × (n.steps < 4294967295) }
    ensures { (x : Recipe) (b : ℕ) (c : R.State) → Decides x (test (recipes x) (suc b) ((length log.old - n.written) / 8) (goes (some (event_of e)) c)) result n log.old log.new }
{
    if log.len() - n.written < 8 {
        return Err(Stop::Logfull);
    }
    put_event(log, n.written, e);
    Ok(Count {
        steps: n.steps + 1,
        written: n.written + 8,
    })
}

// The tests before a step of the active task, in their order: the move and the count after the step, or the stop.
pub fn decide(
    m: Option<Move>,
    number: u16,
    bounds: Bounds,
    log: &mut [u8],
    n: Count,
) -> Result<(Move, Count), Stop>
    requires { (n.written ≤ length log.old) × (n.steps ≤ bounds.budget) }
    ensures decides { (x : Recipe) (s : R.Store) (q : List (R.Task ℕ)) (t : R.Task ℕ) → s.issued ≡ bounds.issued → length q ≡ bounds.queued → t.number ≡ number → Decides x (test (recipes x) (bounds.budget - n.steps) ((length log.old - n.written) / 8) (next_act (recipes x) q (act_in m s q t))) (counted result) n log.old log.new }
    ensures made { IfOk result (λ r. m ≡ Some r.0) }
{
    if n.steps == bounds.budget {
        return Err(Stop::Paused);
    }
    // `outcome_of` asks this too. Asked here as well, the move is at hand where it is given back.
    let m = m.ok_or(Stop::NoValue)?;
    let after = match outcome_of(Some(m), number, bounds.queued, bounds.issued)? {
        Some(e) => note(e, log, n)?,
        None => Count {
            steps: n.steps + 1,
            written: n.written,
        },
    };
    Ok((m, after))
}
