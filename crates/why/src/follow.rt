// The chain of a stuck state: what each task waits for is followed, from the front of the queue to the end.
ghost use Rattle.std.specs.Prelude.{◌≡◌, false, [], suc, ◌≤◌, length};
ghost use Rattle.std.proofs.Math.Option.{some};
ghost use Rattle.rules.specs.Table.{recipe_of};
ghost use Rattle.rules.specs.Scheduler.{is_ready};
ghost use Rattle.rules.specs.Steps.{recipes};
ghost use Rattle.rules.specs.Why.{follow};
ghost use Rattle.state.specs.View.{entry, queue_of};
ghost use Rattle.ready.specs.Ready.{readiness_of, idle};
ghost use Rattle.why.specs.Follow.{end_of, chain_in, index_in, Holds, Following};

use arrayvec::ArrayVec;
use ready::{Wait, natural, waiting_at};
use state::State;
use table::check::Accepted;

// How a chain ends: in a task named earlier, in one that waits for a number never issued, or in one at an untrue guard.
#[derive(Clone, Copy)]
pub enum End {
    NamedEarlier,
    NeverIssued,
    UntrueGuard,
}

// The first `count` numbers are the chain's.
#[derive(Clone, Copy)]
pub struct Chain {
    pub numbers: [u16; 33],
    pub count: usize,
    pub end: End,
}

impl Chain {
    // The chain of these numbers, in an array: an ArrayVec is not Copy, and a chain is.
    fn of(numbers: &[u16], end: End) -> Chain
        requires { length numbers.now ≤ 33 }
        ensures is { chain_in result ≡ record { numbers = numbers.now; end = end_of end } }
        ensures fits { (result.count ≤ 33) × (length result.numbers ≡ 33) }
    {
        let mut all = [0; 33];
        all[..numbers.len()].copy_from_slice(numbers);
        Chain {
            numbers: all,
            count: numbers.len(),
            end,
        }
    }
}

// The queued task whose number a value is, by its index from the front.
fn index_of(s: &State, v: i32) -> Option<usize>
    ensures { result ≡ index_in v (queue_of s.now.queue) }
{
    s.queue.position(natural(v)?)
}

// What holds a task that waits so: a queued task, by its index; or the end of the chain.
fn held_by(s: &State, wait: Wait) -> Result<usize, End>
    requires { is_ready (readiness_of wait) ≡ false }
    ensures { Holds s.now.queue (readiness_of wait) result }
{
    match wait {
        Wait::Waits(v) => index_of(s, v).ok_or(End::NeverIssued),
        Wait::Ready | Wait::AtGuard => Err(End::UntrueGuard), // it is not ready
    }
}

// The chain of a stuck state, from the task at the front on. Each task is named once at most, and one of them again: so the loop ends, and the
// numbers fit.
pub fn follow(table: Accepted, s: &State) -> Chain
    requires { Following table.bytes.now s.now }
    ensures follows { follow (recipes (recipe_of table.entry.bytes.now)) (suc s.now.queue.len) (idle s.now) [] (entry s.now.queue 0) ≡ some (chain_in result) }
    ensures fits { (result.count ≤ 33) × (length result.numbers ≡ 33) }
{
    let mut numbers = ArrayVec::<u16, 33>::new();
    let mut at: usize = 0; // the front
    loop {
        let x = waiting_at(table, s, at);
        let earlier = numbers.contains(&x.task.number);
        numbers.push(x.task.number);
        if earlier {
            return Chain::of(&numbers, End::NamedEarlier);
        }
        match held_by(s, x.wait) {
            Ok(next) => at = next,
            Err(end) => return Chain::of(&numbers, end),
        }
    }
}
