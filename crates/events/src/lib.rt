// What a step tells.

#![tactic(auto)]

ghost use Rattle.std.specs.Prelude.{◌≡◌, ◌+◌, ◌≤◌, length};
ghost use Rattle.std.proofs.lemmas.List.Edits.{sets};
ghost use Rattle.rules.specs.Log.{event_row};
ghost use Rattle.events.specs.Events.{event_of, Tells, row_of};

use fields::{put_half, put_word};
use moves::Move;
use values::unsigned;

// The number of the task acting; then of a spawn the new number, of a wait or a turn the number awaited, of a valve its name
// and the value set.
#[derive(Clone, Copy)]
pub enum Event {
    Spawned(u16, u16),
    Taken(u16),
    Gave(u16),
    Waits(u16, i32),
    Turned(u16, i32),
    Ended(u16),
    Valve(u16, u8, i32),
}

// The small facts of a step: it went on, with its log event if it has one, or the stop's name.
pub type Outcome = Result<Option<Event>, Halt>;

// What stops an active task's move: a limit, or that a value is missing and there is no move.
#[derive(Clone, Copy)]
pub enum Halt {
    Tasks,
    Spent,
    NoValue,
}

// What a move of the task of this number comes to, with so many tasks queued and this number
// issued; without one a value is missing. (kept: 8, the first name behind the valves', as the table
// has it.)
pub fn outcome_of(m: Option<Move>, number: u16, queued: usize, issued: u16) -> Outcome
    ensures { Tells number queued issued m result }
{
    let Some(m) = m else {
        return Err(Halt::NoValue);
    };
    let event = match m {
        Move::Goes(_) => return Ok(None),
        Move::Sets(name, v, _) => {
            if name >= 8 {
                return Ok(None);
            }
            Event::Valve(number, name, v)
        }
        Move::Spawns(_, _, _, _) => {
            if 31 <= queued {
                return Err(Halt::Tasks);
            }
            if issued == 65535 {
                return Err(Halt::Spent);
            }
            Event::Spawned(number, issued + 1)
        }
        Move::Gives(_) => Event::Gave(number),
        Move::Waits(z) => Event::Waits(number, z),
        Move::Ends => Event::Ended(number),
    };
    Ok(Some(event))
}

// A log record by its fields.
fn put_row(log: &mut [u8], at: usize, kind: u8, valve: u8, task: u16, word: u32)
    requires { at + 8 ≤ length log.old }
    ensures { log.new ≡ sets log.old at (row_of kind valve task word) }
{
    log[at] = kind;
    log[at + 1] = valve;
    put_half(log, at + 2, task);
    put_word(log, at + 4, word);
}

// The log record of an event, from the byte `at` on. (kept: the numbers of the kinds, which stand in the log and here alone.)
pub fn put_event(log: &mut [u8], at: usize, e: Event)
    requires { at + 8 ≤ length log.old }
    ensures { log.new ≡ sets log.old at (event_row (event_of e)) }
{
    match e {
        Event::Spawned(t, n) => put_row(log, at, 1, 0, t, u32::from(n)),
        Event::Taken(t) => put_row(log, at, 2, 0, t, 0),
        Event::Gave(t) => put_row(log, at, 3, 0, t, 0),
        Event::Waits(t, z) => put_row(log, at, 4, 0, t, unsigned(z)),
        Event::Turned(t, z) => put_row(log, at, 5, 0, t, unsigned(z)),
        Event::Ended(t) => put_row(log, at, 6, 0, t, 0),
        Event::Valve(t, v, z) => put_row(log, at, 7, v, t, unsigned(z)),
    }
}
