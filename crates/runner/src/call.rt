// A run call: what it refuses, and what it does with a table and a state block that are accepted.
ghost use Rattle.std.specs.Prelude.{◌≡◌, IfOk};
ghost use Rattle.rules.specs.Table.{fine, ◌else◌, check, recipe_of};
ghost use Rattle.rules.specs.Places.{is_place};
ghost use Rattle.rules.specs.State.{check_block, read_block};
ghost use Rattle.rules.specs.Scheduler.{run};
ghost use Rattle.rules.specs.Steps.{recipes};
ghost use Rattle.rules.specs.Run.{room_of, outcome};
ghost use Rattle.table.specs.Refusals.{verdict_of};
ghost use Rattle.runner.specs.Calls.{outcome_of};

use crate::Answer;
use crate::drive::drive;
use count::Stop;
use links::Links;
use table::check::{Accepted, check_table};
use table::refusal::Refusal;

// The table first, then the block.
pub fn verdict<'a>(table: &'a [u8], state: &[u8]) -> Result<Accepted<'a>, Refusal>
    ensures verdict { verdict_of result ≡ (check table.now else check_block (is_place (recipe_of table.now)) state.now) }
    ensures accepted { IfOk result (λ a. a.bytes.now ≡ table.now) }
{
    let table = check_table(table)?;
    block::check(table, state)?;
    Ok(table)
}

// The steps of a call that is not refused.
pub fn carry_out(table: Accepted, state: &mut [u8], budget: u32, log: &mut [u8]) -> Answer
    requires { check_block (is_place (recipe_of table.bytes.now)) state.old ≡ fine }
    ensures { outcome_of result state.new log.new ≡ outcome (recipe_of table.entry.bytes.now) (run (recipes (recipe_of table.entry.bytes.now)) budget (room_of log.old) (read_block state.old)) log.old }
{
    let mut links = Links::none();
    let ran = drive(links.link(table), block::read(state), budget, log);
    block::write(&ran.state, state);
    let place = match (ran.stop, ran.state.active) {
        (Stop::NoValue, Some(task)) => u32::from(task.place),
        _ => 0,
    };
    Answer {
        number: u32::from(ran.stop),
        steps: ran.count.steps,
        records: (ran.count.written / 8) as u32,
        place,
    }
}
