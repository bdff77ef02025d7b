// The recipe runner: start a recipe and run it.

#![tactic(auto)]

pub mod call;
pub mod drive;

ghost use Rattle.std.specs.Prelude.{◌≡◌};
ghost use Rattle.rules.specs.Run.{start_on, run_on};
ghost use Rattle.rules.specs.Answers.{StartAnswers, StartSays, RunAnswers, RunSays};
ghost use Rattle.table.specs.Refusals.{rule_number, verdict_of};
ghost use Rattle.runner.specs.Calls.{started_by, started_of, outcome_of, called, MeetsDemand, ContinuesAsOne, KeepsHistories};

use crate::call::{carry_out, verdict};
use state::State;
use table::check::check_table;
use table::refusal::{Refusal, Rule};

// 0 and 0 when accepted; else why not, and the faulty record. (kept: numbers, as C reads them.)
#[repr(C)]
#[derive(Clone, Copy)]
pub struct Started {
    pub number: u32,
    pub place: u32,
}

// How a run call ended or why it was refused, the steps made, the log records written, and the faulty record. (kept: numbers, as
// C reads them.)
#[repr(C)]
#[derive(Clone, Copy)]
pub struct Answer {
    pub number: u32,
    pub steps: u32,
    pub records: u32,
    pub place: u32,
}

impl From<Result<(), Refusal>> for Started {
    ghost from_gives = { λ verdict result. result ≡ started_by (verdict_of verdict) };

    fn from(verdict: Result<(), Refusal>) -> Self {
        match verdict {
            Ok(()) => Started {
                number: 0,
                place: 0,
            },
            Err(refusal) => Started {
                number: refusal.rule.into(),
                place: refusal.place,
            },
        }
    }
}

impl From<Refusal> for Answer {
    ghost from_gives = { λ refusal result. result ≡ record { number = rule_number refusal.rule; steps = 0; records = 0; place = refusal.place } };

    fn from(refusal: Refusal) -> Self {
        Answer {
            number: refusal.rule.into(),
            steps: 0,
            records: 0,
            place: refusal.place,
        }
    }
}

// A fresh state is written, if the table is accepted and the block has room for it.
fn set_fresh(table: &[u8], state: &mut [u8]) -> Result<(), Refusal>
    ensures { started_of (started_by (verdict_of result)) state.new ≡ start_on table.now state.old }
{
    check_table(table)?;
    if state.len() != 776 {
        return Err(Rule::BlockLength.at(0));
    }
    block::write(&State::fresh(), state);
    Ok(())
}

// Checks a recipe's table and writes a fresh state.
pub fn start(table: &[u8], state: &mut [u8]) -> Started
    ensures state_after { started_of result state.new ≡ start_on table.now state.old }
    ensures start_answers { StartAnswers state.old (started_of result state.new) }
    ensures start_says { StartSays table.now state.old (started_of result state.new) }
    ensures keeps_histories { KeepsHistories table.now (started_of result state.new) }
{
    set_fresh(table, state).into()
}

// Runs a recipe from its state, so many steps at most, and logs them.
pub fn run(table: &[u8], state: &mut [u8], budget: u32, log: &mut [u8]) -> Answer
    ensures log_after { outcome_of result state.new log.new ≡ run_on table.now state.old budget log.old }
    ensures run_answers { RunAnswers state.old log.old (outcome_of result state.new log.new) }
    ensures run_says { RunSays table.now state.old budget log.old (outcome_of result state.new log.new) }
    ensures meets_demand { MeetsDemand table.now state.old (called budget log.old result state.new log.new) }
    ensures continues_as_one { ContinuesAsOne table.now state.old (called budget log.old result state.new log.new) }
{
    match verdict(table, state) {
        Ok(table) => carry_out(table, state, budget, log),
        Err(refusal) => refusal.into(),
    }
}
