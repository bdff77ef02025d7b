// The C interface: all that hosts call, in one archive. A slice is a pointer and a length.

#![tactic(auto)]

ghost use Rattle.std.specs.Prelude.{◌≡◌};
ghost use Rattle.rules.specs.Run.{start_on, run_on};
ghost use Rattle.rules.specs.Answers.{StartAnswers, StartSays, RunAnswers, RunSays};
ghost use Rattle.rules.specs.Why.{why_on, WhySays};
ghost use Rattle.rules.specs.Batch.{checked, check_all_on, BatchSays};
ghost use Rattle.runner.specs.Calls.{started_of, outcome_of, called, MeetsDemand, ContinuesAsOne, KeepsHistories};
ghost use Rattle.why.specs.Explained.{explained_of, AfterStuck};

use batch::check_all;
use runner::{Answer, Started, run, start};
use why::{Explained, why_stuck};

#[unsafe(no_mangle)]
pub extern "C" fn recipe_start(table: &[u8], state: &mut [u8]) -> Started
    ensures state_after { started_of result state.new ≡ start_on table.now state.old }
    ensures start_answers { StartAnswers state.old (started_of result state.new) }
    ensures start_says { StartSays table.now state.old (started_of result state.new) }
    ensures keeps_histories { KeepsHistories table.now (started_of result state.new) }
{
    start(table, state)
}

#[unsafe(no_mangle)]
pub extern "C" fn recipe_run(table: &[u8], state: &mut [u8], budget: u32, log: &mut [u8]) -> Answer
    ensures log_after { outcome_of result state.new log.new ≡ run_on table.now state.old budget log.old }
    ensures run_answers { RunAnswers state.old log.old (outcome_of result state.new log.new) }
    ensures run_says { RunSays table.now state.old budget log.old (outcome_of result state.new log.new) }
    ensures meets_demand { MeetsDemand table.now state.old (called budget log.old result state.new log.new) }
    ensures continues_as_one { ContinuesAsOne table.now state.old (called budget log.old result state.new log.new) }
{
    run(table, state, budget, log)
}

#[unsafe(no_mangle)]
pub extern "C" fn recipe_why_stuck(table: &[u8], state: &[u8], chain: &mut [u8]) -> Explained
    ensures chain_after { explained_of result chain.new ≡ why_on table.now state.now chain.old }
    ensures why_says { WhySays table.now state.now chain.old (explained_of result chain.new) }
    ensures after_stuck { AfterStuck table.now state.now chain.old result }
{
    why_stuck(table, state, chain)
}

// 0 where the batch is checked. (kept: a number, as C reads it.)
#[unsafe(no_mangle)]
pub extern "C" fn recipe_check_all(recipes: &[u8], lengths: &[u8], outcomes: &mut [u8]) -> u32
    ensures outcomes_after { checked result outcomes.new ≡ check_all_on recipes.now lengths.now outcomes.old }
    ensures batch_says { BatchSays recipes.now lengths.now outcomes.old (checked result outcomes.new) }
{
    check_all(recipes, lengths, outcomes)
        .err()
        .map_or(0, u32::from)
}
