// Why a state is stuck: the chain of its tasks that wait, from the front of the queue, each for the next.

#![tactic(auto)]

pub mod follow;

ghost use Rattle.std.specs.Prelude.{ℕ, List, ◌≡◌, true, ◌↔◌, ◌++◌, ◌*◌, ◌≤◌, length, drop};
ghost use Rattle.rules.specs.Table.{recipe_of};
ghost use Rattle.rules.specs.Steps.{recipes};
ghost use Rattle.rules.specs.Run.{opens};
ghost use Rattle.rules.specs.Fairness.{Stuck};
ghost use Rattle.rules.specs.Why.{end_number, halves, unexplained, why_with, why_on, WhySays};
ghost use Rattle.rules.proofs.Fit.{Fit};
ghost use Rattle.state.specs.View.{view};
ghost use Rattle.table.specs.Refusals.{rule_number};
ghost use Rattle.why.specs.Follow.{end_of};
ghost use Rattle.why.specs.Explained.{explained_of, AfterStuck};

use crate::follow::{End, follow};
use count::Stop;
use fields::put_half;
use links::Links;
use runner::call::verdict;
use runner::drive::drive;
use state::State;
use table::check::Accepted;
use table::refusal::{Refusal, Rule};

// 0, the task numbers written, how the chain ends (1 to 3) and 0; or why there is none, 0, 0 and the faulty record. (kept: numbers, as
// C reads them.)
#[repr(C)]
#[derive(Clone, Copy)]
pub struct Explained {
    pub number: u32,
    pub count: u32,
    pub end: u32,
    pub place: u32,
}

impl From<Refusal> for Explained {
    ghost from_gives = { λ refusal result. (l : List ℕ) → explained_of result l ≡ unexplained (rule_number refusal.rule) refusal.place l };

    fn from(refusal: Refusal) -> Self {
        Explained {
            number: refusal.rule.into(),
            count: 0,
            end: 0,
            place: refusal.place,
        }
    }
}

impl From<End> for u32 {
    ghost from_gives = { λ end result. result ≡ end_number (end_of end) };

    // The number of a chain's end.
    #[tactic(auto, unfolding(rules::specs::Why::end_number))]
    fn from(end: End) -> Self {
        match end {
            End::NamedEarlier => 1,
            End::NeverIssued => 2,
            End::UntrueGuard => 3,
        }
    }
}

// Whether the state is stuck: whether a call of run without a budget says so.
fn is_stuck(table: Accepted, s: State) -> bool
    requires { Fit (recipe_of table.bytes.now) (view s) }
    ensures { (result ≡ true) ↔ Stuck (recipes (recipe_of table.entry.bytes.now)) (view s) }
{
    let mut links = Links::none();
    let mut log = [0u8; 8];
    drive(links.link(table), s, 0, &mut log).stop == Stop::Stuck
}

// Writes numbers, two bytes each.
fn put_numbers(out: &mut [u8], numbers: &[u16])
    requires { 2 * length numbers.now ≤ length out.old }
    ensures { out.new ≡ halves numbers.now ++ drop (2 * length numbers.now) out.old }
{
    for (i, number) in numbers.iter().enumerate() {
        put_half(out, 2 * i, *number);
    }
}

// The chain of a state, if it is stuck and the output has its length.
fn explain(table: Accepted, s: State, chain: &mut [u8]) -> Explained
    requires { Fit (recipe_of table.bytes.now) (view s) }
    ensures { explained_of result chain.new ≡ why_with (opens (recipe_of table.entry.bytes.now) (view s)) chain.old }
{
    if chain.len() != 66 || !is_stuck(table, s) {
        return Rule::NoChain.at(0).into();
    }
    let x = follow(table, &s);
    put_numbers(chain, &x.numbers[..x.count]);
    Explained {
        number: 0,
        count: x.count as u32,
        end: u32::from(x.end),
        place: 0,
    }
}

// Writes the chain of a stuck state.
pub fn why_stuck(table: &[u8], state: &[u8], chain: &mut [u8]) -> Explained
    ensures chain_after { explained_of result chain.new ≡ why_on table.now state.now chain.old }
    ensures why_says { WhySays table.now state.now chain.old (explained_of result chain.new) }
    ensures after_stuck { AfterStuck table.now state.now chain.old result }
{
    match verdict(table, state) {
        Ok(table) => explain(table, block::read(state), chain),
        Err(refusal) => refusal.into(),
    }
}
