// The block that holds a state: checked, read and written. (kept: a byte offset that adds 8 for each record, with no product in it, as a
// customer asked of the walks over the tasks. So four functions, `is_new`, `check_records`, `tasks_in` and `put_queue`, keep an offset, and
// `OffsetOf` ties it to the record's index, in their clauses or invariants. A task has two records: a walk over tasks adds 8 for each.)

#![tactic(auto)]

ghost use Rattle.std.specs.Prelude.{◌≡◌, true, ℕ, cond, ◌++◌, ◌+◌, ◌-◌, ◌*◌, ◌/◌, ◌≤◌, ◌<◌, eqb, leb, length, take, replicate, get_or};
ghost use Rattle.std.proofs.lemmas.List.Edits.{sets};
ghost use Rattle.rules.specs.Table.{fine, fault, recipe_of};
ghost use Rattle.rules.specs.Places.{is_place};
ghost use Rattle.rules.specs.State.{issued_in, live_in, head_fits, number_in, unlike, task_fits, spawner_fits, history_fits, record_fits, check_records, check_block, task_in, variables_in, read_block, task_row, write_block};
ghost use Rattle.table.specs.Refusals.{verdict_of};
ghost use Rattle.state.specs.View.{task_of, no_task, view};
ghost use Rattle.block.specs.Block.{OffsetOf, task_from, head_of, ring_rows, unused_rows, value_rows};

use fields::{half_at, put_half, put_value, put_word, value_at, word_at};
use state::{History, Queue, State, Task};
use std::array;
use table::check::{Accepted, Sort};
use table::record::kind_at;
use table::refusal::{Refusal, Rule};

// ---- the check

// How many tasks may be active, of so many live ones.
fn most_active(live: u8) -> u8
    ensures { result ≡ cond (eqb live 0) 0 1 }
{
    u8::from(live != 0)
}

// Record 0.
#[tactic(auto, unfolding(rules::specs::State::head_fits))]
fn head_fits(block: &[u8; 776]) -> bool
    ensures { result ≡ head_fits block.now }
{
    half_at(block, 0) >= 1
        && block[2] <= 32
        && block[3] <= most_active(block[2])
        && word_at(block, 4) == 0
}

// Whether none of the tasks before record i, which is the first of a task, has its number; `at` is the offset of record i.
fn is_new(block: &[u8; 776], i: usize, at: usize) -> bool
    requires within { (1 ≤ i) × (i ≤ 64) }
    requires offset { OffsetOf i at }
    ensures { result ≡ unlike block.now (number_in block.now i) (i / 2) }
{
    let number = half_at(block, at);
    let mut earlier: usize = 8;
    let mut new = true;
    for _ in 0..i / 2 {
        if half_at(block, earlier) == number {
            new = false;
        }
        earlier += 8 + 8;
    }
    new
}

// Whether a number is a place of an accepted table.
fn is_place(table: Accepted, place: u16) -> bool
    ensures { result ≡ is_place (recipe_of table.entry.bytes.now) place }
{
    if place == 0 {
        return false;
    }
    let start = 8 * usize::from(place);
    match kind_at(table.bytes, start) {
        Some(kind) => kind.sort() != Sort::Expression,
        None => start == table.bytes.len(),
    }
}

// Record i, the first of a task, at its offset.
#[tactic(auto, unfolding(rules::specs::State::task_fits))]
fn task_fits(table: Accepted, block: &[u8; 776], i: usize, at: usize) -> bool
    requires within { (1 ≤ i) × (i ≤ 64) }
    requires offset { OffsetOf i at }
    ensures { result ≡ task_fits (is_place (recipe_of table.entry.bytes.now)) block.now i }
{
    let number = half_at(block, at);
    1 <= number
        && number <= half_at(block, 0)
        && is_new(block, i, at)
        && is_place(table, half_at(block, at + 2))
}

// Whether the task with this number may have this spawner.
#[tactic(auto, unfolding(rules::specs::State::spawner_fits))]
fn spawner_fits(number: u16, spawner: u16) -> bool
    ensures { result ≡ spawner_fits number spawner }
{
    if number == 1 {
        return spawner == 0;
    }
    1 <= spawner && spawner < number
}

// Record i, the second of a task, at its offset.
#[tactic(auto, unfolding(rules::specs::State::history_fits))]
fn history_fits(block: &[u8; 776], i: usize, at: usize) -> bool
    requires within { (2 ≤ i) × (i ≤ 64) }
    requires offset { OffsetOf i at }
    ensures { result ≡ history_fits block.now i }
{
    spawner_fits(half_at(block, at - 8), half_at(block, at)) && half_at(block, at + 2) == 0
}

// Record i, at its offset.
fn record_fits(table: Accepted, block: &[u8; 776], i: usize, at: usize) -> bool
    requires within { i ≤ 64 }
    requires offset { OffsetOf i at }
    ensures { result ≡ record_fits (is_place (recipe_of table.entry.bytes.now)) block.now i }
{
    if i == 0 {
        return head_fits(block);
    }
    if i <= 2 * usize::from(block[2]) {
        if i % 2 == 1 {
            return task_fits(table, block, i, at);
        }
        return history_fits(block, i, at);
    }
    word_at(block, at) == 0 && word_at(block, at + 4) == 0
}

// The first faulty record.
fn check_records(table: Accepted, block: &[u8; 776]) -> Result<(), Refusal>
    ensures { verdict_of result ≡ check_records (is_place (recipe_of table.entry.bytes.now)) block.now 65 0 }
{
    let mut at: usize = 0;
    for i in 0..65 {
        if !record_fits(table, block, i, at) {
            return Err(Rule::StateRecord.at(i));
        }
        at += 8;
    }
    Ok(())
}

// As many live tasks as numbers issued, or fewer.
fn check_numbers(block: &[u8; 776]) -> Result<(), Refusal>
    ensures { verdict_of result ≡ cond (leb (live_in block.now) (issued_in block.now)) fine (fault 23 0) }
{
    if u16::from(block[2]) <= half_at(block, 0) {
        return Ok(());
    }
    Err(Rule::LiveTasks.at(0))
}

// A block of any content and length, against an accepted table.
pub fn check(table: Accepted, block: &[u8]) -> Result<(), Refusal>
    ensures { verdict_of result ≡ check_block (is_place (recipe_of table.entry.bytes.now)) block.now }
{
    let Some(block) = block.as_array::<776>() else {
        return Err(Rule::BlockLength.at(0));
    };
    check_records(table, block)?;
    check_numbers(block)
}

// ---- reading (kept: the length in a clause of `read`, and of `write` below. C lends a slice of any length, which the caller has looked at.)

// The task in the two records from `at`.
fn task_at(block: &[u8; 776], at: usize) -> Task
    requires { at + 16 ≤ 776 }
    ensures { task_of result ≡ task_from block.now at }
{
    Task {
        number: half_at(block, at),
        place: half_at(block, at + 2),
        parameter: value_at(block, at + 4),
        history: History {
            spawner: half_at(block, at + 8),
            taken_up: word_at(block, at + 12),
        },
    }
}

// The first n tasks, from record 1 on, as the front of an array.
fn tasks_in(block: &[u8; 776], n: usize) -> [Task; 32]
    requires { n ≤ 32 }
    ensures { (i : ℕ) → i < n → task_of (get_or result i no_task) ≡ task_in block.now (2 * i + 1) }
{
    let none = Task {
        number: 0,
        place: 0,
        parameter: 0,
        history: History::spawned_by(0),
    };
    let mut tasks = [none; 32];
    let mut from: usize = 8;
    for task in &mut tasks[..n] {
        *task = task_at(block, from);
        from += 8 + 8;
    }
    tasks
}

// Records 65 to 96.
fn variables_in(block: &[u8; 776]) -> [i32; 64]
    ensures { result ≡ variables_in block.now }
{
    array::from_fn(|j| value_at(block, 520 + 4 * j))
}

// What an accepted block says. An active task stands first in the array, and the ring's front behind it.
pub fn read(block: &[u8]) -> State
    requires { (length block.now ≡ 776) × (head_fits block.now ≡ true) }
    ensures { view result ≡ read_block block.now }
{
    let Some(block) = block.as_array::<776>() else {
        unreachable!();
    };
    let live = usize::from(block[2]);
    let taken = usize::from(block[3]);
    let tasks = tasks_in(block, live);
    let active = if taken == 1 { Some(tasks[0]) } else { None };
    State {
        issued: half_at(block, 0),
        active,
        queue: Queue {
            tasks,
            front: taken,
            len: live - taken,
        },
        variables: variables_in(block),
    }
}

// ---- writing

// The two records of a task.
fn put_task(b: &mut [u8; 776], at: usize, task: Task)
    requires { at + 16 ≤ 776 }
    ensures { b.new ≡ sets b.old at (task_row (task_of task)) }
{
    put_half(b, at, task.number);
    put_half(b, at + 2, task.place);
    put_value(b, at + 4, task.parameter);
    put_half(b, at + 8, task.history.spawner);
    put_half(b, at + 10, 0);
    put_word(b, at + 12, task.history.taken_up);
}

// Record 0.
fn put_head(b: &mut [u8; 776], issued: u16, live: u8, taken: u8)
    ensures { take 8 b.new ≡ head_of issued live taken }
{
    put_half(b, 0, issued);
    b[2] = live;
    b[3] = taken;
    put_word(b, 4, 0);
}

// The records of the queue, from record `first` at the offset `start` on. Returns the offset of the record behind them.
fn put_queue(b: &mut [u8; 776], queue: &Queue, first: usize, start: usize) -> usize
    requires room { first + 2 * queue.now.len ≤ 65 }
    requires offset { OffsetOf first start }
    ensures bytes { take result b.new ≡ take start b.old ++ ring_rows queue.now queue.now.len }
    ensures offset { OffsetOf (first + 2 * queue.now.len) result }
{
    let mut to = start;
    for i in 0..queue.len {
        put_task(b, to, queue.task(i));
        to += 8 + 8;
    }
    to
}

// The records from the offset `start` to record 64: no task.
fn put_unused(b: &mut [u8; 776], start: usize)
    requires { start ≤ 520 }
    ensures { take 520 b.new ≡ take start b.old ++ replicate (520 - start) 0 }
{
    b[start..520].fill(0);
}

// Records 65 to 96.
fn put_variables(b: &mut [u8; 776], variables: &[i32; 64])
    ensures { b.new ≡ take 520 b.old ++ value_rows variables.now }
{
    for (j, v) in variables.iter().enumerate() {
        put_value(b, 520 + 4 * j, *v);
    }
}

// The block of a state. Inlined, so that of a fresh state it writes what the compiler knows.
#[inline(always)]
pub fn write(s: &State, block: &mut [u8])
    requires { length block.old ≡ 776 }
    ensures { block.new ≡ write_block (view s.now) }
{
    let Some(block) = block.as_mut_array::<776>() else {
        unreachable!();
    };
    let taken = u8::from(s.active.is_some());
    let live = s.queue.len + usize::from(taken);
    put_head(block, s.issued, live as u8, taken);
    let mut next = 8;
    if let Some(task) = s.active {
        put_task(block, 8, task);
        next = 24;
    }
    let first = 1 + 2 * usize::from(taken);
    let end = put_queue(block, &s.queue, first, next);
    put_unused(block, end);
    put_variables(block, &s.variables);
}
