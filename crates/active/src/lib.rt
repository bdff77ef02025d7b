// The steps of the active task, until it leaves or the call stops.

#![tactic(auto)]

ghost use Rattle.std.specs.Prelude.{◌≡◌, true, List, ℕ, ◌≤◌, ◌<◌, length, Err, IfOk};
ghost use Rattle.rules.specs.Recipe.{write};
ghost use Rattle.rules.specs.Table.{recipe_of};
ghost use Rattle.rules.specs.State as R;
ghost use Rattle.rules.specs.Scheduler.{Run};
ghost use Rattle.rules.specs.Steps.{recipes, go_with};
ghost use Rattle.state.specs.View.{task_of};
ghost use Rattle.moves.specs.Moves.{Named};
ghost use Rattle.count.specs.Along.{Along};
ghost use Rattle.active.specs.Active.{env, leaves, busy, Local, Active, Room, Left};

use count::{Bounds, Count, Stop, decide};
use links::LinkedTable;
use moves::{Move, move_of};
use state::Task;

// The task and the count where the active task no longer goes on, and why: its last move, which is made but for what it does to the queue;
// or the call's stop.
#[derive(Clone, Copy)]
pub struct Proceeded {
    pub task: Task,
    pub count: Count,
    pub left: Result<Move, Stop>,
}

impl Proceeded {
    // The task stays where it is, and the call stops.
    fn stopped(stop: Stop, task: Task, count: Count) -> Proceeded
        ensures { result ≡ record { task = task; count = count; left = Err stop } }
    {
        Proceeded {
            task,
            count,
            left: Err(stop),
        }
    }
}

// Whether a move does more than change variables and the task.
fn leaves(m: Move) -> bool
    ensures { result ≡ leaves m }
{
    matches!(
        m,
        Move::Spawns(_, _, _, _) | Move::Gives(_) | Move::Waits(_) | Move::Ends
    )
}

// A value goes into the variable or the parameter of this name, and the task on to a place. (kept: 64 for the parameter, as the table has it.)
fn set(name: u8, v: i32, place: u16, t: Task, variables: &mut [i32; 64]) -> Task
    requires { name ≤ 64 }
    ensures { (variables.new ≡ (write (env variables.old (task_of t)) name v).variables) × (task_of result ≡ go_with (task_of t) (write (env variables.old (task_of t)) name v).parameter place) }
{
    let mut task = t.at(place);
    if name == 64 {
        task.parameter = v;
    } else {
        variables[usize::from(name)] = v;
    }
    task
}

// What a move makes of the task and the variables, with this number issued.
fn local(m: Move, t: Task, issued: u16, variables: &mut [i32; 64]) -> Task
    requires { Named m }
    ensures { Local m issued (task_of t) (task_of result) variables.old variables.new }
{
    match m {
        Move::Goes(place) | Move::Gives(place) => t.at(place),
        Move::Sets(name, v, place) => set(name, v, place, t, variables),
        Move::Spawns(name, _, _, place) => {
            let number = i32::from(issued) + 1;
            set(name, number, place, t, variables)
        }
        Move::Waits(_) | Move::Ends => t,
    }
}

// The active task goes on until a step changes the queue, or the call stops.
pub fn proceed(
    linked: LinkedTable,
    log: &mut [u8],
    first: Task,
    variables: &mut [i32; 64],
    bounds: Bounds,
    before: Count,
) -> Proceeded
    requires { Active linked.table.bytes.now bounds log.old (task_of first) variables.old before }
    ensures leaves_so { IfOk result.left (λ m. (leaves m ≡ true) × Room m bounds.queued bounds.issued × (before.steps < result.count.steps)) }
    ensures left { (u : Run (recipes (recipe_of linked.entry.table.bytes.now))) (given : List ℕ) (q : List (R.Task ℕ)) → length q ≡ bounds.queued → Along (recipe_of linked.entry.table.bytes.now) u bounds.budget given before log.old (busy bounds.issued variables.old (task_of first) q) → Left (recipe_of linked.entry.table.bytes.now) u bounds.budget given result.count log.new (busy bounds.issued variables.new (task_of result.task) q) result.left }
{
    let mut t = first;
    let mut n = before;
    loop {
        // `decide` asks this too. Asked here as well, a move is not worked out in vain, and one that there is goes straight on.
        if n.steps == bounds.budget {
            return Proceeded::stopped(Stop::Paused, t, n);
        }
        let next = move_of(linked, t, variables);
        let (m, count) = match decide(next, t.number, bounds, log, n) {
            Err(stop) => return Proceeded::stopped(stop, t, n),
            Ok(made) => made,
        };
        n = count;
        t = local(m, t, bounds.issued, variables);
        if leaves(m) {
            return Proceeded {
                task: t,
                count: n,
                left: Ok(m),
            };
        }
    }
}
