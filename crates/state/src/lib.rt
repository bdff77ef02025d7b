// The state of a run, by value.

#![tactic(auto)]

ghost use Rattle.std.specs.Prelude.{◌≡◌, ◌+◌, ◌<◌, ◌≤◌, IsSome};

// Who spawned a task, and how often it was taken up.
#[derive(Clone, Copy)]
pub struct History {
    pub spawner: u16,
    pub taken_up: u32,
}

impl History {
    ghost use Rattle.rules.specs.State.{spawned_by};
    ghost use Rattle.rules.specs.Steps.{once_more};
    ghost use Rattle.state.specs.View.{history_of};

    // That of a task that was never taken up.
    pub fn spawned_by(spawner: u16) -> History
        ensures { history_of result ≡ spawned_by spawner }
    {
        History {
            spawner,
            taken_up: 0,
        }
    }

    // Taken up once more.
    fn once_more(self) -> History
        ensures { history_of result ≡ once_more (history_of self) }
    {
        History {
            spawner: self.spawner,
            taken_up: self.taken_up.saturating_add(1),
        }
    }
}

// A task by its number, the place where it stands, its parameter and its history.
#[derive(Clone, Copy)]
pub struct Task {
    pub number: u16,
    pub place: u16,
    pub parameter: i32,
    pub history: History,
}

impl Task {
    ghost use Rattle.rules.specs.Steps.{counting, go_to, counted};
    ghost use Rattle.state.specs.View.{task_of};

    // The task where it goes on.
    pub fn at(self, place: u16) -> Task
        ensures { task_of result ≡ go_to (task_of self) place }
    {
        Task {
            number: self.number,
            place,
            parameter: self.parameter,
            history: self.history,
        }
    }

    // The task as it is taken up.
    fn counted(self) -> Task
        ensures { task_of result ≡ counted counting (task_of self) }
    {
        Task {
            history: self.history.once_more(),
            ..self
        }
    }
}

// The tasks that wait for their turn, as a ring: `len` of them, the front at the index `front`. (kept: the kit's only ring is on the heap.)
#[derive(Clone, Copy)]
pub struct Queue {
    pub tasks: [Task; 32],
    pub front: usize,
    pub len: usize,
    ghost front_fits: { front < 32 },
    ghost few: { len ≤ 32 },
}

impl Queue {
    ghost use Rattle.std.specs.Prelude.{[], ◌∷◌, ◌++◌, drop};
    ghost use Rattle.state.specs.View.{task_of, entry, queue_of, position, turned};

    // Task i from the front.
    pub fn task(&self, i: usize) -> Task
        requires { i < 32 }
        ensures { task_of result ≡ entry self.now i }
    {
        self.tasks[(self.front + i) % 32]
    }

    // The index from the front of the task that has this number, if one has it.
    pub fn position(&self, number: u32) -> Option<usize>
        ensures { result ≡ position number (queue_of self.now) }
    {
        for i in 0..self.len {
            if u32::from(self.task(i).number) == number {
                return Some(i);
            }
        }
        None
    }

    // With a task at the back.
    fn pushed(self, task: Task) -> Queue
        requires { self.len < 32 }
        ensures tasks { queue_of result ≡ queue_of self ++ task_of task ∷ [] }
        ensures len { result.len ≡ self.len + 1 }
    {
        let mut tasks = self.tasks;
        tasks[(self.front + self.len) % 32] = task;
        Queue {
            tasks,
            front: self.front,
            len: self.len + 1,
        }
    }

    // Without its front.
    fn popped(self) -> Queue
        requires { 0 < self.len }
        ensures tasks { queue_of result ≡ drop 1 (queue_of self) }
        ensures len { result.len + 1 ≡ self.len }
    {
        let tasks = self.tasks;
        Queue {
            tasks,
            front: (self.front + 1) % 32,
            len: self.len - 1,
        }
    }

    // The front is turned to the back, n times.
    fn turned(mut self, n: usize) -> Queue
        requires { n ≤ self.len }
        ensures tasks { queue_of result ≡ turned n (queue_of self) }
        ensures len { result.len ≡ self.len }
    {
        for i in 0..n {
            let from = (self.front + i) % 32;
            let to = (from + self.len) % 32;
            self.tasks[to] = self.tasks[from];
        }
        self.front = (self.front + n) % 32;
        self
    }
}

#[derive(Clone, Copy)]
pub struct State {
    pub issued: u16,
    pub active: Option<Task>,
    pub queue: Queue,
    pub variables: [i32; 64],
    ghost few: { IsSome active → queue.len < 32 },
}

// Each method builds the new state as a literal: assigned to the variable that held the old one, it copies the queue where a task is stored
// in it, and nothing else.
impl State {
    ghost use Rattle.rules.specs.State as R;
    ghost use Rattle.rules.specs.Steps.{go_to};
    ghost use Rattle.state.specs.View.{task_of, entry, view, put_back, take_up, acting, spawn, end, turn};

    // A fresh state.
    pub fn fresh() -> State
        ensures { view result ≡ R.fresh }
    {
        let first = Task {
            number: 1,
            place: 1,
            parameter: 0,
            history: History::spawned_by(0),
        };
        // Zero bytes, as the array is filled with them at one go.
        let none = Task {
            number: 0,
            place: 0,
            ..first
        };
        State {
            issued: 1,
            active: Some(first),
            queue: Queue {
                tasks: [none; 32],
                front: 0,
                len: 0,
            },
            variables: [0; 64],
        }
    }

    // The active task joins the back.
    pub fn put_back(self) -> State
        ensures { view result ≡ put_back (view self).active (view self) }
    {
        let Some(task) = self.active else {
            return self;
        };
        let variables = self.variables;
        State {
            issued: self.issued,
            active: None,
            queue: self.queue.pushed(task),
            variables,
        }
    }

    // The front, which is handed over at the place where it goes on, becomes active, and is counted.
    pub fn take_up(self, task: Task) -> State
        requires idle { self.active ≡ None }
        requires queued { 0 < self.queue.len }
        requires front { task_of task ≡ go_to (entry self.queue 0) task.place }
        ensures { view result ≡ take_up (view self).queue task.place (view self) }
    {
        let variables = self.variables;
        State {
            issued: self.issued,
            active: Some(task.counted()),
            queue: self.queue.popped(),
            variables,
        }
    }

    // The number of the active task: 0 if none is.
    fn acting(&self) -> u16
        ensures { result ≡ acting (view self.now).active }
    {
        match self.active {
            Some(task) => task.number,
            None => 0,
        }
    }

    // The next number is issued, and its task, spawned by the active one, joins the back.
    pub fn spawn(self, place: u16, argument: i32) -> State
        requires live { self.queue.len < 31 }
        requires issued { self.issued < 65535 }
        ensures { view result ≡ spawn place argument (view self) }
    {
        let number = self.issued + 1;
        let task = Task {
            number,
            place,
            parameter: argument,
            history: History::spawned_by(self.acting()),
        };
        let variables = self.variables;
        State {
            issued: number,
            active: self.active,
            queue: self.queue.pushed(task),
            variables,
        }
    }

    // The active task is over.
    pub fn end(self) -> State
        ensures { view result ≡ end (view self) }
    {
        let variables = self.variables;
        State {
            issued: self.issued,
            active: None, // nothing of it stays
            queue: self.queue,
            variables,
        }
    }

    // The front is turned to the back, n times.
    pub fn turn(self, n: usize) -> State
        requires { n ≤ self.queue.len }
        ensures { view result ≡ turn n (view self) }
    {
        let variables = self.variables;
        State {
            issued: self.issued,
            active: self.active,
            queue: self.queue.turned(n),
            variables,
        }
    }
}
