//! The worker.
use crate::idle::pass_over;
use crate::next::Next;
use crate::operation::{Activity, Ended, Op};
use crate::playback::play_back;
use pram_job::Job;
use pram_words::Layout;
use std::marker::Model;
use std::mem;
use walk_memory::{Memory, Post, within_limits};

/// A worker. It asks for one atomic step at a time, and is told the answer.
#[derive(Drop)]
pub struct Worker {
    number: u32,
    node: Option<u32>,
    activity: Activity,
    held_op: Option<Op>,
    heard: [u64; 28],
    count: usize,
    memory: Memory,
}

impl Model for Worker {
    ghost use Rattle.std.specs.Prelude.{◌≡◌, ◌≤◌, length};
    ghost use Rattle.walkx.specs.Inner.Heard.{newest};
    ghost use Rattle.walkx.specs.Inner.Workers.{WorkerData, worker_data};

    ghost Value = { WorkerData };

    ghost view = { λ w. worker_data w.number w.node w.activity w.held_op (newest w.count w.heard)
        w.memory };

    ghost invariant = { λ w. (w.count ≤ 28) × (length w.heard ≡ 28) };
}

impl Worker {
    ghost use Rattle.std.specs.Prelude.{◌≡◌, ◌<◌, ◌≤◌, ◌*◌, Some, None, [], length};
    ghost use Rattle.pram_job.specs.Job.{JobData};
    ghost use Rattle.pram_words.specs.Words.{LayoutData};
    ghost use Rattle.walkx.specs.Activities.{activity_of};
    ghost use Rattle.walkx.specs.Inner.Workers.{worker_data};
    ghost use Rattle.walk_memory.specs.Memory.{FitsMemory, IsTrueMemory, blank};
    ghost use Rattle.walkx.specs.Playing.{ScriptComesTo, IsPlayable, op_after, come_to, hearing};
    ghost use Rattle.walk_memory.specs.Inner.Posts.{post_data};
    ghost use Rattle.walkx.specs.Playing.{GoesOn, IsBlockPlace, stand_of};
    ghost use Rattle.walkx.specs.Records.{Record, Knows};
    ghost use Rattle.walkx.specs.Serving.{IsNewWorker, Serves};
    ghost use Rattle.walkx.specs.Turns.{beginning, turn_begun};
    ghost use Rattle.walkx.specs.Walk.{AsksAdmitted, HearsAdmitted, IsStepOn, ask_of, come_back};
    ghost use Rattle.walkx.specs.Walk.{end_of, goes_in, rest_of, remembering, started, told};
    ghost use Rattle.walk_memory.specs.Blocks.{IsLayoutOf};

    /// Worker w, at its first leaf.
    pub fn start(w: u32) -> Worker
        ensures { IsNewWorker w (started w) result }
    {
        Worker::about_to(w, Activity::Begin, Memory::none())
    }

    /// Worker w, come back: it will stand where its position word says.
    pub fn back(w: u32) -> Worker
        ensures { IsNewWorker w (come_back w) result }
    {
        Worker::about_to(w, Activity::Back, Memory::none())
    }

    /// Worker w, at its first leaf, with a memory, by which it loads less in the wide form.
    pub fn start_with(w: u32, memory: Memory) -> Worker
        requires { memory ≡ blank (length memory) }
        ensures { IsNewWorker w (remembering (length memory) (started w)) result }
    {
        Worker::about_to(w, Activity::Begin, memory)
    }

    /// Worker w, come back, with a memory.
    pub fn back_with(w: u32, memory: Memory) -> Worker
        requires { memory ≡ blank (length memory) }
        ensures { IsNewWorker w (remembering (length memory) (come_back w)) result }
    {
        Worker::about_to(w, Activity::Back, memory)
    }

    // Worker w at the start of a script, not moved yet.
    fn about_to(w: u32, activity: Activity, memory: Memory) -> Worker
        ensures { result ≡ worker_data w None activity None [] memory }
    {
        Worker {
            number: w,
            node: None,
            activity,
            held_op: None,
            heard: [0; 28],
            count: 0,
            memory,
        }
    }

    /// The worker's number.
    pub fn number(&self) -> u32
        ensures { result ≡ self.now.walking.number }
    {
        self.number
    }

    /// How the worker ended, if it did.
    pub fn ended(&self) -> Option<Ended>
        ensures { result ≡ end_of self.now.walking.now }
    {
        match self.activity {
            Activity::Over(ended) => Some(ended),
            _ => None,
        }
    }

    /// The node where the worker stands, if it has moved or come back; else it stands at its first
    /// leaf.
    pub fn node(&self) -> Option<u32>
        ensures { result ≡ self.now.walking.node }
    {
        self.node
    }

    /// Which script is in progress.
    #[tactic(auto, using(crate::proofs::Workers::same_activity))]
    pub fn activity(&self) -> Activity
        ensures { result ≡ activity_of self.now.walking.now }
    {
        self.activity
    }

    /// The node and the phase of the turn that the worker is at the start of, if it is at one.
    pub fn turn(&self) -> Option<(u32, u64)>
        ensures { result ≡ turn_begun self.now.walking }
    {
        if self.heard() != 0 {
            return None;
        }
        match (self.activity(), self.node()) {
            (Activity::Turn(phase), Some(node)) => Some((node, phase)),
            _ => None,
        }
    }

    /// Takes the memory out, for whole turns.
    pub fn lend(&mut self) -> Memory
        ensures value { result ≡ self.old.walking.memory }
        ensures rest { self.new.walking ≡ record self.old.walking { memory = [] } }
    {
        mem::replace(&mut self.memory, Memory::none())
    }

    /// Begins anew at a node of the tree with this memory, having heard nothing since: what whole
    /// turns lead to.
    pub fn begin_at(&mut self, start: u32, memory: Memory)
        ensures value { self.new.walking ≡ beginning self.old.walking.number start memory }
        ensures serves { (job : JobData) (y : LayoutData) → self.old.walking.number < y.workers →
            1 ≤ start → start < 2 * y.leaves → FitsMemory job memory → Serves job y self.new }
        ensures known { (job : JobData) (y : LayoutData) (r : Record) → IsTrueMemory job memory →
            Knows job y r self.new.walking }
    {
        self.node = Some(start);
        self.activity = Activity::Begin;
        self.held_op = None;
        self.count = 0;
        self.memory = memory;
    }

    /// How many answers of the script in progress the worker has heard.
    pub fn heard(&self) -> u32
        ensures { result ≡ length self.now.walking.heard }
    {
        self.count as u32
    }

    /// The worker's next atomic step, or how it ended.
    #[inline(always)]
    #[tactic(auto, using(crate::proofs::Asking::all_ask, crate::proofs::Asking::going_steps))]
    pub fn ask(&self, job: &Job, layout: &Layout) -> Op
        requires layout { IsLayoutOf job.now layout.now }
        requires serves { Serves job.now layout.now self.now }
        ensures asks { result ≡ ask_of job.now layout.now self.now.walking }
        ensures admitted { AsksAdmitted job.now layout.now result }
        ensures step { end_of self.now.walking.now ≡ None → IsStepOn layout.now result }
    {
        within_limits(job, layout);
        self.next_operation(job, layout)
    }

    /// Hears the answer of the step that it asks for.
    pub fn tell(&mut self, job: &Job, layout: &Layout, answer: u64)
        requires layout { IsLayoutOf job.now layout.now }
        requires serves { Serves job.now layout.now self.old }
        requires admitted { HearsAdmitted job.now layout.now (ask_of job.now layout.now
            self.old.walking) answer }
        ensures told { self.new.walking ≡ told job.now layout.now self.old.walking answer }
        ensures serves { Serves job.now layout.now self.new }
    {
        match self.ended() {
            Some(_) => {}
            None => self.hear_on(job, layout, answer),
        }
    }

    // The next atomic step. At the start of a script, nothing is played back.
    #[inline(always)]
    fn next_operation(&self, job: &Job, layout: &Layout) -> Op
        requires layout { IsLayoutOf job.now layout.now }
        requires serves { Serves job.now layout.now self.now }
        ensures { result ≡ ask_of job.now layout.now self.now.walking }
    {
        within_limits(job, layout);
        match self.held_op() {
            Some(op) => op,
            None => match self.left(job, layout) {
                Err(op) => op,
                Ok(_) => unreachable!(),
            },
        }
    }

    // Where the worker is held in the midst of a script.
    #[inline(always)]
    fn held_op(&self) -> Option<Op>
        ensures { result ≡ self.now.held_op }
    {
        self.held_op
    }

    // An answer to a worker that is not over.
    #[inline(always)]
    fn hear_on(&mut self, job: &Job, layout: &Layout, answer: u64)
        requires layout { IsLayoutOf job.now layout.now }
        requires serves { Serves job.now layout.now self.old }
        requires going { end_of self.old.walking.now ≡ None }
        requires admitted { HearsAdmitted job.now layout.now (ask_of job.now layout.now
            self.old.walking) answer }
        ensures told { self.new.walking ≡ told job.now layout.now self.old.walking answer }
        ensures serves { Serves job.now layout.now self.new }
    {
        within_limits(job, layout);
        self.hear(answer);
        match self.left(job, layout) {
            Ok(next) => self.go_on(job, layout, next),
            Err(op) => self.hold(op),
        }
    }

    // What the script comes to with what the worker heard, or the operation that it asks next.
    #[inline(always)]
    fn left(&self, job: &Job, layout: &Layout) -> Result<Next, Op>
        requires layout { IsLayoutOf job.now layout.now }
        requires playable { IsPlayable job.now layout.now self.now.walking }
        ensures { ScriptComesTo (rest_of job.now layout.now self.now.walking) result }
    {
        within_limits(job, layout);
        let post = self.post(job, layout);
        play_back(
            &post,
            self.activity,
            &self.memory,
            &self.heard[..self.count],
        )
    }

    // Where the worker stands.
    #[inline(always)]
    fn post<'a>(&self, job: &'a Job, layout: &'a Layout) -> Post<'a>
        requires layout { IsLayoutOf job.now layout.now }
        requires playable { IsPlayable job.now layout.now self.now.walking }
        ensures { result ≡ stand_of job.now layout.now self.now.walking }
    {
        within_limits(job, layout);
        let node = match self.node {
            Some(node) => node,
            None => layout.first_leaf(self.number),
        };
        let (phase, rank) = match self.activity {
            Activity::Turn(phase) => (phase, 0),
            Activity::Part(phase, rank) => (phase, rank),
            _ => (0, 0),
        };
        Post::new(job, layout, self.number, node, phase).at_rank(rank)
    }

    // One answer more.
    #[inline(always)]
    fn hear(&mut self, answer: u64)
        requires { length self.old.walking.heard < 28 }
        ensures { self.new.walking ≡ hearing self.old.walking answer }
    {
        self.heard[self.count] = answer;
        self.count += 1;
    }

    // The worker is held at this operation.
    #[inline(always)]
    fn hold(&mut self, op: Op)
        ensures walking { self.new.walking ≡ self.old.walking }
        ensures op { self.new.held_op ≡ Some op }
    {
        self.held_op = Some(op);
    }

    // The script was heard whole.
    #[inline(always)]
    fn go_on(&mut self, job: &Job, layout: &Layout, next: Next)
        requires layout { IsLayoutOf job.now layout.now }
        requires goes { GoesOn job.now layout.now self.old.walking.number next }
        ensures walking { self.new.walking ≡ come_to job.now layout.now self.old.walking next }
        ensures op { self.new.held_op ≡ op_after next }
    {
        match next {
            Next::Begins(node) => self.come(node, Activity::Begin),
            Next::Turns(node, phase) => self.come(node, Activity::Turn(phase)),
            Next::Enters(node, phase) => self.go_in(job, layout, node, phase, 0),
            Next::Worked(node, phase, rank, memo) => {
                let post = Post::new(job, layout, self.number, node, phase).at_rank(rank);
                self.memory.keep(post.processor(), memo);
                self.go_in(job, layout, node, phase, rank + 1);
            }
            Next::Stops(ended) => {
                self.activity = Activity::Over(ended);
                self.held_op = Some(Op::Over(ended));
            }
        }
    }

    // It goes on in a block, from this rank on.
    #[inline(always)]
    fn go_in(&mut self, job: &Job, layout: &Layout, node: u32, phase: u64, rank: u32)
        requires layout { IsLayoutOf job.now layout.now }
        requires place { IsBlockPlace (post_data job.now layout.now self.old.walking.number node
            phase rank) }
        ensures walking { self.new.walking ≡ goes_in job.now layout.now self.old.walking.number node
            phase rank self.old.walking.memory }
        ensures op { self.new.held_op ≡ None }
    {
        let post = Post::new(job, layout, self.number, node, phase).at_rank(rank);
        let next = pass_over(&mut self.memory, &post);
        self.come(node, Activity::Part(phase, next));
    }

    // It is at the start of another script.
    #[inline(always)]
    fn come(&mut self, node: u32, activity: Activity)
        ensures { self.new ≡ worker_data self.old.walking.number (Some node) activity None []
            self.old.walking.memory }
    {
        self.node = Some(node);
        self.activity = activity;
        self.held_op = None;
        self.count = 0;
    }
}
