//! Jobs.
ghost use Rattle.std.specs.Prelude.{◌≡◌, ◌+◌, ◌<◌, vec_len, IfOk};
ghost use Rattle.pram_job.specs.Job.{JobData, IsJob, job_data};
ghost use Rattle.pram_job.specs.Places.{register_at, counters_at};

use crate::instr::{Instr, Rule};
use crate::places::{counters_at, register_at};
use std::alloc::AllocError;
use std::marker::Model;

/// A program of the machine, the sizes of the machine, and the values that its cells start with.
#[derive(Drop)]
pub struct Job {
    rule: Rule,
    cells: u32,
    procs: u32,
    steps: u32,
    init: Vec<u32>,
    code: Vec<Instr>,
}

impl Model for Job {
    ghost Value = { JobData };

    ghost view = { λ j. job_data j.rule j.cells j.procs j.steps j.init.items j.code.items };

    ghost invariant = { λ j. IsJob
        (job_data j.rule j.cells j.procs j.steps j.init.items j.code.items) };
}

impl Job {
    /// The job of these parts, with a cell for each start value.
    pub fn of_parts(rule: Rule, procs: u32, steps: u32, init: Vec<u32>, code: Vec<Instr>) -> Self
        requires { IsJob (job_data rule (vec_len init) procs steps init.items code.items) }
        ensures { result ≡ job_data rule (vec_len init) procs steps init.items code.items }
    {
        Job {
            rule,
            cells: init.len() as u32,
            procs,
            steps,
            init,
            code,
        }
    }

    /// This job, ending after another number of steps.
    pub fn with_steps(self, steps: u32) -> Self
        ensures { result ≡ record self { steps = steps } }
    {
        Job { steps, ..self }
    }

    /// An equal job.
    pub fn try_clone(&self) -> Result<Job, AllocError>
        ensures { IfOk result (λ job. job ≡ self.now) }
    {
        Ok(Job {
            init: self.init.clone()?,
            code: self.code.clone()?,
            ..*self
        })
    }

    /// Says to a proof that the job is within its limits. It does nothing.
    #[inline(always)]
    pub fn limits_hold(&self)
        ensures { IsJob self.now }
    {
        // The limits of a type are known where one of its fields is read.
        let _ = &self.rule;
    }

    /// The rule of writing.
    pub fn rule(&self) -> Rule
        ensures value { result ≡ self.now.rule }
    {
        self.rule
    }

    /// How many cells the memory has.
    pub fn cells(&self) -> u32
        ensures value { result ≡ self.now.cells }
        ensures job { IsJob self.now }
    {
        self.cells
    }

    /// How many processors there are.
    pub fn procs(&self) -> u32
        ensures value { result ≡ self.now.procs }
        ensures job { IsJob self.now }
    {
        self.procs
    }

    /// After how many steps the job ends.
    pub fn steps(&self) -> u32
        ensures value { result ≡ self.now.steps }
        ensures job { IsJob self.now }
    {
        self.steps
    }

    /// The value that each cell starts with.
    pub fn init(&self) -> &[u32]
        ensures value { result.now ≡ self.now.init }
        ensures job { IsJob self.now }
    {
        self.init.as_slice()
    }

    /// The instructions.
    pub fn code(&self) -> &[Instr]
        ensures value { result.now ≡ self.now.code }
        ensures job { IsJob self.now }
    {
        self.code.as_slice()
    }

    /// The place of a processor's register.
    #[inline(always)]
    pub fn register_place(&self, processor: u32, register: u8) -> u32
        requires processor { processor < self.now.procs }
        requires register { register < 4 }
        ensures value { result ≡ register_at self.now.cells processor register }
        ensures job { IsJob self.now }
    {
        register_at(self.cells, processor, u32::from(register))
    }

    /// The place of a processor's counter.
    #[inline(always)]
    pub fn counter_place(&self, processor: u32) -> u32
        requires { processor < self.now.procs }
        ensures value { result ≡ counters_at self.now.cells self.now.procs + processor }
        ensures job { IsJob self.now }
    {
        counters_at(self.cells, self.procs) + processor
    }
}
