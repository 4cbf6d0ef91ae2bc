//! Jobs, one for each script.
//!
//! 1. Job n runs script n, counted from 1.
//! 2. A job that has ended stays in the list, with its answers and tables, so numbers never shift.

ghost use Rattle.std.specs.Prelude.{◌≡◌, ℕ, List, ◌∷◌, suc, ◌-◌, ◌<◌, ◌≤◌, true, false, ◌==◌, length, slice_get, slice_set, Some, None, IfSome, IfNone, IfOk, OnOk, OnErr};
ghost use Rattle.graph_model.specs.OwnerCalls.{pass_at};
ghost use Rattle.job_runner.specs.Progress.{Progress, left_of, is_over};
ghost use Rattle.job_runner.specs.Runs.{AreUnderWay, AreHeld, IsStuck, Turns, Goes, under_way};
ghost use Rattle.run_model.specs.Inputs.{Inputs};
ghost use Rattle.run_model.specs.declared.command.Command.{Command};
ghost use Rattle.run_model.specs.declared.command.Command.TheVariants.{Abort};

use crate::job::Job;
use crate::turn::JobTurn;
use graph_model::{NoMemory, StepEngine};
use run_model::{Answer, Command};
use std::marker::Model;
use std::thread::Threads;

/// The jobs of a run, numbered from 1 in their order.
#[derive(Drop)]
pub struct Jobs {
    /// Job n stands at place n - 1.
    jobs: Vec<Job>,
}

impl Model for Jobs {
    ghost use Rattle.std.specs.Prelude.{List};
    ghost use Rattle.job_runner.specs.Progress.{Progress};

    ghost Value = { List Progress };

    ghost view = { λ j. j.jobs.items };
}

impl Jobs {
    /// These jobs, in their order. Takes no memory.
    pub fn from_vec(jobs: Vec<Job>) -> Jobs
        ensures { result ≡ jobs.items }
    {
        Jobs { jobs }
    }

    /// Lends the jobs.
    pub fn as_slice(&self) -> &[Job]
        ensures { result.now ≡ self.now }
    {
        self.jobs.as_slice()
    }

    pub fn len(&self) -> usize
        ensures { result ≡ length self.now }
    {
        self.jobs.len()
    }

    pub fn is_empty(&self) -> bool
        ensures { result ≡ (length self.now == 0) }
    {
        self.jobs.is_empty()
    }

    /// How many jobs haven't ended.
    pub fn under_way(&self) -> usize
        ensures { result ≡ under_way self.now }
    {
        let mut left = 0;
        'jobs: for job in self.jobs.as_slice() {
            if !job.has_ended() {
                left += 1;
            }
        }
        left
    }

    /// Lends the line at hand of the job of this number, if it has one.
    pub fn next_command(&self, number: u32) -> Option<&Command>
        requires numbered { 0 < number }
        requires listed { number ≤ length self.now }
        ensures some { IfSome result (λ c. (job : Progress) × (rest : List Command)
            × (slice_get self.now (number - 1) ≡ Some job) × (is_over job ≡ false) × (left_of job ≡ c.now ∷ rest)) }
        ensures none { IfNone result ((job : Progress) → slice_get self.now (number - 1) ≡ Some job
            → is_over job ≡ true) }
    {
        self.jobs[number as usize - 1].next_command()
    }

    /// How many lines of the job of this number are answered.
    pub fn answered(&self, number: u32) -> usize
        requires numbered { 0 < number }
        requires listed { number ≤ length self.now }
        ensures { (job : Progress) → slice_get self.now (number - 1) ≡ Some job → result ≡ length job.answers }
    {
        self.jobs[number as usize - 1].answers().len()
    }

    /// Has the line at hand of the job of this number abort its transaction, whatever it was to do. Takes no memory.
    pub fn abort_instead(&mut self, number: u32)
        requires numbered { 0 < number }
        requires listed { number ≤ length self.old }
        requires going { (job : Progress) → slice_get self.old (number - 1) ≡ Some job → is_over job ≡ false }
        ensures { (job : Progress) → slice_get self.old (number - 1) ≡ Some job
            → self.new ≡ slice_set self.old (number - 1)
            (record job { commands = slice_set job.commands (length job.answers) Abort }) }
    {
        self.jobs[number as usize - 1].abort_instead();
    }

    /// Gives another answer to a line of the job at this place that was answered. Takes no memory.
    pub fn answer_instead(&mut self, job: usize, line: usize, answer: Answer)
        requires listed { job < length self.old }
        requires answered { (p : Progress) → slice_get self.old job ≡ Some p → line < length p.answers }
        ensures { (p : Progress) → slice_get self.old job ≡ Some p
            → self.new ≡ slice_set self.old job (record p { answers = slice_set p.answers line answer }) }
    {
        self.jobs[job].answer_instead(line, answer);
    }

    /// Gives a turn to the job of this number, unless it has ended. Answers whether it ends with that.
    pub fn take_turn<R: Threads + Sync, E: StepEngine>(
        &mut self,
        rt: &R,
        engine: &mut E,
        number: u32,
    ) -> Result<bool, NoMemory>
        requires under_way { (inputs : Inputs) × AreUnderWay inputs (E.core engine.old) self.old }
        requires numbered { 0 < number }
        requires listed { number ≤ length self.old }
        ensures turns { IfOk result (λ ended.
            Turns (E.core engine.old) self.old number ended (E.core engine.new) self.new) }
        ensures goes { OnOk result (Goes self.old number self.new) }
        ensures err { OnErr result (IsStuck (E.core engine.old) (E.core engine.new) self.new) }
    {
        let job = &mut self.jobs[number as usize - 1];
        if job.has_ended() {
            return Ok(false);
        }
        // The engine of one owner has all passes, so it is told whose turn this is.
        engine.select(number);
        match job.turn_alone(rt, engine) {
            JobTurn::More => Ok(false),
            JobTurn::Ended => Ok(true),
            JobTurn::NoMemory => Err(NoMemory),
        }
    }

    /// Takes each open transaction back, and ends each job.
    pub fn give_up<E: StepEngine>(&mut self, engine: &mut E)
        requires { AreHeld (E.core engine.old) self.old }
        ensures closed { (p : ℕ) → (pass_at (E.core engine.new) p).start ≡ None }
        ensures journal { (E.core engine.new).journal ≡ (E.core engine.old).journal }
    {
        give_up_each(engine, self.jobs.as_mut_slice());
    }
}

/// Takes each open transaction back, and ends each job.
fn give_up_each<E: StepEngine>(engine: &mut E, jobs: &mut [Job])
    requires { AreHeld (E.core engine.old) jobs.old }
    ensures closed { (p : ℕ) → (pass_at (E.core engine.new) p).start ≡ None }
    ensures journal { (E.core engine.new).journal ≡ (E.core engine.old).journal }
{
    'jobs: for job in jobs.iter_mut() {
        // Also of a job that has ended, whose pass has no transaction: then nothing is taken back.
        engine.select(job.number());
        job.give_up(engine);
    }
}
