//! The run with threads.
//!
//! 1. The list of jobs is cut, in its order, into as many blocks as there are workers, and each worker runs
//!    its block, one job after the other.
//! 2. The service takes its turns beside them.
//! 3. Where a job wants memory, it is taken back, and the others go on.
//! 4. The rows of a kernel are read by as many readers as there are workers.

ghost use Rattle.std.specs.Prelude.{◌≡◌, ◌<◌, ◌≤◌, ◌+◌, ◌-◌, ◌^◌, ◌||◌, min, length, true, false, None, OnOk, OnErr};
ghost use Rattle.std.specs.List.{AllZip, AllByRecursion};
ghost use Rattle.std.specs.Thread.{IsSync, IsSend};
ghost use Rattle.graph_model.specs.AccountSteps.{ReadsBy};
ghost use Rattle.job_runner.specs.Progress.{is_over, IsReadyBy};
ghost use Rattle.thread_runner.specs.ByAccount.{RanBy};
ghost use Rattle.thread_runner.specs.Driving.{IsSeat, HasRun, AreClosed, gave_up, some_gave_up, lines_of, in_first};

use crate::over::JobsOver;
use desk_io::Gate;
use graph_model::{Engine, NoMemory, VertexEngine};
use job_runner::Job;
use part_scan::PartScan;
use std::thread::{Threads, join_mut};

/// Runs all jobs to their end on so many workers, and the service beside them.
pub fn run_threads<R: Threads + Sync, E: VertexEngine + PartScan + Send, G: Gate>(
    rt: &R,
    jobs: &mut JobsOver<E>,
    workers: u32,
    gate: &G,
) -> Result<(), NoMemory>
    requires workers { (0 < workers) × (workers ≤ 32) }
    requires ready { AllByRecursion (IsSeat E.account) jobs.old.jobs.items }
    ensures ran { AllZip (HasRun E.account) jobs.old.jobs.items jobs.new.jobs.items }
    ensures ok { OnOk result (some_gave_up jobs.old.jobs.items jobs.new.jobs.items ≡ false) }
    ensures err { OnErr result (some_gave_up jobs.old.jobs.items jobs.new.jobs.items ≡ true) }
    ensures closed { AreClosed E.account jobs.old.jobs.items jobs.old.service
        → AreClosed E.account jobs.new.jobs.items jobs.new.service }
    ensures served { E.served jobs.old.service < 2 ^ 64
        → E.served jobs.new.service ≡ min (E.served jobs.old.service + lines_of jobs.old.jobs.items) (2 ^ 64 - 1) }
    ensures service { ReadsBy (E.account jobs.old.service) (E.account jobs.new.service) }
{
    // The service takes one turn for each, so a run ends although nobody stops it.
    let lines = count_lines(jobs.jobs.as_slice());
    let service = &mut jobs.service;
    let seats = jobs.jobs.as_mut_slice();
    if run_beside(rt, service, lines, seats, workers, gate) {
        Err(NoMemory)
    } else {
        Ok(())
    }
}

/// How many lines the scripts have, up to the last number.
fn count_lines<E>(seats: &[(Job, E)]) -> u64
    ensures { result ≡ min (lines_of seats.now) (2 ^ 64 - 1) }
{
    match seats {
        [] => 0,
        // No script has as many lines, but no bound says so; a lesser number of turns would do as well.
        [seat, rest @ ..] => (seat.0.lines() as u64).saturating_add(count_lines(rest)),
    }
}

/// The service in a thread of its own, and the jobs.
fn run_beside<R: Threads + Sync, E: VertexEngine + PartScan + Send, G: Gate>(
    rt: &R,
    service: &mut E,
    turns: u64,
    seats: &mut [(Job, E)],
    workers: u32,
    gate: &G,
) -> bool
    requires workers { (0 < workers) × (workers ≤ 32) }
    requires ready { AllByRecursion (IsSeat E.account) seats.old }
    ensures ran { AllZip (HasRun E.account) seats.old seats.new }
    ensures wanted { result ≡ some_gave_up seats.old seats.new }
    ensures served { E.served service.old < 2 ^ 64
        → E.served service.new ≡ min (E.served service.old + turns) (2 ^ 64 - 1) }
    ensures service { ReadsBy (E.account service.old) (E.account service.new) }
{
    // Joined, so that both have let go of the store before the caller takes it apart.
    let ((), wanted) = join_mut(
        rt,
        &mut ||
            ensures { (E.served service.entry.now < 2 ^ 64
                → E.served service.exit.now ≡ min (E.served service.entry.now + turns) (2 ^ 64 - 1))
                × ReadsBy (E.account service.entry.now) (E.account service.exit.now) }
        { serve(rt, service, turns) },
        &mut || -> bool
            requires { IsSync R.row × IsSend E.row × IsSync G.row × (0 < workers) × (workers ≤ 32)
                × AllByRecursion (IsSeat E.account) seats.now }
            ensures { AllZip (HasRun E.account) seats.entry.now seats.exit.now
                × (result ≡ some_gave_up seats.entry.now seats.exit.now) }
        { run_blocks(rt, seats, workers, workers, gate) },
    );
    wanted
}

/// Takes so many turns of the service. One that is refused memory has changed nothing.
fn serve<R: Threads, E: Engine>(_rt: &R, engine: &mut E, turns: u64)
    ensures served { E.served engine.old < 2 ^ 64
        → E.served engine.new ≡ min (E.served engine.old + turns) (2 ^ 64 - 1) }
    ensures account { ReadsBy (E.account engine.old) (E.account engine.new) }
{
    'turns: for _taken in 0..turns {
        // One that is refused memory has changed nothing, and the next one tries again.
        let _ = engine.service_step();
    }
}

/// Cuts the jobs into blocks, and runs these side by side.
#[cycle(blocks)]
fn run_blocks<R: Threads + Sync, E: VertexEngine + PartScan + Send, G: Gate>(
    rt: &R,
    seats: &mut [(Job, E)],
    workers: u32,
    readers: u32,
    gate: &G,
) -> bool
    requires workers { 0 < workers }
    requires readers { (0 < readers) × (readers ≤ 32) }
    requires ready { AllByRecursion (IsSeat E.account) seats.old }
    ensures ran { AllZip (HasRun E.account) seats.old seats.new }
    ensures wanted { result ≡ some_gave_up seats.old seats.new }
{
    // Cut by workers and not by jobs: a block may be empty, and is one thread all the same.
    if workers == 1 {
        return run_block(rt, seats, readers, gate);
    }
    let first = workers / 2;
    let (front, back) = seats.split_at_mut(jobs_in_first(seats.len(), workers, first));
    both_parts(rt, front, first, back, workers - first, readers, gate)
}

/// Runs the first blocks and the others side by side.
#[cycle(blocks)]
fn both_parts<R: Threads + Sync, E: VertexEngine + PartScan + Send, G: Gate>(
    rt: &R,
    front: &mut [(Job, E)],
    first: u32,
    back: &mut [(Job, E)],
    others: u32,
    readers: u32,
    gate: &G,
) -> bool
    requires first { 0 < first }
    requires others { 0 < others }
    requires readers { (0 < readers) × (readers ≤ 32) }
    requires cut { length front.old ≡ in_first (length front.old + length back.old) (first + others) first }
    requires front { AllByRecursion (IsSeat E.account) front.old }
    requires back { AllByRecursion (IsSeat E.account) back.old }
    ensures front { AllZip (HasRun E.account) front.old front.new }
    ensures back { AllZip (HasRun E.account) back.old back.new }
    ensures wanted { result ≡ (some_gave_up front.old front.new || some_gave_up back.old back.new) }
{
    // Each closure borrows what it names, so each has a number of its own.
    let front_readers = readers;
    let back_readers = readers;
    let mut left = || -> bool
        requires { IsSync R.row × IsSend E.row × IsSync G.row × (0 < first)
            × (0 < front_readers) × (front_readers ≤ 32) × AllByRecursion (IsSeat E.account) front.now }
        ensures { AllZip (HasRun E.account) front.entry.now front.exit.now
            × (result ≡ some_gave_up front.entry.now front.exit.now) }
    { run_blocks(rt, front, first, front_readers, gate) };
    let mut right = || -> bool
        requires { IsSync R.row × IsSend E.row × IsSync G.row × (0 < others)
            × (0 < back_readers) × (back_readers ≤ 32) × AllByRecursion (IsSeat E.account) back.now }
        ensures { AllZip (HasRun E.account) back.entry.now back.exit.now
            × (result ≡ some_gave_up back.entry.now back.exit.now) }
    { run_blocks(rt, back, others, back_readers, gate) };
    // Both, also where the first ran out of memory: each job ends by itself, and takes its transaction back.
    let (a, b) = join_mut(rt, &mut left, &mut right);
    a || b
}

/// How many jobs the first blocks have.
fn jobs_in_first(jobs: usize, workers: u32, first: u32) -> usize
    requires { (0 < workers) × (first ≤ workers) }
    ensures is { result ≡ in_first jobs workers first }
    ensures inside { result ≤ jobs }
{
    let blocks = workers as usize;
    let first = first as usize;
    jobs / blocks * first + (jobs % blocks).min(first)
}

/// Runs a block of jobs, one after the other. Answers whether memory ran out.
fn run_block<R: Threads + Sync, E: VertexEngine + PartScan, G: Gate>(
    rt: &R,
    seats: &mut [(Job, E)],
    readers: u32,
    gate: &G,
) -> bool
    requires readers { (0 < readers) × (readers ≤ 32) }
    requires ready { AllByRecursion (IsSeat E.account) seats.old }
    ensures ran { AllZip (HasRun E.account) seats.old seats.new }
    ensures wanted { result ≡ some_gave_up seats.old seats.new }
{
    let mut wanted = false;
    'seats: for seat in seats.iter_mut() {
        if run_seat(rt, seat, readers, gate) {
            wanted = true;
        }
    }
    wanted
}

/// Runs a job on its engine. Answers whether memory ran out.
fn run_seat<R: Threads + Sync, E: VertexEngine + PartScan, G: Gate>(
    rt: &R,
    seat: &mut (Job, E),
    readers: u32,
    gate: &G,
) -> bool
    requires readers { (0 < readers) × (readers ≤ 32) }
    requires ready { IsSeat E.account seat.old }
    ensures ran { HasRun E.account seat.old seat.new }
    ensures wanted { result ≡ gave_up seat.old.0 seat.new.0 }
{
    run_job(rt, &mut seat.0, &mut seat.1, readers, gate)
}

/// Takes turns of a job until it has ended. Answers whether memory ran out.
fn run_job<R: Threads + Sync, E: VertexEngine + PartScan, G: Gate>(
    rt: &R,
    job: &mut Job,
    engine: &mut E,
    readers: u32,
    gate: &G,
) -> bool
    requires readers { (0 < readers) × (readers ≤ 32) }
    requires ready { is_over job.old ≡ false → IsReadyBy (E.account engine.old) job.old }
    ensures ran { RanBy (E.account engine.old) job.old job.new (E.account engine.new) }
    ensures over { is_over job.new ≡ true }
    ensures pass { (E.account engine.new).job ≡ (E.account engine.old).job }
    ensures closed { is_over job.old ≡ false → (E.account engine.new).start ≡ None }
    ensures wanted { result ≡ gave_up job.old job.new }
{
    // A job may come that had given up before, which is not told of this run.
    let before = job.has_given_up();
    let mut turn: u64 = 0;
    'turns: while !job.has_ended() {
        // Before the turn, where the job holds nothing: a gate may wait.
        gate.turn(job.number(), turn);
        // A gate is told a number and nothing rests on it, so the last one may stay.
        turn = turn.saturating_add(1);
        let _ = job.turn_parts(rt, engine, readers);
    }
    !before && job.has_given_up()
}
