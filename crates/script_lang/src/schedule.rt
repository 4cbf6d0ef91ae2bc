//! Reads schedules: a job number a line, 0 for the service and 1 to the number of scripts for a script.
//!
//! Each line is looked at once, and nothing after the first fault is read.

ghost use Rattle.std.specs.Prelude.{◌≡◌, ◌≤◌, Ok, All, IfOk, IfErr};
ghost use Rattle.script_lang.specs.Schedules.{read_entry, schedule_of, IsRefusedSchedule};

use crate::refusal::{ScheduleRefusal, ScheduleWhat};
use graphalytics_io::{Fields, NumberFault, field_lines, read_number};
use items::Items;
use std::alloc::Global;

/// The jobs whose turns come one after another.
pub type Schedule = Items<u32>;

/// Reads a schedule for so many scripts.
pub fn read_schedule(alloc: Global, text: &[u8], jobs: u32) -> Result<Schedule, ScheduleRefusal>
    ensures ok { IfOk result (λ schedule. schedule_of jobs text.now ≡ Ok schedule) }
    ensures within { IfOk result (λ schedule. All (λ job. job ≤ jobs) schedule) }
    ensures fault { IfErr result (λ refusal. IsRefusedSchedule (schedule_of jobs text.now) refusal) }
{
    let mut schedule = Schedule::new(alloc);
    let mut lines = field_lines(text);
    'lines: while let Some(line) = lines.next() {
        let number = line.number;
        match read_entry(line.fields, jobs) {
            Ok(job) => schedule.push(job)?,
            Err(what) => return Err(ScheduleRefusal::Fault { line: number, what }),
        }
    }
    Ok(schedule)
}

/// Reads the job of a line.
fn read_entry(fields: Fields<'_>, jobs: u32) -> Result<u32, ScheduleWhat>
    ensures read { result ≡ read_entry jobs fields.entry }
    ensures within { IfOk result (λ job. job ≤ jobs) }
{
    let mut fields = fields;
    let Some(field) = fields.next() else {
        return Err(ScheduleWhat::NotANumber)
    };
    if fields.next().is_some() {
        return Err(ScheduleWhat::ExtraField);
    }
    // 0 is among them: it stands for a turn of the service.
    match read_number(field, jobs as u64) {
        Ok(job) => Ok(job as u32),
        Err(NumberFault::NotANumber) => Err(ScheduleWhat::NotANumber),
        Err(NumberFault::TooLarge) => Err(ScheduleWhat::NoSuchJob),
    }
}
