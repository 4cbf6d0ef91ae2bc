//! The program `teseo`: runs scripts on a graph, makes one, or reads a journal file back, over real files.
//!
//! 1. The descriptors of standard input, output and error are open before any file is, so that no
//!    output can take the place of one that was closed.
//! 2. What a run has left is not given back at the end, when the process ends anyway.
#![tactic(auto)]

use desk_io::{OpenGate, StdDesk};
use journal_disk::StdDisk;
use kept_program::below::{Left, Outcome, end_with};
use kept_program::teseo_kept;
use std::alloc::Global;
use std::env::Env;
use std::fs::{File, OpenOptions};
use std::mem::forget;
use std::os::fd::AsRawFd;
use std::process::ExitCode;
use std::rt::Files;
use std::{env, io};

/// The last descriptor of the three that a program begins with.
const STANDARD_ERROR: i32 = 2;

fn main(rt: HostRuntime) -> ExitCode {
    // First of all: a file that is opened later could else become standard output.
    let _standard = fill_standard(&rt);
    let alloc = rt.alloc();
    let words = words(&rt, alloc);
    let mut desk = StdDesk::new(alloc, &rt);
    let mut disk = StdDisk::new(&rt);
    let mut left = Left::Nothing;
    let status = match words {
        Ok(words) => teseo_kept(
            &rt, alloc, &words, &mut desk, &OpenGate, &mut left, &mut disk,
        ),
        Err(outcome) => end_with(&mut desk, outcome),
    };
    // All memory goes with the process. To give back the list of each commit first would keep one thread busy, when all
    // else is done.
    forget(left);
    ExitCode::from(status)
}

/// Opens the null device in place of each of the first three descriptors that is closed. Where there
/// is no such device, they stay closed.
fn fill_standard(rt: &impl Files<File = File>) -> [Option<File>; 3] {
    [open_standard(rt), open_standard(rt), open_standard(rt)]
}

/// The null device, if one of the first three descriptors was closed: the least that is closed is taken.
fn open_standard(rt: &impl Files<File = File>) -> Option<File> {
    let null = OpenOptions::new()
        .read(true)
        .write(true)
        .open(rt, "/dev/null")
        .ok()?;
    if null.as_raw_fd() <= STANDARD_ERROR {
        Some(null)
    } else {
        None
    }
}

/// The words after the program's name, or how the run ends without them.
fn words(rt: &(impl Env + Alloc<A = Global>), alloc: Global) -> Result<Vec<String>, Outcome> {
    match env::args(rt) {
        Ok(args) => copied(alloc, args),
        Err(e) if e.kind() == io::ErrorKind::InvalidData => Err(Outcome::BadWords),
        Err(_) => Err(Outcome::NoMemory),
    }
}

/// All words but the first.
fn copied(alloc: Global, args: env::Args) -> Result<Vec<String>, Outcome> {
    let mut words = Vec::new(alloc);
    for word in args.skip(1) {
        if words.push(word).is_err() {
            return Err(Outcome::NoMemory);
        }
    }
    Ok(words)
}
