//! Times the image of a graph and the kernels over it.
//!
//! 1. Called with four numbers, of vertices, edges, seed and runs, it makes a power-law graph of so many
//!    vertices and weighted edges from the seed, or a path where no edges are asked for, and prints a line
//!    for the image and each kernel in each run: its name, and the microseconds that it took. Called with no
//!    words it does nothing.
//! 2. What is timed are the calls that a run of scripts makes, over rows in memory; nothing is read or
//!    written meanwhile.
#![tactic(auto)]

ghost use Rattle.graph_image.specs.Building.{AreStorable, AreEnded};

mod bench_kernel;
mod checks;
mod path;
mod power_law;

use anyhow::Result;
use bench_kernel::{BenchKernel, table_of};
use checks::{are_ended, are_storable};
use graph_image::{Builder, Image};
use graph_model::{Kind, Row};
use part_scan::cut_rows;
use std::alloc::Global;
use std::env;
use std::env::Env;
use std::rt::Clock;
use std::thread::Threads;
use std::time::Instant;

/// The kernels that have no width.
const KERNELS: [(&str, BenchKernel); 4] = [
    ("bfs", BenchKernel::Bfs),
    ("wcc", BenchKernel::Wcc),
    ("cdlp", BenchKernel::Cdlp),
    ("sssp", BenchKernel::Sssp),
];

/// The widths of buckets; weights are up to 1,000,000.
const WIDTHS: [u32; 6] = [10_000, 50_000, 100_000, 200_000, 400_000, 4_294_967_295];

fn main(rt: HostRuntime) -> Result<()> {
    let alloc = rt.alloc();
    let [vertices, edges, seed, runs] = numbers(&rt, alloc)?;
    let rows = if edges == 0 {
        path::rows_of(alloc, vertices)?
    } else {
        power_law::rows_of(alloc, vertices, edges, seed)?
    };
    if are_storable(rows.as_slice()) && are_ended(alloc, rows.as_slice())? {
        for _run in 0..runs {
            time(&rt, alloc, rows.as_slice())?;
        }
    }
    Ok(())
}

/// The four numbers after the program's name; 0 for each that isn't there.
fn numbers(rt: &(impl Env + Alloc<A = Global>), alloc: Global) -> Result<[u64; 4]> {
    let mut numbers = [0; 4];
    let mut count = 0;
    for word in env::args(rt)?.skip(1) {
        if count < 4 {
            numbers[count] = word.parse()?;
            count += 1;
        }
    }
    Ok(numbers)
}

/// Makes the image, runs each kernel over it, and prints a line for each.
fn time<R: Threads + Sync + Clock + Print>(rt: &R, alloc: Global, rows: &[Row]) -> Result<()>
    requires storable { AreStorable rows.now }
    requires ended { AreEnded rows.now }
{
    let begun = Instant::now(rt)?;
    let mut builder = Builder::new(alloc);
    builder.push(rows)?;
    let image = builder.finish()?;
    say(rt, "image", begun)?;
    time_parts(rt, alloc, rows)?;
    'kernels: for (name, kernel) in KERNELS {
        time_kernel(rt, alloc, &image, name, kernel)?;
    }
    'widths: for width in WIDTHS {
        let name = format!(in alloc; "fastsssp/{width}")?;
        let kernel = BenchKernel::FastSssp { width };
        time_kernel(rt, alloc, &image, name.as_str(), kernel)?;
    }
    Ok(())
}

/// Makes the image of the rows in 4 parts, which are told to be those of an undirected graph, and prints a line for it.
fn time_parts<R: Threads + Sync + Clock + Print>(rt: &R, alloc: Global, rows: &[Row]) -> Result<()>
    requires storable { AreStorable rows.now }
    requires ended { AreEnded rows.now }
{
    let lists = cut_rows(alloc, rows, 4)?;
    let begun = Instant::now(rt)?;
    let _image = Image::from_parts(rt, alloc, Kind::Undirected, &lists)?;
    say(rt, "image/4", begun)
}

/// Runs a kernel, and prints its name and the microseconds that it took.
fn time_kernel<R: Threads + Sync + Clock + Print>(
    rt: &R,
    alloc: Global,
    image: &Image,
    name: &str,
    kernel: BenchKernel,
) -> Result<()> {
    let begun = Instant::now(rt)?;
    let _table = table_of(rt, alloc, image, kernel)?;
    say(rt, name, begun)
}

/// Prints a name, and the microseconds since then.
fn say(rt: &(impl Clock + Print), name: &str, begun: Instant) -> Result<()> {
    let took = begun.elapsed(rt)?.as_micros();
    println!(rt; "{name} {took}")?;
    Ok(())
}
