//! The kernels that are timed, each with all that it asks for beside the image.
//!
//! What is timed is one call for all of them, whose contract is small. A proof that makes all calls one after the
//! other takes three times as long.

use graph_image::{Image, KernelRefusal, Table};
use std::alloc::Global;
use std::thread::Threads;

/// The vertex from which the searches begin, the heaviest.
const ROOT: u64 = 1;

/// How many rounds the community labels are given.
const ROUNDS: u32 = 10;

#[derive(Clone, Copy)]
pub enum BenchKernel {
    Bfs,
    Wcc,
    Cdlp,
    Sssp,
    /// Shortest paths by buckets of this width, at least 1.
    FastSssp { width: u32 },
}

/// The kernel's table of the image.
pub fn table_of<R: Threads + Sync>(
    rt: &R,
    alloc: Global,
    image: &Image,
    kernel: BenchKernel,
) -> Result<Table, KernelRefusal> {
    match kernel {
        BenchKernel::Bfs => kernel_bfs::run(rt, alloc, image, ROOT),
        BenchKernel::Wcc => Ok(kernel_wcc::run(rt, alloc, image)?),
        BenchKernel::Cdlp => Ok(kernel_cdlp::run(rt, alloc, image, ROUNDS)?),
        BenchKernel::Sssp => kernel_sssp::run(rt, alloc, image, ROOT),
        BenchKernel::FastSssp { width } => kernel_sssp::run_by_width(
            rt,
            alloc,
            image,
            ROOT,
            width.max(1),
        ),
    }
}
