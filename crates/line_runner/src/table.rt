//! The tables of kernels, by the names of their files.
//!
//! 1. All kernels are called here and nowhere else in a run, so one more is one arm more. Two of the six of scripts are
//!    one: breadth-first search.

ghost use Rattle.std.specs.Prelude.{◌≡◌, List, length, Err, IfOk, IfSome, IsSome};
ghost use Rattle.graph_model.specs.Graph.{Graph};
ghost use Rattle.run_model.specs.declared.answer.Answer.TheVariants as answers;
ghost use Rattle.run_model.specs.Commands.{root_of};
ghost use Rattle.run_model.specs.Answering.{kernel_answer, IsKernelTable};
ghost use Rattle.line_runner.specs.Kernels.{IsKernelImage};

use graph_image::Image;
use graph_model::{KernelRefusal, Kind, NoMemory, Table};
use items::RoomyItems;
use kernel_bfs::run as breadth_first_search;
use kernel_cdlp::run as communities;
use kernel_sssp::{run as shortest_paths, run_by_width as shortest_paths_by_buckets};
use kernel_wcc::run as components;
use run_model::{Kernel, Name};
use std::alloc::Global;
use std::thread::Threads;

/// A kernel's table, and the name of the file that it is for.
#[derive(Drop)]
pub struct NamedTable {
    /// As the script states it.
    pub name: Name,
    /// A line for each vertex.
    pub table: Table,
}

/// The tables of a job, in the order of its lines.
pub type Tables = RoomyItems<NamedTable>;

/// Runs a kernel on the image of a graph.
pub fn kernel_table<R: Threads + Sync>(
    rt: &R,
    alloc: Global,
    kind: Kind,
    kernel: Kernel,
    image: &Image,
) -> Result<Table, KernelRefusal>
    ensures table { IfOk result (λ table. (g : Graph) → IsKernelImage kind image.now g
        → (kernel_answer g kernel ≡ answers.Table (length table)) × IsKernelTable kind g kernel table) }
    ensures rooted { result ≡ Err KernelRefusal.NoRoot → IsSome (root_of kernel) }
    ensures no_root { result ≡ Err KernelRefusal.NoRoot → (g : Graph) → IsKernelImage kind image.now g
        → IfSome (root_of kernel) (λ root. kernel_answer g kernel ≡ answers.NoVertex root) }
{
    match kernel {
        Kernel::Bfs { root } => breadth_first_search(rt, alloc, image, root),
        // These two need no root, so running out of memory is all that they can be refused for.
        Kernel::Wcc => Ok(components(rt, alloc, image)?),
        Kernel::Cdlp { rounds } => Ok(communities(rt, alloc, image, rounds)?),
        Kernel::Sssp { root } => shortest_paths(rt, alloc, image, root),
        Kernel::FastBfs { root } => breadth_first_search(rt, alloc, image, root),
        // Any width gives this table, and no script that is read has the width 0.
        Kernel::FastSssp { root, width } => {
            shortest_paths_by_buckets(rt, alloc, image, root, width.max(1))
        }
    }
}

/// A copy of a name.
pub fn copy_of(alloc: Global, name: &Name) -> Result<Name, NoMemory>
    ensures { IfOk result (λ copy. copy ≡ name.now) }
{
    let bytes = name.as_slice().to_vec(alloc)?;
    Ok(Name::from_vec(bytes))
}
