//! The table of the least weights.
//!
//! 1. Buckets are settled one after the other, the least first, until none is in use.
//! 2. The width of buckets matters for time alone, so no clause names it.
//! 3. Weights are summed in 64 bits: a way has fewer arcs than there are ids, and no weight is above 32 bits.

ghost use Rattle.std.specs.Prelude.{◌≡◌, ◌<◌, false, length, Err, IfOk, IfSome, IsTrue};
ghost use Rattle.graph_model.specs.Graph.{Graph, has_vertex};
ghost use Rattle.graph_model.specs.Tables.{IsSssp};
ghost use Rattle.graph_model.specs.declared.table.KernelRefusal.TheVariants as KernelRefusal;
ghost use Rattle.graph_image.specs.Images.{IsImageOf};
ghost use Rattle.kernel_sssp.specs.Distances.{LinkOut, IsSearched};
ghost use Rattle.kernel_sssp.specs.Certain.{AreCertain};

use crate::certain::are_certain;
use crate::distances::{table_by, widened};
use crate::search::BucketSearch;
use crate::team::find_together;
use crate::width::{suits_workers, width_for};
use graph_image::{Image, KernelRefusal, NoMemory, Table};
use rayon::current_num_threads;
use std::alloc::Global;
use std::thread::Threads;

/// An image of fewer places isn't worth threads.
const SMALL: usize = 16384;

/// Fewer threads than these take as long as one, which has nothing to look at twice.
const FEWEST_THREADS: usize = 3;

/// More threads than these share the places no better.
const MOST_THREADS: usize = 32;

/// The least weight of a walk from the root to each vertex, in rising order of vertex, or infinity where
/// no walk leads (LDBC Graphalytics, SSSP). No clause speaks of running out of memory.
pub fn run<R: Threads + Sync>(
    rt: &R,
    alloc: Global,
    image: &Image,
    root: u64,
) -> Result<Table, KernelRefusal>
    ensures table { IfOk result (λ table. (g : Graph) → IsImageOf image.now g
        → IsTrue (has_vertex g root) × IsSssp g root table) }
    ensures no_root { result ≡ Err KernelRefusal.NoRoot → (g : Graph) → IsImageOf image.now g
        → has_vertex g root ≡ false }
{
    run_by_width(rt, alloc, image, root, width_for(image))
}

/// The same by buckets of this width, for whoever knows the graph better. No clause speaks of running out of memory.
pub fn run_by_width<R: Threads + Sync>(
    rt: &R,
    alloc: Global,
    image: &Image,
    root: u64,
    width: u32,
) -> Result<Table, KernelRefusal>
    requires width { 0 < width }
    ensures table { IfOk result (λ table. (g : Graph) → IsImageOf image.now g
        → IsTrue (has_vertex g root) × IsSssp g root table) }
    ensures no_root { result ≡ Err KernelRefusal.NoRoot → (g : Graph) → IsImageOf image.now g
        → has_vertex g root ≡ false }
{
    let Some(place) = image.position(root) else {
        return Err(KernelRefusal::NoRoot);
    };
    let distances = least_weights(rt, alloc, image, place, width)?;
    let table = table_by(alloc, image, distances.as_slice())?;
    Ok(table)
}

/// The least weight of a path from the root to each place.
fn least_weights<R: Threads + Sync>(
    rt: &R,
    alloc: Global,
    image: &Image,
    root: usize,
    width: u32,
) -> Result<Vec<u64>, NoMemory>
    requires root { root < length image.now.vertices }
    requires width { 0 < width }
    ensures count { IfOk result (λ distances. length distances.items ≡ length image.now.vertices) }
    ensures searched { IfOk result (λ distances. (g : Graph) → IsImageOf image.now g
        → IsSearched (LinkOut image.now) root (length image.now.vertices) distances.items) }
{
    match search_together(rt, alloc, image, root, width)? {
        Some(distances) => Ok(distances),
        None => search_alone(alloc, image, root, width),
    }
}

/// The same by several threads, where they are worth it and what they find shows that it is right.
fn search_together<R: Threads + Sync>(
    rt: &R,
    alloc: Global,
    image: &Image,
    root: usize,
    width: u32,
) -> Result<Option<Vec<u64>>, NoMemory>
    ensures { IfOk result (λ found. IfSome found (λ distances. AreCertain image.now root distances.items)) }
{
    let threads = current_num_threads(rt).min(MOST_THREADS);
    if threads < FEWEST_THREADS || image.len() < SMALL || !suits_workers(image) {
        return Ok(None);
    }
    let Some(distances) = find_together(rt, alloc, image, root, width, threads)? else {
        return Ok(None);
    };
    if are_certain(rt, image, root, distances.as_slice()) {
        Ok(Some(widened(alloc, distances.as_slice())?))
    } else {
        Ok(None)
    }
}

/// The same by one thread.
fn search_alone(alloc: Global, image: &Image, root: usize, width: u32) -> Result<Vec<u64>, NoMemory>
    requires root { root < length image.now.vertices }
    requires width { 0 < width }
    ensures { IfOk result (λ distances.
        IsSearched (LinkOut image.now) root (length image.now.vertices) distances.items) }
{
    let mut search = BucketSearch::new(alloc, image.len(), root, width)?;
    'buckets: loop {
        // All visits of the bucket at hand, those that come while it is made among them.
        search.settle(image)?;
        if !search.advance() {
            let BucketSearch {
                stage: _,
                distances,
                visits: _,
                later: _,
                ahead: _,
            } = search;
            return Ok(distances);
        }
    }
}
