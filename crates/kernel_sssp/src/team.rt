//! A search by several workers, in rounds.
//!
//! 1. In a round each worker first looks at the arcs out of what it visits, and then takes what it was offered. A bucket
//!    has come to its end when no worker has a visit of it.
//! 2. No clause speaks of what it finds: whoever asks for it looks whether it is right.
//! 3. Where rounds have few visits, as on a path or a grid, it gives up after some of them, since threads wouldn't share
//!    them out in less time than one makes them.

ghost use Rattle.std.specs.Prelude.{◌<◌, length};
ghost use Rattle.std.specs.Thread.{IsSync};

use crate::worker::{FAR, Offer, Offers, SearchWorker, Sharing};
use graph_image::{Image, NoMemory};
use std::alloc::Global;
use std::thread::{Threads, for_each_mut, join_mut};

/// After so many rounds it gives up where they had few visits.
const TRIED: usize = 32;

/// So many visits a round, on average, are worth threads.
const FEW: usize = 256;

/// A round of fewer visits is made by one thread.
const SMALL_ROUND: usize = 1024;

/// After so many rounds it gives up at any rate.
const MOST_ROUNDS: usize = 1048576;

/// The search, and the workers that make it.
#[derive(Drop)]
struct Team {
    sharing: Sharing,
    /// The least weight of a path to each place, of the paths that were found.
    distances: Vec<u32>,
    workers: Vec<SearchWorker>,
    /// What each worker offers.
    offers: Vec<Offers>,
}

/// Distances that so many workers find, or none where they gave up.
pub fn find_together<R: Threads + Sync>(
    rt: &R,
    alloc: Global,
    image: &Image,
    root: usize,
    width: u32,
    workers: usize,
) -> Result<Option<Vec<u32>>, NoMemory> {
    let mut team = Team::new(alloc, image.len(), root, width, workers)?;
    let mut made = 0usize;
    'rounds: for round in 0..MOST_ROUNDS {
        if team.visits() == 0 && !team.advance() {
            let Team {
                sharing: _,
                distances,
                workers: _,
                offers: _,
            } = team;
            return Ok(Some(distances));
        }
        made = made.saturating_add(team.visits());
        if round >= TRIED && made / round < FEW {
            return Ok(None);
        }
        team.round(rt, image)?;
    }
    Ok(None)
}

impl Team {
    /// Just the root is reached, and is to be visited.
    fn new(
        alloc: Global,
        count: usize,
        root: usize,
        width: u32,
        workers: usize,
    ) -> Result<Team, NoMemory> {
        let sharing = Sharing {
            share: count.div_ceil(workers.max(1)).max(1),
            width,
            bucket: 0,
        };
        let mut team = Team {
            sharing,
            distances: vec![in alloc; FAR; count]?,
            workers: Vec::new(alloc),
            offers: Vec::new(alloc),
        };
        'workers: for _worker in 0..workers {
            team.workers.push(SearchWorker::new(alloc)?)?;
            team.offers.push(Offers::new(alloc, workers)?)?;
        }
        team.begin(root)?;
        Ok(team)
    }

    /// Reaches the root.
    fn begin(&mut self, root: usize) -> Result<(), NoMemory> {
        let worker = root / self.sharing.share.max(1);
        if worker < self.workers.len() && root < self.distances.len() && root <= u32::MAX as usize {
            self.distances[root] = 0;
            self.workers[worker].visits.push(Offer {
                place: root as u32,
                distance: 0,
            })?;
        }
        Ok(())
    }

    /// How many visits of the bucket at hand there are.
    fn visits(&self) -> usize {
        let mut visits = 0usize;
        'workers: for i in 0..self.workers.len() {
            visits = visits.saturating_add(self.workers[i].visits.len());
        }
        visits
    }

    /// Makes the next bucket in use the one at hand, and says whether there is one.
    fn advance(&mut self) -> bool {
        let Some(ahead) = self.distance_to_next() else {
            return false;
        };
        let bucket = self.sharing.bucket.wrapping_add(ahead);
        self.sharing.bucket = bucket;
        'workers: for i in 0..self.workers.len() {
            self.workers[i].advance(bucket);
        }
        true
    }

    /// How far it is from the bucket at hand to the next one of any worker.
    fn distance_to_next(&self) -> Option<u64> {
        let mut first = None;
        'workers: for i in 0..self.workers.len() {
            let next = self.workers[i].distance_to_next(self.sharing.bucket);
            first = lesser(first, next);
        }
        first
    }

    /// Follows the arcs out of all that is to be visited.
    fn round<R: Threads + Sync>(&mut self, rt: &R, image: &Image) -> Result<(), NoMemory> {
        let threads = if self.visits() < SMALL_ROUND {
            1
        } else {
            self.workers.len().max(1)
        };
        look(
            rt,
            image,
            self.sharing.share,
            self.distances.as_slice(),
            self.workers.as_slice(),
            threads,
            self.offers.as_mut_slice(),
        );
        take(
            rt,
            self.sharing,
            self.offers.as_slice(),
            threads > 1,
            0,
            self.workers.as_mut_slice(),
            self.distances.as_mut_slice(),
        );
        if self.lacks_memory() {
            return Err(NoMemory);
        }
        Ok(())
    }

    /// Whether a worker ran out of memory.
    fn lacks_memory(&self) -> bool {
        'workers: for i in 0..self.workers.len() {
            if self.workers[i].lacks_memory {
                return true;
            }
        }
        'offers: for i in 0..self.offers.len() {
            if self.offers[i].lacks_memory {
                return true;
            }
        }
        false
    }
}

/// The lesser of two numbers, of which each may be missing.
fn lesser(a: Option<u64>, b: Option<u64>) -> Option<u64> {
    match (a, b) {
        (Some(a), Some(b)) => Some(a.min(b)),
        (Some(a), None) => Some(a),
        (None, b) => b,
    }
}

/// Has each worker look at the arcs out of what it visits, on so many threads.
fn look<R: Threads + Sync>(
    rt: &R,
    image: &Image,
    share: usize,
    distances: &[u32],
    workers: &[SearchWorker],
    threads: usize,
    offers: &mut [Offers],
)
    requires { 0 < threads }
{
    for_each_mut(
        rt,
        offers,
        threads,
        &|number: usize, offers: &mut Offers| {
            if number < workers.len() {
                offers.look(image, share, distances, workers[number].visits.as_slice());
            }
        },
    );
}

/// Has each worker take what it was offered, the first of them being of this number, and the distances being those of
/// their shares.
#[cycle(takes)]
fn take<R: Threads + Sync>(
    rt: &R,
    sharing: Sharing,
    offers: &[Offers],
    together: bool,
    first: usize,
    workers: &mut [SearchWorker],
    distances: &mut [u32],
) {
    let count = workers.len();
    if count == 0 {
        return;
    }
    if count == 1 {
        workers[0].take(sharing, first, offers, distances);
        return;
    }
    let half = count / 2;
    let (front, back) = workers.split_at_mut(half);
    let places = half.saturating_mul(sharing.share).min(distances.len());
    let (low, high) = distances.split_at_mut(places);
    let middle = first.saturating_add(half);
    if together {
        take_both(rt, sharing, offers, first, front, low, middle, back, high);
    } else {
        take(rt, sharing, offers, false, first, front, low);
        take(rt, sharing, offers, false, middle, back, high);
    }
}

/// The same of the first workers and of the others, side by side.
#[cycle(takes)]
fn take_both<R: Threads + Sync>(
    rt: &R,
    sharing: Sharing,
    offers: &[Offers],
    first: usize,
    front: &mut [SearchWorker],
    low: &mut [u32],
    middle: usize,
    back: &mut [SearchWorker],
    high: &mut [u32],
)
    requires front { 0 < length front.old }
    requires back { 0 < length back.old }
{
    let mut left = ||
        requires { IsSync R.row }
    { take(rt, sharing, offers, true, first, front, low) };
    let mut right = ||
        requires { IsSync R.row }
    { take(rt, sharing, offers, true, middle, back, high) };
    join_mut(rt, &mut left, &mut right);
}
