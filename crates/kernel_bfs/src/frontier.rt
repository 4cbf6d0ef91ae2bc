//! The places of a level.
//!
//! 1. A round along the arcs out of places goes through a list of them; one along the arcs into places wants only to know
//!    how many they are, and so large a list costs more than that round. So places are listed only where they are few.

ghost use Rattle.std.specs.Prelude.{◌≡◌, ◌==◌, ◌<◌, ◌^◌, [], ◌∷◌, length, IfOk, OnOk};
ghost use Rattle.kernel_bfs.specs.Levels.{IsFrontier};
ghost use Rattle.kernel_bfs.specs.Frontiers.{places_at};

use graph_image::NoMemory;
use std::alloc::Global;

/// The places at a level.
#[derive(Drop)]
pub struct Frontier {
    /// How many they are.
    pub count: usize,
    /// The places themselves, where they are few.
    pub places: Vec<u32>,
}

impl Frontier {
    /// This place alone, with room for so many.
    pub fn of(alloc: Global, place: u32, room: usize) -> Result<Frontier, NoMemory>
        ensures count { IfOk result (λ frontier. frontier.count ≡ 1) }
        ensures places { IfOk result (λ frontier. frontier.places.items ≡ place ∷ []) }
    {
        let mut places = Vec::with_capacity(alloc, room)?;
        places.push(place)?;
        Ok(Frontier { count: 1, places })
    }

    /// No place, with room for so many.
    pub fn none(alloc: Global, room: usize) -> Result<Frontier, NoMemory> {
        let places = Vec::with_capacity(alloc, room)?;
        Ok(Frontier { count: 0, places })
    }

    /// Whether no place is at the level.
    pub fn is_empty(&self) -> bool
        ensures { result ≡ (self.now.count == 0) }
    {
        self.count == 0
    }
}

/// How many places are at the level.
pub fn count_at(level: u32, distances: &[u32]) -> usize
    ensures { result ≡ length (places_at level distances.now) }
{
    let mut count = 0;
    'places: for place in 0..distances.len() {
        if distances[place] == level {
            count += 1;
        }
    }
    count
}

/// Lists the places at the level, and no others.
pub fn list_at(level: u32, distances: &[u32], places: &mut Vec<u32>) -> Result<(), NoMemory>
    requires { length distances.now < 2 ^ 32 }
    ensures { OnOk result (IsFrontier level distances.now places.new.items) }
{
    places.clear();
    'each: for place in 0..distances.len() {
        let is_there = distances[place] == level;
        if is_there {
            places.push(place as u32)?;
        }
    }
    Ok(())
}
