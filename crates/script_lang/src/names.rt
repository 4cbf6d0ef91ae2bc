//! The file names that are taken.
//!
//! 1. A map keeps for each name the first place at which it stands, so a name is looked up in logarithmic time.
//! 2. After a refusal the names are those of before the call.

ghost use Rattle.std.specs.Prelude.{◌≡◌, ◌==◌, ◌↔◌, ℕ, cond, List, [], ◌∷◌, ◌++◌, length, take, Contains, Some, None, IsTrue, IfOk, OnOk, OnErr, ◌&&◌};
ghost use Rattle.std.specs.Option.{option_or};
ghost use Rattle.std.specs.Str.{bytes_eq};
ghost use Rattle.script_lang.specs.Places.{place_in, is_at};

use graph_model::NoMemory;
use items::RoomyItems;
use run_model::Name;
use std::alloc::Global;
use std::collections::BTreeMap;
use std::marker::Model;

/// The file names that are taken, in the order in which they were.
#[derive(Drop)]
pub struct Names {
    alloc: Global,
    /// In the order in which they were taken.
    names: RoomyItems<Name>,
    /// The same names with their places, to find one.
    places: BTreeMap<Vec<u8>, usize>,
}

impl Model for Names {
    ghost use Rattle.std.specs.Prelude.{ℕ, List};
    ghost use Rattle.script_lang.specs.Places.{AreFirstPlaces};

    ghost Value = { List (List ℕ) };

    ghost view = { λ taken. taken.names.items };

    ghost invariant = { λ taken. AreFirstPlaces taken.places taken.names.items };
}

impl Names {
    /// No names. Takes no memory.
    pub fn new(alloc: Global) -> Names
        ensures { result ≡ [] }
    {
        Names {
            alloc,
            names: RoomyItems::new(alloc),
            places: BTreeMap::new(alloc),
        }
    }

    /// Appends a name.
    pub fn push(&mut self, name: Name) -> Result<(), NoMemory>
        ensures ok { OnOk result (self.new ≡ self.old ++ name ∷ []) }
        ensures err { OnErr result (self.new ≡ self.old) }
    {
        // Room for the name, then the map, then the name itself: where memory runs out no name has come.
        self.names.reserve(1)?;
        let place = self.names.len();
        add_place(self.alloc, &mut self.places, name.as_slice(), place)?;
        self.names.push_within(name);
        Ok(())
    }

    /// The same names.
    pub fn copy(&self, alloc: Global) -> Result<Names, NoMemory>
        ensures { IfOk result (λ names. names ≡ self.now) }
    {
        let mut names = Names::new(alloc);
        'names: for name in self.names.as_slice() {
            let bytes = Vec::from_slice(alloc, name.as_slice())?;
            names.push(Name::from_vec(bytes))?;
        }
        Ok(names)
    }

    pub fn contains(&self, bytes: &[u8]) -> bool
        ensures { IsTrue result ↔ Contains self.now bytes.now }
    {
        self.places.contains_key(bytes)
    }

    pub fn len(&self) -> usize
        ensures { result ≡ length self.now }
    {
        self.names.len()
    }

    pub fn is_empty(&self) -> bool
        ensures { result ≡ (length self.now == 0) }
    {
        self.names.is_empty()
    }

    /// Keeps the first names alone, so many.
    pub fn truncate(&mut self, len: usize)
        ensures { self.new ≡ take len self.old }
    {
        'names: while len < self.names.len() {
            // From the last on, so that of two equal names the later one goes first.
            let Some(name) = self.names.pop() else { return };
            let place = self.names.len();
            remove_place(&mut self.places, name.as_slice(), place);
        }
    }
}

/// Keeps this place for a name, unless there is one for it.
fn add_place(
    alloc: Global,
    places: &mut BTreeMap<Vec<u8>, usize>,
    name: &[u8],
    place: usize,
) -> Result<(), NoMemory>
    ensures ok { OnOk result ((other : List ℕ) → place_in places.new other
        ≡ option_or (place_in places.old other) (cond (bytes_eq other name.now) (Some place) None)) }
    ensures err { OnErr result ((other : List ℕ) → place_in places.new other ≡ place_in places.old other) }
{
    // A name may come twice, since those of the words are taken as they are; the first place is the one that counts.
    if places.contains_key(name) {
        return Ok(());
    }
    let key = Vec::from_slice(alloc, name)?;
    places.insert(key, place)?;
    Ok(())
}

/// Forgets a name's place, where it is this one.
fn remove_place(places: &mut BTreeMap<Vec<u8>, usize>, name: &[u8], place: usize)
    ensures { (other : List ℕ) → place_in places.new other
        ≡ cond (bytes_eq name.now other && is_at place (place_in places.old name.now)) None
        (place_in places.old other) }
{
    if let Some(first) = places.get(name) {
        // A name that stood there before keeps its place.
        if *first == place {
            places.remove(name);
        }
    }
}
