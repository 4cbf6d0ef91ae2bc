//! What the words ask for.
//!
//! 1. Texts are lent by the words and not copied, so to read words takes no memory but clap's own.
//! 2. Names that are taken before any script line is read have places, in a fixed order: a caller that blames or
//!    compares one needs no list of them.

ghost use Rattle.std.specs.Prelude.{◌≡◌, ◌≢◌, ◌↔◌, ◌+◌, ◌<◌, [], ◌++◌, map, length, get_or, AllPairs, IsTrue, option_map, option_to_list};
ghost use Rattle.command_words.specs.Words.{taken_names, report_name, goes_together};
ghost use Rattle.command_words.specs.Views.{run_request, taken_name, names_behind_schedule};

use crate::names::TakenName;

/// What the words ask for.
#[derive(Debug, Drop)]
pub enum ProgramWords<'a> {
    /// To run scripts on a graph.
    Run(RunWords<'a>),
    /// To make the files of a graph.
    Make(MakeWords<'a>),
    /// To read a journal file back.
    Recover(RecoverWords<'a>),
}

/// The words of `run`.
#[derive(Debug, Drop)]
pub struct RunWords<'a> {
    /// The vertex file.
    pub vertices: &'a str,
    /// The edge file.
    pub edges: &'a str,
    /// The file that the journal is written to.
    pub journal: &'a str,
    /// Whether an edge is one arc, from its first end to its second.
    pub is_directed: bool,
    /// How many digits of a weight stand after the point, 0 to 9, where the edges have weights.
    pub weights: Option<u8>,
    /// Whether further digits of a weight are dropped.
    pub is_cut: bool,
    /// The file that says which script is in turn, if one is given. Without it they take turns in rotation.
    pub schedule: Option<&'a str>,
    /// How many leaves the store has, 1 to 131,072, where that is stated.
    pub leaves: Option<u32>,
    /// How many threads run the scripts, 1 to 32, where they run side by side.
    pub threads: Option<u32>,
    /// Whether commits that would not leave a serial order are refused.
    pub is_serial: bool,
    /// The journal file in which the commits are kept, where there is one.
    pub keep: Option<&'a str>,
    /// The names of the scripts, in the order of the words.
    pub scripts: Vec<&'a str>,
}

/// The words of `make`.
#[derive(Clone, Copy, Debug)]
pub struct MakeWords<'a> {
    /// What the pairs are drawn from.
    pub seed: u64,
    /// How many vertices, at least two where there are edges.
    pub vertices: u32,
    /// How many edges at the most.
    pub edges: u32,
    /// The name of the vertex file.
    pub out: &'a str,
    /// The name of the edge file.
    pub edges_out: &'a str,
}

/// The words of `recover`.
#[derive(Clone, Copy, Debug)]
pub struct RecoverWords<'a> {
    /// The journal file that is read.
    pub keep: &'a str,
    /// The file that the text of the journal is written to.
    pub journal: &'a str,
}

impl<'a> RunWords<'a> {
    /// How many names are taken before any script line is read.
    pub fn taken_len(&self) -> usize
        ensures { result ≡ length (taken_names (run_request self.now)) }
    {
        let scripts = self.scripts.as_slice().len();
        3 + count_of(self.schedule) + count_of(self.keep) + scripts + scripts
    }

    /// The name at a place among those that are taken before any script line is read.
    pub fn taken(&self, place: usize) -> TakenName<'a>
        requires { place < length (taken_names (run_request self.now)) }
        ensures { taken_name result ≡ get_or (taken_names (run_request self.now)) place [] }
    {
        match place {
            0 => TakenName::Given(self.vertices),
            1 => TakenName::Given(self.edges),
            2 => TakenName::Given(self.journal),
            _ => self.taken_behind_journal(place - 3),
        }
    }

    /// The name at a place among the schedule, the journal file, the scripts and their reports.
    fn taken_behind_journal(&self, place: usize) -> TakenName<'a>
        requires { place + 3 < length (taken_names (run_request self.now)) }
        ensures { taken_name result ≡ get_or (taken_names (run_request self.now)) (place + 3) [] }
    {
        match self.schedule {
            None => self.taken_behind_schedule(place),
            Some(schedule) if place == 0 => TakenName::Given(schedule),
            Some(_) => self.taken_behind_schedule(place - 1),
        }
    }

    /// The name at a place among the journal file, the scripts and their reports.
    fn taken_behind_schedule(&self, place: usize) -> TakenName<'a>
        requires { place < length (names_behind_schedule (run_request self.now)) }
        ensures { taken_name result ≡ get_or (names_behind_schedule (run_request self.now)) place [] }
    {
        match self.keep {
            None => self.script_or_report(place),
            Some(keep) if place == 0 => TakenName::Given(keep),
            Some(_) => self.script_or_report(place - 1),
        }
    }

    /// The name at a place among the scripts and their reports.
    fn script_or_report(&self, place: usize) -> TakenName<'a>
        requires { place < length self.now.scripts.items + length self.now.scripts.items }
        ensures { taken_name result
            ≡ get_or ((run_request self.now).scripts ++ map report_name (run_request self.now).scripts) place [] }
    {
        let count = self.scripts.len();
        if place < count {
            TakenName::Given(self.scripts[place])
        } else {
            TakenName::ReportOf(self.scripts[place - count])
        }
    }

    /// Whether the options may be given together.
    pub(crate) fn goes_together(&self) -> bool
        ensures { result ≡ goes_together (run_request self.now) }
    {
        match self.threads {
            Some(_) => self.schedule.is_none() && (!self.is_serial && self.keep.is_none()),
            None => !(self.is_serial && self.keep.is_some()),
        }
    }

    /// Whether the names that are taken are pairwise different.
    pub(crate) fn has_distinct_names(&self) -> bool
        ensures { IsTrue result ↔ AllPairs (λ a b. a ≢ b) (taken_names (run_request self.now)) }
    {
        let count = self.taken_len();
        'firsts: for i in 0..count {
            // Each with each, which is fewer than 8,000 comparisons: no set of names is made, so no memory is taken.
            'seconds: for j in i + 1..count {
                if self.taken(i).is(self.taken(j)) {
                    return false;
                }
            }
        }
        true
    }
}

/// How many names these are: one, or none.
fn count_of(name: Option<&str>) -> usize
    ensures { result ≡ length (option_to_list (option_map (λ name. name.now) name.entry)) }
{
    match name {
        Some(_) => 1,
        None => 0,
    }
}
