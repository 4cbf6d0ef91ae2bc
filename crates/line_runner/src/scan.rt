//! Scans under way.
//!
//! 1. Each turn but the last gives a full portion of rows, so the number of rows tells the turns.
//! 2. `neighbours` keeps targets, `count` a number, and a kernel the rows, in the parts of its image: no list
//!    is made that the line doesn't answer with.
//! 3. More rows than a number counts can't be held in memory, and are answered as want of it. So are more rows
//!    for a kernel than an image has places for.

ghost use Rattle.std.specs.Prelude.{◌≡◌, ℕ, List, ◌+◌, ◌-◌, ◌^◌, ◌<◌, ◌≤◌, ◌++◌, false, map, length, count_by, IsSome, OnOk};
ghost use Rattle.graph_model.specs.declared.row.Row.{Row};
ghost use Rattle.graph_model.specs.declared.limits.TheConstants.{MAX_ID};
ghost use Rattle.graph_model.specs.Graph.{Graph};
ghost use Rattle.graph_model.specs.Account.{IsValid};
ghost use Rattle.run_model.specs.declared.command.Command.{Command};
ghost use Rattle.run_model.specs.declared.command.Command.TheVariants as commands;
ghost use Rattle.run_model.specs.declared.command.Query.TheVariants.{NeighboursOf, Counts};
ghost use Rattle.run_model.specs.declared.command.Kernel.{Kernel};
ghost use Rattle.line_runner.specs.Scanning.{is_vertex, target_of, with_rows, vertices_in, counted, fresh_scan, FitIn, IsScan, ScansOn};
ghost use Rattle.line_runner.specs.Turns.{view_now};

use graph_image::PartBuilder;
use graph_model::{Cursor, Engine, Ids, Key, Kind, NoMemory, Row, Rows64};
use run_model::Answer;
use std::alloc::Global;

/// What a line has kept of the rows that it has scanned.
#[derive(Drop)]
pub enum ScanResult {
    /// The targets of the arcs.
    Targets { ids: Ids },
    /// The number of vertices.
    Vertices { count: u64 },
    /// The rows, on their way into an image.
    Rows { rows: PartBuilder },
}

impl ScanResult {
    /// Takes these rows in, with which there are so many.
    fn take_in(&mut self, given: &[Row], count: u64) -> Result<(), NoMemory>
        requires counted { vertices_in self.old + length given.now < 2 ^ 64 }
        requires fit { FitIn self.old given.now count }
        ensures { OnOk result (self.new ≡ with_rows self.old given.now) }
    {
        match self {
            ScanResult::Targets { ids } => push_targets(ids, given)?,
            ScanResult::Vertices { count } => *count += count_vertices(given),
            ScanResult::Rows { rows } => {
                // A place of an image is a number of 32 bits.
                if count > u32::MAX as u64 {
                    return Err(NoMemory);
                }
                rows.push(given)?;
            }
        }
        Ok(())
    }
}

/// Appends the targets of arcs.
fn push_targets(ids: &mut Ids, given: &[Row]) -> Result<(), NoMemory>
    ensures { OnOk result (ids.new ≡ ids.old ++ map target_of given.now) }
{
    'arcs: for row in given {
        // A target stands one higher in its key, since 0 marks the row of the vertex itself.
        ids.push(row.key.second.saturating_sub(1))?;
    }
    Ok(())
}

/// How many of the rows are vertices.
fn count_vertices(given: &[Row]) -> u64
    ensures is { result ≡ count_by is_vertex given.now }
    ensures bound { result ≤ length given.now }
{
    // The row of a vertex comes before its arcs, with 0 for a target.
    given.iter().filter(|row| row.key.second == 0).count() as u64
}

/// A scan: where it stands, how many rows it was given, and what it has kept of them.
#[derive(Drop)]
pub struct Scan {
    pub cursor: Cursor,
    pub rows: u64,
    pub result: ScanResult,
}

impl Scan {
    /// A scan of the arcs that lead from a vertex. Takes no memory.
    pub fn of_arcs(alloc: Global, v: u64) -> Scan
        requires { v ≤ MAX_ID }
        ensures empty { result.rows ≡ 0 }
        ensures scan { (g : Graph) → IsScan g (commands.Read (NeighboursOf v)) result }
    {
        let next = Key { src: v, second: 1 };
        let until = Key::of_vertex(v + 1);
        let ids = Ids::new(alloc);
        Scan::begin(next, until, ScanResult::Targets { ids })
    }

    /// A scan of all rows that counts. Takes no memory.
    pub fn of_counts() -> Scan
        ensures empty { result.rows ≡ 0 }
        ensures scan { (g : Graph) → IsScan g (commands.Read Counts) result }
    {
        let count = 0;
        Scan::begin(
            Key::of_vertex(0),
            Key::end(),
            ScanResult::Vertices { count },
        )
    }

    /// A scan of all rows that keeps them. Takes no memory.
    pub fn of_rows(alloc: Global) -> Scan
        ensures empty { result.rows ≡ 0 }
        ensures scan { (g : Graph) (kernel : Kernel) (file : List ℕ) → IsScan g (commands.Run kernel file) result }
    {
        let rows = PartBuilder::new(alloc);
        Scan::begin(Key::of_vertex(0), Key::end(), ScanResult::Rows { rows })
    }

    /// A scan that has given nothing yet.
    fn begin(next: Key, until: Key, kept: ScanResult) -> Scan
        ensures { result ≡ fresh_scan next until kept }
    {
        Scan {
            cursor: Cursor {
                next,
                until,
                done: false,
            },
            rows: 0,
            result: kept,
        }
    }

    /// Takes one turn of the scan.
    pub fn step<E: Engine>(&mut self, engine: &mut E) -> Result<(), NoMemory>
        requires current { IsSome (E.account engine.old).start }
        requires valid { IsValid (E.account engine.old) }
        requires scan { (r : Command) × IsScan (view_now (E.account engine.old)) r self.old }
        ensures ok { OnOk result ((r : Command) → IsScan (view_now (E.account engine.old)) r self.old
            → ScansOn (view_now (E.account engine.old)) r self.old self.new) }
        ensures did { E.did_read engine.old engine.new }
    {
        let mut rows = Rows64::new();
        engine.scan_step(&mut self.cursor, &mut rows);
        let given = rows.as_slice();
        // Checked, since the number of rows tells how many turns the line has taken.
        let Some(count) = self.rows.checked_add(given.len() as u64) else {
            return Err(NoMemory);
        };
        self.rows = count;
        self.result.take_in(given, count)
    }

    /// The targets that it has kept.
    pub fn into_targets(self) -> Ids
        requires { (ids : List ℕ) × (self.result ≡ ScanResult.Targets ids) }
        ensures { self.result ≡ ScanResult.Targets result }
    {
        match self.result {
            ScanResult::Targets { ids } => ids,
            ScanResult::Vertices { count: _count } => unreachable!(),
            ScanResult::Rows { rows: _rows } => unreachable!(),
        }
    }

    /// The rows that it has kept.
    pub fn into_rows(self) -> PartBuilder
        requires { (rows : List Row) × (self.result ≡ ScanResult.Rows rows) }
        ensures { self.result ≡ ScanResult.Rows result }
    {
        match self.result {
            ScanResult::Targets { ids: _ids } => unreachable!(),
            ScanResult::Vertices { count: _count } => unreachable!(),
            ScanResult::Rows { rows } => rows,
        }
    }

    /// The answer to `count`: what isn't a vertex is an arc.
    pub fn into_counts(self, kind: Kind) -> Answer
        requires counts { (count : ℕ) × (self.result ≡ ScanResult.Vertices count) }
        requires bounded { vertices_in self.result ≤ self.rows }
        ensures { (count : ℕ) → self.result ≡ ScanResult.Vertices count
            → result ≡ counted kind count (self.rows - count) }
    {
        let vertices = match self.result {
            ScanResult::Targets { ids: _ids } => unreachable!(),
            ScanResult::Vertices { count } => count,
            ScanResult::Rows { rows: _rows } => unreachable!(),
        };
        let arcs = self.rows - vertices;
        let edges = match kind {
            Kind::Directed => arcs,
            // An edge without direction is two rows.
            Kind::Undirected => arcs / 2,
        };
        Answer::Counted { vertices, edges }
    }
}
