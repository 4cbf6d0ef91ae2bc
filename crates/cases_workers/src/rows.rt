//! What engines do in cases.

ghost use Rattle.std.specs.Prelude.{◌≡◌, ◌≤◌, None, IsSome};
ghost use Rattle.graph_model.specs.declared.limits.TheConstants.{MAX_ID};

use crate::case::EngineCase;
use graph_model::{BeginRefusal, Begun, Cursor, Engine, Key, Refusal, Rows64, VertexEngine};

/// Begins and commits, begins and takes back, and begins again.
#[derive(Clone, Copy, Debug, PartialEq, Eq)]
pub struct BeginOften {
    /// The transaction that committed, with what that answered.
    pub committed: Option<(Begun, Option<u64>)>,
    /// The one that was taken back.
    pub aborted: Option<Begun>,
    /// What the last begin was refused with, if it was.
    pub refused: Option<BeginRefusal>,
}

impl EngineCase for BeginOften {
    fn run<E: VertexEngine>(&mut self, engine: &mut E) {
        if let Ok(begun) = engine.begin() {
            self.committed = Some((begun, engine.commit()));
        }
        if let Ok(begun) = engine.begin() {
            self.aborted = Some(begun);
            engine.abort();
        }
        match engine.begin() {
            Ok(_) => engine.abort(),
            Err(refused) => self.refused = Some(refused),
        }
    }
}

/// Adds the vertices from 1 on in one transaction, until one isn't added, and commits. Looks for all of them in
/// another one.
#[derive(Clone, Copy, Debug, PartialEq, Eq)]
pub struct AddVertices {
    pub count: u32,
    pub added: u32,
    pub refused: Option<Refusal>,
    pub stamp: Option<u64>,
    /// How many are seen.
    pub seen: u32,
}

impl EngineCase for AddVertices {
    fn run<E: VertexEngine>(&mut self, engine: &mut E) {
        if let Ok(_) = engine.begin() {
            add(engine, self);
            self.stamp = engine.commit();
        }
        if let Ok(_) = engine.begin() {
            self.seen = count_seen(engine, self.count);
            engine.abort();
        }
    }
}

/// Adds vertices, until one isn't added.
fn add<E: Engine>(engine: &mut E, case: &mut AddVertices)
    requires current { IsSome (E.account engine.old).start }
    ensures current { IsSome (E.account engine.new).start }
    ensures job { (E.account engine.new).job ≡ (E.account engine.old).job }
{
    'vertices: for before in 0..case.count {
        match engine.add_vertex(u64::from(before) + 1) {
            Ok(()) => case.added = before + 1,
            Err(refused) => {
                case.refused = Some(refused);
                return;
            }
        }
    }
}

/// How many of the vertices from 1 on the transaction sees.
fn count_seen<E: Engine>(engine: &mut E, count: u32) -> u32
    requires current { IsSome (E.account engine.old).start }
    ensures current { IsSome (E.account engine.new).start }
    ensures job { (E.account engine.new).job ≡ (E.account engine.old).job }
{
    let mut seen: u32 = 0;
    'vertices: for before in 0..count {
        if engine.has_vertex(u64::from(before) + 1) {
            seen = seen.saturating_add(1);
        }
    }
    seen
}

/// Adds vertices, removes all but each tenth in another transaction, and takes turns of the service.
#[derive(Clone, Copy, Debug, PartialEq, Eq)]
pub struct CutBack {
    pub vertices: AddVertices,
    pub service: ServeOften,
}

impl EngineCase for CutBack {
    fn run<E: VertexEngine>(&mut self, engine: &mut E) {
        self.vertices.run(engine);
        if let Ok(_) = engine.begin() {
            remove(engine, self.vertices.count);
            engine.commit();
        }
        self.service.run(engine);
    }
}

/// Removes all vertices but each tenth.
fn remove<E: VertexEngine>(engine: &mut E, count: u32)
    requires current { IsSome (E.account engine.old).start }
    ensures current { IsSome (E.account engine.new).start }
    ensures job { (E.account engine.new).job ≡ (E.account engine.old).job }
{
    'vertices: for before in 0..count {
        if before % 10 != 0 {
            match engine.drop_vertex(u64::from(before) + 1) {
                Ok(()) => {}
                Err(_) => return,
            }
        }
    }
}

/// Takes turns of the service.
#[derive(Clone, Copy, Debug, PartialEq, Eq)]
pub struct ServeOften {
    pub turns: u32,
    /// How many turns changed a cell.
    pub changed: u32,
    /// How many of the last turns, one after the other, changed none.
    pub still: u32,
}

impl EngineCase for ServeOften {
    fn run<E: VertexEngine>(&mut self, engine: &mut E) {
        'turns: for _turn in 0..self.turns {
            match engine.service_step() {
                Ok(true) => {
                    self.changed = self.changed.saturating_add(1);
                    self.still = 0;
                }
                _ => self.still = self.still.saturating_add(1),
            }
        }
    }
}

/// Adds so many vertices in one transaction, each two above the one before, and commits.
#[derive(Clone, Copy, Debug, PartialEq, Eq)]
pub struct AddEachSecond {
    pub first: u32,
    pub count: u32,
    pub added: u32,
    /// Whether the commit got a stamp.
    pub is_committed: bool,
}

impl EngineCase for AddEachSecond {
    fn run<E: VertexEngine>(&mut self, engine: &mut E) {
        if let Ok(_) = engine.begin() {
            add_each_second(engine, self);
            self.is_committed = engine.commit().is_some();
        }
    }
}

fn add_each_second<E: Engine>(engine: &mut E, case: &mut AddEachSecond)
    requires current { IsSome (E.account engine.old).start }
    ensures current { IsSome (E.account engine.new).start }
    ensures job { (E.account engine.new).job ≡ (E.account engine.old).job }
{
    let mut v = u64::from(case.first);
    'vertices: for before in 0..case.count {
        match engine.add_vertex(v) {
            Ok(()) => case.added = before + 1,
            Err(_) => return,
        }
        v += 2;
    }
}

/// Scans all rows in a transaction, again and again, and keeps how many rows a scan found that is no multiple of the
/// given number.
#[derive(Clone, Copy, Debug, PartialEq, Eq)]
pub struct ScanOften {
    pub rounds: u32,
    pub multiple: u32,
    pub scans: u32,
    pub odd: Option<u64>,
}

impl EngineCase for ScanOften {
    fn run<E: VertexEngine>(&mut self, engine: &mut E) {
        'rounds: for _round in 0..self.rounds {
            match engine.begin() {
                Ok(_) => {}
                Err(_) => return,
            }
            let found = scan_all(engine);
            engine.abort();
            self.scans = self.scans.saturating_add(1);
            if self.multiple == 0 || found % u64::from(self.multiple) != 0 {
                self.odd = Some(found);
            }
        }
    }
}

/// How many rows the transaction sees.
fn scan_all<E: Engine>(engine: &mut E) -> u64
    requires current { IsSome (E.account engine.old).start }
    ensures current { IsSome (E.account engine.new).start }
    ensures job { (E.account engine.new).job ≡ (E.account engine.old).job }
{
    let mut cursor = Cursor {
        next: Key::of_vertex(0),
        until: Key::END,
        done: false,
    };
    let mut rows = Rows64::new();
    let mut count: u64 = 0;
    'scan: for _turn in 0..u64::MAX {
        if cursor.done {
            break;
        }
        engine.scan_step(&mut cursor, &mut rows);
        count = count.wrapping_add(rows.len() as u64);
    }
    count
}
