//! What an engine does in a round. It has no transaction before, and none afterwards.

ghost use Rattle.std.specs.Prelude.{◌≡◌, None, IsSome};
ghost use Rattle.cases_workers.specs.Cases.{StaysClosed};

use crate::round::{Beside, PartWork, Round};
use bench_graphs::Edit;
use graph_model::{Cursor, Engine, Key, Rows64};

/// So many edges are read in a transaction.
const READS: usize = 1024;

/// So many transactions stand between two turns of the service that their engine takes.
const BETWEEN: u64 = 20;

/// Does the part of an engine at a place, and counts what it has done.
pub fn take_part<E: Engine>(round: &Round, place: u64, engine: &mut E)
    requires closed { (E.account engine.old).start ≡ None }
    ensures { StaysClosed (E.account engine.old) (E.account engine.new) }
{
    if place < round.workers {
        let done = work(round, place, engine);
        round.counts.add_done(done);
    } else {
        let done = stand_by(round, place, engine);
        round.counts.add_beside(done);
    }
}

/// Does the work of a place, and answers how much of it was done.
fn work<E: Engine>(round: &Round, place: u64, engine: &mut E) -> u64
    requires closed { (E.account engine.old).start ≡ None }
    ensures { StaysClosed (E.account engine.old) (E.account engine.new) }
{
    match round.work {
        PartWork::Read => read_part(engine, part_of(round, place)),
        PartWork::Scan => scan_often(engine, round.amount),
        PartWork::Set => set_often(engine, round, place),
        PartWork::Serve => serve_often(engine, round.amount),
    }
}

/// Does something until those that work are through, and answers how many edges were set.
fn stand_by<E: Engine>(round: &Round, place: u64, engine: &mut E) -> u64
    requires closed { (E.account engine.old).start ≡ None }
    ensures { StaysClosed (E.account engine.old) (E.account engine.new) }
{
    match round.beside {
        Beside::Rest => 0,
        Beside::Set => set_beside(engine, round, part_of(round, place)),
        Beside::Serve => serve_beside(engine, round),
        Beside::Read => read_beside(engine, round, part_of(round, place)),
    }
}

/// The edges of a place: one part for each that works, and one for all others.
fn part_of(round: &Round, place: u64) -> &[Edit] {
    let edges = round.edges.as_slice();
    let parts = round.workers.saturating_add(1);
    let size = edges.len() as u64 / parts.max(1);
    let (_, rest) = edges.split_at(size.saturating_mul(place).min(edges.len() as u64) as usize);
    let (part, _) = rest.split_at(size.min(rest.len() as u64) as usize);
    part
}

/// Reads each edge, and answers how many there are.
fn read_part<E: Engine>(engine: &mut E, edges: &[Edit]) -> u64
    requires closed { (E.account engine.old).start ≡ None }
    ensures { StaysClosed (E.account engine.old) (E.account engine.new) }
{
    let mut found: u64 = 0;
    'batches: for batch in edges.chunks(READS) {
        match engine.begin() {
            Ok(_) => {}
            Err(_) => return found,
        }
        found = found.wrapping_add(count_found(engine, batch));
        engine.commit();
    }
    found
}

/// How many of these edges the transaction sees.
fn count_found<E: Engine>(engine: &mut E, edges: &[Edit]) -> u64
    requires current { IsSome (E.account engine.old).start }
    ensures current { IsSome (E.account engine.new).start }
    ensures job { (E.account engine.new).job ≡ (E.account engine.old).job }
{
    let mut found: u64 = 0;
    'edges: for number in 0..edges.len() {
        if is_seen(engine, edges[number]) {
            found = found.wrapping_add(1);
        }
    }
    found
}

/// Whether the transaction sees an edge.
fn is_seen<E: Engine>(engine: &mut E, edge: Edit) -> bool
    requires current { IsSome (E.account engine.old).start }
    ensures current { IsSome (E.account engine.new).start }
    ensures job { (E.account engine.new).job ≡ (E.account engine.old).job }
{
    engine
        .weight(u64::from(edge.u), u64::from(edge.v))
        .is_some()
}

/// Scans all rows so many times, each time in a transaction of its own, and answers how many rows it has seen.
fn scan_often<E: Engine>(engine: &mut E, times: u64) -> u64
    requires closed { (E.account engine.old).start ≡ None }
    ensures { StaysClosed (E.account engine.old) (E.account engine.new) }
{
    let mut seen: u64 = 0;
    'times: for _time in 0..times {
        match engine.begin() {
            Ok(_) => {}
            Err(_) => return seen,
        }
        seen = seen.wrapping_add(scan_all(engine));
        engine.commit();
    }
    seen
}

/// How many rows the transaction sees.
fn scan_all<E: Engine>(engine: &mut E) -> u64
    requires current { IsSome (E.account engine.old).start }
    ensures current { IsSome (E.account engine.new).start }
    ensures job { (E.account engine.new).job ≡ (E.account engine.old).job }
{
    let mut cursor = Cursor {
        next: Key::of_vertex(0),
        until: Key::END,
        done: false,
    };
    let mut rows = Rows64::new();
    let mut seen: u64 = 0;
    'scan: for _turn in 0..u64::MAX {
        if cursor.done {
            break;
        }
        engine.scan_step(&mut cursor, &mut rows);
        seen = seen.wrapping_add(rows.len() as u64);
    }
    seen
}

/// Sets edges one after the other, from a place of its own on and from the first one again, and answers how many were
/// set. Where another transaction stands against it an edge is passed over.
fn set_often<E: Engine>(engine: &mut E, round: &Round, place: u64) -> u64
    requires closed { (E.account engine.old).start ≡ None }
    ensures { StaysClosed (E.account engine.old) (E.account engine.new) }
{
    let edges = round.edges.as_slice();
    let count = edges.len().max(1) as u64;
    let first = (count / round.workers.max(1)).wrapping_mul(place);
    let mut done: u64 = 0;
    'edges: for number in 0..round.amount {
        if set(engine, edges, first.wrapping_add(number) % count) {
            done = done.wrapping_add(1);
        }
    }
    done
}

/// Sets edges until those that work are through, with turns of the service between them. Answers how many were set.
fn set_beside<E: Engine>(engine: &mut E, round: &Round, edges: &[Edit]) -> u64
    requires closed { (E.account engine.old).start ≡ None }
    ensures { StaysClosed (E.account engine.old) (E.account engine.new) }
{
    let count = edges.len().max(1) as u64;
    let mut done: u64 = 0;
    'edges: for number in 0..u64::MAX {
        if round.counts.through() >= round.workers {
            return done;
        }
        if set(engine, edges, number % count) {
            done = done.wrapping_add(1);
        }
        if number % BETWEEN == 0 {
            let _ = engine.service_step();
        }
    }
    done
}

/// Sets the edge at a place in a transaction of its own, and answers whether it was set.
fn set<E: Engine>(engine: &mut E, edges: &[Edit], place: u64) -> bool
    requires closed { (E.account engine.old).start ≡ None }
    ensures { StaysClosed (E.account engine.old) (E.account engine.new) }
{
    let Some(edge) = edges.get(place as usize) else {
        return false;
    };
    let edge = *edge;
    match engine.begin() {
        Ok(_) => {}
        Err(_) => return false,
    }
    let is_set = set_open(engine, edge);
    engine.commit();
    is_set
}

/// Sets an edge in the open transaction, and answers whether it was set.
fn set_open<E: Engine>(engine: &mut E, edge: Edit) -> bool
    requires current { IsSome (E.account engine.old).start }
    ensures current { IsSome (E.account engine.new).start }
    ensures job { (E.account engine.new).job ≡ (E.account engine.old).job }
{
    let result = engine.set_edge(u64::from(edge.u), u64::from(edge.v), 2);
    result.is_ok()
}

/// Takes so many turns of the service, and answers how many changed no cell.
fn serve_often<E: Engine>(engine: &mut E, turns: u64) -> u64
    requires closed { (E.account engine.old).start ≡ None }
    ensures { StaysClosed (E.account engine.old) (E.account engine.new) }
{
    let mut still: u64 = 0;
    'turns: for _turn in 0..turns {
        if let Ok(false) = engine.service_step() {
            still = still.wrapping_add(1);
        }
    }
    still
}

/// Takes turns of the service until those that work are through. It sets no edge.
fn serve_beside<E: Engine>(engine: &mut E, round: &Round) -> u64
    requires closed { (E.account engine.old).start ≡ None }
    ensures { StaysClosed (E.account engine.old) (E.account engine.new) }
{
    'turns: for _turn in 0..u64::MAX {
        if round.counts.through() >= round.workers {
            return 0;
        }
        let _ = engine.service_step();
    }
    0
}

/// Keeps a transaction open until those that work are through, and reads edges in it. It sets no edge.
fn read_beside<E: Engine>(engine: &mut E, round: &Round, edges: &[Edit]) -> u64
    requires closed { (E.account engine.old).start ≡ None }
    ensures { StaysClosed (E.account engine.old) (E.account engine.new) }
{
    match engine.begin() {
        Ok(_) => {}
        Err(_) => return 0,
    }
    read_on(engine, round, edges);
    engine.commit();
    0
}

/// Reads edges one after the other, and from the first one again, until those that work are through.
fn read_on<E: Engine>(engine: &mut E, round: &Round, edges: &[Edit])
    requires current { IsSome (E.account engine.old).start }
    ensures current { IsSome (E.account engine.new).start }
    ensures job { (E.account engine.new).job ≡ (E.account engine.old).job }
{
    let count = edges.len().max(1) as u64;
    'reads: for number in 0..u64::MAX {
        if round.counts.through() >= round.workers {
            return;
        }
        if let Some(edge) = edges.get((number % count) as usize) {
            is_seen(engine, *edge);
        }
    }
}
