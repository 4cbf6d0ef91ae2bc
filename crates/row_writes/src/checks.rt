//! Whether a write may be made: what its view refuses, and who stands against it.
//!
//! 1. It reads rows by a trait of cells, so the engine of one owner and that of many passes have one check.

ghost use Rattle.std.specs.Prelude.{◌≡◌, ◌≤◌, ℕ, ◌∷◌, [], cond, None, Some, IfOk};
ghost use Rattle.graph_model.specs.declared.limits.TheConstants.{MAX_ID};
ghost use Rattle.graph_model.specs.declared.write.Write.TheVariants as writes;
ghost use Rattle.graph_model.specs.declared.refusal.Refusal.TheVariants as refusals;
ghost use Rattle.graph_model.specs.Graph.{Graph, has_arc};
ghost use Rattle.graph_model.specs.Refused.{IsWithinLimits, unless_ends};
ghost use Rattle.graph_model.specs.Rows.{vertex_key, arc_key};
ghost use Rattle.undo_chain.specs.States.{Grows};
ghost use Rattle.version_segment.specs.Checks.{newest_of};
ghost use Rattle.version_segment.specs.Rows.{or_nothing};
ghost use Rattle.row_writes.specs.Checks.{Answers, AreNamedHeld, IsAnswer, MayBeAsked, SeesEnds, ShowsHeld, TellsEdges};
ghost use Rattle.row_writes.specs.Checks.{answer_of, looked_keys, refusal_in};
ghost use Rattle.row_writes.specs.Held.{AreHeld};

use crate::cells::HeldCells;
use crate::written::Fingers;
use graph_model::{Cause, Key, Refusal, Write};
use undo_chain::{Snapshot, States};
use version_segment::RowView;
use version_segment::below::combined;

/// The rows of an edge's ends.
#[derive(Drop)]
struct Ends<'a> {
    /// What the first end has.
    source: RowView<'a>,
    /// What the second end has.
    target: RowView<'a>,
}

/// Whether a write of an open transaction may be made. Of several writers that stand against it the one is named that
/// counts. Whether a vertex has edges is asked only where one is removed that the view has: whoever can't look while it
/// holds cells has looked before, and gives that answer.
pub fn check<C: HeldCells, S: States, E: FnOnce(u64) -> bool>(
    cells: &C,
    snapshot: &Snapshot,
    states: &mut S,
    write: Write,
    near: &Fingers<C::Finger>,
    has_edges: E,
) -> Result<(), Refusal>
    requires within { IsWithinLimits write }
    requires held { AreHeld (C.rows cells.now) (looked_keys write) }
    requires known { snapshot.now.start ≤ (S.knowledge states.old).known }
    requires named { AreNamedHeld (S.knowledge states.old).names (C.rows cells.now) }
    requires asked { MayBeAsked (E.pre has_edges) write }
    ensures answer { (g : Graph) → ShowsHeld (S.knowledge states.old).stamps snapshot.now (C.rows cells.now) g
        → TellsEdges (E.post has_edges) g write
        → IsAnswer (S.knowledge states.old) (S.knowledge states.new) snapshot.now (C.rows cells.now) g write result }
    ensures grows { Grows (S.knowledge states.old) (S.knowledge states.new) }
{
    match write {
        Write::AddVertex { v } => check_new_vertex(cells, snapshot, states, v, near.row),
        Write::DropVertex { v } => {
            check_old_vertex(cells, snapshot, states, v, near.row, has_edges)
        }
        Write::AddEdge { u, v, weight: _ } => check_new_edge(cells, snapshot, states, u, v, near),
        // What stands against a change of a weight stands against a removal too, and no more.
        Write::SetEdge { u, v, weight: _ } => check_old_edge(cells, snapshot, states, u, v, near),
        Write::DropEdge { u, v } => check_old_edge(cells, snapshot, states, u, v, near),
    }
}

/// Whether a vertex may be added.
fn check_new_vertex<C: HeldCells, S: States>(
    cells: &C,
    snapshot: &Snapshot,
    states: &mut S,
    v: u64,
    near: C::Finger,
) -> Result<(), Refusal>
    requires held { AreHeld (C.rows cells.now) (vertex_key v ∷ []) }
    requires known { snapshot.now.start ≤ (S.knowledge states.old).known }
    requires named { AreNamedHeld (S.knowledge states.old).names (C.rows cells.now) }
    ensures answer { (g : Graph) → ShowsHeld (S.knowledge states.old).stamps snapshot.now (C.rows cells.now) g
        → IsAnswer (S.knowledge states.old) (S.knowledge states.new) snapshot.now (C.rows cells.now) g
        (writes.AddVertex v) result }
    ensures grows { Grows (S.knowledge states.old) (S.knowledge states.new) }
{
    let row = cells.row(Key::of_vertex(v), near);
    if row.value(snapshot, states).is_some() {
        return Err(Refusal::VertexExists);
    }
    unless_met(row.cause(snapshot, states))
}

/// Whether a vertex may be removed.
fn check_old_vertex<C: HeldCells, S: States, E: FnOnce(u64) -> bool>(
    cells: &C,
    snapshot: &Snapshot,
    states: &mut S,
    v: u64,
    near: C::Finger,
    has_edges: E,
) -> Result<(), Refusal>
    requires held { AreHeld (C.rows cells.now) (vertex_key v ∷ []) }
    requires known { snapshot.now.start ≤ (S.knowledge states.old).known }
    requires named { AreNamedHeld (S.knowledge states.old).names (C.rows cells.now) }
    requires asked { E.pre has_edges v }
    ensures answer { (g : Graph) → ShowsHeld (S.knowledge states.old).stamps snapshot.now (C.rows cells.now) g
        → TellsEdges (E.post has_edges) g (writes.DropVertex v)
        → IsAnswer (S.knowledge states.old) (S.knowledge states.new) snapshot.now (C.rows cells.now) g
        (writes.DropVertex v) result }
    ensures grows { Grows (S.knowledge states.old) (S.knowledge states.new) }
{
    let row = cells.row(Key::of_vertex(v), near);
    // The view comes first: what the transaction doesn't see is told before who stands against it.
    if row.value(snapshot, states).is_none() {
        return Err(Refusal::NoVertex { v });
    }
    // Asked only of a vertex that is there, since an answer may cost a walk over all rows.
    if has_edges(v) {
        return Err(Refusal::HasEdges);
    }
    // Whoever added an edge at it stands against its removal, though no value of the vertex has changed.
    unless_met(row.removal_cause(snapshot, states))
}

/// Whether the ends of an edge are two vertices. Lends their rows.
fn check_ends<'a, C: HeldCells, S: States>(
    cells: &'a C,
    snapshot: &Snapshot,
    states: &mut S,
    u: u64,
    v: u64,
    near: &Fingers<C::Finger>,
) -> Result<Ends<'a>, Refusal>
    requires held { AreHeld (C.rows cells.now) (vertex_key u ∷ vertex_key v ∷ []) }
    requires known { snapshot.now.start ≤ (S.knowledge states.old).known }
    requires named { AreNamedHeld (S.knowledge states.old).names (C.rows cells.now) }
    ensures sees { (g : Graph) → ShowsHeld (S.knowledge states.old).stamps snapshot.now (C.rows cells.now) g
        → SeesEnds g u v result }
    ensures source { IfOk result (λ ends. or_nothing ends.source ≡ (C.rows cells.now).versions (vertex_key u)) }
    ensures target { IfOk result (λ ends. or_nothing ends.target ≡ (C.rows cells.now).versions (vertex_key v)) }
    ensures grows { Grows (S.knowledge states.old) (S.knowledge states.new) }
{
    // No row is looked up for it.
    if u == v {
        return Err(Refusal::SelfLoop);
    }
    let source = cells.row(Key::of_vertex(u), near.source);
    if source.value(snapshot, states).is_none() {
        return Err(Refusal::NoVertex { v: u });
    }
    let target = cells.row(Key::of_vertex(v), near.target);
    if target.value(snapshot, states).is_none() {
        return Err(Refusal::NoVertex { v });
    }
    Ok(Ends { source, target })
}

/// Whether an edge may be added.
fn check_new_edge<C: HeldCells, S: States>(
    cells: &C,
    snapshot: &Snapshot,
    states: &mut S,
    u: u64,
    v: u64,
    near: &Fingers<C::Finger>,
) -> Result<(), Refusal>
    requires within { v ≤ MAX_ID }
    requires held { AreHeld (C.rows cells.now) (arc_key u v ∷ vertex_key u ∷ vertex_key v ∷ []) }
    requires known { snapshot.now.start ≤ (S.knowledge states.old).known }
    requires named { AreNamedHeld (S.knowledge states.old).names (C.rows cells.now) }
    ensures answer { (g : Graph) (weight : ℕ)
        → ShowsHeld (S.knowledge states.old).stamps snapshot.now (C.rows cells.now) g
        → IsAnswer (S.knowledge states.old) (S.knowledge states.new) snapshot.now (C.rows cells.now) g
        (writes.AddEdge u v weight) result }
    ensures grows { Grows (S.knowledge states.old) (S.knowledge states.new) }
{
    let ends = check_ends(cells, snapshot, states, u, v, near)?;
    let arc = cells.row(Key::of_arc(u, v), near.row);
    if arc.value(snapshot, states).is_some() {
        return Err(Refusal::EdgeExists);
    }
    let newest = arc.cause(snapshot, states);
    // Of the ends only a removal stands against the edge: others may add edges there, or remove them.
    let source = ends.source.drop_cause(snapshot, states);
    let target = ends.target.drop_cause(snapshot, states);
    unless_met(combined(newest, combined(source, target)))
}

/// Whether an edge may be set or removed.
fn check_old_edge<C: HeldCells, S: States>(
    cells: &C,
    snapshot: &Snapshot,
    states: &mut S,
    u: u64,
    v: u64,
    near: &Fingers<C::Finger>,
) -> Result<(), Refusal>
    requires within { v ≤ MAX_ID }
    requires held { AreHeld (C.rows cells.now) (arc_key u v ∷ vertex_key u ∷ vertex_key v ∷ []) }
    requires known { snapshot.now.start ≤ (S.knowledge states.old).known }
    requires named { AreNamedHeld (S.knowledge states.old).names (C.rows cells.now) }
    ensures answer { (g : Graph) → ShowsHeld (S.knowledge states.old).stamps snapshot.now (C.rows cells.now) g
        → Answers (S.knowledge states.old) (S.knowledge states.new) snapshot.now
        (unless_ends g u v (cond (has_arc g u v) None (Some refusals.NoEdge)))
        (newest_of ((C.rows cells.now).versions (arc_key u v))) result }
    ensures grows { Grows (S.knowledge states.old) (S.knowledge states.new) }
{
    check_ends(cells, snapshot, states, u, v, near)?;
    let arc = cells.row(Key::of_arc(u, v), near.row);
    if arc.value(snapshot, states).is_none() {
        return Err(Refusal::NoEdge);
    }
    unless_met(arc.cause(snapshot, states))
}

/// A write that its view allows is refused where somebody stands against it.
fn unless_met(cause: Option<Cause>) -> Result<(), Refusal>
    ensures { refusal_in result ≡ answer_of None cause }
{
    match cause {
        Some(cause) => Err(Refusal::Conflict { cause }),
        None => Ok(()),
    }
}
