//! A look at a snapshot.
//!
//! 1. The transaction ends as soon as the image is made, so it keeps no records while the kernels run.
//! 2. All that a look says is of one snapshot, and it says how many commits that has.

ghost use Rattle.std.specs.Prelude.{◌≡◌, IfOk};
ghost use Rattle.std.specs.List.{AllByRecursion};
ghost use Rattle.graph_model.specs.Graph.{Graph};
ghost use Rattle.graph_image.specs.Images.{IsImageOf};
ghost use Rattle.desk.specs.Rings.{IsRing, graph_after};

use crate::known::KnownRings;
use crate::refusal::LookRefusal;
use crate::ring::Ring;
use graph_image::{Image, Table, Value};
use std::alloc::Global;
use std::thread::Threads;
use teseo_store::{NotBegun, Session, SessionPlace, VertexEngine};

/// So many rounds labels go from account to account.
const ROUNDS: u32 = 10;

/// What a look has found out.
#[derive(Drop)]
pub struct Look {
    /// How many commits it has seen.
    pub commits: u64,
    pub accounts: usize,
    /// What all accounts have paid.
    pub amount: u64,
    /// How many sets of accounts there are between which nobody has paid anybody.
    pub components: usize,
    /// The rings that weren't known.
    pub rings: Vec<Ring>,
}

/// Looks at what the store has now. The transaction ends as soon as there is an image of it, so it holds nobody up.
/// What it finds are rings of the graph of so many commits as it has seen.
pub fn take_look<R: Threads + Sync, E: VertexEngine, P: SessionPlace>(
    rt: &R,
    alloc: Global,
    session: Session<E, P>,
    known: &mut KnownRings,
) -> (Session<E, P>, Result<Look, LookRefusal>)
    ensures rings { IfOk result.1 (λ look. AllByRecursion (λ ring. IsRing (graph_after (E.account result.0.engine)
        look.commits) ring.accounts.items) look.rings.items) }
{
    let mut txn = match session.begin() {
        Ok(txn) => txn,
        Err(NotBegun { session, why }) => return (session, Err(LookRefusal::NotBegun(why))),
    };
    let commits = txn.start();
    let image = txn.image(alloc);
    // It has written nothing. A snapshot that stays open would keep old versions in the store.
    let session = txn.abort();
    match image {
        Ok(image) => (session, analysed(rt, alloc, &image, commits, known)),
        Err(why) => (session, Err(LookRefusal::from(why))),
    }
}

/// How many commits there are now.
pub fn count_commits<E: VertexEngine, P: SessionPlace>(
    session: Session<E, P>,
) -> (Session<E, P>, Result<u64, LookRefusal>) {
    match session.begin() {
        Ok(txn) => {
            let commits = txn.start();
            (txn.abort(), Ok(commits))
        }
        Err(NotBegun { session, why }) => (session, Err(LookRefusal::NotBegun(why))),
    }
}

/// What the kernels say of an image.
fn analysed<R: Threads + Sync>(
    rt: &R,
    alloc: Global,
    image: &Image,
    commits: u64,
    known: &mut KnownRings,
) -> Result<Look, LookRefusal>
    ensures commits { IfOk result (λ look. look.commits ≡ commits) }
    ensures rings { IfOk result (λ look. (g : Graph) → IsImageOf image.now g
        → AllByRecursion (λ ring. IsRing g ring.accounts.items) look.rings.items) }
{
    let components = kernel_wcc::run(rt, alloc, image)?;
    let labels = kernel_cdlp::run(rt, alloc, image, ROUNDS)?;
    let rings = known.new_rings(rt, alloc, image, &labels)?;
    Ok(Look {
        commits,
        accounts: image.len(),
        amount: amount_of(image),
        components: count_leaders(&components),
        rings,
    })
}

/// How many vertices have their own id.
fn count_leaders(table: &Table) -> usize {
    table
        .as_slice()
        .iter()
        .filter(|entry| entry.value == Value::Number { n: entry.vertex })
        .count()
}

/// What all accounts have paid.
fn amount_of(image: &Image) -> u64 {
    let mut amount: u64 = 0;
    'places: for place in 0..image.len() {
        'arcs: for arc in image.out(place) {
            // An amount is said and nothing rests on it, so the last number may stand for more.
            amount = amount.saturating_add(u64::from(arc.weight));
        }
    }
    amount
}
