//! One turn of a line, on an engine.
//!
//! 1. Each function says which calls it makes, so it holds of whatever engine makes them. A line that fails for want of
//!    memory has made one call that changed nothing, or reads alone.
//! 2. A conflict, or `full`, takes the transaction back in the same turn.
//! 3. A line that scans answers with the last turn of its scan, also where it turns out that a vertex
//!    isn't there.

ghost use Rattle.std.specs.Prelude.{◌≡◌, ℕ, ◌<◌, ◌≤◌, true, Option, Some, None, Ok, Err, IsSome, IfSome, IfOk, OnOk, OnErr};
ghost use Rattle.graph_model.specs.declared.journal.Begun.{Begun};
ghost use Rattle.graph_model.specs.declared.limits.TheConstants.{MAX_ID};
ghost use Rattle.graph_model.specs.declared.refusal.BeginRefusal.TheVariants as begin_refusals;
ghost use Rattle.graph_model.specs.Account.{IsValid};
ghost use Rattle.graph_model.specs.Refused.{IsWithinLimits};
ghost use Rattle.run_model.specs.declared.answer.Answer.TheVariants as answers;
ghost use Rattle.run_model.specs.declared.command.Command.TheVariants as commands;
ghost use Rattle.run_model.specs.declared.command.Query.{Query};
ghost use Rattle.run_model.specs.declared.command.Query.TheVariants.{WeightOf, NeighboursOf, Counts};
ghost use Rattle.run_model.specs.Jobs.{skips};
ghost use Rattle.line_runner.specs.Kernels.{IsKeptImage};
ghost use Rattle.line_runner.specs.Scanning.{IsReading, IsScan};
ghost use Rattle.line_runner.specs.Phases.{phase_behind, plain};
ghost use Rattle.line_runner.specs.Turns.{is_call, view_now, Advances, AnswersOn, AnswersRead, FinishesOn, MayTakeNow, ReadsOn, TakesOn, WantsOn, WritesOn, calls};

use crate::answering::{LineAnswer, LineTurn};
use crate::kept::KeptImage;
use crate::kernel_line::run_kernel;
use crate::phase::Phase;
use crate::reading::LineReading;
use crate::scan::Scan;
use graph_model::{BeginRefusal, Engine, NoMemory, Refusal, VertexEngine, Write};
use run_model::{Answer, Command, Query};
use std::alloc::Global;
use std::thread::Threads;

/// Takes one turn of a line.
pub fn take_line<R: Threads + Sync, E: VertexEngine>(
    rt: &R,
    alloc: Global,
    engine: &mut E,
    command: &Command,
    phase: Phase,
    reading: Option<LineReading>,
    image: &mut Option<KeptImage>,
) -> Result<LineTurn, NoMemory>
    requires may { MayTakeNow (E.account engine.old) phase reading command.now }
    requires kept { IfSome image.old (IsKeptImage (view_now (E.account engine.old))) }
    ensures takes { let e = calls E.account E.did_begin E.did_write E.did_read E.did_commit E.did_abort in
        IfOk result (λ turn. TakesOn e engine.old phase reading command.now turn engine.new) }
    ensures kept { OnOk result (IfSome image.new (IsKeptImage (view_now (E.account engine.old)))) }
    ensures err { let e = calls E.account E.did_begin E.did_write E.did_read E.did_commit E.did_abort in
        OnErr result (WantsOn e engine.old engine.new) }
{
    // The transaction is over, so there is nothing to ask the engine for.
    if let Phase::Skipping = phase {
        return Ok(LineTurn::Answering {
            given: skip(command),
        });
    }
    let given = match command {
        Command::Begin => begin(engine)?,
        Command::Commit => commit(engine),
        Command::Abort => abort(engine),
        Command::Write { write } => make_write(engine, *write)?,
        Command::Read { query } => return read(alloc, engine, *query, reading),
        Command::Run { kernel, file } => {
            return run_kernel(rt, alloc, engine, *kernel, file, reading, image);
        }
    };
    Ok(LineTurn::Answering { given })
}

/// Answers a line that reads no rows, which takes one turn: it is skipped, or calls the engine once.
pub fn answer_call<E: VertexEngine>(
    engine: &mut E,
    command: &Command,
    phase: Phase,
) -> Result<LineAnswer, NoMemory>
    requires may { MayTakeNow (E.account engine.old) phase None command.now }
    requires call { is_call command.now ≡ true }
    ensures answers { let e = calls E.account E.did_begin E.did_write E.did_read E.did_commit E.did_abort in
        IfOk result (λ given. AnswersOn e engine.old phase None command.now given engine.new) }
    ensures err { let e = calls E.account E.did_begin E.did_write E.did_read E.did_commit E.did_abort in
        OnErr result (WantsOn e engine.old engine.new) }
{
    match phase {
        Phase::Skipping => Ok(skip(command)),
        _ => match command {
            Command::Begin => begin(engine),
            Command::Commit => Ok(commit(engine)),
            Command::Abort => Ok(abort(engine)),
            Command::Write { write } => make_write(engine, *write),
            Command::Read { query: _ } => unreachable!(),
            Command::Run { kernel: _, file: _ } => unreachable!(),
        },
    }
}

/// Whether the line reads no rows.
pub fn is_call(command: &Command) -> bool
    ensures { result ≡ is_call command.now }
{
    match command {
        Command::Read { query: _ } => false,
        Command::Run { kernel: _, file: _ } => false,
        _ => true,
    }
}

/// Begins a transaction.
fn begin<E: Engine>(engine: &mut E) -> Result<LineAnswer, NoMemory>
    requires closed { (E.account engine.old).start ≡ None }
    requires room { (E.account engine.old).begun < (E.account engine.old).allowed }
    ensures does { IfOk result (λ given. (begun : Begun)
        × (given ≡ plain (answers.Begun begun.by begun.start) Phase.Open)
        × E.did_begin engine.old (Ok begun) engine.new) }
    ensures err { OnErr result (E.did_begin engine.old (Err begin_refusals.NoMemory) engine.new) }
{
    match engine.begin() {
        Ok(begun) => {
            let answer = Answer::Begun {
                by: begun.by,
                start: begun.start,
            };
            Ok(LineAnswer::plain(answer, Phase::Open))
        }
        // A pass may begin as many transactions as its script has (`room` of `MayTakeNow`).
        Err(BeginRefusal::TxnsUsed) => unreachable!(),
        Err(BeginRefusal::NoMemory) => Err(NoMemory),
    }
}

/// Commits the transaction.
fn commit<E: Engine>(engine: &mut E) -> LineAnswer
    requires { IsSome (E.account engine.old).start }
    ensures { (stamp : Option ℕ) × (result ≡ plain (answers.Committed stamp) Phase.Between)
        × E.did_commit engine.old stamp engine.new }
{
    let stamp = engine.commit();
    LineAnswer::plain(Answer::Committed { stamp }, Phase::Between)
}

/// Takes the transaction back.
fn abort<E: Engine>(engine: &mut E) -> LineAnswer
    requires { IsSome (E.account engine.old).start }
    ensures answer { result ≡ plain answers.Aborted Phase.Between }
    ensures did { E.did_abort engine.old engine.new }
{
    engine.abort();
    LineAnswer::plain(Answer::Aborted, Phase::Between)
}

/// Makes a write, and takes the transaction back where a conflict or a full store stops it.
fn make_write<E: VertexEngine>(engine: &mut E, w: Write) -> Result<LineAnswer, NoMemory>
    requires current { IsSome (E.account engine.old).start }
    requires within { IsWithinLimits w }
    ensures { WritesOn E.did_write E.did_abort engine.old w result engine.new }
{
    let wrote = hand_over(engine, w);
    finish(engine, wrote)
}

/// Hands a write to the engine.
fn hand_over<E: VertexEngine>(engine: &mut E, w: Write) -> Result<(), Refusal>
    requires current { IsSome (E.account engine.old).start }
    requires within { IsWithinLimits w }
    ensures { E.did_write engine.old w result engine.new }
{
    match w {
        Write::AddVertex { v } => engine.add_vertex(v),
        Write::DropVertex { v } => engine.drop_vertex(v),
        Write::AddEdge { u, v, weight } => engine.add_edge(u, v, weight),
        Write::SetEdge { u, v, weight } => engine.set_edge(u, v, weight),
        Write::DropEdge { u, v } => engine.drop_edge(u, v),
    }
}

/// Answers a write, and takes the transaction back where the write stops it.
fn finish<E: Engine>(engine: &mut E, wrote: Result<(), Refusal>) -> Result<LineAnswer, NoMemory>
    requires { IsSome (E.account engine.old).start }
    ensures { FinishesOn E.did_abort engine.old wrote result engine.new }
{
    let answer = match wrote {
        Ok(()) => Answer::Done,
        Err(Refusal::SelfLoop) => Answer::SelfLoop,
        Err(Refusal::NoVertex { v }) => Answer::NoVertex { v },
        Err(Refusal::VertexExists) => Answer::Exists,
        Err(Refusal::EdgeExists) => Answer::Exists,
        Err(Refusal::NoEdge) => Answer::NoEdge,
        Err(Refusal::HasEdges) => Answer::HasEdges,
        // A conflict stays for as long as the transaction does, and a full store may: so it lets go of its rows at
        // once, and doesn't keep others from them.
        Err(Refusal::Conflict { cause }) => return Ok(stop(engine, Answer::Conflict { cause })),
        Err(Refusal::Full { leaves: _ }) => return Ok(stop(engine, Answer::Full)),
        Err(Refusal::NoMemory) => return Err(NoMemory),
    };
    Ok(LineAnswer::plain(answer, Phase::Open))
}

/// Takes the transaction back, whose other lines are skipped.
fn stop<E: Engine>(engine: &mut E, answer: Answer) -> LineAnswer
    requires { IsSome (E.account engine.old).start }
    ensures answer { result ≡ plain answer Phase.Skipping }
    ensures did { E.did_abort engine.old engine.new }
{
    // At once, so that no row of it stands in the way of others while its lines are skipped.
    engine.abort();
    LineAnswer::plain(answer, Phase::Skipping)
}

/// Takes one turn of a read.
fn read<E: Engine>(
    alloc: Global,
    engine: &mut E,
    query: Query,
    before: Option<LineReading>,
) -> Result<LineTurn, NoMemory>
    requires { MayTakeNow (E.account engine.old) Phase.Open before (commands.Read query) }
    ensures takes { let e = calls E.account E.did_begin E.did_write E.did_read E.did_commit E.did_abort in
        IfOk result (λ turn. TakesOn e engine.old Phase.Open before (commands.Read query) turn engine.new) }
    ensures err { OnErr result (ReadsOn E.did_read engine.old engine.new) }
{
    match query {
        Query::WeightOf { u, v } => Ok(LineTurn::Answering {
            given: weight(engine, u, v),
        }),
        Query::NeighboursOf { v } => neighbours(alloc, engine, v, before),
        Query::Counts => count(engine, before),
    }
}

/// Reads a weight.
fn weight<E: Engine>(engine: &mut E, u: u64, v: u64) -> LineAnswer
    requires current { IsSome (E.account engine.old).start }
    requires source { u ≤ MAX_ID }
    requires target { v ≤ MAX_ID }
    ensures { AnswersRead E.account E.did_read engine.old (WeightOf u v) result engine.new }
{
    let answer = match engine.weight(u, v) {
        Some(weight) => Answer::Weight { weight },
        None => Answer::Nothing,
    };
    LineAnswer::plain(answer, Phase::Open)
}

/// Skips a line behind a stop, up to the end of its transaction.
fn skip(command: &Command) -> LineAnswer
    ensures { result ≡ plain answers.Skipped (phase_behind (skips command.now)) }
{
    let phase = match command {
        Command::Commit => Phase::Between,
        Command::Abort => Phase::Between,
        _ => Phase::Skipping,
    };
    LineAnswer::plain(Answer::Skipped, phase)
}

/// Takes one turn of the scan of a read: the one under way, or a new one.
fn advance<E: Engine>(
    engine: &mut E,
    before: Option<LineReading>,
    fresh: Scan,
) -> Result<Scan, NoMemory>
    requires valid { IsValid (E.account engine.old) }
    requires current { IsSome (E.account engine.old).start }
    requires scans { (query : Query) × IfSome before (IsReading (view_now (E.account engine.old)) (commands.Read query))
        × IsScan (view_now (E.account engine.old)) (commands.Read query) fresh }
    requires empty { fresh.rows ≡ 0 }
    ensures advances { IfOk result (λ next. (query : Query)
        → IfSome before (IsReading (view_now (E.account engine.old)) (commands.Read query))
        → IsScan (view_now (E.account engine.old)) (commands.Read query) fresh
        → Advances (view_now (E.account engine.old)) before (commands.Read query) next) }
    ensures did { E.did_read engine.old engine.new }
{
    let mut scan = before
        .unwrap_or(LineReading::Scan { scan: fresh })
        .into_scan();
    scan.step(engine)?;
    Ok(scan)
}

/// Scans the arcs that lead from a vertex.
fn neighbours<E: Engine>(
    alloc: Global,
    engine: &mut E,
    v: u64,
    before: Option<LineReading>,
) -> Result<LineTurn, NoMemory>
    requires { MayTakeNow (E.account engine.old) Phase.Open before (commands.Read (NeighboursOf v)) }
    ensures takes { let e = calls E.account E.did_begin E.did_write E.did_read E.did_commit E.did_abort in
        IfOk result (λ turn. TakesOn e engine.old Phase.Open before (commands.Read (NeighboursOf v)) turn engine.new) }
    ensures err { OnErr result (ReadsOn E.did_read engine.old engine.new) }
{
    let scan = advance(engine, before, Scan::of_arcs(alloc, v))?;
    if !scan.cursor.done {
        let reading = LineReading::Scan { scan };
        return Ok(LineTurn::Scanning { reading });
    }
    // Asked with the last turn, so that a line takes as many turns whether the vertex is there or not.
    let answer = if engine.has_vertex(v) {
        Answer::Neighbours {
            targets: scan.into_targets(),
        }
    } else {
        Answer::NoVertex { v }
    };
    Ok(LineTurn::Answering {
        given: LineAnswer::plain(answer, Phase::Open),
    })
}

/// Scans all rows, and counts them.
fn count<E: Engine>(engine: &mut E, before: Option<LineReading>) -> Result<LineTurn, NoMemory>
    requires { MayTakeNow (E.account engine.old) Phase.Open before (commands.Read Counts) }
    ensures takes { let e = calls E.account E.did_begin E.did_write E.did_read E.did_commit E.did_abort in
        IfOk result (λ turn. TakesOn e engine.old Phase.Open before (commands.Read Counts) turn engine.new) }
    ensures err { OnErr result (ReadsOn E.did_read engine.old engine.new) }
{
    let scan = advance(engine, before, Scan::of_counts())?;
    if !scan.cursor.done {
        let reading = LineReading::Scan { scan };
        return Ok(LineTurn::Scanning { reading });
    }
    let answer = scan.into_counts(engine.kind());
    Ok(LineTurn::Answering {
        given: LineAnswer::plain(answer, Phase::Open),
    })
}
