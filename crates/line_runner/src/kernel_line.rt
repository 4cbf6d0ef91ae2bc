//! A kernel's line, turn by turn or as a whole.
//!
//! 1. A kernel runs on the image of all rows that its transaction sees. The first one scans the rows, and the
//!    image is made with the last of them; it is kept for the next ones.
//! 2. Turn by turn a line takes as many turns on an image that is kept as on rows that it scans.
//! 3. As a whole it takes one turn, and several readers scan the rows at once.

ghost use Rattle.std.specs.Prelude.{◌≡◌, ◌<◌, ◌≤◌, ℕ, List, Option, Some, IfSome, IsSome, IfOk, OnOk, OnErr};
ghost use Rattle.graph_model.specs.Account.{IsValid};
ghost use Rattle.graph_model.specs.Graph.{Graph};
ghost use Rattle.run_model.specs.declared.command.Kernel.{Kernel};
ghost use Rattle.run_model.specs.declared.command.Command.TheVariants as commands;
ghost use Rattle.run_model.specs.Commands.{root_of};
ghost use Rattle.line_runner.specs.Kernels.{IsKeptImage, IsKernelImage};
ghost use Rattle.line_runner.specs.Scanning.{IsReading, IsScan, taken_of};
ghost use Rattle.line_runner.specs.Phases.{AnswersKernel};
ghost use Rattle.line_runner.specs.Turns.{view_now, AnswersLive, MayTakeNow, ReadsImage, ReadsOn, TakesOn, calls};

use crate::answering::{LineAnswer, LineTurn};
use crate::kept::KeptImage;
use crate::phase::Phase;
use crate::reading::LineReading;
use crate::scan::Scan;
use crate::table::{NamedTable, copy_of, kernel_table};
use graph_image::Image;
use graph_model::{Engine, KernelRefusal, Kind, NoMemory};
use part_scan::PartScan;
use run_model::{Answer, Kernel, Name};
use std::alloc::Global;
use std::thread::Threads;

/// What one turn makes of the image that a kernel runs on.
#[derive(Drop)]
pub enum ImageTurn {
    /// Turns are left.
    Further { reading: LineReading },
    /// It was the last, and the image is there.
    Whole { kept: KeptImage },
}

/// Takes one turn of a kernel's line, which runs with the last one.
pub fn run_kernel<R: Threads + Sync, E: Engine>(
    rt: &R,
    alloc: Global,
    engine: &mut E,
    kernel: Kernel,
    file: &Name,
    before: Option<LineReading>,
    image: &mut Option<KeptImage>,
) -> Result<LineTurn, NoMemory>
    requires may { MayTakeNow (E.account engine.old) Phase.Open before (commands.Run kernel file.now) }
    requires kept { IfSome image.old (IsKeptImage (view_now (E.account engine.old))) }
    ensures takes { let r = commands.Run kernel file.now in
        let e = calls E.account E.did_begin E.did_write E.did_read E.did_commit E.did_abort in
        IfOk result (λ turn. TakesOn e engine.old Phase.Open before r turn engine.new) }
    ensures kept { OnOk result (IfSome image.new (IsKeptImage (view_now (E.account engine.old)))) }
    ensures err { OnErr result (ReadsOn E.did_read engine.old engine.new) }
{
    match read_image(rt, alloc, engine, before, image.take())? {
        ImageTurn::Further { reading } => Ok(LineTurn::Scanning { reading }),
        ImageTurn::Whole { kept } => {
            // Before the image is handed out again: a run that is out of memory ends, and needs none.
            let given = answer_kernel(rt, alloc, engine.kind(), kernel, file, &kept.image)?;
            *image = Some(kept);
            Ok(LineTurn::Answering { given })
        }
    }
}

/// Takes one turn of what the line has begun to read, else of the image that is kept, else of all rows.
fn read_image<R: Threads + Sync, E: Engine>(
    rt: &R,
    alloc: Global,
    engine: &mut E,
    before: Option<LineReading>,
    image: Option<KeptImage>,
) -> Result<ImageTurn, NoMemory>
    requires valid { IsValid (E.account engine.old) }
    requires current { IsSome (E.account engine.old).start }
    requires reads { (kernel : Kernel) × (file : List ℕ)
        × IfSome before (IsReading (view_now (E.account engine.old)) (commands.Run kernel file)) }
    requires kept { IfSome image (IsKeptImage (view_now (E.account engine.old))) }
    ensures reads { IfOk result (λ turn. (kernel : Kernel) (file : List ℕ)
        → IfSome before (IsReading (view_now (E.account engine.old)) (commands.Run kernel file))
        → ReadsImage (view_now (E.account engine.old)) before (commands.Run kernel file) turn) }
    ensures did { ReadsOn E.did_read engine.old engine.new }
{
    match before.unwrap_or(LineReading::of_image(alloc, image)) {
        LineReading::Scan { scan } => read_rows(rt, engine, scan),
        LineReading::Replay { kept, turns } => Ok(replay(kept, turns)),
    }
}

/// Takes one turn of a scan of all rows, and makes their image with the last.
fn read_rows<R: Threads + Sync, E: Engine>(
    rt: &R,
    engine: &mut E,
    scan: Scan,
) -> Result<ImageTurn, NoMemory>
    requires valid { IsValid (E.account engine.old) }
    requires current { IsSome (E.account engine.old).start }
    requires scans { (kernel : Kernel) × (file : List ℕ)
        × IsScan (view_now (E.account engine.old)) (commands.Run kernel file) scan }
    ensures reads { IfOk result (λ turn. (before : Option LineReading) (kernel : Kernel) (file : List ℕ)
        → taken_of before ≡ taken_of (Some (LineReading.Scan scan))
        → IsScan (view_now (E.account engine.old)) (commands.Run kernel file) scan
        → ReadsImage (view_now (E.account engine.old)) before (commands.Run kernel file) turn) }
    ensures did { E.did_read engine.old engine.new }
{
    let kind = engine.kind();
    let mut scan = scan;
    scan.step(engine)?;
    if !scan.cursor.done {
        let reading = LineReading::Scan { scan };
        return Ok(ImageTurn::Further { reading });
    }
    // Made within the turn that read the last rows, as a scan answers with its last turn too.
    let kept = KeptImage::of_scan(rt, kind, scan)?;
    Ok(ImageTurn::Whole { kept })
}

/// Takes one turn of a line whose image is kept, which takes as many as the scan of its rows.
fn replay(kept: KeptImage, turns: u64) -> ImageTurn
    ensures { (g : Graph) (before : Option LineReading) (kernel : Kernel) (file : List ℕ)
        → taken_of before ≡ turns → IsKeptImage g kept
        → ReadsImage g before (commands.Run kernel file) result }
{
    if kept.has_turns_left(turns) {
        let reading = LineReading::Replay {
            kept,
            turns: turns + 1,
        };
        ImageTurn::Further { reading }
    } else {
        ImageTurn::Whole { kept }
    }
}

/// Answers a kernel's line as a whole. Where no image is kept, so many readers scan the rows for a new one.
pub fn run_at_once<R: Threads + Sync, E: PartScan>(
    rt: &R,
    alloc: Global,
    engine: &mut E,
    parts: u32,
    kernel: Kernel,
    file: &Name,
    image: &mut Option<KeptImage>,
) -> Result<LineAnswer, NoMemory>
    requires valid { IsValid (E.account engine.old) }
    requires current { IsSome (E.account engine.old).start }
    requires parts { (0 < parts) × (parts ≤ 32) }
    requires kept { IfSome image.old (IsKeptImage (view_now (E.account engine.old))) }
    ensures answers { let r = commands.Run kernel file.now in
        let e = calls E.account E.did_begin E.did_write E.did_read E.did_commit E.did_abort in
        IfOk result (λ given. AnswersLive e engine.old r given engine.new) }
    ensures kept { OnOk result (IfSome image.new (IsKeptImage (view_now (E.account engine.old)))) }
    ensures err { OnErr result (ReadsOn E.did_read engine.old engine.new) }
{
    let kept = image_at_once(rt, alloc, engine, parts, image.take())?;
    let given = answer_kernel(rt, alloc, engine.kind(), kernel, file, &kept.image)?;
    *image = Some(kept);
    Ok(given)
}

/// The image that is kept, else that of all rows, which so many readers scan.
fn image_at_once<R: Threads + Sync, E: PartScan>(
    rt: &R,
    alloc: Global,
    engine: &mut E,
    parts: u32,
    image: Option<KeptImage>,
) -> Result<KeptImage, NoMemory>
    requires valid { IsValid (E.account engine.old) }
    requires current { IsSome (E.account engine.old).start }
    requires parts { (0 < parts) × (parts ≤ 32) }
    requires kept { IfSome image (IsKeptImage (view_now (E.account engine.old))) }
    ensures is { IfOk result (IsKeptImage (view_now (E.account engine.old))) }
    ensures did { ReadsOn E.did_read engine.old engine.new }
{
    if let Some(kept) = image {
        return Ok(kept);
    }
    let kind = engine.kind();
    let lists = engine.scan_parts(parts)?;
    KeptImage::of_lists(rt, alloc, kind, lists)
}

/// Runs a kernel on the image of a graph, and answers its line.
fn answer_kernel<R: Threads + Sync>(
    rt: &R,
    alloc: Global,
    kind: Kind,
    kernel: Kernel,
    file: &Name,
    image: &Image,
) -> Result<LineAnswer, NoMemory>
    ensures { IfOk result (λ given. (g : Graph) → IsKernelImage kind image.now g
        → AnswersKernel kind g kernel file.now given) }
{
    match kernel_table(rt, alloc, kind, kernel, image) {
        Ok(table) => {
            let name = copy_of(alloc, file)?;
            Ok(LineAnswer {
                answer: Answer::Table {
                    entries: table.len() as u64,
                },
                phase: Phase::Open,
                table: Some(NamedTable { name, table }),
            })
        }
        Err(KernelRefusal::NoRoot) => {
            let Some(v) = root_of(kernel) else {
                unreachable!()
            };
            Ok(LineAnswer::plain(Answer::NoVertex { v }, Phase::Open))
        }
        Err(KernelRefusal::NoMemory) => Err(NoMemory),
    }
}

/// The vertex that a kernel begins at, if it needs one.
fn root_of(kernel: Kernel) -> Option<u64>
    ensures { result ≡ root_of kernel }
{
    match kernel {
        Kernel::Bfs { root } => Some(root),
        Kernel::Wcc => None,
        Kernel::Cdlp { rounds: _ } => None,
        Kernel::Sssp { root } => Some(root),
        Kernel::FastBfs { root } => Some(root),
        Kernel::FastSssp { root, width: _ } => Some(root),
    }
}
