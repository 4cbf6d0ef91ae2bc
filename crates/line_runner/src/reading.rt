//! Where a line stands that takes more than one turn.
//!
//! 1. A line takes the turns of a scan, whether it scans or not, so that other scripts get theirs between.
//! 2. Only a kernel's line runs on an image, so only such a line counts its turns.

ghost use Rattle.std.specs.Prelude.{◌≡◌, ℕ, List, Some, IfSome, true, false};
ghost use Rattle.graph_model.specs.Graph.{Graph};
ghost use Rattle.run_model.specs.declared.command.Command.{Command};
ghost use Rattle.run_model.specs.declared.command.Command.TheVariants as commands;
ghost use Rattle.run_model.specs.declared.command.Query.{Query};
ghost use Rattle.run_model.specs.declared.command.Kernel.{Kernel};
ghost use Rattle.line_runner.specs.declared.phase.Phase.TheVariants.{Open};
ghost use Rattle.line_runner.specs.Kernels.{IsKeptImage};
ghost use Rattle.line_runner.specs.Scanning.{IsReading, replays_on, taken_by};
ghost use Rattle.line_runner.specs.Turns.{ReadsFurther};

use crate::kept::KeptImage;
use crate::scan::Scan;
use std::alloc::Global;

/// What a line reads, and how far it has come.
#[derive(Drop)]
pub enum LineReading {
    /// It scans rows.
    Scan { scan: Scan },
    /// The image of all rows is kept, and it has taken so many of the turns that their scan would take.
    Replay { kept: KeptImage, turns: u64 },
}

impl LineReading {
    /// What a kernel's line begins with: the image that is kept, or else a scan. Takes no memory.
    pub fn of_image(alloc: Global, image: Option<KeptImage>) -> LineReading
        ensures none { taken_by result ≡ 0 }
        ensures reading { (g : Graph) (kernel : Kernel) (file : List ℕ) → IfSome image (IsKeptImage g)
            → IsReading g (commands.Run kernel file) result }
    {
        match image {
            Some(kept) => LineReading::Replay { kept, turns: 0 },
            None => LineReading::Scan {
                scan: Scan::of_rows(alloc),
            },
        }
    }

    /// Takes a turn on the image that is kept, where it isn't the line's last one, and answers whether it did. The image
    /// stays where it is: nearly all turns on a large one are such.
    pub fn replay_on(&mut self) -> bool
        ensures replays { result ≡ replays_on self.old }
        ensures further { result ≡ true → (g : Graph) (r : Command) → IsReading g r self.old
            → ReadsFurther g Open (Some self.old) r self.new }
        ensures same { result ≡ false → self.new ≡ self.old }
    {
        match self {
            LineReading::Replay { kept, turns } if kept.has_turns_left(*turns) => {
                *turns += 1;
                true
            }
            _ => false,
        }
    }

    /// The scan of a read.
    pub fn into_scan(self) -> Scan
        requires { (g : Graph) × (query : Query) × IsReading g (commands.Read query) self }
        ensures { self ≡ LineReading.Scan result }
    {
        match self {
            LineReading::Scan { scan } => scan,
            LineReading::Replay {
                kept: _kept,
                turns: _turns,
            } => unreachable!(),
        }
    }
}
