//! What cells, their blocks and their index keep through each step. Each law is a function whose contract is the law.

ghost use Rattle.cells_model.specs.BlockLaws.{HeadIsTold, RowIsTold, ValueIsTold, NoRowIsTold, UnpacksCell, StoresWord, PacksCell, ChangesCells, FirstLoadBegins, WordLoadGoesOn, SecondLoadGoesOn, SecondLoadValidates};
ghost use Rattle.cells_model.specs.Indexed.{FencesTell, CellsShow, MovesIndexed, NewIsIndexed, NumberedIsIndexed};
ghost use Rattle.cells_model.specs.InPlace.{CellsChangeInPlace};
ghost use Rattle.cells_model.specs.Growth.{GrowthIsByRows};
ghost use Rattle.cells_model.specs.Moved.{SpreadsCells, SplitsCells, MergesCells, FreesCells, FullIsCounted};
ghost use Rattle.cells_model.specs.Examples.{WordExamples, ReadExamples, NoteExamples};
ghost use Rattle.cells_model.specs.Noted.{NotesLeaf, ForgetsLeaves, BeginsNoted, EndsNoted, RetiresLeaves, SweeperBegins, OtherSweepBegins, SweepLooksOn, SweeperFrees, SweeperEnds, OtherSweepEnds};

/// What the words of a block tell of the contents that it spells.
pub fn blocks_tell_rows()
    ensures head { HeadIsTold }
    ensures row { RowIsTold }
    ensures value { ValueIsTold }
    ensures no_row { NoRowIsTold }
{}

/// A holder's steps on one cell: the words still say what they said, and each read under way goes on.
pub fn holders_keep_blocks()
    ensures unpacks { UnpacksCell }
    ensures stores { StoresWord }
    ensures packs { PacksCell }
    ensures changes { ChangesCells }
{}

/// A read without a latch. Where the version word is found again, what was loaded is one block.
pub fn reads_need_no_latch()
    ensures first { FirstLoadBegins }
    ensures word { WordLoadGoesOn }
    ensures second { SecondLoadGoesOn }
    ensures validates { SecondLoadValidates }
{}

/// Cells whose numbers an index of leaves names.
pub fn cells_are_indexed()
    ensures tell { FencesTell }
    ensures show { CellsShow }
    ensures moves { MovesIndexed }
    ensures new { NewIsIndexed }
    ensures numbered { NumberedIsIndexed }
{}

/// Held cells that change between the same fence keys, and how many rows come.
pub fn cells_change_in_place()
    ensures changes { CellsChangeInPlace }
    ensures growth { GrowthIsByRows }
{}

/// Rows that move between cells keep the index sound, and each key its versions.
pub fn moves_keep_versions()
    ensures spreads { SpreadsCells }
    ensures splits { SplitsCells }
    ensures merges { MergesCells }
    ensures frees { FreesCells }
{}

/// A store in which a write finds no place has as many rows inserted as its leaves take.
pub fn full_stores_are_counted()
    ensures full { FullIsCounted }
{}

/// A leaf that a pinned pass has noted isn't freed.
pub fn noted_leaves_stay()
    ensures notes { NotesLeaf }
    ensures forgets { ForgetsLeaves }
    ensures begins { BeginsNoted }
    ensures ends { EndsNoted }
    ensures retires { RetiresLeaves }
{}

/// Nor by a sweep, which looks at all pins with the index in hand before it frees.
pub fn sweeps_keep_noted_leaves()
    ensures begins { SweeperBegins }
    ensures looks { SweepLooksOn }
    ensures frees { SweeperFrees }
    ensures ends { SweeperEnds }
    ensures other_begins { OtherSweepBegins }
    ensures other_ends { OtherSweepEnds }
{}

/// Worked examples of the definitions, with values reckoned by hand: a read that is torn is of no block, and a leaf
/// that a pinned pass has noted may not go.
pub fn examples_hold()
    ensures words { WordExamples }
    ensures reads { ReadExamples }
    ensures notes { NoteExamples }
{}
