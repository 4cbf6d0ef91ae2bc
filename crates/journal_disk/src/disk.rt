//! The trait of a disk.
//!
//! A disk may tell what its files hold, as one in memory does, or not, as one over real files. Where it tells, it tells
//! also what a crash may leave of the chosen file: at this moment, and at some moment from an earlier one on, in a call
//! or between two.
ghost use Rattle.std.specs.Prelude.{◌≡◌, ◌≤◌, ℕ, List, length, option_map, Some, IfSome, IfOk, OnOk, OnErr};
ghost use Rattle.desk_io.specs.Files.{Gives};
ghost use Rattle.journal_disk.specs.Disk.{DiskState, content, Chooses, KeepsOthers, Fails, FaultsStand, FaultsRise};
ghost use Rattle.journal_disk.specs.Crashes.{Torn, Resized, overwritten, resized, Follows, Elapses};

use desk_io::Failed;

/// Files, one of which is chosen by its name for the calls to come.
pub trait Disk {
    /// What is known of the files.
    ghost state: { Self → DiskState };

    /// What a crash at this moment may leave of the chosen file.
    ghost may_leave: { Self → List ℕ → Type 0 };

    /// The moment, as a number that never falls.
    ghost moment: { Self → ℕ };

    /// What a crash at some moment from that one on may have left of it.
    ghost left_since: { Self → ℕ → List ℕ → Type 0 };

    /// Names the file for the later calls, and makes it empty where there is none.
    fn choose(&mut self, name: &str) -> Result<(), Failed>
        ensures ok { OnOk result (Chooses name.now (state self.old) (state self.new)) }
        ensures time { Elapses (moment self.old) (moment self.new) (left_since self.old) (left_since self.new) (may_leave self.new) }
        ensures err { OnErr result (Fails (state self.old) (state self.new)) };

    /// How many bytes the file has.
    fn size(&mut self) -> Result<u64, Failed>
        ensures size { IfOk result (λ size. IfSome (content (state self.old)) (λ file. size ≡ length file)) }
        ensures ok { OnOk result (state self.new ≡ state self.old) }
        ensures crash { (c : List ℕ) → may_leave self.new c → may_leave self.old c }
        ensures time { Elapses (moment self.old) (moment self.new) (left_since self.old) (left_since self.new) (may_leave self.new) }
        ensures err { OnErr result (Fails (state self.old) (state self.new)) };

    /// Reads the file from the byte `at` on, and answers how many bytes it gave.
    fn read(&mut self, at: u64, buffer: &mut [u8]) -> Result<usize, Failed>
        ensures bound { IfOk result (λ count. count ≤ length buffer.old) }
        ensures bytes { IfOk result (λ count. IfSome (content (state self.old)) (λ file.
            Gives file at buffer.new count)) }
        ensures ok { OnOk result (state self.new ≡ state self.old) }
        ensures crash { (c : List ℕ) → may_leave self.new c → may_leave self.old c }
        ensures time { Elapses (moment self.old) (moment self.new) (left_since self.old) (left_since self.new) (may_leave self.new) }
        ensures err { OnErr result (Fails (state self.old) (state self.new)) };

    /// Gives the file this many bytes.
    fn cut(&mut self, size: u64) -> Result<(), Failed>
        ensures cut { OnOk result (content (state self.new)
            ≡ option_map (λ file. resized file size) (content (state self.old))) }
        ensures crash { Follows (Resized size) (may_leave self.old) (may_leave self.new) }
        ensures time { Elapses (moment self.old) (moment self.new) (left_since self.old) (left_since self.new) (may_leave self.new) }
        ensures others { KeepsOthers (state self.old) (state self.new) }
        ensures ok { OnOk result (FaultsStand (state self.old) (state self.new)) }
        ensures err { OnErr result (FaultsRise (state self.old) (state self.new)) };

    /// Writes the bytes over those from the byte `at` on, and past the end.
    fn write_at(&mut self, at: u64, bytes: &[u8]) -> Result<(), Failed>
        ensures written { OnOk result (content (state self.new)
            ≡ option_map (λ file. overwritten file at bytes.now) (content (state self.old))) }
        ensures crash { Follows (Torn at (length bytes.now)) (may_leave self.old) (may_leave self.new) }
        ensures time { Elapses (moment self.old) (moment self.new) (left_since self.old) (left_since self.new) (may_leave self.new) }
        ensures others { KeepsOthers (state self.old) (state self.new) }
        ensures ok { OnOk result (FaultsStand (state self.old) (state self.new)) }
        ensures err { OnErr result (FaultsRise (state self.old) (state self.new)) };

    /// Brings all that was written to the disk.
    fn sync(&mut self) -> Result<(), Failed>
        ensures durable { OnOk result ((c : List ℕ) → may_leave self.new c → content (state self.old) ≡ Some c) }
        ensures ok { OnOk result (state self.new ≡ state self.old) }
        ensures crash { OnErr result ((c : List ℕ) → may_leave self.new c → may_leave self.old c) }
        ensures time { Elapses (moment self.old) (moment self.new) (left_since self.old) (left_since self.new) (may_leave self.new) }
        ensures err { OnErr result (Fails (state self.old) (state self.new)) };

    /// This moment is one of those since an earlier one.
    ghost counts_now: { (d : Self) (t : ℕ) (c : List ℕ) → t ≤ moment d → may_leave d c → left_since d t c };

    /// Since this moment there is no other.
    ghost only_now: { (d : Self) (c : List ℕ) → left_since d (moment d) c → may_leave d c };
}
