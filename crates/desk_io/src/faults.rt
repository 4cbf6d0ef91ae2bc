//! The failures of one kind: how many, and the name that the last of them was of.
//!
//! 1. The name takes memory. Where that is refused it isn't told, and the count goes on.
ghost use Rattle.std.specs.Prelude.{◌≡◌, None};
ghost use Rattle.desk_io.specs.Files.{Rose, IsOfName};
ghost use Rattle.desk_io.specs.Faults.{last_name};

use std::alloc::Global;

#[derive(Drop)]
pub(crate) struct Faults {
    pub(crate) alloc: Global,
    /// Stands still at its last value.
    pub(crate) count: u64,
    /// None: none failed, or memory for the name was refused.
    pub(crate) last: Option<String>,
}

impl Faults {
    pub(crate) fn new(alloc: Global) -> Faults
        ensures count { result.count ≡ 0 }
        ensures last { last_name result ≡ None }
    {
        Faults {
            alloc,
            count: 0,
            last: None,
        }
    }

    /// Counts a failure of this name.
    pub(crate) fn add(&mut self, name: &str)
        ensures rose { Rose self.old.count self.new.count }
        ensures named { IsOfName (last_name self.new) name.now }
    {
        self.count = self.count.saturating_add(1);
        self.last = String::from_str(self.alloc, name).ok();
    }
}
