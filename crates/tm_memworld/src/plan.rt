//! Which calls fail.
use std::alloc::{AllocError, Global};

/// How many calls were made, and which calls fail.
#[derive(Drop)]
pub struct FaultPlan {
    /// The number of calls made; it stands still at 2^64 - 1.
    pub made: u64,
    /// The numbers of calls that fail.
    pub failing: Vec<u64>,
    /// From this number on each call fails.
    pub fuse: Option<u64>,
}

impl FaultPlan {
    ghost use Rattle.std.specs.Prelude.{◌≡◌, ◌+◌, ◌-◌, ◌^◌, ◌++◌, [], min, OnOk, OnErr};
    ghost use Rattle.tm_memworld.specs.Plan.{is_named};

    /// No call was made, and none fails.
    pub fn new(alloc: Global) -> FaultPlan
        ensures made { result.made ≡ 0 }
        ensures failing { result.failing.items ≡ [] }
        ensures fuse { result.fuse ≡ None }
    {
        FaultPlan {
            made: 0,
            failing: Vec::new(alloc),
            fuse: None,
        }
    }

    /// Whether the next call fails by its number.
    pub fn names_next(&self) -> bool
        ensures { result ≡ is_named self.now.failing.items self.now.fuse self.now.made }
    {
        let behind = match self.fuse {
            Some(fuse) => fuse <= self.made,
            None => false,
        };
        behind || self.failing.contains(&self.made)
    }

    /// Counts a call.
    pub fn count(&mut self)
        ensures { self.new ≡ record self.old { made = min (self.old.made + 1) (2 ^ 64 - 1) } }
    {
        self.made = self.made.saturating_add(1);
    }

    /// The calls of these numbers fail too.
    pub fn fail_at(&mut self, calls: &[u64]) -> Result<(), AllocError>
        ensures failing { OnOk result (self.new.failing.items ≡ self.old.failing.items ++ calls.now) }
        ensures err { OnErr result (self.new.failing.items ≡ self.old.failing.items) }
        ensures made { self.new.made ≡ self.old.made }
        ensures fuse { self.new.fuse ≡ self.old.fuse }
    {
        self.failing.extend_from_slice(calls)
    }

    /// No call fails by its number.
    pub fn clear(&mut self)
        ensures failing { self.new.failing.items ≡ [] }
        ensures made { self.new.made ≡ self.old.made }
        ensures fuse { self.new.fuse ≡ None }
    {
        self.failing.clear();
        self.fuse = None;
    }
}
