//! How often each part has failed, as a world keeps it.
ghost use Rattle.std.specs.Prelude.{◌≡◌, OnErr};

use crate::world::{Failed, Part};

/// A count of faults for each part, which stands still at 2^64 - 1 (`docs/DISKS.md`).
#[derive(Clone, Copy, Debug, PartialEq, Eq)]
pub struct Faults {
    /// Of the volume's image.
    pub volume: u64,
    /// Of the store's image.
    pub store: u64,
    /// Of the script.
    pub script: u64,
    /// Of the output.
    pub out: u64,
}

impl Faults {
    ghost use Rattle.tm_world.specs.Faults.{Rose, NeverLess};
    ghost use Rattle.tm_world.specs.Counts.{count_of, raised, counted};

    /// No part has failed.
    pub fn new() -> Faults
        ensures { count_of result ≡ (λ _. 0) }
    {
        Faults {
            volume: 0,
            store: 0,
            script: 0,
            out: 0,
        }
    }

    /// Counts a fault of a part, and of no other.
    pub fn raise(&mut self, part: Part)
        ensures raised { count_of self.new ≡ raised part (count_of self.old) }
        ensures never_less { NeverLess (count_of self.old) (count_of self.new) }
        ensures rose { Rose (count_of self.old part) (count_of self.new part) }
    {
        match part {
            Part::Volume => self.volume = self.volume.saturating_add(1),
            Part::Store => self.store = self.store.saturating_add(1),
            Part::Script => self.script = self.script.saturating_add(1),
            Part::Out => self.out = self.out.saturating_add(1),
        }
    }

    /// Counts what a call of a part came to, and hands it on: a call that failed is one fault of
    /// that part, and one that did not is none.
    pub fn count<T>(&mut self, part: Part, done: Result<T, Failed>) -> Result<T, Failed>
        ensures result { result ≡ done }
        ensures counts { count_of self.new ≡ counted part result (count_of self.old) }
        ensures never_less { NeverLess (count_of self.old) (count_of self.new) }
        ensures cause { OnErr result (Rose (count_of self.old part) (count_of self.new part)) }
    {
        match done {
            Ok(value) => Ok(value),
            Err(Failed) => {
                self.raise(part);
                Err(Failed)
            }
        }
    }
}
