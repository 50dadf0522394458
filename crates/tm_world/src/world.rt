//! The trait that everything else works over.

/// One of the two images.
#[derive(Clone, Copy, Debug, PartialEq, Eq)]
pub enum Side {
    Volume,
    Store,
}

/// One of the four parts of the outside that can fail.
#[derive(Clone, Copy, Debug, PartialEq, Eq)]
pub enum Part {
    Volume,
    Store,
    Script,
    Out,
}

/// A call failed; the count of faults of its part tells which.
#[derive(Clone, Copy, Debug, PartialEq, Eq)]
pub struct Failed;

/// Two images, a script and an output, with one clock.
///
/// A call answers [`Failed`] only where the count of faults of its part rose in this very call, or
/// stands at its end. No call takes memory. Where `told` holds, each call says by one equation
/// what is outside after it, and that it was so, or as before, at each moment of the call.
pub trait World {
    ghost use Rattle.std.specs.Prelude.{◌≡◌, ◌≢◌, ◌<◌, ◌≤◌, ◌↔◌, [], ℕ, length, take, IsSome, IfOk, OnOk, OnErr};
    ghost use Rattle.std.specs.Option.{ForSome};
    ghost use Rattle.tm_base.specs.Limits.{max_blocks};
    ghost use Rattle.tm_world.specs.declared.world.Side.{Side};
    ghost use Rattle.tm_world.specs.declared.world.Part.{Part};
    ghost use Rattle.tm_world.specs.Disk.{synced};
    ghost use Rattle.tm_world.specs.Outside.{Place, disk, put_disk, took, attached, attached_count, part_of};
    ghost use Rattle.tm_world.specs.Log.{Log, now, Steps, Says, Writes};
    ghost use Rattle.tm_world.specs.Faults.{Rose, NeverLess};

    /// Whether this world tells contents. One over real files does not.
    ghost told: { Type 0 };

    /// What was outside at each moment.
    ghost log: { Self → Log };

    /// How many blocks a side has, known also where contents are not told.
    ghost blocks: { Self → Side → ℕ };

    /// How often each part has failed; the counts stand still at 2^64 - 1.
    ghost faults: { Self → Part → ℕ };

    /// Opens what stands at a path and answers the number of whole blocks, 0 for the script.
    ///
    /// Where no image stands there and `create` is given, it makes one of that many zero blocks.
    /// The script is read from its front afterwards; where none stands there, the call fails.
    fn attach(&mut self, part: Part, path: &str, create: Option<u32>) -> Result<u32, Failed>
        requires part { part ≢ Part.Out }
        requires create { ForSome create (λ n. (1 ≤ n) × (n ≤ max_blocks)) }
        ensures ok { told → OnOk result (Steps (log self.old) (log self.new) (attached part path.now create (now (log self.old)))) }
        ensures err { told → OnErr result (Steps (log self.old) (log self.new) (now (log self.old))) }
        ensures count { told → IfOk result (λ n. n ≡ attached_count part (now (log self.new))) }
        ensures script { told → part ≡ Part.Script → OnOk result (IsSome ((now (log self.old)).scripts path.now)) }
        ensures most { IfOk result (λ n. n ≤ max_blocks) }
        ensures blocks { (side : Side) → part_of side ≡ part → IfOk result (λ n. blocks self.new side ≡ n) }
        ensures other { (side : Side) → part_of side ≢ part → blocks self.new side ≡ blocks self.old side }
        ensures never_less { NeverLess (faults self.old) (faults self.new) }
        ensures cause { OnErr result (Rose (faults self.old part) (faults self.new part)) };

    /// Reads a block of an image.
    fn read(&mut self, side: Side, block: u32, into: &mut [u8; 4096]) -> Result<(), Failed>
        requires { block < blocks self.old side }
        ensures bytes { told → OnOk result (into.new ≡ (disk side (now (log self.old))).bytes block) }
        ensures steps { told → Steps (log self.old) (log self.new) (now (log self.old)) }
        ensures blocks { blocks self.new ≡ blocks self.old }
        ensures never_less { NeverLess (faults self.old) (faults self.new) }
        ensures cause { OnErr result (Rose (faults self.old (part_of side)) (faults self.new (part_of side))) };

    /// Writes a block of an image. It is loose until the next [`World::sync`] that succeeds; after
    /// a failure it may hold any bytes.
    fn write(&mut self, side: Side, block: u32, bytes: &[u8; 4096]) -> Result<(), Failed>
        requires { block < blocks self.old side }
        ensures steps { told → Writes side block bytes.now (log self.old) (log self.new) result }
        ensures blocks { blocks self.new ≡ blocks self.old }
        ensures never_less { NeverLess (faults self.old) (faults self.new) }
        ensures cause { OnErr result (Rose (faults self.old (part_of side)) (faults self.new (part_of side))) };

    /// Makes all earlier writes of a side stable.
    fn sync(&mut self, side: Side) -> Result<(), Failed>
        ensures ok { told → OnOk result (Steps (log self.old) (log self.new) (put_disk side (synced (disk side (now (log self.old)))) (now (log self.old)))) }
        ensures err { told → OnErr result (Steps (log self.old) (log self.new) (now (log self.old))) }
        ensures blocks { blocks self.new ≡ blocks self.old }
        ensures never_less { NeverLess (faults self.old) (faults self.new) }
        ensures cause { OnErr result (Rose (faults self.old (part_of side)) (faults self.new (part_of side))) };

    /// Moves the next bytes of the script into the front of a slice and answers how many; 0 is the
    /// end of the script.
    fn take(&mut self, into: &mut [u8]) -> Result<usize, Failed>
        requires { 0 < length into.old }
        ensures within { IfOk result (λ n. n ≤ length into.new) }
        ensures steps { told → IfOk result (λ n. Steps (log self.old) (log self.new) (took n (now (log self.old)))) }
        ensures bytes { told → IfOk result (λ n. take n into.new ≡ take n (now (log self.old)).unread) }
        ensures fits { told → IfOk result (λ n. n ≤ length (now (log self.old)).unread) }
        ensures end { told → IfOk result (λ n. (n ≡ 0) ↔ ((now (log self.old)).unread ≡ [])) }
        ensures err { told → OnErr result (Steps (log self.old) (log self.new) (now (log self.old))) }
        ensures blocks { blocks self.new ≡ blocks self.old }
        ensures never_less { NeverLess (faults self.old) (faults self.new) }
        ensures cause { OnErr result (Rose (faults self.old Part.Script) (faults self.new Part.Script)) };

    /// Says all these bytes; where it fails, a prefix of them was said.
    fn say(&mut self, bytes: &[u8]) -> Result<(), Failed>
        ensures says { told → (n : ℕ) × OnOk result (n ≡ length bytes.now) × Says (log self.old) (log self.new) bytes.now n }
        ensures blocks { blocks self.new ≡ blocks self.old }
        ensures never_less { NeverLess (faults self.old) (faults self.new) }
        ensures cause { OnErr result (Rose (faults self.old Part.Out) (faults self.new Part.Out)) };

    /// Where contents are told, so is the number of blocks.
    ghost counts: { told → (w : Self) (side : Side) → (disk side (now (log w))).count ≡ blocks w side };

    /// An image that is told has at most 262,144 blocks.
    ghost small: { told → (w : Self) (place : Place) → ((now (log w)).stands place).count ≤ max_blocks };
}
