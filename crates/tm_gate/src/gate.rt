//! Which slot is named, and its root.
ghost use Rattle.std.specs.Prelude.{◌≤◌};

use crate::root::Root;

/// The slot that the selector names, 1 or 2, and the root that it holds.
#[derive(Clone, Copy, Debug, PartialEq, Eq)]
pub struct Gate {
    /// The block of the slot that the selector names.
    pub named: u8,
    /// The root of the image.
    pub root: Root,
    pub ghost in_range: { (1 ≤ named) × (named ≤ 2) },
}
