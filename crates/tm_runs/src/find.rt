//! Which pages a change at a key touches.
ghost use Rattle.std.specs.Prelude.{◌≡◌, ◌≤◌, ◌<◌, ◌+◌, ◌-◌, ◌⊎◌, ◌↔◌, ℕ, IsTrue, length};
ghost use Rattle.tm_runs.specs.Marks.{IsUpTo, MarksRise, mark_at};
ghost use Rattle.tm_runs.specs.Touched.{Touches};

use crate::Holder;

/// The pages that a change touches.
#[derive(Clone, Copy, Debug, PartialEq, Eq)]
pub struct Touched {
    /// The first touched page.
    pub from: usize,
    /// The page after the last.
    pub to: usize,
}

/// Whether a page begins no later than where the record at a key begins, or would.
fn begins_by(holder: Holder, key: u64) -> bool
    ensures { IsTrue result ↔ IsUpTo holder key }
{
    holder.key < key || (holder.key == key && holder.skip == 0)
}

/// The last page, from `low` on, that begins no later than where the record at a key begins.
fn find_first(holders: &[Holder], low: usize, key: u64) -> usize
    requires inside { low < length holders.now }
    requires begins { IsUpTo (mark_at holders.now low) key }
    ensures from { low ≤ result }
    ensures inside { result < length holders.now }
    ensures begins { IsUpTo (mark_at holders.now result) key }
    ensures last { (result + 1 ≡ length holders.now) ⊎ (IsUpTo (mark_at holders.now (result + 1)) key → ⊥) }
{
    let mut low = low;
    let mut high = holders.len();
    while low + 1 < high {
        let middle = low + (high - low) / 2;
        if begins_by(holders[middle], key) {
            low = middle;
        } else {
            high = middle;
        }
    }
    low
}

/// The first page behind `low` that begins behind the record at a key.
fn find_end(holders: &[Holder], low: usize, key: u64) -> usize
    requires inside { low < length holders.now }
    requires begins { (mark_at holders.now low).key ≤ key }
    ensures from { low < result }
    ensures inside { result ≤ length holders.now }
    ensures behind { key < (mark_at holders.now result).key }
    ensures first { (mark_at holders.now (result - 1)).key ≤ key }
{
    let mut low = low;
    let mut high = holders.len();
    while low + 1 < high {
        let middle = low + (high - low) / 2;
        if holders[middle].key <= key {
            low = middle;
        } else {
            high = middle;
        }
    }
    high
}

/// The pages, from `low` on, that a change at a key touches: those with a byte of the record at the
/// key, or, where none stands there, the one with the last byte before it, the first page before all
/// records. Two searches by halves.
pub fn find_pages(holders: &[Holder], low: usize, key: u64) -> Touched
    requires inside { low < length holders.now }
    requires begins { IsUpTo (mark_at holders.now low) key }
    requires rise { MarksRise holders.now }
    ensures from { low ≤ result.from }
    ensures rises { result.from < result.to }
    ensures inside { result.to ≤ length holders.now }
    ensures begins { IsUpTo (mark_at holders.now result.from) key }
    ensures behind { key < (mark_at holders.now result.to).key }
    ensures touched { (k : ℕ) → result.from ≤ k → k < result.to → Touches holders.now key k }
{
    let from = find_first(holders, low, key);
    let to = find_end(holders, from, key);
    Touched { from, to }
}
