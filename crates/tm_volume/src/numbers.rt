//! Numbers of items, and those that are drawn.
ghost use Rattle.std.specs.Prelude.{◌≡◌, ◌≤◌, ◌<◌, ◌+◌, ◌^◌, ℕ, List, None, IfSome, IfNone, is_some, is_none, length};
ghost use Rattle.tm_index.specs.Folders.{numbers_in};
ghost use Rattle.tm_tree.specs.Trees.{item_at};
ghost use Rattle.tm_volume_records.specs.Rules.{IsGoodVolume};
ghost use Rattle.tm_volume.specs.FreeNumbers.{AreTaken, IsUnused, counted_items};
ghost use Rattle.tm_volume.specs.Seen.{IsShelf, entries_on, items_on, tree_on};
ghost use Rattle.tm_records.specs.Records.{at};
ghost use Rattle.tm_volume_records.specs.Records.{item_key};
ghost use Rattle.tm_base.specs.Limits.{max_items};

use crate::Volume;
use tm_base::Path;
use tm_base::limits::MAX_ITEMS;
use tm_image::Image;
use tm_index::Index;
use tm_volume_records::{ITEM_KEY, JOURNAL_KEY};

/// The greatest next number.
pub const MAX_NEXT: u64 = 1 << 62;

/// Whether no record stands at the key of a number.
fn is_unused(image: &Image, number: u64) -> bool
    requires { number ≤ max_items }
    ensures { result ≡ is_none (at (item_key number) image.now.records) }
{
    image.length(ITEM_KEY + number).is_none()
}

impl Volume {
    /// The index of its items: the number of the item at each place. It takes no memory.
    pub fn numbers(&self) -> &Index
        ensures { IsShelf self.now (numbers_in result.now) }
    {
        &self.numbers
    }

    /// The next number that is drawn, from 1 to 2^62. It takes no memory.
    pub fn next_number(&self) -> u64
        ensures is { result ≡ self.now.tag.next }
        ensures most { result ≤ 2 ^ 62 }
    {
        self.next
    }

    /// The next number after so many more are drawn; none exactly where that passes 2^62. It takes
    /// no memory.
    pub fn next_after(&self, count: u64) -> Option<u64>
        requires { count ≤ 2 ^ 62 }
        ensures some { IfSome result (λ next. (next ≡ self.now.tag.next + count) × (next ≤ 2 ^ 62)) }
        ensures none { IfNone result (2 ^ 62 < self.now.tag.next + count) }
        ensures least { 1 ≤ self.now.tag.next }
    {
        let next = self.next + count;
        if next <= MAX_NEXT { Some(next) } else { None }
    }

    /// Whether something stands at a path. It takes no memory.
    pub fn has(&self, path: &Path) -> bool
        ensures { (bytes : ℕ → List ℕ) → result ≡ is_some (item_at (tree_on self.now bytes) path.now) }
    {
        // The total comes with the order of the records.
        let _ = self.image.total();
        match self.number_at(path) {
            Ok(_) => true,
            Err(_) => false,
        }
    }

    /// How many items there are. It takes no memory.
    pub fn item_count(&self) -> u64
        ensures records { result ≡ counted_items self.now.image.records }
        ensures tree { (bytes : ℕ → List ℕ) → IsGoodVolume (entries_on self.now bytes) self.now.tag → result ≡ length (tree_on self.now bytes) }
    {
        // The total comes with the rules that the image keeps.
        let _ = self.image.total();
        let journal = match self.image.length(JOURNAL_KEY) {
            Some(_) => 1u64,
            None => 0u64,
        };
        self.image.count().saturating_sub(1 + journal)
    }

    /// A number that no item has; none only where all are taken, and then there are as many items
    /// as a volume may have. It takes no memory.
    pub fn free_number(&self) -> Option<u64>
        ensures some { IfSome result (λ n. (bytes : ℕ → List ℕ) → IsUnused (items_on self.now bytes) n) }
        ensures key { IfSome result (λ n. at (item_key n) self.now.image.records ≡ None) }
        ensures none { IfNone result (AreTaken self.now.image.records) }
        ensures many { IfNone result (max_items ≤ counted_items self.now.image.records) }
    {
        // The total comes with the order of the records.
        let _ = self.image.total();
        let hint = self.image.count();
        if hint >= 2 && hint <= MAX_ITEMS && is_unused(&self.image, hint) {
            return Some(hint);
        }
        for number in 2..MAX_ITEMS + 1 {
            if is_unused(&self.image, number) {
                return Some(number);
            }
        }
        None
    }
}
