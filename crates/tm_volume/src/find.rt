//! The way to an item.
ghost use Rattle.std.specs.Prelude.{◌≡◌, ℕ, List, Err, Some, IfOk, IfErr};
ghost use Rattle.tm_items.specs.Finding.{FoundAt};
ghost use Rattle.tm_tree.specs.Walks.{walk};
ghost use Rattle.tm_volume.specs.Answers.{FindsRow};
ghost use Rattle.tm_volume.specs.Seen.{items_on, tree_on};

use crate::Volume;
use crate::row::{is_folder, item_row};
use tm_base::{LineFault, Path, Refused};
use tm_tree::ItemRow;

impl Volume {
    /// The number of the item that the walk down a path comes to, or why the walk stops. It takes
    /// no memory.
    pub fn number_at(&self, path: &Path) -> Result<u64, Refused>
        ensures found { IfOk result (λ n. (bytes : ℕ → List ℕ) → FoundAt (items_on self.now bytes) (tree_on self.now bytes) path.now n) }
        ensures refused { IfErr result (λ why. (bytes : ℕ → List ℕ) → walk (tree_on self.now bytes) path.now ≡ Err why) }
    {
        // The total comes with the order of the records.
        let _ = self.image.total();
        let mut number = 1;
        for name in path.names() {
            if !is_folder(&self.image, number) {
                return Err(Refused::NotFolder);
            }
            match self.numbers.get(number, name) {
                Some(next) => number = next,
                None => return Err(Refused::NotFound),
            }
        }
        Ok(number)
    }

    /// The item that the walk down a path comes to, a file with its length; refused as `NotFound`
    /// where the walk meets a folder without the next name, and as `NotFolder` where it goes
    /// through a file or link.
    pub fn find(&self, path: &Path) -> Result<ItemRow, LineFault>
        ensures { (bytes : ℕ → List ℕ) → FindsRow (walk (tree_on self.now bytes) path.now) result }
    {
        let number = self.number_at(path)?;
        Ok(item_row(self.alloc, &self.image, number)?)
    }
}
