//! What is staged beside the blobs that a finished backup takes up.
ghost use Rattle.std.specs.Prelude.{◌≡◌, ◌==◌, ◌||◌, ◌++◌, ◌∷◌, [], ℕ, not, filter, IfOk, OnOk};
ghost use Rattle.std.specs.List.{list_any};
ghost use Rattle.std.specs.Ordering.{nat_cmp};
ghost use Rattle.std.specs.BTreeSet.{contains};
ghost use Rattle.tm_snapshot.specs.Puts.{built_blocks};

use std::alloc::{AllocError, Global};
use std::collections::BTreeSet;
use tm_tree::NodeId;
use tm_world::Blob;

fn add_all(set: &mut BTreeSet<u32>, blocks: &[u32]) -> Result<(), AllocError>
    ensures { OnOk result ((b : ℕ) → contains nat_cmp set.new b
        ≡ (contains nat_cmp set.old b || list_any (λ x. x == b) blocks.now)) }
{
    for block in blocks {
        set.insert(*block)?;
    }
    Ok(())
}

fn built_set(alloc: Global, blobs: &[(NodeId, Blob)]) -> Result<BTreeSet<u32>, AllocError>
    ensures { IfOk result (λ set. (b : ℕ) → contains nat_cmp set b
        ≡ list_any (λ x. x == b) (built_blocks blobs.now)) }
{
    let mut set = BTreeSet::new(alloc);
    for (_, blob) in blobs {
        add_all(&mut set, blob.blocks.as_slice())?;
    }
    Ok(set)
}

fn keep_other(left: &mut Vec<u32>, built: &BTreeSet<u32>, block: u32) -> Result<(), AllocError>
    ensures { OnOk result (left.new.items
        ≡ left.old.items ++ filter (λ b. not (contains nat_cmp built.now b)) (block ∷ [])) }
{
    if !built.contains(&block) {
        left.push(block)?;
    }
    Ok(())
}

/// The staged blocks that stand in none of the blobs.
pub fn leftover(
    alloc: Global,
    staged: &[u32],
    blobs: &[(NodeId, Blob)],
) -> Result<Vec<u32>, AllocError>
    ensures { IfOk result (λ left. left.items
        ≡ filter (λ b. not (list_any (λ x. x == b) (built_blocks blobs.now))) staged.now) }
{
    let built = built_set(alloc, blobs)?;
    let mut left = Vec::new(alloc);
    for block in staged {
        keep_other(&mut left, &built, *block)?;
    }
    Ok(left)
}
