//! Files and links in records (`docs/RECORDS.md`, "Items").
ghost use Rattle.std.specs.Prelude.{◌≡◌, ◌++◌, OnOk};
ghost use Rattle.tm_tree.specs.declared.attrs.Attrs.{Attrs};
ghost use Rattle.tm_nodes.specs.Leaves.{leaf_kind, leaf_attrs, leaf_tail, IsLeafTail};
ghost use Rattle.tm_nodes.specs.Readers.{Gives};
ghost use Rattle.tm_nodes.specs.Reading.{file_at, link_at};

use crate::error::ReadError;
use crate::field::{take_target, take_u64};
use crate::kind::Kind;
use std::alloc::Global;
use tm_codec::{Memory, put_long, put_u64};
use tm_tree::{Attrs, LeafRow};

/// Whether it is a file or a link.
pub fn kind_of_leaf(leaf: &LeafRow) -> Kind
    ensures { result ≡ leaf_kind leaf.now }
{
    match leaf {
        LeafRow::File { .. } => Kind::File,
        LeafRow::Link { .. } => Kind::Link,
    }
}

/// Its attributes.
pub fn attrs_of_leaf(leaf: &LeafRow) -> &Attrs
    ensures { result.now ≡ leaf_attrs leaf.now }
{
    match leaf {
        LeafRow::File { attrs, .. } => attrs,
        LeafRow::Link { attrs, .. } => attrs,
    }
}

/// Adds what follows the attributes.
pub fn put_leaf_tail(out: &mut Vec<u8>, leaf: &LeafRow) -> Result<(), Memory>
    requires { IsLeafTail leaf.now }
    ensures { OnOk result (out.new.items ≡ out.old.items ++ leaf_tail leaf.now) }
{
    match leaf {
        LeafRow::File { stamp, .. } => put_u64(out, *stamp),
        LeafRow::Link { stamp, target, .. } => {
            put_u64(out, *stamp)?;
            put_long(out, target.as_slice())
        }
    }
}

/// What follows the attributes of a file whose data have so many bytes.
#[tactic(auto, unfolding(crate::specs::Reading::file_at, crate::specs::Readers::and_then, crate::specs::Readers::done))]
pub fn take_file(attrs: Attrs, length: u64, bytes: &[u8]) -> Result<(LeafRow, &[u8]), ReadError>
    ensures { Gives (λ x. (x.0, x.1.now)) result (file_at length attrs bytes.now) }
{
    let (stamp, rest) = take_u64(bytes)?;
    let leaf = LeafRow::File {
        attrs,
        stamp,
        length,
    };
    Ok((leaf, rest))
}

/// What follows the attributes of a link.
#[tactic(auto, unfolding(crate::specs::Reading::link_at, crate::specs::Readers::and_then, crate::specs::Readers::done))]
pub fn take_link(alloc: Global, attrs: Attrs, bytes: &[u8]) -> Result<(LeafRow, &[u8]), ReadError>
    ensures { Gives (λ x. (x.0, x.1.now)) result (link_at attrs bytes.now) }
{
    let (stamp, rest) = take_u64(bytes)?;
    let (target, rest) = take_target(alloc, rest)?;
    let leaf = LeafRow::Link {
        attrs,
        stamp,
        target,
    };
    Ok((leaf, rest))
}
