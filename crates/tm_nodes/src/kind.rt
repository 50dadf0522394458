//! What an item or a node is.
ghost use Rattle.std.specs.Prelude.{◌≡◌, ◌++◌, IfSome, IfNone, OnOk};
ghost use Rattle.tm_codec.specs.Places.{IsTextAt};
ghost use Rattle.tm_tree.specs.declared.node.NodeRow.{NodeRow};
ghost use Rattle.tm_tree.specs.declared.record.ItemRow.{ItemRow};
ghost use Rattle.tm_nodes.specs.Items.{item_kind, item_text};
ghost use Rattle.tm_nodes.specs.Kinds.{kind_text};
ghost use Rattle.tm_nodes.specs.Nodes.{node_kind, node_text};
ghost use Rattle.tm_nodes.specs.Readers.{Gives};
ghost use Rattle.tm_nodes.specs.Reading.{kind_of, kind_at};

use crate::error::ReadError;
use crate::field::take_u8;
use tm_codec::{Memory, get_u8, put_u8};

/// What a record of an item or a node stands for.
#[derive(Clone, Copy, Debug, PartialEq, Eq)]
pub enum Kind {
    /// A folder, written 1.
    Folder,
    /// A file, written 2.
    File,
    /// A symbolic link, written 3.
    Link,
}

/// Adds the byte of a kind.
#[tactic(auto, unfolding(crate::specs::Kinds::kind_text))]
pub fn put_kind(out: &mut Vec<u8>, kind: Kind) -> Result<(), Memory>
    ensures { OnOk result (out.new.items ≡ out.old.items ++ kind_text kind) }
{
    match kind {
        Kind::Folder => put_u8(out, 1),
        Kind::File => put_u8(out, 2),
        Kind::Link => put_u8(out, 3),
    }
}

/// The kind that a byte stands for; none where it stands for none.
fn kind_from(number: u8) -> Option<Kind>
    ensures { result ≡ kind_of number }
{
    match number {
        1 => Some(Kind::Folder),
        2 => Some(Kind::File),
        3 => Some(Kind::Link),
        _ => None,
    }
}

/// The kind in front.
#[tactic(auto, unfolding(crate::specs::Reading::kind_at, crate::specs::Readers::and_then))]
pub fn take_kind(bytes: &[u8]) -> Result<(Kind, &[u8]), ReadError>
    ensures { Gives (λ x. (x.0, x.1.now)) result (kind_at bytes.now) }
{
    let (number, rest) = take_u8(bytes)?;
    match kind_from(number) {
        Some(kind) => Ok((kind, rest)),
        None => Err(ReadError::Broken),
    }
}

/// The kind of the item or node that has this meta, told by its first byte alone; none where
/// that is no kind. It takes no memory.
pub fn kind_of(meta: &[u8]) -> Option<Kind>
    ensures stands { IfSome result (λ kind. IsTextAt (kind_text kind) 0 meta.now) }
    ensures none { IfNone result ((kind : Kind) → IsTextAt (kind_text kind) 0 meta.now → ⊥) }
    ensures item { (row : ItemRow) → meta.now ≡ item_text row → result ≡ Some (item_kind row.body) }
    ensures node { (row : NodeRow) → meta.now ≡ node_text row → result ≡ Some (node_kind row.body) }
{
    match get_u8(meta, 0) {
        Ok(number) => kind_from(number),
        Err(_) => None,
    }
}
