//! The record of an item of a volume (`docs/RECORDS.md`, "Items").
ghost use Rattle.std.specs.Prelude.{◌≡◌, ◌≢◌, ◌++◌, ℕ, Some, IfOk, IfSome, OnOk};
ghost use Rattle.tm_tree.specs.declared.attrs.Attrs.{Attrs};
ghost use Rattle.tm_tree.specs.declared.record.ItemRow.{ItemRow};
ghost use Rattle.tm_nodes.specs.Answers.{IfBad, Tells};
ghost use Rattle.tm_codec.specs.Fields.{u32_text, short_text};
ghost use Rattle.tm_codec.specs.Places.{IsTextAt};
ghost use Rattle.tm_nodes.specs.Items.{item_kind, item_attrs, item_tail, item_name, item_text, IsItemTail, IsItemRow, IsItem};
ghost use Rattle.tm_nodes.specs.Readers.{Gives};
ghost use Rattle.tm_nodes.specs.Reading.{item_name_at, item_body_at, item_at};
ghost use Rattle.tm_nodes.specs.Records.{item_of};
ghost use Rattle.tm_nodes.specs.Spelled.{IsUnspelled};

use crate::attrs::{put_attrs, take_attrs};
use crate::error::{NodeError, ReadError, alone};
use crate::field::{put_name, take_short, take_u32};
use crate::kind::{Kind, put_kind, take_kind};
use crate::leaf::{attrs_of_leaf, kind_of_leaf, put_leaf_tail, take_file, take_link};
use std::alloc::Global;
use tm_base::{Name, NameError};
use tm_codec::{Memory, get_u32, put_short, put_u32};
use tm_tree::{Attrs, ItemBody, ItemRow};
use tm_world::Bytes;

fn kind_of_body(body: &ItemBody) -> Kind
    ensures { result ≡ item_kind body.now }
{
    match body {
        ItemBody::Folder { .. } => Kind::Folder,
        ItemBody::Leaf(leaf) => kind_of_leaf(leaf),
    }
}

fn attrs_of_body(body: &ItemBody) -> &Attrs
    ensures { result.now ≡ item_attrs body.now }
{
    match body {
        ItemBody::Folder { attrs } => attrs,
        ItemBody::Leaf(leaf) => attrs_of_leaf(leaf),
    }
}

fn put_tail(out: &mut Vec<u8>, body: &ItemBody) -> Result<(), Memory>
    requires { IsItemTail body.now }
    ensures { OnOk result (out.new.items ≡ out.old.items ++ item_tail body.now) }
{
    match body {
        ItemBody::Folder { .. } => Ok(()),
        ItemBody::Leaf(leaf) => put_leaf_tail(out, leaf),
    }
}

fn put_item_name(out: &mut Vec<u8>, name: &Option<Name>) -> Result<(), Memory>
    ensures { OnOk result (out.new.items ≡ out.old.items ++ short_text (item_name name.now)) }
{
    match name {
        None => put_short(out, b""),
        Some(name) => put_name(out, name),
    }
}

/// The meta of an item's record; only want of memory can refuse it.
#[tactic(auto, unfolding(crate::specs::Items::item_text))]
pub fn item_meta(alloc: Global, row: &ItemRow) -> Result<Bytes, Memory>
    requires { IsItemRow row.now }
    ensures { IfOk result (λ meta. meta ≡ item_text row.now) }
{
    let mut out = Vec::new(alloc);
    put_kind(&mut out, kind_of_body(&row.body))?;
    put_u32(&mut out, row.parent as u32)?;
    put_item_name(&mut out, &row.name)?;
    put_attrs(&mut out, attrs_of_body(&row.body))?;
    put_tail(&mut out, &row.body)?;
    Ok(Bytes::of(out))
}

/// The name in front; none where it is empty.
#[tactic(auto, unfolding(crate::specs::Reading::item_name_at, crate::specs::Readers::and_then, crate::specs::Readers::only_if), using(crate::proofs::Fields::names))]
fn take_item_name(alloc: Global, bytes: &[u8]) -> Result<(Option<Name>, &[u8]), ReadError>
    ensures { Gives (λ x. (x.0, x.1.now)) result (item_name_at bytes.now) }
{
    let (part, rest) = take_short(bytes)?;
    if part.is_empty() {
        return Ok((None, rest));
    }
    match Name::read(alloc, part) {
        Ok(name) => Ok((Some(name), rest)),
        Err(NameError::BadName) => Err(ReadError::Broken),
        Err(NameError::Memory) => Err(ReadError::Memory),
    }
}

/// What follows the attributes.
#[tactic(auto, unfolding(crate::specs::Reading::item_body_at, crate::specs::Readers::and_then, crate::specs::Readers::done))]
fn take_body(
    alloc: Global,
    length: u64,
    attrs: Attrs,
    kind: Kind,
    bytes: &[u8],
) -> Result<(ItemBody, &[u8]), ReadError>
    ensures { Gives (λ x. (x.0, x.1.now)) result (item_body_at length attrs kind bytes.now) }
{
    match kind {
        Kind::Folder => Ok((ItemBody::Folder { attrs }, bytes)),
        Kind::File => {
            let (leaf, rest) = take_file(attrs, length, bytes)?;
            Ok((ItemBody::Leaf(leaf), rest))
        }
        Kind::Link => {
            let (leaf, rest) = take_link(alloc, attrs, bytes)?;
            Ok((ItemBody::Leaf(leaf), rest))
        }
    }
}

/// The item in front.
#[tactic(auto, unfolding(crate::specs::Reading::item_at, crate::specs::Readers::and_then, crate::specs::Readers::done))]
fn take_item(alloc: Global, length: u64, bytes: &[u8]) -> Result<(ItemRow, &[u8]), ReadError>
    ensures { Gives (λ x. (x.0, x.1.now)) result (item_at length bytes.now) }
{
    let (kind, rest) = take_kind(bytes)?;
    let (parent, rest) = take_u32(rest)?;
    let (name, rest) = take_item_name(alloc, rest)?;
    let (attrs, rest) = take_attrs(alloc, rest)?;
    let (body, rest) = take_body(alloc, length, attrs, kind, rest)?;
    let row = ItemRow {
        parent: parent as u64,
        name,
        body,
    };
    Ok((row, rest))
}

/// The item whose record under `key` has this meta and `length` bytes of data;
/// [`NodeError::BadNode`] with `key` exactly where the meta is no item's. The length is a file's
/// own; for other kinds it isn't read.
pub fn read_item(alloc: Global, key: u64, meta: &[u8], length: u64) -> Result<ItemRow, NodeError>
    ensures row { IfOk result (IsItem meta.now length) }
    ensures bad { IfBad result (λ k. (k ≡ key) × IsUnspelled item_text IsItemRow meta.now) }
    ensures told { Tells key result (item_of meta.now length) }
{
    alone(key, take_item(alloc, length, meta))
}

/// The parent's number in an item's meta, without reading what follows it. It takes no memory.
pub fn parent_of(meta: &[u8]) -> Option<u64>
    ensures item { (row : ItemRow) → IsItemRow row → meta.now ≡ item_text row → result ≡ Some row.parent }
    ensures stands { IfSome result (λ parent. IsTextAt (u32_text parent) 1 meta.now) }
{
    match get_u32(meta, 1) {
        Ok(parent) => Some(parent as u64),
        Err(_) => None,
    }
}
