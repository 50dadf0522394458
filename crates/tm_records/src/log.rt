//! How changes of the records are taken back.
ghost use Rattle.std.specs.Prelude.{◌≡◌, IsSome, IfSome, Some, reverse};
ghost use Rattle.std.specs.Ordering.{nat_cmp};
ghost use Rattle.std.specs.BTreeMap.{insert_entry, IsOrdered};
ghost use Rattle.tm_records.specs.Records.{at};
ghost use Rattle.tm_records.specs.Undo.{CanUndo, undone, CanUndoAll, all_undone, with_meta};

use crate::Record;
use std::alloc::Global;
use std::collections::BTreeMap;
use tm_world::{Blocks, Bytes};

/// How one change of the records is taken back.
#[derive(Drop)]
pub enum Undo {
    /// No record stood at the key.
    Absent(u64),
    /// This record stood at the key.
    Replaced(u64, Record),
    /// The record at the key had this meta, and the data that it has now.
    Meta(u64, Bytes),
}

/// Puts a record in place of the one at the key, which can't fail.
fn replace(records: &mut BTreeMap<u64, Record>, key: u64, fresh: Record) -> Record
    requires { IsSome (at key records.old.entries) }
    ensures old { at key records.old.entries ≡ Some result }
    ensures entries { records.new.entries ≡ insert_entry nat_cmp records.old.entries key fresh }
    ensures here { at key records.new.entries ≡ Some fresh }
    ensures was_ordered { IsOrdered nat_cmp records.old }
    ensures ordered { IsOrdered nat_cmp records.new }
{
    match records.insert(key, fresh) {
        Ok(Some(old)) => old,
        _ => unreachable!(),
    }
}

/// Gives the record at the key another meta, and returns the old one.
pub(crate) fn replace_meta(
    alloc: Global,
    records: &mut BTreeMap<u64, Record>,
    key: u64,
    meta: Bytes,
) -> Bytes
    requires { IsSome (at key records.old.entries) }
    ensures entries { records.new.entries ≡ with_meta key meta (at key records.old.entries) records.old.entries }
    ensures old { IfSome (at key records.old.entries) (λ r. result ≡ r.meta) }
    ensures here { IfSome (at key records.old.entries) (λ r. at key records.new.entries ≡ Some (record { meta = meta; length = r.length; blocks = r.blocks })) }
    ensures was_ordered { IsOrdered nat_cmp records.old }
    ensures ordered { IsOrdered nat_cmp records.new }
{
    let blank = Record {
        meta: Bytes::of(Vec::new(alloc)),
        length: 0,
        blocks: Blocks::of(Vec::new(alloc)),
    };
    let Record {
        meta: old,
        length,
        blocks,
    } = replace(records, key, blank);
    let fresh = Record {
        meta,
        length,
        blocks,
    };
    let _ = replace(records, key, fresh);
    old
}

/// Takes one change back.
fn undo_one(alloc: Global, records: &mut BTreeMap<u64, Record>, undo: Undo)
    requires { CanUndo undo records.old.entries }
    ensures { records.new.entries ≡ undone undo records.old.entries }
{
    match undo {
        Undo::Absent(key) => {
            let _ = records.remove(&key);
        }
        Undo::Replaced(key, old) => {
            let _ = replace(records, key, old);
        }
        Undo::Meta(key, meta) => {
            let _ = replace_meta(alloc, records, key, meta);
        }
    }
}

/// Takes all changes back, the newest first. It takes no memory.
pub fn undo_all(alloc: Global, records: &mut BTreeMap<u64, Record>, log: &mut Vec<Undo>)
    requires { CanUndoAll (reverse log.old.items) records.old.entries }
    ensures { records.new.entries ≡ all_undone (reverse log.old.items) records.old.entries }
{
    while let Some(undo) = log.pop() {
        undo_one(alloc, records, undo);
    }
}
