//! Puts, all or none.
ghost use Rattle.std.specs.Prelude.{◌≡◌, ◌+◌, ◌≤◌, ℕ, [], reverse, vec_len, vec_capacity, IsSome, IfOk, OnOk, OnErr};
ghost use Rattle.std.specs.List.{All, sum_by};
ghost use Rattle.std.specs.Ordering.{nat_cmp};
ghost use Rattle.std.specs.BTreeMap.{insert_entry, IsOrdered};
ghost use Rattle.tm_records.specs.Records.{at, weigh};
ghost use Rattle.tm_records.specs.Puts.{CanPut, put_record, with_puts, brought};
ghost use Rattle.tm_records.specs.Undo.{CanUndo, undone, CanUndoAll, all_undone, let_go};

use crate::log::{replace_meta, undo_all};
use crate::{Body, Put, Record, Undo};
use std::alloc::{AllocError, Global};
use std::collections::BTreeMap;
use tm_world::{Blob, Blocks};

/// Puts a record at the key. On an error the records are as before.
fn place(records: &mut BTreeMap<u64, Record>, key: u64, fresh: Record) -> Result<Undo, AllocError>
    ensures ok { OnOk result (records.new.entries ≡ insert_entry nat_cmp records.old.entries key fresh) }
    ensures undo { IfOk result (λ u. CanUndo u records.new.entries × (undone u records.new.entries ≡ records.old.entries)) }
    ensures balance { IfOk result (λ u. (w : ℕ → ℕ) → weigh w records.new.entries + sum_by w (let_go u) ≡ weigh w records.old.entries + sum_by w fresh.blocks) }
    ensures ordered { IsOrdered nat_cmp records.new }
    ensures err { OnErr result (records.new.entries ≡ records.old.entries) }
{
    match records.insert(key, fresh) {
        Ok(None) => Ok(Undo::Absent(key)),
        Ok(Some(old)) => Ok(Undo::Replaced(key, old)),
        Err(_) => Err(AllocError),
    }
}

/// One put. On an error the records are as before.
fn put_one(alloc: Global, records: &mut BTreeMap<u64, Record>, put: Put) -> Result<Undo, AllocError>
    requires { CanPut put.body (at put.key records.old.entries) }
    ensures ok { OnOk result (records.new.entries ≡ insert_entry nat_cmp records.old.entries put.key (put_record put.body put.meta (at put.key records.old.entries))) }
    ensures undo { IfOk result (λ u. CanUndo u records.new.entries × (undone u records.new.entries ≡ records.old.entries)) }
    ensures balance { IfOk result (λ u. (w : ℕ → ℕ) → weigh w records.new.entries + sum_by w (let_go u) ≡ weigh w records.old.entries + sum_by w (brought put.body)) }
    ensures stays { OnOk result ((k : ℕ) → IsSome (at k records.old.entries) → IsSome (at k records.new.entries)) }
    ensures ordered { IsOrdered nat_cmp records.new }
    ensures err { OnErr result (records.new.entries ≡ records.old.entries) }
{
    let Put { key, meta, body } = put;
    match body {
        Body::Kept => {
            let old = replace_meta(alloc, records, key, meta);
            Ok(Undo::Meta(key, old))
        }
        Body::Empty => {
            let fresh = Record {
                meta,
                length: 0,
                blocks: Blocks::of(Vec::new(alloc)),
            };
            place(records, key, fresh)
        }
        Body::New(blob) => {
            let Blob { length, blocks } = blob;
            let fresh = Record {
                meta,
                length,
                blocks,
            };
            place(records, key, fresh)
        }
    }
}

/// Puts all of these records, or, where memory is refused, none. The log, which has room for as
/// many, is how they are taken back.
///
/// Whatever weight blocks have, what the records weigh and what they let go is what they weighed
/// and what the puts bring.
pub fn put_all(
    alloc: Global,
    records: &mut BTreeMap<u64, Record>,
    puts: Vec<Put>,
    log: &mut Vec<Undo>,
) -> Result<(), AllocError>
    requires empty { log.old.items ≡ [] }
    requires room { vec_len puts ≤ vec_capacity log.old }
    requires can { All (λ p. CanPut p.body (at p.key records.old.entries)) puts.items }
    ensures ok { OnOk result (records.new.entries ≡ with_puts puts.items records.old.entries) }
    ensures balance { OnOk result ((w : ℕ → ℕ) → weigh w records.new.entries + sum_by (λ u. sum_by w (let_go u)) log.new.items ≡ weigh w records.old.entries + sum_by (λ p. sum_by w (brought p.body)) puts.items) }
    ensures can_undo { OnOk result (CanUndoAll (reverse log.new.items) records.new.entries) }
    ensures undone { OnOk result (all_undone (reverse log.new.items) records.new.entries ≡ records.old.entries) }
    ensures count { OnOk result (vec_len log.new ≡ vec_len puts) }
    ensures capacity { OnOk result (vec_capacity log.old ≤ vec_capacity log.new) }
    ensures ordered { OnOk result (IsOrdered nat_cmp records.old → IsOrdered nat_cmp records.new) }
    ensures err { OnErr result (records.new.entries ≡ records.old.entries) }
{
    for put in puts {
        match put_one(alloc, records, put) {
            Ok(undo) => log.push(undo).unwrap(),
            Err(error) => {
                undo_all(alloc, records, log);
                return Err(error);
            }
        }
    }
    Ok(())
}
