//! Removals, which can't fail.
ghost use Rattle.std.specs.Prelude.{◌≡◌, ◌+◌, ◌<◌, ◌≤◌, ℕ, length, vec_len, vec_capacity};
ghost use Rattle.std.specs.List.{sum_by};
ghost use Rattle.std.specs.Ordering.{nat_cmp};
ghost use Rattle.std.specs.BTreeMap.{is_at, IsOrdered};
ghost use Rattle.std.specs.Map.{remove_entry};
ghost use Rattle.tm_records.specs.Records.{weigh};
ghost use Rattle.tm_records.specs.Removes.{without};
ghost use Rattle.tm_records.specs.Undo.{let_go};

use crate::{Record, Undo};
use std::collections::BTreeMap;

/// Takes one key out, if it is there.
fn remove_one(records: &mut BTreeMap<u64, Record>, key: u64, log: &mut Vec<Undo>)
    requires room { vec_len log.old < vec_capacity log.old }
    ensures records { records.new.entries ≡ remove_entry (is_at (nat_cmp key)) records.old.entries }
    ensures balance { (w : ℕ → ℕ) → weigh w records.new.entries + sum_by (λ u. sum_by w (let_go u)) log.new.items ≡ weigh w records.old.entries + sum_by (λ u. sum_by w (let_go u)) log.old.items }
    ensures ordered { IsOrdered nat_cmp records.new }
    ensures count { vec_len log.new ≤ vec_len log.old + 1 }
    ensures capacity { vec_capacity log.old ≤ vec_capacity log.new }
{
    match records.remove(&key) {
        Some(old) => log.push(Undo::Replaced(key, old)).unwrap(),
        None => {}
    }
}

/// Takes these keys out, as far as they are there. The log, which has room for as many more, gets
/// what was let go. It takes no memory.
pub fn remove_all(records: &mut BTreeMap<u64, Record>, keys: &[u64], log: &mut Vec<Undo>)
    requires room { vec_len log.old + length keys.now ≤ vec_capacity log.old }
    ensures records { records.new.entries ≡ without keys.now records.old.entries }
    ensures balance { (w : ℕ → ℕ) → weigh w records.new.entries + sum_by (λ u. sum_by w (let_go u)) log.new.items ≡ weigh w records.old.entries + sum_by (λ u. sum_by w (let_go u)) log.old.items }
    ensures ordered { IsOrdered nat_cmp records.old → IsOrdered nat_cmp records.new }
{
    for key in keys {
        remove_one(records, *key, log);
    }
}
