//! Kept journal rows (`docs/RECORDS.md`, "Journal rows").
ghost use Rattle.std.specs.Prelude.{◌≡◌, ◌≢◌, ◌++◌, ℕ, List, IfOk, OnOk, flat_map, length, option_map};
ghost use Rattle.std.specs.Ordering.{nat_cmp};
ghost use Rattle.tm_tree.specs.declared.rows.Row.{Row};
ghost use Rattle.tm_nodes.specs.Answers.{IfBad, Tells};
ghost use Rattle.tm_nodes.specs.Rows.{row_text, rows_text, AreRows};
ghost use Rattle.tm_nodes.specs.Readers.{Gives, to_end};
ghost use Rattle.tm_nodes.specs.Reading.{is_after, last_of, row_at, next_row_at};
ghost use Rattle.tm_nodes.specs.Records.{rows_of};
ghost use Rattle.tm_nodes.specs.Spelled.{IsSpelled, IsUnspelled};

use crate::error::{NodeError, ReadError, alone};
use crate::field::{take_u8, take_u64};
use crate::path::{put_path, take_path};
use std::alloc::Global;
use tm_codec::{Memory, put_u8, put_u64};
use tm_tree::{Row, RowList};
use tm_world::Bytes;

#[tactic(auto, unfolding(crate::specs::Rows::row_text))]
fn put_row(out: &mut Vec<u8>, row: &Row) -> Result<(), Memory>
    ensures { OnOk result (out.new.items ≡ out.old.items ++ row_text row.now) }
{
    put_u64(out, row.id)?;
    put_u8(out, row.flags)?;
    put_path(out, &row.path)
}

/// The data of journal rows; only want of memory can refuse it.
#[tactic(auto, unfolding(crate::specs::Rows::rows_text))]
pub fn rows_data(alloc: Global, rows: &RowList) -> Result<Bytes, Memory>
    requires { AreRows rows.now }
    ensures { IfOk result (λ bytes. bytes ≡ rows_text rows.now) }
{
    let mut out = Vec::new(alloc);
    for row in rows.as_slice() {
        put_row(&mut out, row)?;
    }
    Ok(Bytes::of(out))
}

/// The row in front.
#[tactic(auto, unfolding(crate::specs::Reading::row_at, crate::specs::Reading::are_flags, crate::specs::Readers::and_then, crate::specs::Readers::only_if))]
fn take_row(alloc: Global, bytes: &[u8]) -> Result<(Row, &[u8]), ReadError>
    ensures { Gives (λ x. (x.0, x.1.now)) result (row_at bytes.now) }
{
    let (id, rest) = take_u64(bytes)?;
    let (flags, rest) = take_u8(rest)?;
    let (path, rest) = take_path(alloc, rest)?;
    if !matches!(flags, 0 | 1 | 3 | 5) {
        return Err(ReadError::Broken);
    }
    let row = Row { id, path, flags };
    Ok((row, rest))
}

/// Whether an id is above that of the last row there.
fn is_above(rows: &[Row], id: u64) -> bool
    ensures { result ≡ is_after nat_cmp (option_map (λ x. x.id) (last_of rows.now)) id }
{
    match rows.last() {
        None => true,
        Some(last) => last.id < id,
    }
}

/// One more row, its id above that of the last one there.
#[tactic(auto, unfolding(crate::specs::Reading::next_row_at, crate::specs::Readers::and_then, crate::specs::Readers::only_if))]
fn take_next_row<'a>(
    alloc: Global,
    rows: &[Row],
    bytes: &'a [u8],
) -> Result<(Row, &'a [u8]), ReadError>
    ensures { Gives (λ x. (x.0, x.1.now)) result (next_row_at (last_of rows.now) bytes.now) }
{
    let (row, rest) = take_row(alloc, bytes)?;
    if !is_above(rows, row.id) {
        return Err(ReadError::Broken);
    }
    Ok((row, rest))
}

/// Rows by rising id, up to the end of the bytes.
fn take_rows(alloc: Global, bytes: &[u8]) -> Result<(RowList, &[u8]), ReadError>
    ensures { Gives (λ x. (x.0, x.1.now)) result (to_end next_row_at (length bytes.now) None bytes.now) }
{
    let mut rows = Vec::new(alloc);
    let mut rest = bytes;
    while !rest.is_empty() {
        let (row, after) = take_next_row(alloc, &rows, rest)?;
        rows.push(row)?;
        rest = after;
    }
    Ok((RowList::of(rows), rest))
}

/// The journal rows that are these data; [`NodeError::BadNode`] with the key 2 exactly where the
/// data are none.
pub fn read_rows(alloc: Global, data: &[u8]) -> Result<RowList, NodeError>
    ensures rows { IfOk result (IsSpelled rows_text AreRows «data».now) }
    ensures bad { IfBad result (λ k. (k ≡ 2) × IsUnspelled rows_text AreRows «data».now) }
    ensures told { Tells 2 result (rows_of «data».now) }
{
    alone(2, take_rows(alloc, data))
}
