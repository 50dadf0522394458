//! Rows by rising path: a touch finds those that it takes away by halving, and its own place.
ghost use Rattle.std.specs.Prelude.{◌≡◌, ℕ, ◌+◌, ◌<◌, ◌≤◌, ◌++◌, All, IfSome, IfNone, IfOk, OnOk, true, false, not, filter, length, slice_index_or, vec_len, vec_capacity, option_to_list};
ghost use Rattle.std.specs.List.{insert, remove_range};
ghost use Rattle.std.specs.List.Sorted.{IsPartitionPoint, IsPermutation, IsNonDecreasingBy};
ghost use Rattle.tm_journal.specs.Rows.{must_scan, replaces, rows_above};
ghost use Rattle.tm_journal.specs.Cover.{covers};
ghost use Rattle.tm_journal.specs.Kept.{IsByPath, is_before, reaches};

use std::alloc::AllocError;
use tm_base::Path;
use tm_tree::Row;

/// Whether flags have MustScanSubDirs.
fn must_scan(flags: u8) -> bool
    ensures { result ≡ must_scan flags }
{
    flags % 2 == 1
}

/// Whether a row covers a path.
fn covers(row: &Row, path: &Path) -> bool
    ensures { result ≡ covers row.now path.now }
{
    if must_scan(row.flags) {
        row.path.is_prefix_of(path)
    } else {
        row.path == *path
    }
}

/// Whether a touch takes an older row away.
fn replaces(touch: &Row, older: &Row) -> bool
    ensures { result ≡ replaces touch.now older.now }
{
    (touch.path == older.path && older.flags == 0)
        || (must_scan(touch.flags) && touch.path.is_prefix_of(&older.path))
}

/// Whether a row stands before a path.
fn is_before(row: &Row, path: &Path) -> bool
    ensures { result ≡ is_before row.now path.now }
{
    row.path < *path
}

/// Whether a row stands before a touch's path, or is covered by the touch.
fn reaches(touch: &Row, row: &Row) -> bool
    ensures { result ≡ reaches touch.now row.now }
{
    is_before(row, &touch.path) || covers(touch, &row.path)
}

/// How many rows stand before a path.
fn first_from(rows: &[Row], path: &Path) -> usize
    requires { IsByPath rows.now }
    ensures within { result ≤ length rows.now }
    ensures parts { IsPartitionPoint (λ row. is_before row path.now ≡ true) (λ row. is_before row path.now ≡ false) rows.now result }
{
    rows.partition_point(|row| is_before(row, path))
}

/// How many rows stand before those that come after all that a touch covers.
fn first_past(rows: &[Row], touch: &Row) -> usize
    requires { IsByPath rows.now }
    ensures within { result ≤ length rows.now }
    ensures parts { IsPartitionPoint (λ row. reaches touch.now row ≡ true) (λ row. reaches touch.now row ≡ false) rows.now result }
{
    rows.partition_point(|row| reaches(touch, row))
}

/// The place of a row without flags at the path of a touch without MustScanSubDirs.
fn plain_place(rows: &[Row], touch: &Row) -> Option<usize>
    requires plain { must_scan touch.now.flags ≡ false }
    requires by_path { IsByPath rows.now }
    ensures some { IfSome result (λ at. (at < length rows.now) × ((d : _) → replaces touch.now (slice_index_or rows.now at d) ≡ true)) }
    ensures none { IfNone result (All (λ row. not (replaces touch.now row) ≡ true) rows.now) }
{
    let start = first_from(rows, &touch.path);
    for at in start..first_past(rows, touch) {
        if rows[at].flags == 0 {
            return Some(at);
        }
    }
    None
}

/// Removes the rows that a touch without MustScanSubDirs takes away.
fn forget_plain(rows: &mut Vec<Row>, touch: &Row)
    requires plain { must_scan touch.now.flags ≡ false }
    requires by_path { IsByPath rows.old.items }
    ensures items { rows.new.items ≡ filter (λ row. not (replaces touch.now row)) rows.old.items }
    ensures len { vec_len rows.new ≤ vec_len rows.old }
    ensures capacity { vec_capacity rows.new ≡ vec_capacity rows.old }
{
    while let Some(at) = plain_place(rows, touch) {
        rows.remove(at);
    }
}

/// Removes the rows that a touch with MustScanSubDirs takes away.
fn forget_beneath(rows: &mut Vec<Row>, touch: &Row)
    requires scan { must_scan touch.now.flags ≡ true }
    requires by_path { IsByPath rows.old.items }
    ensures items { rows.new.items ≡ filter (λ row. not (replaces touch.now row)) rows.old.items }
    ensures len { vec_len rows.new ≤ vec_len rows.old }
    ensures capacity { vec_capacity rows.new ≡ vec_capacity rows.old }
{
    let start = first_from(rows, &touch.path);
    let end = first_past(rows, touch);
    cut(rows, start, end);
}

/// Removes the rows from one place to another.
fn cut(rows: &mut Vec<Row>, start: usize, end: usize)
    requires order { start ≤ end }
    requires within { end ≤ vec_len rows.old }
    ensures items { rows.new.items ≡ remove_range rows.old.items start end }
    ensures len { vec_len rows.new ≤ vec_len rows.old }
    ensures capacity { vec_capacity rows.new ≡ vec_capacity rows.old }
{
    rows.drain(start..end);
}

/// Removes the rows that a touch takes away.
pub fn forget(rows: &mut Vec<Row>, touch: &Row)
    requires by_path { IsByPath rows.old.items }
    ensures items { rows.new.items ≡ filter (λ row. not (replaces touch.now row)) rows.old.items }
    ensures len { vec_len rows.new ≤ vec_len rows.old }
    ensures capacity { vec_capacity rows.new ≡ vec_capacity rows.old }
{
    if must_scan(touch.flags) {
        forget_beneath(rows, touch);
    } else {
        forget_plain(rows, touch);
    }
}

/// Removes the row at the root where a touch takes it away.
pub fn forget_root(root: &mut Option<Row>, touch: &Row)
    ensures { option_to_list root.new ≡ filter (λ row. not (replaces touch.now row)) (option_to_list root.old) }
{
    let goes = root.as_ref().is_some_and(|row| replaces(touch, row));
    if goes {
        *root = None;
    }
}

/// Puts a row in its place, into memory that is there.
pub fn put(rows: &mut Vec<Row>, row: Row)
    requires by_path { IsByPath rows.old.items }
    requires room { vec_len rows.old < vec_capacity rows.old }
    ensures items { (i : ℕ) × (rows.new.items ≡ insert rows.old.items i row) }
    ensures by_path { IsByPath rows.new.items }
    ensures len { vec_len rows.new ≡ vec_len rows.old + 1 }
    ensures capacity { vec_capacity rows.new ≡ vec_capacity rows.old }
{
    let place = first_from(rows, &row.path);
    rows.insert(place, row).unwrap();
}

/// Sorts rows by path. It takes no memory.
pub fn sort(rows: &mut Vec<Row>)
    ensures same { IsPermutation rows.old.items rows.new.items }
    ensures by_path { IsByPath rows.new.items }
{
    rows.sort_unstable_by(|a, b| a.path.cmp(&b.path));
}

/// Copies of the rows above a cursor, sorted by id.
pub fn copies_above(
    root: &Option<Row>,
    rows: &Vec<Row>,
    cursor: u64,
) -> Result<Vec<Row>, AllocError>
    ensures { IfOk result (λ out. IsPermutation (rows_above cursor (option_to_list root.now ++ rows.now.items)) out.items × IsNonDecreasingBy (λ row. row.id) out.items) }
{
    let mut out = gathered_above(root, rows, cursor)?;
    out.sort_unstable_by_key(|row| row.id);
    Ok(out)
}

/// Copies of the rows above a cursor, as they stand.
fn gathered_above(root: &Option<Row>, rows: &Vec<Row>, cursor: u64) -> Result<Vec<Row>, AllocError>
    ensures { IfOk result (λ out. out.items ≡ rows_above cursor (option_to_list root.now ++ rows.now.items)) }
{
    let mut out = Vec::new(*rows.allocator());
    push_above(&mut out, root_rows(root), cursor)?;
    push_above(&mut out, rows, cursor)?;
    Ok(out)
}

/// The row at the root as a list.
fn root_rows(root: &Option<Row>) -> &[Row]
    ensures { result.now ≡ option_to_list root.now }
{
    root.as_slice()
}

/// Adds copies of the rows above a cursor.
fn push_above(out: &mut Vec<Row>, rows: &[Row], cursor: u64) -> Result<(), AllocError>
    ensures { OnOk result (out.new.items ≡ out.old.items ++ rows_above cursor rows.now) }
{
    for row in rows {
        if row.id > cursor {
            out.push(copy(row)?)?;
        }
    }
    Ok(())
}

/// A copy of a row.
fn copy(row: &Row) -> Result<Row, AllocError>
    ensures { IfOk result (λ copy. copy ≡ row.now) }
{
    Ok(Row {
        id: row.id,
        path: row.path.clone()?,
        flags: row.flags,
    })
}
