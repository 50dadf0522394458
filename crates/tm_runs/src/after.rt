//! The holders of new pages.
ghost use Rattle.std.specs.Prelude.{◌≡◌, ◌≤◌, ◌<◌, ◌+◌, ◌-◌, ◌*◌, ◌^◌, ◌++◌, IfOk, OnOk, drop, length, sum, take};
ghost use Rattle.std.specs.List.Sorted.{IsStrictlyIncreasing};
ghost use Rattle.tm_records.specs.Removes.{without};
ghost use Rattle.tm_table.specs.Text.{record_text, table_text};
ghost use Rattle.tm_pages.specs.Paged.{IsPaged, lengths};
ghost use Rattle.tm_pages.specs.Cuts.{cut_len, cut_lengths};
ghost use Rattle.tm_runs.specs.Marks.{one, place, mark_at, AreHolders, AreHoldersFrom};
ghost use Rattle.tm_runs.specs.After.{IsPlanFor};

use crate::Holder;
use crate::runs::mark_of;
use std::alloc::Global;
use std::collections::BTreeMap;
use tm_codec::Memory;
use tm_pages::{Cut, Page, Plan, Run, cut_count};
use tm_records::Record;
use tm_table::is_among;

/// How long the text of a record is.
fn record_len(entry: &Record) -> usize
    requires { 20 + length entry.now.meta + 4 * length entry.now.blocks < 2 ^ 63 }
    ensures { result ≡ 20 + length entry.now.meta + 4 * length entry.now.blocks }
{
    20 + entry.meta.as_slice().len() + 4 * entry.blocks.as_slice().len()
}

/// The holder of the byte so many bytes behind the place of a holder, in the text of the records
/// without those at some keys, which rise: a walk over the records between. It takes no memory.
pub fn holder_after(
    records: &BTreeMap<u64, Record>,
    left_out: &[u64],
    from: Holder,
    by: usize,
) -> Holder
    requires rising { IsStrictlyIncreasing left_out.now }
    requires small { length (table_text (without left_out.now records.now.entries)) < 2 ^ 63 }
    requires within { place (without left_out.now records.now.entries) from + by < length (table_text (without left_out.now records.now.entries)) }
    ensures place { place (without left_out.now records.now.entries) result ≡ place (without left_out.now records.now.entries) from + by }
    ensures inside { result.skip < length (table_text (one result.key (without left_out.now records.now.entries))) }
{
    let mut left = from.skip + by;
    for (key, record) in records.range(from.key..) {
        if is_among(*key, left_out) {
            continue;
        }
        let count = record_len(record);
        if left < count {
            return Holder {
                key: *key,
                skip: left,
            };
        }
        left -= count;
    }
    from
}

/// The holders of pages that follow one another, the first of them so many bytes behind the place of
/// a holder, in the text of the records without those at some keys, which rise: a walk over the
/// records of these pages. Only want of memory can refuse it.
pub fn holders_from(
    alloc: Global,
    records: &BTreeMap<u64, Record>,
    left_out: &[u64],
    from: Holder,
    first: usize,
    pages: &[Page],
) -> Result<Vec<Holder>, Memory>
    requires rising { IsStrictlyIncreasing left_out.now }
    requires small { length (table_text (without left_out.now records.now.entries)) < 2 ^ 63 }
    requires paged { IsPaged (lengths pages.now) }
    requires within { place (without left_out.now records.now.entries) from + first + sum (lengths pages.now) ≤ length (table_text (without left_out.now records.now.entries)) }
    ensures { IfOk result (λ holders. AreHoldersFrom (without left_out.now records.now.entries) (place (without left_out.now records.now.entries) from + first) (lengths pages.now) holders.items) }
{
    let mut holders = Vec::new(alloc);
    let mut last = from;
    let mut by = first;
    for page in pages {
        last = holder_after(records, left_out, last, by);
        holders.push(last)?;
        by = usize::from(page.length);
    }
    Ok(holders)
}

/// The holders of all pages: a walk over all records, as when a table is read. Only want of memory
/// can refuse it.
pub fn holders_of(
    alloc: Global,
    records: &BTreeMap<u64, Record>,
    pages: &[Page],
) -> Result<Vec<Holder>, Memory>
    requires small { length (table_text records.now.entries) < 2 ^ 63 }
    requires paged { IsPaged (lengths pages.now) }
    requires whole { sum (lengths pages.now) ≡ length (table_text records.now.entries) }
    ensures { IfOk result (λ holders. AreHolders records.now.entries (lengths pages.now) holders.items) }
{
    holders_from(alloc, records, &[], Holder { key: 0, skip: 0 }, 0, pages)
}

/// The holder where the text of a run begins: that of the page before it, or the start of all.
fn begin_of(holders: &[Holder], run: &Run) -> Holder
    requires { 0 < run.now.from - 1 → run.now.from - 1 < length holders.now }
    ensures { result ≡ mark_at holders.now (run.now.from - 1) }
{
    mark_of(holders, run.from.saturating_sub(1))
}

/// The holders of the pages that a cut makes, the first of them at a place of the list of all
/// pages.
fn fresh_holders(
    alloc: Global,
    records: &BTreeMap<u64, Record>,
    left_out: &[u64],
    begin: Holder,
    cut: Cut,
    first: usize,
    pages: &[Page],
) -> Result<Vec<Holder>, Memory>
    requires rising { IsStrictlyIncreasing left_out.now }
    requires small { length (table_text (without left_out.now records.now.entries)) < 2 ^ 63 }
    requires rises { cut.start ≤ cut.end }
    requires enough { first + cut_len (cut.end - cut.start) ≤ length pages.now }
    requires lens { lengths (take (cut_len (cut.end - cut.start)) (drop first pages.now)) ≡ cut_lengths (cut.end - cut.start) }
    requires within { place (without left_out.now records.now.entries) begin + cut.start + sum (cut_lengths (cut.end - cut.start)) ≤ length (table_text (without left_out.now records.now.entries)) }
    ensures { IfOk result (λ fresh. AreHoldersFrom (without left_out.now records.now.entries) (place (without left_out.now records.now.entries) begin + cut.start) (cut_lengths (cut.end - cut.start)) fresh.items) }
{
    let count = cut_count(cut.end - cut.start);
    let made = &pages[first..first + count];
    holders_from(alloc, records, left_out, begin, cut.start, made)
}

/// Adds the holders from one page on to before another.
fn push_kept(
    new: &mut Vec<Holder>,
    holders: &[Holder],
    from: usize,
    to: usize,
) -> Result<(), Memory>
    requires order { from ≤ to }
    requires inside { to ≤ length holders.now }
    ensures { OnOk result (new.new.items ≡ new.old.items ++ take (to - from) (drop from holders.now)) }
{
    new.extend_from_slice(&holders[from..to])?;
    Ok(())
}

/// The holders of all pages, those of pages that stay and those of new ones, cut by cut.
fn join_holders(
    alloc: Global,
    records: &BTreeMap<u64, Record>,
    left_out: &[u64],
    holders: &[Holder],
    runs: &[Run],
    cuts: &[Cut],
    pages: &[Page],
) -> Result<Vec<Holder>, Memory>
    requires rising { IsStrictlyIncreasing left_out.now }
    requires small { length (table_text (without left_out.now records.now.entries)) < 2 ^ 63 }
    requires plan { IsPlanFor (without left_out.now records.now.entries) holders.now runs.now cuts.now (lengths pages.now) }
    ensures { IfOk result (λ new. AreHolders (without left_out.now records.now.entries) (lengths pages.now) new.items) }
{
    let mut new = Vec::new(alloc);
    let mut at = 0usize;
    for k in 0..cuts.len() {
        let cut = cuts[k];
        push_kept(&mut new, holders, at, cut.from)?;
        let begin = begin_of(holders, &runs[k]);
        let fresh = fresh_holders(alloc, records, left_out, begin, cut, new.len(), pages)?;
        new.extend_from_slice(&fresh)?;
        at = cut.to;
    }
    push_kept(&mut new, holders, at, holders.len())?;
    Ok(new)
}

/// The holders of the pages of a plan, whose cuts are those of these runs, from the holders of the
/// old pages. The records after the change are these without those at some keys, which rise. Holders
/// of pages that stay are as they were, and those of new pages are found by a walk over the records
/// of these pages. Only want of memory can refuse it.
pub fn holders_after_plan(
    alloc: Global,
    records: &BTreeMap<u64, Record>,
    left_out: &[u64],
    holders: &[Holder],
    runs: &[Run],
    plan: &Plan,
) -> Result<Vec<Holder>, Memory>
    requires rising { IsStrictlyIncreasing left_out.now }
    requires small { length (table_text (without left_out.now records.now.entries)) < 2 ^ 63 }
    requires plan { IsPlanFor (without left_out.now records.now.entries) holders.now runs.now plan.now.cuts.items (lengths plan.now.pages.items) }
    ensures { IfOk result (λ new. AreHolders (without left_out.now records.now.entries) (lengths plan.now.pages.items) new.items) }
{
    join_holders(
        alloc,
        records,
        left_out,
        holders,
        runs,
        &plan.cuts,
        &plan.pages,
    )
}
