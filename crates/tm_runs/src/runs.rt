//! The runs of a change.
ghost use Rattle.std.specs.Prelude.{◌≡◌, ◌≤◌, ◌<◌, ◌+◌, ◌-◌, ◌^◌, ℕ, IfOk, length, slice_index};
ghost use Rattle.std.specs.List.{All};
ghost use Rattle.std.specs.List.Sorted.{IsStrictlyIncreasing};
ghost use Rattle.std.specs.Option.{unwrap_or};
ghost use Rattle.tm_records.specs.Removes.{without};
ghost use Rattle.tm_runs.specs.Marks.{end, mark_at, IsUpTo, MarksRise};
ghost use Rattle.tm_runs.specs.Changes.{AreRunsFor};
ghost use Rattle.tm_runs.specs.Touched.{HoldsTouched};

use crate::{Holder, encode_run, find_pages};
use std::alloc::Global;
use std::collections::BTreeMap;
use tm_codec::Memory;
use tm_pages::Run;
use tm_records::Record;

/// Pages that changes touch, how many keys are done with them, and a page from which on those of the
/// next key lie.
#[derive(Clone, Copy, Debug, PartialEq, Eq)]
struct Span {
    from: usize,
    to: usize,
    next: usize,
    low: usize,
}

/// The pages that the change at one key touches, and those of all later keys with fewer than two
/// pages between.
fn span_from(holders: &[Holder], keys: &[u64], low: usize, first: usize) -> Span
    requires inside { low < length holders.now }
    requires some { first < length keys.now }
    requires rising { IsStrictlyIncreasing keys.now }
    requires begins { IsUpTo (mark_at holders.now low) (slice_index keys.now first) }
    requires rise { MarksRise holders.now }
    ensures from { low ≤ result.from }
    ensures touched { HoldsTouched holders.now keys.now result.from result.to }
    ensures inside { result.to ≤ length holders.now }
    ensures more { (first < result.next) × (result.next ≤ length keys.now) }
    ensures begins { IsUpTo (mark_at holders.now result.from) (slice_index keys.now first) }
    ensures done { slice_index keys.now (result.next - 1) < (mark_at holders.now result.to).key }
    ensures gap { result.next < length keys.now → (result.to + 2 ≤ result.low) × (result.low < length holders.now) × IsUpTo (mark_at holders.now result.low) (slice_index keys.now result.next) }
{
    let touched = find_pages(holders, low, keys[first]);
    let from = touched.from;
    let mut to = touched.to;
    let mut next = first + 1;
    let mut low = from;
    while next < keys.len() {
        let touched = find_pages(holders, to - 1, keys[next]);
        if touched.from >= to + 2 {
            low = touched.from;
            break;
        }
        to = touched.to;
        next += 1;
    }
    Span {
        from,
        to,
        next,
        low,
    }
}

/// The mark before a page: the start of all before the first.
pub(crate) fn mark_of(holders: &[Holder], at: usize) -> Holder
    requires { 0 < at → at < length holders.now }
    ensures { result ≡ mark_at holders.now at }
{
    if at == 0 {
        Holder { key: 0, skip: 0 }
    } else {
        holders[at]
    }
}

/// The holder of a page, if there is one.
fn holder_at(holders: &[Holder], at: usize) -> Option<Holder>
    requires { 0 < at }
    ensures { unwrap_or result end ≡ mark_at holders.now at }
{
    match holders.get(at) {
        Some(holder) => Some(*holder),
        None => None,
    }
}

/// The runs of pages that a change of the records at these keys touches, each with its new text. The
/// records after the change are these without those at some keys, which rise; the holders are those
/// of the pages before it. Only want of memory can refuse it.
pub fn runs_of(
    alloc: Global,
    records: &BTreeMap<u64, Record>,
    left_out: &[u64],
    holders: &[Holder],
    keys: &[u64],
) -> Result<Vec<Run>, Memory>
    requires metas { All (λ e. length e.1.meta < 2 ^ 32) records.now.entries }
    requires left_out { IsStrictlyIncreasing left_out.now }
    requires some { 0 < length holders.now }
    requires rise { MarksRise holders.now }
    requires rising { IsStrictlyIncreasing keys.now }
    ensures runs { IfOk result (λ runs. AreRunsFor (without left_out.now records.now.entries) holders.now keys.now 0 runs.items) }
    ensures touched { IfOk result (λ runs. All (λ run. HoldsTouched holders.now keys.now run.from run.to) runs.items) }
{
    let mut runs = Vec::new(alloc);
    let mut next = 0usize;
    let mut low = 0usize;
    while next < keys.len() {
        let span = span_from(holders, keys, low, next);
        let before = mark_of(holders, span.from.saturating_sub(1));
        let after = holder_at(holders, span.to + 1);
        let text = encode_run(alloc, records, left_out, before, after)?;
        runs.push(Run {
            from: span.from,
            to: span.to,
            text,
        })?;
        low = span.low;
        next = span.next;
    }
    Ok(runs)
}
