//! Where a run of touched pages is cut anew.
ghost use Rattle.std.specs.Prelude.{◌≡◌, ◌≤◌, ◌<◌, ◌+◌, ◌-◌, ◌*◌, ◌↔◌, ◌⊎◌, ◌^◌, IsTrue, IfOk, IfErr, length};
ghost use Rattle.tm_pages.specs.Paged.{IsPaged, lengths};
ghost use Rattle.tm_pages.specs.Runs.{IsRun, AreRuns, AreCuts};
ghost use Rattle.tm_pages.specs.Cuts.{IsCutBetween, IsCutOf, before_of, after_of, cut_len, first_of, last_of};

use crate::{Page, PlanError};
use std::alloc::Global;
use tm_world::Bytes;

/// A run of touched pages, and what they hold after an edit. Where it touches no page, text comes in
/// before page `to`.
#[derive(Drop)]
pub struct Run {
    /// The first touched page.
    pub from: usize,
    /// The page after the last touched one.
    pub to: usize,
    /// The new text of the touched pages, between the texts of the page before them and of the page
    /// after them, where there are such pages.
    pub text: Bytes,
}

/// What becomes of a run: some pages go, and a part of the run's text is cut into pages in their
/// place, each of 4,096 bytes but the last.
#[derive(Clone, Copy, Debug, PartialEq, Eq)]
pub struct Cut {
    /// The first page that goes.
    pub from: usize,
    /// The page after the last one that goes.
    pub to: usize,
    /// Where in the text of the run the part begins, in bytes.
    pub start: usize,
    /// Where it ends.
    pub end: usize,
}

/// The first page that so many bytes are cut into.
fn first_len(n: usize) -> usize
    ensures { result ≡ first_of n }
{
    n.min(4096)
}

/// The last page that so many bytes are cut into, 0 where there is none.
fn last_len(n: usize) -> usize
    requires { n < 2 ^ 63 }
    ensures { result ≡ last_of n }
{
    if n == 0 { 0 } else { (n - 1) % 4096 + 1 }
}

/// Whether two pages of so many bytes may stand side by side; none, of 0 bytes, may stand beside
/// any.
fn may_join(left: usize, right: usize) -> bool
    requires { (left ≤ 4096) × (right ≤ 4096) }
    ensures { IsTrue result ↔ (0 < left → 0 < right → 4097 ≤ left + right) }
{
    left == 0 || right == 0 || left + right >= 4097
}

/// Where a run is cut anew, by the lengths of the pages before and after it, 0 where there is none.
fn choose(before: usize, after: usize, from: usize, to: usize, total: usize) -> Cut
    requires pages { (before ≤ 4096) × (after ≤ 4096) }
    requires holds { before + after ≤ total }
    requires small { (total < 2 ^ 63) × (to < 2 ^ 63) }
    requires some { 0 < before → 0 < from }
    ensures { IsCutBetween before after from to total result }
{
    let end = total - after;
    let middle = end - before;
    let stays = if middle == 0 {
        may_join(before, after)
    } else {
        may_join(before, first_len(middle)) && may_join(last_len(middle), after)
    };
    if stays {
        return Cut {
            from,
            to,
            start: before,
            end,
        };
    }
    let from = if before == 0 { from } else { from - 1 };
    if may_join(last_len(end), after) {
        Cut {
            from,
            to,
            start: 0,
            end,
        }
    } else {
        Cut {
            from,
            to: to + 1,
            start: 0,
            end: total,
        }
    }
}

/// The length of the page before a place, 0 where there is none.
fn len_before(old: &[Page], at: usize) -> usize
    requires { at ≤ length old.now }
    ensures { result ≡ before_of (lengths old.now) at }
{
    if at == 0 {
        0
    } else {
        usize::from(old[at - 1].length)
    }
}

/// The length of the page at a place, 0 where there is none.
fn len_at(old: &[Page], at: usize) -> usize
    ensures { result ≡ after_of (lengths old.now) at }
{
    match old.get(at) {
        Some(page) => usize::from(page.length),
        None => 0,
    }
}

/// Where a run is cut anew.
fn cut_run(old: &[Page], run: &Run) -> Cut
    requires paged { IsPaged (lengths old.now) }
    requires run { IsRun (lengths old.now) run.now }
    ensures { IsCutOf (lengths old.now) run.now result }
{
    let before = len_before(old, run.from);
    let after = len_at(old, run.to);
    choose(before, after, run.from, run.to, run.text.as_slice().len())
}

/// Where each run is cut anew. Only want of memory can refuse it.
pub(crate) fn cut_runs(alloc: Global, old: &[Page], runs: &[Run]) -> Result<Vec<Cut>, PlanError>
    requires paged { IsPaged (lengths old.now) }
    requires runs { AreRuns (lengths old.now) 0 runs.now }
    ensures cuts { IfOk result (λ cuts. AreCuts (lengths old.now) runs.now cuts.items) }
    ensures err { IfErr result (λ e. e ≡ PlanError.Memory) }
{
    let mut cuts = Vec::new(alloc);
    for run in runs {
        cuts.push(cut_run(old, run))?;
    }
    Ok(cuts)
}
