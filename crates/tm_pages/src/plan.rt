//! Planning the new pages of a table.
ghost use Rattle.std.specs.Prelude.{◌≡◌, ◌≤◌, ◌<◌, ◌+◌, ◌-◌, ℕ, ◌++◌, length, drop, slice_index, slice_index_or, sum, OnOk, OnErr, IfOk, IfErr, IfSome, IfNone, Err, MatchOption};
ghost use Rattle.std.specs.List.{All, Contains};
ghost use Rattle.tm_blockmap.specs.Marks.{AreMarks};
ghost use Rattle.tm_blockmap.specs.Counts.{times, IsDistinct};
ghost use Rattle.tm_blockmap.specs.Takes.{Takes};
ghost use Rattle.tm_pages.specs.Paged.{IsPaged, lengths, blocks_of, pages_for};
ghost use Rattle.tm_pages.specs.Cuts.{cut_len};
ghost use Rattle.tm_pages.specs.declared.page.Page.{Page};
ghost use Rattle.tm_pages.specs.Plans.{AreParts, IsFar};
ghost use Rattle.tm_pages.specs.Runs.{AreRuns, AreCuts, AreInOrder, fresh_len, pages_on, planned, planned_lens, gone, edited_len};

use crate::cut::cut_runs;
use crate::{Cut, Page, PlanError, Run};
use std::alloc::Global;
use tm_blockmap::BlockMap;

/// The pages of a table after an edit, and what must be done to have them.
#[derive(Drop)]
pub struct Plan {
    /// All pages of the table, in order.
    pub pages: Vec<Page>,
    /// Where each run is cut anew, in order.
    pub cuts: Vec<Cut>,
    /// The blocks of the pages that must be written, in order: those of the first cut, then those of
    /// the next.
    pub blocks: Vec<u32>,
}

/// How many pages so many bytes are cut into, 4,096 bytes to a page.
pub fn cut_count(n: usize) -> usize
    ensures { result ≡ cut_len n }
{
    if n % 4096 == 0 {
        n / 4096
    } else {
        n / 4096 + 1
    }
}

/// How many pages these cuts make, if they are at most so many.
fn count_fresh(cuts: &[Cut], free: u32) -> Option<u32>
    requires { All (λ cut. cut.start ≤ cut.end) cuts.now }
    ensures many { IfSome result (λ count. count ≡ fresh_len cuts.now) }
    ensures fits { IfSome result (λ count. count ≤ free) }
    ensures full { IfNone result (free < fresh_len cuts.now) }
{
    let mut rest = free;
    for cut in cuts {
        let count = cut_count(cut.end - cut.start);
        if count > rest as usize {
            return None;
        }
        rest -= count as u32;
    }
    Some(free - rest)
}

/// Adds the pages that so many bytes are cut into, on the blocks from a place on.
fn lay_cut(pages: &mut Vec<Page>, blocks: &[u32], first: usize, n: usize) -> Result<(), PlanError>
    requires { first + cut_len n ≤ length blocks.now }
    ensures ok { OnOk result (pages.new.items ≡ pages.old.items ++ pages_on (drop first blocks.now) n) }
    ensures err { IfErr result (λ e. e ≡ PlanError.Memory) }
{
    for k in 0..cut_count(n) {
        let length = (n - 4096 * k).min(4096) as u16;
        let block = blocks[first + k];
        pages.push(Page { block, length })?;
    }
    Ok(())
}

/// The pages after these cuts, with the new ones on these blocks. Only want of memory can refuse
/// it.
fn lay(alloc: Global, old: &[Page], cuts: &[Cut], blocks: &[u32]) -> Result<Vec<Page>, PlanError>
    requires order { AreInOrder (length old.now) 0 cuts.now }
    requires many { fresh_len cuts.now ≤ length blocks.now }
    ensures ok { IfOk result (λ pages. pages.items ≡ planned old.now 0 cuts.now blocks.now) }
    ensures err { IfErr result (λ e. e ≡ PlanError.Memory) }
{
    let mut pages = Vec::new(alloc);
    let mut at = 0usize;
    let mut first = 0usize;
    for cut in cuts {
        let n = cut.end - cut.start;
        pages.extend_from_slice(&old[at..cut.from])?;
        lay_cut(&mut pages, blocks, first, n)?;
        at = cut.to;
        first += cut_count(n);
    }
    pages.extend_from_slice(&old[at..])?;
    Ok(pages)
}

/// Plans the pages of a table after an edit, which is told by its runs: each touches some pages of
/// the old list, and has their new text between the texts of the pages beside them. Takes the
/// lowest free blocks for the new pages.
///
/// A page that is neither touched nor next to a touched one stays at its block. `Full` comes only
/// where fewer blocks are free than a text of the new length can have pages. After an `Err` the map
/// is as before.
pub fn plan_pages(
    alloc: Global,
    old: &[Page],
    runs: &[Run],
    map: &mut BlockMap,
) -> Result<Plan, PlanError>
    requires paged { IsPaged (lengths old.now) }
    requires used { (b : ℕ) → times b (blocks_of old.now) ≤ slice_index map.old b }
    requires marks { AreMarks map.old }
    requires runs { AreRuns (lengths old.now) 0 runs.now }
    ensures cuts { IfOk result (λ plan. AreCuts (lengths old.now) runs.now plan.cuts.items) }
    ensures parts { IfOk result (λ plan. AreParts runs.now plan.cuts.items) }
    ensures pages { IfOk result (λ plan. plan.pages.items ≡ planned old.now 0 plan.cuts.items plan.blocks.items) }
    ensures lens { IfOk result (λ plan. lengths plan.pages.items ≡ planned_lens (lengths old.now) 0 plan.cuts.items) }
    ensures order { IfOk result (λ plan. AreInOrder (length old.now) 0 plan.cuts.items) }
    ensures many { IfOk result (λ plan. length plan.blocks.items ≡ fresh_len plan.cuts.items) }
    ensures paged { IfOk result (λ plan. IsPaged (lengths plan.pages.items)) }
    ensures long { IfOk result (λ plan. sum (lengths plan.pages.items) ≡ edited_len (lengths old.now) 0 runs.now) }
    ensures stays { IfOk result (λ plan. (k : ℕ) (d : Page) → k < length old.now → IsFar k runs.now → Contains plan.pages.items (slice_index_or old.now k d)) }
    ensures taken { IfOk result (λ plan. Takes plan.blocks.items map.old map.new) }
    ensures marks { IfOk result (λ plan. (b : ℕ) → slice_index map.new b ≡ slice_index map.old b + times b plan.blocks.items) }
    ensures within { IfOk result (λ plan. (k : ℕ) → k < length plan.blocks.items → slice_index plan.blocks.items k < length map.old) }
    ensures distinct { IfOk result (λ plan. IsDistinct plan.blocks.items) }
    ensures balance { IfOk result (λ plan. (b : ℕ) → times b (blocks_of plan.pages.items) + times b (blocks_of (gone old.now plan.cuts.items)) ≡ times b (blocks_of old.now) + times b plan.blocks.items) }
    ensures used { IfOk result (λ plan. (b : ℕ) → times b (blocks_of plan.pages.items) ≤ slice_index map.new b) }
    ensures are_marks { AreMarks map.new }
    ensures size { length map.new ≡ length map.old }
    ensures full { result ≡ Err PlanError.Full → length map.old < sum map.old + pages_for (edited_len (lengths old.now) 0 runs.now) }
    ensures err { OnErr result (map.new ≡ map.old) }
{
    let cuts = cut_runs(alloc, old, runs)?;
    let Some(count) = count_fresh(&cuts, map.free()) else {
        return Err(PlanError::Full);
    };
    let blocks = map.take_all(alloc, count)?;
    match lay(alloc, old, &cuts, &blocks) {
        Ok(pages) => Ok(Plan {
            pages,
            cuts,
            blocks,
        }),
        Err(error) => {
            map.give_all(&blocks);
            Err(error)
        }
    }
}
