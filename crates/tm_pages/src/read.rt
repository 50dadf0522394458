//! Reading the pages of a table.
ghost use Rattle.std.specs.Prelude.{◌≡◌, ◌≤◌, ◌<◌, ◌+◌, ◌-◌, ◌*◌, ◌%◌, ◌^◌, ◌↔◌, ◌++◌, ◌∷◌, [], ℕ, length, slice_index, slice_set, sum, IsTrue, IfOk, IfErr, OnOk, IsErrOf, Err};
ghost use Rattle.std.specs.Bool.{OnTrue};
ghost use Rattle.std.specs.List.{All};
ghost use Rattle.tm_world.specs.Outside.{disk, part_of};
ghost use Rattle.tm_world.specs.Log.{now, Steps};
ghost use Rattle.tm_world.specs.Faults.{NeverLess, Rose};
ghost use Rattle.tm_blockmap.specs.Marks.{AreMarks};
ghost use Rattle.tm_blockmap.specs.Counts.{times};
ghost use Rattle.tm_codec.specs.Fields.{u16_text, u32_text};
ghost use Rattle.tm_codec.specs.Places.{IsTextAt};
ghost use Rattle.tm_pages.specs.declared.page.Page.{Page};
ghost use Rattle.tm_pages.specs.Paged.{blocks_of, lengths, text_on};
ghost use Rattle.tm_pages.specs.Directory.{IsDirectory, BreaksAt, directory_text, entry_text};

use crate::{Page, PagesError};
use std::alloc::Global;
use tm_blockmap::BlockMap;
use tm_codec::{get_u16, get_u32};
use tm_world::{Bytes, Side, World};

/// The pages of a table, and their text.
#[derive(Drop)]
pub struct Paged {
    /// The pages, in order.
    pub pages: Vec<Page>,
    /// The text that they hold, one after another.
    pub text: Bytes,
}

/// The entry at a place of a directory text.
fn entry_at(directory: &[u8], at: usize) -> Page
    requires { at + 6 ≤ length directory.now }
    ensures stands { IsTextAt (entry_text result) at directory.now }
    ensures small { (result.block < 2 ^ 32) × (result.length < 2 ^ 16) }
{
    let block = get_u32(directory, at).unwrap();
    let length = get_u16(directory, at + 4).unwrap();
    Page { block, length }
}

/// Whether a page may have this length after one of `before` bytes, 0 where it is the first.
fn may_follow(before: u16, length: u16) -> bool
    requires { before ≤ 4096 }
    ensures { IsTrue result ↔ ((1 ≤ length) × (length ≤ 4096) × (0 < before → 4097 ≤ before + length)) }
{
    1 <= length && length <= 4096 && (before == 0 || before + length >= 4097)
}

/// Claims the block of a page, if the page keeps the rules after one of `before` bytes; whether it
/// does.
fn keeps_rules(used: &mut BlockMap, before: u16, page: Page) -> bool
    requires { before ≤ 4096 }
    ensures good { IsTrue result ↔ ((1 ≤ page.length) × (page.length ≤ 4096) × (0 < before → 4097 ≤ before + page.length) × (page.block < length used.old) × (slice_index used.old page.block ≡ 0)) }
    ensures claimed { OnTrue result (used.new ≡ slice_set used.old page.block 1) }
    ensures size { length used.new ≡ length used.old }
{
    may_follow(before, page.length) && page.block < used.size() && used.claim(page.block)
}

/// The pages of a directory text, whose blocks are used afterwards.
fn read_directory(
    alloc: Global,
    directory: &[u8],
    used: &mut BlockMap,
) -> Result<Vec<Page>, PagesError>
    requires whole { length directory.now % 6 ≡ 0 }
    requires marks { AreMarks used.old }
    requires small { length used.old ≤ 2 ^ 32 }
    ensures good { IfOk result (λ pages. IsDirectory used.old pages.items) }
    ensures text { IfOk result (λ pages. directory.now ≡ directory_text pages.items) }
    ensures used { IfOk result (λ pages. (b : ℕ) → slice_index used.new b ≡ slice_index used.old b + times b (blocks_of pages.items)) }
    ensures size { length used.new ≡ length used.old }
    ensures bad { (offset : ℕ) → result ≡ Err (PagesError.BadPages offset) → BreaksAt used.old directory.now offset }
    ensures no_fault { IsErrOf result PagesError.Fault → ⊥ }
{
    let mut pages: Vec<Page> = Vec::new(alloc);
    let mut before = 0u16;
    for k in 0..directory.len() / 6 {
        let page = entry_at(directory, 6 * k);
        if !keeps_rules(used, before, page) {
            return Err(PagesError::BadPages(6 * k as u64));
        }
        pages.push(page)?;
        before = page.length;
    }
    Ok(pages)
}

/// The text that pages hold.
fn read_text<W: World>(
    alloc: Global,
    world: &mut W,
    side: Side,
    pages: &[Page],
) -> Result<Vec<u8>, PagesError>
    requires within { All (λ p. p.block < W.blocks world.old side) pages.now }
    requires short { All (λ p. p.length ≤ 4096) pages.now }
    ensures text { W.told → IfOk result (λ text. text.items ≡ text_on pages.now (disk side (now (W.log world.old))).bytes) }
    ensures long { IfOk result (λ text. length text.items ≡ sum (lengths pages.now)) }
    ensures steps { W.told → Steps (W.log world.old) (W.log world.new) (now (W.log world.old)) }
    ensures blocks { W.blocks world.new ≡ W.blocks world.old }
    ensures never_less { NeverLess (W.faults world.old) (W.faults world.new) }
    ensures cause { IsErrOf result PagesError.Fault → Rose (W.faults world.old (part_of side)) (W.faults world.new (part_of side)) }
    ensures not_bad { (offset : ℕ) → result ≡ Err (PagesError.BadPages offset) → ⊥ }
{
    let mut text = Vec::new(alloc);
    let mut block = [0u8; 4096];
    for page in pages {
        world.read(side, page.block, &mut block)?;
        text.extend_from_slice(&block[..usize::from(page.length)])?;
    }
    Ok(text)
}

/// Reads the pages that a directory text lists, and the text that they hold. The map `used` is of
/// the image's blocks, and marks those that can't be a page's: 0 to 2, and those of the directory.
///
/// `BadPages` comes exactly where an entry breaks a rule of `docs/FORMATS.md`, "Pages", and tells
/// the offset of the first in the directory text: its block isn't one that the map marks as free, or
/// is that of an earlier entry; or its length isn't 1 to 4,096; or is with the length before it below
/// 4,097. `Fault` comes only where this side's count of faults rose. At `Ok` the pages' blocks are
/// used too. It changes nothing outside.
pub fn read_pages<W: World>(
    alloc: Global,
    world: &mut W,
    side: Side,
    directory: &[u8],
    used: &mut BlockMap,
) -> Result<Paged, PagesError>
    requires whole { length directory.now % 6 ≡ 0 }
    requires marks { AreMarks used.old }
    requires small { length used.old ≤ 2 ^ 32 }
    requires count { W.blocks world.old side ≡ length used.old }
    ensures good { IfOk result (λ paged. IsDirectory used.old paged.pages.items) }
    ensures directory { IfOk result (λ paged. directory.now ≡ directory_text paged.pages.items) }
    ensures text { W.told → IfOk result (λ paged. paged.text ≡ text_on paged.pages.items (disk side (now (W.log world.old))).bytes) }
    ensures long { IfOk result (λ paged. length paged.text ≡ sum (lengths paged.pages.items)) }
    ensures used { IfOk result (λ paged. (b : ℕ) → slice_index used.new b ≡ slice_index used.old b + times b (blocks_of paged.pages.items)) }
    ensures marks { IfOk result (λ paged. AreMarks used.new) }
    ensures size { length used.new ≡ length used.old }
    ensures bad { (offset : ℕ) → result ≡ Err (PagesError.BadPages offset) → BreaksAt used.old directory.now offset }
    ensures steps { W.told → Steps (W.log world.old) (W.log world.new) (now (W.log world.old)) }
    ensures blocks { W.blocks world.new ≡ W.blocks world.old }
    ensures never_less { NeverLess (W.faults world.old) (W.faults world.new) }
    ensures cause { IsErrOf result PagesError.Fault → Rose (W.faults world.old (part_of side)) (W.faults world.new (part_of side)) }
{
    let pages = read_directory(alloc, directory, used)?;
    let text = read_text(alloc, world, side, &pages)?;
    Ok(Paged {
        pages,
        text: Bytes::of(text),
    })
}
