//! Writing the directory text (`docs/FORMATS.md`, "Pages").
ghost use Rattle.std.specs.Prelude.{◌≡◌, ◌++◌, OnOk, IfOk};
ghost use Rattle.tm_pages.specs.Directory.{directory_text, entry_text};

use crate::Page;
use std::alloc::Global;
use tm_codec::{Memory, put_u16, put_u32};

/// Adds the entry of a page.
#[tactic(auto, unfolding(crate::specs::Directory::entry_text))]
fn push_entry(out: &mut Vec<u8>, page: Page) -> Result<(), Memory>
    ensures { OnOk result (out.new.items ≡ out.old.items ++ entry_text page) }
{
    put_u32(out, page.block)?;
    put_u16(out, page.length)
}

/// The directory text of these pages, 6 bytes a page. Only want of memory can refuse it.
pub fn directory_of(alloc: Global, pages: &[Page]) -> Result<Vec<u8>, Memory>
    ensures { IfOk result (λ text. text.items ≡ directory_text pages.now) }
{
    let mut out = Vec::new(alloc);
    for page in pages {
        push_entry(&mut out, *page)?;
    }
    Ok(out)
}
