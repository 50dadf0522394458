//! Folders of the view.
ghost use Rattle.std.specs.Prelude.{◌≡◌, ◌++◌, ◌∷◌, [], ℕ, List, true, Some, IfOk, IfErr, IfSome};
ghost use Rattle.tm_base.specs.declared.refused.LineFault.TheVariants.{Memory};
ghost use Rattle.tm_tree.specs.Contents.{is_fixed};
ghost use Rattle.tm_tree.specs.Items.{is_excluded};
ghost use Rattle.tm_tree.specs.Listings.{listing, list_rows};
ghost use Rattle.tm_tree.specs.Trees.{folder_at, item_at};
ghost use Rattle.tm_volume.specs.Seen.{IsKept, tree_on};
ghost use Rattle.tm_backup.specs.Shown.{IsListed, body_excluded, is_out, listing_of, shown_rows};
ghost use Rattle.tm_backup.specs.Taking.{view_on};

use std::alloc::{AllocError, Global};
use tm_base::{LineFault, Name, Path};
use tm_tree::{Attrs, ItemBody, LeafRow, ListKind, ListRow, PathList};
use tm_volume::Volume;
use tm_volume::laws::items_keep_bounds;

/// A folder: its attributes, and its entries by rising name.
#[derive(Drop)]
pub(crate) struct Folder {
    /// The folder's own.
    pub attrs: Attrs,
    /// Its entries.
    pub rows: Vec<ListRow>,
}

/// The folder of the view at a path; only want of memory can refuse it.
pub(crate) fn list_view(
    alloc: Global,
    volume: &mut Volume,
    path: &Path,
) -> Result<Folder, LineFault>
    requires kept { IsKept volume.old }
    requires shown { (bytes : ℕ → List ℕ) → folder_at (view_on volume.old bytes) path.now ≡ true }
    ensures listing { IfOk result (λ folder. (bytes : ℕ → List ℕ) → listing (view_on volume.old bytes) path.now ≡ Some (listing_of folder)) }
    ensures memory { IfErr result (λ fault. fault ≡ Memory) }
    ensures volume { volume.new ≡ record volume.old { looks = volume.new.looks } }
{
    let Some(listing) = volume.list(path)? else {
        unreachable!()
    };
    items_keep_bounds();
    let rows = shown_rows(alloc, volume, path, listing.rows.as_slice())?;
    Ok(Folder {
        attrs: listing.attrs,
        rows,
    })
}

/// The rows of a folder of the volume that its view has.
fn shown_rows(
    alloc: Global,
    volume: &Volume,
    path: &Path,
    rows: &[ListRow],
) -> Result<Vec<ListRow>, LineFault>
    requires kept { IsKept volume.now }
    requires rows { (bytes : ℕ → List ℕ) → rows.now ≡ list_rows (tree_on volume.now bytes) path.now }
    ensures shown { IfOk result (λ shown. (bytes : ℕ → List ℕ) → shown.items ≡ shown_rows volume.now.fixed (tree_on volume.now bytes) path.now) }
    ensures memory { IfErr result (λ fault. fault ≡ Memory) }
{
    items_keep_bounds();
    let mut shown = Vec::new(alloc);
    for row in rows {
        let place = child_of(path, &row.name)?;
        if !is_out(volume, &place, &row.kind)? {
            shown.push(copied(row)?)?;
        }
    }
    Ok(shown)
}

/// The path of an entry of the folder at a path; only want of memory can refuse it, since no path of
/// an item is longer than paths may be.
pub(crate) fn child_of(path: &Path, name: &Name) -> Result<Path, LineFault>
    ensures path { IfOk result (λ place. place ≡ path.now ++ name.now ∷ []) }
    ensures memory { IfErr result (λ fault. fault ≡ Memory) }
{
    match path.child(name) {
        Ok(place) => Ok(place),
        Err(_) => Err(LineFault::Memory),
    }
}

/// Whether what stands at a path, and is listed as this, is left out of the view.
fn is_out(volume: &Volume, place: &Path, kind: &ListKind) -> Result<bool, LineFault>
    requires { IsListed volume.now place.now kind.now }
    ensures out { IfOk result (λ out. (bytes : ℕ → List ℕ) → IfSome (item_at (tree_on volume.now bytes) place.now) (λ e. out ≡ is_out volume.now.fixed place.now e)) }
    ensures memory { IfErr result (λ fault. fault ≡ Memory) }
{
    if is_fixed(volume.fixed(), place) {
        return Ok(true);
    }
    match kind {
        ListKind::File { attrs, .. } => Ok(attrs.extra.has_exclusion()),
        ListKind::Link { attrs, .. } => Ok(attrs.extra.has_exclusion()),
        ListKind::Folder => folder_excluded(volume, place),
    }
}

/// Whether the item that stands at a path carries the exclusion attribute; only want of memory can
/// refuse the answer.
fn folder_excluded(volume: &Volume, place: &Path) -> Result<bool, LineFault>
    ensures excluded { IfOk result (λ out. (bytes : ℕ → List ℕ) → IfSome (item_at (tree_on volume.now bytes) place.now) (λ e. out ≡ is_excluded e)) }
    ensures memory { IfErr result (λ fault. fault ≡ Memory) }
{
    let Ok(row) = volume.find(place) else {
        return Err(LineFault::Memory);
    };
    Ok(body_excluded(&row.body))
}

fn body_excluded(body: &ItemBody) -> bool
    ensures { result ≡ body_excluded body.now }
{
    match body {
        ItemBody::Folder { attrs } => attrs.extra.has_exclusion(),
        ItemBody::Leaf(LeafRow::File { attrs, .. }) => attrs.extra.has_exclusion(),
        ItemBody::Leaf(LeafRow::Link { attrs, .. }) => attrs.extra.has_exclusion(),
    }
}

fn is_fixed(fixed: &PathList, place: &Path) -> bool
    ensures { result ≡ is_fixed fixed.now place.now }
{
    let paths = fixed.as_slice();
    paths.iter().any(|fixed| place.cmp(fixed).is_eq())
}

fn copied(row: &ListRow) -> Result<ListRow, AllocError>
    ensures { IfOk result (λ copy. copy ≡ row.now) }
{
    Ok(ListRow {
        name: row.name.clone()?,
        kind: copied_kind(&row.kind)?,
    })
}

fn copied_kind(kind: &ListKind) -> Result<ListKind, AllocError>
    ensures { IfOk result (λ copy. copy ≡ kind.now) }
{
    match kind {
        ListKind::Folder => Ok(ListKind::Folder),
        ListKind::File {
            attrs,
            stamp,
            length,
        } => Ok(ListKind::File {
            attrs: attrs.clone()?,
            stamp: *stamp,
            length: *length,
        }),
        ListKind::Link {
            attrs,
            stamp,
            target,
        } => Ok(ListKind::Link {
            attrs: attrs.clone()?,
            stamp: *stamp,
            target: target.clone()?,
        }),
    }
}
