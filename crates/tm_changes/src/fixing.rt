//! Paths that get excluded from backups, or are so no longer.
ghost use Rattle.std.specs.Prelude.{◌≡◌, ◌+◌, ℕ, List, IfOk, Option, if◌then◌else◌, length};
ghost use Rattle.tm_tree.specs.Contents.{is_fixed};
ghost use Rattle.tm_tree.specs.declared.change.Change.TheVariants.{Fix, Unfix};
ghost use Rattle.tm_changes.specs.Fixings.{FindsFixed, SetsFixed};
ghost use Rattle.tm_changes.specs.Fitting.{staged_len};
ghost use Rattle.tm_volume.specs.Seen.{volume_on};
ghost use Rattle.tm_changes.specs.Writes.{IsFixing, PlansData, staged_data};

use std::alloc::AllocError;
use tm_base::limits::MAX_FIXED;
use tm_base::{LineFault, Path, Refused};
use tm_records::{Body, Put};
use tm_tree::Change;
use tm_volume::{Edit, Volume};
use tm_volume_records::{FixedPaths, HEAD_KEY, JOURNAL_KEY};
use tm_world::Bytes;

/// How many there are with this one.
fn count_with(fixed: &FixedPaths, path: &Path) -> u128
    ensures { result ≡ (if is_fixed fixed.now path.now then length fixed.now else length fixed.now + 1) }
{
    let count = fixed.list().as_slice().len() as u128;
    if fixed.has(path) { count } else { count + 1 }
}

/// The fixed paths with this one, or why there can't be.
fn with_fixed(volume: &Volume, path: &Path) -> Result<FixedPaths, LineFault>
    ensures { FindsFixed volume.now.fixed (Fix path.now) result }
{
    let count = count_with(volume.fixed_paths(), path);
    if count > MAX_FIXED as u128 {
        return Err(LineFault::Refused(Refused::TooMany { count }));
    }
    if path.is_root() {
        return Err(LineFault::Refused(Refused::RootItem));
    }
    Ok(volume.fixed_paths().with(volume.alloc(), path)?)
}

/// The fixed paths without this one, which must be there.
fn without_fixed(volume: &Volume, path: &Path) -> Result<FixedPaths, LineFault>
    ensures { FindsFixed volume.now.fixed (Unfix path.now) result }
{
    if !volume.fixed_paths().has(path) {
        return Err(LineFault::Refused(Refused::NotExcluded));
    }
    Ok(volume.fixed_paths().without(volume.alloc(), path)?)
}

/// The fixed paths after a change of them, or why it is refused, but for the lack of numbers
/// and of room.
fn fixed_after(volume: &Volume, change: &Change) -> Result<FixedPaths, LineFault>
    requires { IsFixing change.now }
    ensures { FindsFixed volume.now.fixed change.now result }
{
    match change {
        Change::Fix { path } => with_fixed(volume, path),
        Change::Unfix { path } => without_fixed(volume, path),
        _ => unreachable!(),
    }
}

/// The edit after which these are the fixed paths, once it brings their data.
fn fixing_edit(volume: &Volume, paths: FixedPaths, next: u64) -> Result<Edit, AllocError>
    ensures { IfOk result (SetsFixed volume.now paths next) }
{
    let head = Put {
        key: HEAD_KEY,
        meta: volume.head_meta()?,
        body: Body::Empty,
    };
    Ok(Edit {
        remove: vec![in volume.alloc(); JOURNAL_KEY]?,
        put: vec![in volume.alloc(); head]?,
        enter: None,
        leave: None,
        fixed: Some(paths),
        next,
    })
}

/// What is planned for a change of the fixed paths: the edit that brings their data, or why the
/// change is refused, but for the lack of room.
pub(crate) fn plan_fixed(volume: &Volume, change: &Change) -> Result<Edit, LineFault>
    requires { IsFixing change.now }
    ensures { (bytes : ℕ → List ℕ) (moment : Option ℕ) → PlansData volume.now change.now moment (staged_len (volume_on volume.now bytes).contents change.now) result }
{
    volume.rules();
    let paths = fixed_after(volume, change)?;
    // Their list comes with the rules that they keep.
    let _ = paths.list();
    let Some(next) = volume.next_after(2) else {
        return Err(LineFault::Refused(Refused::IdsSpent));
    };
    Ok(fixing_edit(volume, paths, next)?)
}

/// The data of the fixed paths after a change of them that can be planned.
pub(crate) fn fixed_data(volume: &Volume, change: &Change) -> Result<Bytes, AllocError>
    requires { IsFixing change.now }
    ensures { IfOk result (λ found. (bytes : ℕ → List ℕ) → found ≡ staged_data (volume_on volume.now bytes).contents change.now) }
{
    match fixed_after(volume, change) {
        Ok(paths) => paths.to_data(volume.alloc()),
        Err(_) => Err(AllocError),
    }
}
