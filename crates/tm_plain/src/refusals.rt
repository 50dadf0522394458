// Why a line is refused: for each family of changes its tests, by rising number of the refusal.
ghost use Rattle.std.specs.Prelude.{◌≡◌, ◌+◌, ◌++◌, ◌∷◌, [], if◌then◌else◌, not, nat_lt, length, IfOk};
ghost use Rattle.tm_tree.specs.Changes.{most_items, most_bytes, place_tests, file_tests, item_tests, rmdir_tests, mv_tests, setx_tests, rmx_tests, fix_tests, length_at, attrs_at, has_extra, extras_count};
ghost use Rattle.tm_tree.specs.Contents.{is_fixed};
ghost use Rattle.tm_tree.specs.Refusing.{first_refused, too_many, needs_moment};
ghost use Rattle.tm_base.specs.declared.refused.Refused.TheVariants.{IsFolder, TooLong, NotExcluded};
ghost use Rattle.tm_tree.specs.Walks.{is_at_file, is_at_folder, way};

use crate::paths::parent;
use crate::tree::Tree;
use std::alloc::AllocError;
use std::collections::BTreeSet;
use tm_base::limits::{MAX_EXTRAS, MAX_FILE_BYTES, MAX_FIXED, MAX_ITEMS};
use tm_base::{Moment, Name, Path, Refused};
use tm_tree::{Item, Way, is_exclusion};

fn too_many(limit: u128, count: u128) -> Option<Refused>
    ensures { result ≡ first_refused (too_many limit count) }
{
    if count > limit {
        Some(Refused::TooMany { count })
    } else {
        None
    }
}

fn needs_moment(moment: Option<Moment>) -> Option<Refused>
    ensures { result ≡ first_refused (needs_moment moment) }
{
    if moment.is_none() {
        Some(Refused::NoMoment)
    } else {
        None
    }
}

impl Tree {
    // Of a new folder or link.
    pub(crate) fn refuses_place(
        &self,
        path: &Path,
        moment: Option<Moment>,
    ) -> Result<Option<Refused>, AllocError>
        ensures { IfOk result (λ why.
            why ≡ first_refused (place_tests self.now path.now ++ needs_moment moment)) }
    {
        let into = self.way(&parent(path)?)?;
        Ok(if into == Way::Nowhere {
            Some(Refused::NotFound)
        } else if self.get(path).is_some() {
            Some(Refused::Exists)
        } else if into != Way::AtFolder {
            Some(Refused::NotFolder)
        } else {
            too_many(MAX_ITEMS as u128, self.len() as u128 + 1).or(needs_moment(moment))
        })
    }

    // Of a file that is written, so that it has so many bytes.
    pub(crate) fn refuses_file(
        &self,
        path: &Path,
        size: u64,
        moment: Option<Moment>,
    ) -> Result<Option<Refused>, AllocError>
        ensures { IfOk result (λ why.
            why ≡ first_refused (file_tests self.now path.now size ++ needs_moment moment)) }
    {
        let into = self.way(&parent(path)?)?;
        let there = self.way(path)?;
        if into == Way::Nowhere {
            return Ok(Some(Refused::NotFound));
        }
        if there == Way::AtLink {
            return Ok(Some(Refused::Exists));
        }
        if into != Way::AtFolder {
            return Ok(Some(Refused::NotFolder));
        }
        if there == Way::AtFolder {
            return Ok(Some(Refused::IsFolder));
        }
        Ok(self.refuses_size(there, size).or(needs_moment(moment)))
    }

    // Of so many bytes in a file where the walk to it ends there.
    fn refuses_size(&self, there: Way, size: u64) -> Option<Refused>
        ensures { result ≡ first_refused ((nat_lt most_bytes size, TooLong size)
            ∷ too_many most_items (if is_at_file there then length self.now else length self.now + 1)) }
    {
        let made = if there == Way::AtFile { 0 } else { 1 };
        if size > MAX_FILE_BYTES {
            Some(Refused::TooLong { length: size })
        } else {
            too_many(MAX_ITEMS as u128, self.len() as u128 + made)
        }
    }

    // Of what walks to an item.
    pub(crate) fn refuses_item(&self, path: &Path) -> Result<Option<Refused>, AllocError>
        ensures { IfOk result (λ why. why ≡ first_refused (item_tests self.now path.now)) }
    {
        Ok(match self.way(path)? {
            Way::Nowhere => Some(Refused::NotFound),
            Way::Blocked => Some(Refused::NotFolder),
            _ => None,
        })
    }

    // Of a file or link that is removed.
    pub(crate) fn refuses_rm(
        &self,
        path: &Path,
        moment: Option<Moment>,
    ) -> Result<Option<Refused>, AllocError>
        ensures { IfOk result (λ why. why ≡ first_refused (item_tests self.now path.now
            ++ (is_at_folder (way self.now path.now), IsFolder) ∷ needs_moment moment)) }
    {
        Ok(match self.way(path)? {
            Way::Nowhere => Some(Refused::NotFound),
            Way::Blocked => Some(Refused::NotFolder),
            Way::AtFolder => Some(Refused::IsFolder),
            _ => needs_moment(moment),
        })
    }

    // Of a folder that is removed.
    pub(crate) fn refuses_rmdir(
        &self,
        path: &Path,
        moment: Option<Moment>,
    ) -> Result<Option<Refused>, AllocError>
        ensures { IfOk result (λ why.
            why ≡ first_refused (rmdir_tests self.now path.now ++ needs_moment moment)) }
    {
        let there = self.way(path)?;
        Ok(if there == Way::Nowhere {
            Some(Refused::NotFound)
        } else if there != Way::AtFolder {
            Some(Refused::NotFolder)
        } else if self.children(path) > 0 {
            Some(Refused::NotEmpty)
        } else if path.is_root() {
            Some(Refused::RootItem)
        } else {
            needs_moment(moment)
        })
    }

    // Of a move.
    pub(crate) fn refuses_mv(
        &self,
        from: &Path,
        to: &Path,
        moment: Option<Moment>,
    ) -> Result<Option<Refused>, AllocError>
        ensures { IfOk result (λ why.
            why ≡ first_refused (mv_tests self.now from.now to.now ++ needs_moment moment)) }
    {
        let start = self.way(from)?;
        let into = self.way(&parent(to)?)?;
        Ok(if start == Way::Nowhere || into == Way::Nowhere {
            Some(Refused::NotFound)
        } else if self.get(to).is_some() {
            Some(Refused::Exists)
        } else if start == Way::Blocked || into != Way::AtFolder {
            Some(Refused::NotFolder)
        } else if from.is_prefix_of(to) {
            Some(Refused::IntoSelf)
        } else if self.is_too_deep(from, to) {
            Some(Refused::TooDeep)
        } else {
            needs_moment(moment)
        })
    }

    // Of an extra that is set.
    pub(crate) fn refuses_setx(
        &self,
        path: &Path,
        name: &Name,
    ) -> Result<Option<Refused>, AllocError>
        ensures { IfOk result (λ why. why ≡ first_refused (setx_tests self.now path.now name.now)) }
    {
        Ok(match self.way(path)? {
            Way::Nowhere => Some(Refused::NotFound),
            Way::Blocked => Some(Refused::NotFolder),
            _ => too_many(MAX_EXTRAS as u128, self.extras_with(path, name)).or(if path.is_root()
                && is_exclusion(name)
            {
                Some(Refused::RootItem)
            } else {
                None
            }),
        })
    }

    // Of an extra that is removed.
    pub(crate) fn refuses_rmx(
        &self,
        path: &Path,
        name: &Name,
    ) -> Result<Option<Refused>, AllocError>
        ensures { IfOk result (λ why. why ≡ first_refused (rmx_tests self.now path.now name.now)) }
    {
        Ok(match self.way(path)? {
            Way::Nowhere => Some(Refused::NotFound),
            Way::Blocked => Some(Refused::NotFolder),
            _ => {
                if self.has_extra(path, name) {
                    None
                } else {
                    Some(Refused::NoAttribute)
                }
            }
        })
    }

    fn has_extra(&self, path: &Path, name: &Name) -> bool
        ensures { result ≡ has_extra (attrs_at self.now path.now) name.now }
    {
        match self.get(path) {
            Some(item) => item.attrs().extra.get(name).is_some(),
            None => false,
        }
    }

    // How many extras an item has, once this one is set.
    fn extras_with(&self, path: &Path, name: &Name) -> u128
        ensures { let attrs = attrs_at self.now path.now in
            result ≡ (if has_extra attrs name.now then extras_count attrs else extras_count attrs + 1) }
    {
        let count = match self.get(path) {
            Some(item) => item.attrs().extra.len() as u128,
            None => 0,
        };
        if self.has_extra(path, name) {
            count
        } else {
            count + 1
        }
    }

    // The length of the file at a path; 0 where none stands.
    pub(crate) fn length_at(&self, path: &Path) -> usize
        ensures { result ≡ length_at self.now path.now }
    {
        match self.get(path) {
            Some(Item::File { bytes, .. }) => bytes.as_slice().len(),
            _ => 0,
        }
    }
}

// Of a path that is fixed as excluded.
pub(crate) fn refuses_fix(fixed: &BTreeSet<Path>, path: &Path) -> Option<Refused>
    ensures { result ≡ first_refused (fix_tests fixed.now.keys path.now) }
{
    let count = fixed.len() as u128 + if fixed.contains(path) { 0 } else { 1 };
    too_many(MAX_FIXED as u128, count).or(if path.is_root() {
        Some(Refused::RootItem)
    } else {
        None
    })
}

// Of a path that is fixed no longer.
pub(crate) fn refuses_unfix(fixed: &BTreeSet<Path>, path: &Path) -> Option<Refused>
    ensures { result ≡ first_refused ((not (is_fixed fixed.now.keys path.now), NotExcluded) ∷ []) }
{
    if fixed.contains(path) {
        None
    } else {
        Some(Refused::NotExcluded)
    }
}
