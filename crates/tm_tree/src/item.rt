//! An item without its place, and with a label.
ghost use Rattle.std.specs.Prelude.{◌≡◌, IfOk};
ghost use Rattle.tm_tree.specs.Items.{attrs_of, with_attrs, stamped, dated, is_folder, is_excluded, new_folder, new_file, new_link, same_item};
ghost use Rattle.tm_tree.specs.Listings.{listed};

use crate::attrs::Attrs;
use crate::listing::ListKind;
use std::alloc::{AllocError, Global};
use tm_base::Moment;
use tm_world::Bytes;

/// What stands at one path: a folder, a file or a symbolic link. Its entries, if it is a folder,
/// stand at paths of their own.
#[derive(Drop)]
pub enum Item {
    /// A folder.
    Folder {
        /// Its attributes.
        attrs: Attrs,
    },
    /// A file.
    File {
        /// Its attributes.
        attrs: Attrs,
        /// The number drawn when it was made or last changed.
        stamp: u64,
        /// Its contents, at most 16,777,216 bytes.
        bytes: Bytes,
    },
    /// A symbolic link, which is never followed.
    Link {
        /// Its attributes.
        attrs: Attrs,
        /// The number drawn when it was made or last changed.
        stamp: u64,
        /// Where it points to, 1 to 1,023 bytes.
        target: Bytes,
    },
}

impl Item {
    /// A new folder, dated. It takes no memory.
    pub fn new_folder(alloc: Global, moment: Moment) -> Item
        ensures { result ≡ new_folder moment }
    {
        Item::Folder {
            attrs: Attrs::new(alloc, 0o755, moment),
        }
    }

    /// A new file with these bytes, dated. It takes no memory.
    pub fn new_file(alloc: Global, moment: Moment, stamp: u64, bytes: Bytes) -> Item
        ensures { result ≡ new_file moment stamp bytes }
    {
        Item::File {
            attrs: Attrs::new(alloc, 0o644, moment),
            stamp,
            bytes,
        }
    }

    /// A new link to this target, dated. It takes no memory.
    pub fn new_link(alloc: Global, moment: Moment, stamp: u64, target: Bytes) -> Item
        ensures { result ≡ new_link moment stamp target }
    {
        Item::Link {
            attrs: Attrs::new(alloc, 0o755, moment),
            stamp,
            target,
        }
    }

    /// Its attributes. It takes no memory.
    pub fn attrs(&self) -> &Attrs
        ensures { result.now ≡ attrs_of self.now }
    {
        match self {
            Item::Folder { attrs } => attrs,
            Item::File { attrs, .. } => attrs,
            Item::Link { attrs, .. } => attrs,
        }
    }

    /// Whether it is a folder. It takes no memory.
    pub fn is_folder(&self) -> bool
        ensures { result ≡ is_folder self.now }
    {
        match self {
            Item::Folder { .. } => true,
            Item::File { .. } => false,
            Item::Link { .. } => false,
        }
    }

    /// Whether it carries the exclusion attribute, with any value. It takes no memory.
    pub fn is_excluded(&self) -> bool
        ensures { result ≡ is_excluded self.now }
    {
        self.attrs().extra.has_exclusion()
    }

    /// What a listing of its folder says of it.
    pub fn listed(&self) -> Result<ListKind, AllocError>
        ensures { IfOk result (λ kind. kind ≡ listed self.now) }
    {
        Ok(match self {
            Item::Folder { .. } => ListKind::Folder,
            Item::File {
                attrs,
                stamp,
                bytes,
            } => ListKind::File {
                attrs: attrs.clone()?,
                stamp: *stamp,
                length: bytes.as_slice().len() as u64,
            },
            Item::Link {
                attrs,
                stamp,
                target,
            } => ListKind::Link {
                attrs: attrs.clone()?,
                stamp: *stamp,
                target: target.clone()?,
            },
        })
    }

    /// Whether the other item is the same, without what is beneath them. It takes no memory.
    pub fn is_same(&self, other: &Item) -> bool
        ensures { result ≡ same_item self.now other.now }
    {
        match (self, other) {
            (Item::Folder { attrs: a }, Item::Folder { attrs: b }) => a.is_same(b),
            (
                Item::File {
                    attrs: a,
                    stamp: s,
                    bytes: x,
                },
                Item::File {
                    attrs: b,
                    stamp: t,
                    bytes: y,
                },
            ) => a.is_same(b) && *s == *t && x.as_slice() == y.as_slice(),
            (
                Item::Link {
                    attrs: a,
                    stamp: s,
                    target: x,
                },
                Item::Link {
                    attrs: b,
                    stamp: t,
                    target: y,
                },
            ) => a.is_same(b) && *s == *t && x.as_slice() == y.as_slice(),
            _ => false,
        }
    }

    /// Dates a folder; a file or link stays as it is. It takes no memory.
    pub fn date(&mut self, moment: Moment)
        ensures { self.new ≡ dated self.old moment }
    {
        if let Item::Folder { attrs } = self {
            attrs.modified = moment;
        }
    }

    /// Gives it other attributes and, if it is a file or link, this stamp. It takes no memory.
    pub fn change(&mut self, attrs: Attrs, stamp: u64)
        ensures { self.new ≡ stamped stamp (with_attrs attrs self.old) }
    {
        match self {
            Item::Folder { attrs: old } => *old = attrs,
            Item::File {
                attrs: old,
                stamp: last,
                ..
            } => {
                *old = attrs;
                *last = stamp;
            }
            Item::Link {
                attrs: old,
                stamp: last,
                ..
            } => {
                *old = attrs;
                *last = stamp;
            }
        }
    }
}

impl Clone for Item {
    ghost is_clone = { λ item copy. copy ≡ item };

    fn clone(&self) -> Result<Item, AllocError> {
        match self {
            Item::Folder { attrs } => Ok(Item::Folder {
                attrs: attrs.clone()?,
            }),
            Item::File {
                attrs,
                stamp,
                bytes,
            } => Ok(Item::File {
                attrs: attrs.clone()?,
                stamp: *stamp,
                bytes: bytes.clone()?,
            }),
            Item::Link {
                attrs,
                stamp,
                target,
            } => Ok(Item::Link {
                attrs: attrs.clone()?,
                stamp: *stamp,
                target: target.clone()?,
            }),
        }
    }
}

/// An item of a snapshot.
#[derive(Drop)]
pub struct Labelled {
    /// The number of the backup that first copied it.
    pub label: u64,
    /// The item.
    pub item: Item,
}
