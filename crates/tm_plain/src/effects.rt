// What each family of changes does to a tree. Where memory is refused, the tree stays as it was.
ghost use Rattle.std.specs.Prelude.{◌≡◌, ◌++◌, [], false, IfOk, OnOk, OnErr};
ghost use Rattle.std.specs.Option.{option_map_or};
ghost use Rattle.tm_tree.specs.Changes.{place_at, write_at, remove_at, move_to, attrs_changed, is_too_deep};
ghost use Rattle.tm_tree.specs.Extras.{with_extra, without_extra};
ghost use Rattle.tm_tree.specs.Items.{bytes_of};
ghost use Rattle.tm_tree.specs.Trees.{item_at};

use crate::paths::parent;
use crate::tree::Tree;
use std::alloc::{AllocError, Global};
use tm_base::{Moment, Name, Path};
use tm_tree::Item;
use tm_world::Bytes;

impl Tree {
    pub(crate) fn place(
        &mut self,
        path: &Path,
        moment: Moment,
        item: Item,
    ) -> Result<(), AllocError>
        ensures ok { OnOk result (self.new ≡ place_at self.old path.now moment item) }
        ensures err { OnErr result (self.new ≡ self.old) }
    {
        let folder = parent(path)?;
        self.put(path.clone()?, item)?;
        self.touch(&folder, moment);
        Ok(())
    }

    pub(crate) fn write(
        &mut self,
        path: &Path,
        moment: Moment,
        stamp: u64,
        bytes: Bytes,
    ) -> Result<(), AllocError>
        ensures ok { OnOk result (self.new ≡ write_at self.old path.now moment stamp bytes) }
        ensures err { OnErr result (self.new ≡ self.old) }
    {
        let Some(old) = self.get(path) else {
            return self.place(
                path,
                moment,
                Item::new_file(self.alloc(), moment, stamp, bytes),
            );
        };
        let mut attrs = old.attrs().clone()?;
        attrs.modified = moment;
        self.put(
            path.clone()?,
            Item::File {
                attrs,
                stamp,
                bytes,
            },
        )
    }

    pub(crate) fn take_away(&mut self, path: &Path, moment: Moment) -> Result<(), AllocError>
        ensures ok { OnOk result (self.new ≡ remove_at self.old path.now moment) }
        ensures err { OnErr result (self.new ≡ self.old) }
    {
        let folder = parent(path)?;
        self.remove(path);
        self.touch(&folder, moment);
        Ok(())
    }

    pub(crate) fn move_to(
        &mut self,
        from: &Path,
        to: &Path,
        moment: Moment,
    ) -> Result<(), AllocError>
        requires { is_too_deep self.old from.now to.now ≡ false }
        ensures ok { OnOk result (self.new ≡ move_to self.old from.now to.now moment) }
        ensures err { OnErr result (self.new ≡ self.old) }
    {
        let out_of = parent(from)?;
        let into = parent(to)?;
        self.move_all(from, to)?;
        self.touch(&out_of, moment);
        self.touch(&into, moment);
        Ok(())
    }

    pub(crate) fn set_mode(&mut self, path: &Path, stamp: u64, mode: u16) -> Result<(), AllocError>
        ensures ok { OnOk result (self.new
            ≡ attrs_changed self.old path.now stamp (λ a. record a { mode = mode })) }
        ensures err { OnErr result (self.new ≡ self.old) }
    {
        if let Some(item) = self.get(path) {
            let mut attrs = item.attrs().clone()?;
            attrs.mode = mode;
            self.change(path, attrs, stamp);
        }
        Ok(())
    }

    pub(crate) fn set_owners(
        &mut self,
        path: &Path,
        stamp: u64,
        uid: u32,
        gid: u32,
    ) -> Result<(), AllocError>
        ensures ok { OnOk result (self.new
            ≡ attrs_changed self.old path.now stamp (λ a. record a { uid = uid; gid = gid })) }
        ensures err { OnErr result (self.new ≡ self.old) }
    {
        if let Some(item) = self.get(path) {
            let mut attrs = item.attrs().clone()?;
            attrs.uid = uid;
            attrs.gid = gid;
            self.change(path, attrs, stamp);
        }
        Ok(())
    }

    pub(crate) fn set_extra(
        &mut self,
        path: &Path,
        stamp: u64,
        name: &Name,
        value: &Bytes,
    ) -> Result<(), AllocError>
        ensures ok { OnOk result (self.new ≡ attrs_changed self.old path.now stamp
            (λ a. record a { extra = with_extra name.now value.now a.extra })) }
        ensures err { OnErr result (self.new ≡ self.old) }
    {
        if let Some(item) = self.get(path) {
            let mut attrs = item.attrs().clone()?;
            attrs.extra.put(name.clone()?, value.clone()?)?;
            self.change(path, attrs, stamp);
        }
        Ok(())
    }

    pub(crate) fn remove_extra(
        &mut self,
        path: &Path,
        stamp: u64,
        name: &Name,
    ) -> Result<(), AllocError>
        ensures ok { OnOk result (self.new ≡ attrs_changed self.old path.now stamp
            (λ a. record a { extra = without_extra name.now a.extra })) }
        ensures err { OnErr result (self.new ≡ self.old) }
    {
        if let Some(item) = self.get(path) {
            let mut attrs = item.attrs().clone()?;
            attrs.extra.remove(name);
            self.change(path, attrs, stamp);
        }
        Ok(())
    }

    // The bytes of the file at a path, none where none stands, and then these.
    pub(crate) fn appended(&self, path: &Path, bytes: &Bytes) -> Result<Bytes, AllocError>
        ensures { IfOk result (λ all.
            all ≡ option_map_or bytes_of (item_at self.now path.now) [] ++ bytes.now) }
    {
        let mut all = Vec::new(self.alloc());
        if let Some(Item::File { bytes, .. }) = self.get(path) {
            all.extend_from_slice(bytes.as_slice())?;
        }
        all.extend_from_slice(bytes.as_slice())?;
        Ok(Bytes::of(all))
    }
}
