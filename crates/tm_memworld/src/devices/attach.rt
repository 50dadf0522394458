//! Attaching.
ghost use Rattle.std.specs.Prelude.{◌≡◌, ◌+◌, ◌<◌, ◌≤◌, ◌↔◌, ◌++◌, ◌∷◌, [], ℕ, length, vec_len, vec_capacity, Some, None, Option, IsTrue, IsSome, IsNone, IfSome, IfNone, OnSome};
ghost use Rattle.std.specs.Bool.{OnTrue, OnFalse};
ghost use Rattle.std.specs.Option.{ForSome};
ghost use Rattle.tm_base.specs.Limits.{max_blocks};
ghost use Rattle.tm_world.specs.Disk.{zeros};
ghost use Rattle.tm_world.specs.Outside.{disk, put_at, with_place, attached, part_of};
ghost use Rattle.tm_world.specs.Log.{Steps};
ghost use Rattle.tm_world.specs.declared.world.Part.TheVariants.{Script as ScriptPart};
ghost use Rattle.tm_world.specs.Runs.{other};
ghost use Rattle.tm_memworld.specs.Room.{spent};
ghost use Rattle.tm_memworld.specs.Sites.{IsFirst, IsNowhere, site_at, path_at};
ghost use Rattle.tm_memworld.specs.Contents.{attached_at, with_attached, attached_after};
ghost use Rattle.tm_memworld.specs.Devices.{contents_of, log_of, outside, places_of, cannot_open};

use super::Devices;
use super::find::find;
use crate::change::{Change, Opened};
use crate::script::find_script;
use crate::site::{SHORT_PATH, Site};
use tm_world::Side;

// The other of the two.
fn opposite(side: Side) -> Side
    ensures { result ≡ other side }
{
    match side {
        Side::Volume => Side::Store,
        Side::Store => Side::Volume,
    }
}

// Where a side is attached after one is.
fn moved(which: Side, side: Side, i: usize, was: Option<usize>) -> Option<usize>
    ensures { result ≡ attached_after which side i was }
{
    match (which, side) {
        (Side::Volume, Side::Volume) | (Side::Store, Side::Store) => Some(i),
        _ => was,
    }
}

impl Devices {
    /// Attaches a side, and answers how many blocks it has; `None` where no image can be made there, or
    /// the path is too long to be noted.
    pub fn attach(&mut self, side: Side, path: &[u8], create: Option<u32>) -> Option<u32>
        requires calls { 0 < self.old.room.calls }
        requires create { ForSome create (λ n. 1 ≤ n) }
        ensures none { IsNone result ↔ IsTrue (cannot_open side path.now create (places_of self.old) (outside self.old)) }
        ensures steps { OnSome result (Steps (log_of self.old) (log_of self.new) (attached (part_of side) path.now create (outside self.old))) }
        ensures stays { IfNone result (Steps (log_of self.old) (log_of self.new) (outside self.old)) }
        ensures count { IfSome result (λ n. n ≡ (disk side (outside self.new)).count) }
        ensures most { IfSome result (λ n. n ≤ max_blocks) }
        ensures other { OnSome result ((disk (other side) (outside self.new)).count ≡ (disk (other side) (outside self.old)).count) }
        ensures places { places_of self.new ≡ places_of self.old }
        ensures room { self.new.room ≡ spent 0 0 self.old.room }
    {
        let Some(i) = find(&self.sites, path) else {
            if create.is_some() || path.len() > SHORT_PATH {
                self.spend(0, 0);
                return None;
            }
            self.attach_new(side, path);
            return Some(0);
        };
        if let Some(count) = self.sites[i].count() {
            self.attach_found(side, i);
            return Some(count);
        }
        let Some(count) = create else {
            if path.len() > SHORT_PATH {
                self.spend(0, 0);
                return None;
            }
            self.attach_found(side, i);
            return Some(0);
        };
        if count > self.sites[i].capacity() || self.site_of(opposite(side)) == Some(i) {
            self.spend(0, 0);
            return None;
        }
        self.attach_made(side, i, count);
        Some(count)
    }

    /// Attaches a script, and answers whether one stands there.
    pub fn attach_script(&mut self, path: &[u8]) -> bool
        requires { 0 < self.old.room.calls }
        ensures found { IsTrue result ↔ IsSome ((outside self.old).scripts path.now) }
        ensures steps { OnTrue result ((create : Option ℕ) → Steps (log_of self.old) (log_of self.new) (attached ScriptPart path.now create (outside self.old))) }
        ensures stays { OnFalse result (Steps (log_of self.old) (log_of self.new) (outside self.old)) }
        ensures places { places_of self.new ≡ places_of self.old }
        ensures room { self.new.room ≡ spent 0 0 self.old.room }
    {
        let Some(i) = find_script(&self.scripts, path) else {
            self.spend(0, 0);
            return false;
        };
        let noted = self
            .changes
            .push(Change::Started(self.script, self.position));
        prove!(noted.is_ok());
        self.script = Some(i);
        self.position = 0;
        self.room = self.room.spent(0, 0);
        true
    }

    // Attaches a side at a path that is known, where what stands stays.
    fn attach_found(&mut self, side: Side, i: usize)
        requires first { IsFirst self.old.sites.items i }
        requires calls { 0 < self.old.room.calls }
        ensures steps { Steps (log_of self.old) (log_of self.new) (with_place side (Some (path_at self.old.sites.items i)) (outside self.old)) }
        ensures places { places_of self.new ≡ places_of self.old }
        ensures room { self.new.room ≡ spent 0 0 self.old.room }
    {
        self.room = self.room.spent(0, 0);
        self.attach_at(side, i, Opened::Found);
    }

    // Attaches a side at a path at which nothing stood, with an image of zeros.
    fn attach_made(&mut self, side: Side, i: usize, count: u32)
        requires first { IsFirst self.old.sites.items i }
        requires none { (site_at self.old.sites.items i).count ≡ None }
        requires fits { count ≤ length (site_at self.old.sites.items i).blocks }
        requires most { count ≤ max_blocks }
        requires calls { 0 < self.old.room.calls }
        ensures steps { let path = Some (path_at self.old.sites.items i) in Steps (log_of self.old) (log_of self.new) (with_place side path (put_at path (zeros count) (outside self.old))) }
        ensures places { places_of self.new ≡ places_of self.old }
        ensures room { self.new.room ≡ spent 0 0 self.old.room }
    {
        self.room = self.room.spent(0, 0);
        self.sites[i].open(count);
        self.attach_at(side, i, Opened::Made);
    }

    // Attaches a side at a short path that was not known.
    fn attach_new(&mut self, side: Side, path: &[u8])
        requires nowhere { IsNowhere self.old.sites.items path.now }
        requires short { length path.now ≤ 1023 }
        requires calls { 0 < self.old.room.calls }
        ensures steps { Steps (log_of self.old) (log_of self.new) (with_place side (Some path.now) (outside self.old)) }
        ensures places { places_of self.new ≡ places_of self.old }
        ensures room { self.new.room ≡ spent 0 0 self.old.room }
    {
        self.room = self.room.spent(0, 0);
        let i = self.sites.len();
        let named = self.sites.push(Site::named(self.alloc, path));
        prove!(named.is_ok());
        self.attach_at(side, i, Opened::Named);
    }

    // Attaches a side at a site, and notes it in memory that was taken.
    fn attach_at(&mut self, side: Side, i: usize, opened: Opened)
        requires first { IsFirst self.old.sites.items i }
        requires fits { vec_len self.old.changes + self.old.room.calls < vec_capacity self.old.changes }
        ensures contents { contents_of self.new ≡ with_attached side (Some i) (contents_of self.old) }
        ensures changes { self.new.changes.items ≡ self.old.changes.items ++ Change.Attached side (attached_at side (contents_of self.old)) opened ∷ [] }
        ensures began { self.new.began ≡ self.old.began }
        ensures room { self.new.room ≡ self.old.room }
    {
        let was = self.site_of(side);
        let noted = self.changes.push(Change::Attached(side, was, opened));
        prove!(noted.is_ok());
        self.volume = moved(Side::Volume, side, i, self.volume);
        self.store = moved(Side::Store, side, i, self.store);
    }
}
