//! The calls of the trait that do not attach.
ghost use Rattle.std.specs.Prelude.{◌≡◌, ◌+◌, ◌^◌, ◌<◌, ◌≤◌, ◌++◌, length, min, take, drop};
ghost use Rattle.std.specs.Option.{ForSome};
ghost use Rattle.tm_world.specs.Disk.{written, synced};
ghost use Rattle.tm_world.specs.Outside.{disk, put_disk, took, spoke};
ghost use Rattle.tm_world.specs.Log.{Steps};
ghost use Rattle.tm_memworld.specs.Torn.{loosened};
ghost use Rattle.tm_memworld.specs.Room.{spent};
ghost use Rattle.tm_memworld.specs.Script.{left_in};
ghost use Rattle.tm_memworld.specs.Devices.{log_of, outside, places_of};

use super::Devices;
use crate::change::Change;
use crate::script::Script;
use tm_world::Side;

// What is left of a script of which so many bytes were taken.
fn rest(scripts: &[Script], script: Option<usize>, position: usize) -> &[u8]
    requires { ForSome script (λ i. i < length scripts.now) }
    ensures left { result.now ≡ left_in scripts.now script position }
    ensures fits { position + length result.now < 2 ^ 64 }
{
    match script {
        Some(i) => {
            let text = scripts[i].text();
            &text[position.min(text.len())..]
        }
        None => &[],
    }
}

impl Devices {
    /// A call that needs so much changes nothing else.
    pub fn spend(&mut self, writes: usize, said: usize)
        ensures steps { Steps (log_of self.old) (log_of self.new) (outside self.old) }
        ensures places { places_of self.new ≡ places_of self.old }
        ensures room { self.new.room ≡ spent writes said self.old.room }
    {
        self.room = self.room.spent(writes, said);
    }

    /// Reads a block of a side.
    pub fn read(&self, side: Side, block: u32, into: &mut [u8; 4096])
        requires { block < (disk side (outside self.now)).count }
        ensures { into.new ≡ (disk side (outside self.now)).bytes block }
    {
        let Some(i) = self.site_of(side) else {
            unreachable!();
        };
        *into = *self.sites[i].block(block as usize);
    }

    /// Writes a block of a side.
    pub fn write(&mut self, side: Side, block: u32, bytes: &[u8; 4096])
        requires block { block < (disk side (outside self.old)).count }
        requires calls { 0 < self.old.room.calls }
        requires writes { 0 < self.old.room.writes }
        ensures steps { Steps (log_of self.old) (log_of self.new) (put_disk side (written block bytes.now (disk side (outside self.old))) (outside self.old)) }
        ensures places { places_of self.new ≡ places_of self.old }
        ensures room { self.new.room ≡ spent 1 0 self.old.room }
    {
        let Some(i) = self.site_of(side) else {
            unreachable!();
        };
        let time = self.changes.len() + 1;
        let was = *self.sites[i].block(block as usize);
        let before = self.sites[i].put(block as usize, bytes, time);
        let saved = self.saved.push(was);
        prove!(saved.is_ok());
        let noted = self.changes.push(Change::Wrote(i, block as usize, before));
        prove!(noted.is_ok());
        self.room = self.room.spent(1, 0);
    }

    /// A write of a block of a side fails: it reads as before, and is loose.
    pub fn loosen(&mut self, side: Side, block: u32)
        requires block { block < (disk side (outside self.old)).count }
        requires calls { 0 < self.old.room.calls }
        ensures steps { Steps (log_of self.old) (log_of self.new) (put_disk side (loosened block (disk side (outside self.old))) (outside self.old)) }
        ensures places { places_of self.new ≡ places_of self.old }
        ensures room { self.new.room ≡ spent 1 0 self.old.room }
    {
        let Some(i) = self.site_of(side) else {
            unreachable!();
        };
        let time = self.changes.len() + 1;
        let before = self.sites[i].loosen(block as usize, time);
        let noted = self
            .changes
            .push(Change::Loosened(i, block as usize, before));
        prove!(noted.is_ok());
        self.room = self.room.spent(1, 0);
    }

    /// Makes all earlier writes of a side stable.
    pub fn sync(&mut self, side: Side)
        requires { 0 < self.old.room.calls }
        ensures steps { Steps (log_of self.old) (log_of self.new) (put_disk side (synced (disk side (outside self.old))) (outside self.old)) }
        ensures places { places_of self.new ≡ places_of self.old }
        ensures room { self.new.room ≡ spent 0 0 self.old.room }
    {
        let Some(i) = self.site_of(side) else {
            self.spend(0, 0);
            return;
        };
        let time = self.changes.len() + 1;
        let before = self.sites[i].settle(time);
        let noted = self.changes.push(Change::Synced(i, before));
        prove!(noted.is_ok());
        self.room = self.room.spent(0, 0);
    }

    /// Moves the next bytes of the script into the front of a slice, and answers how many.
    pub fn take(&mut self, into: &mut [u8]) -> usize
        requires { 0 < self.old.room.calls }
        ensures count { result ≡ min (length into.old) (length (outside self.old).unread) }
        ensures bytes { into.new ≡ take result (outside self.old).unread ++ drop result into.old }
        ensures steps { Steps (log_of self.old) (log_of self.new) (took result (outside self.old)) }
        ensures places { places_of self.new ≡ places_of self.old }
        ensures room { self.new.room ≡ spent 0 0 self.old.room }
    {
        let left = rest(&self.scripts, self.script, self.position);
        let count = into.len().min(left.len());
        into[..count].copy_from_slice(&left[..count]);
        self.position += count;
        let noted = self.changes.push(Change::Took(count));
        prove!(noted.is_ok());
        self.room = self.room.spent(0, 0);
        count
    }

    /// Says these bytes.
    pub fn say(&mut self, bytes: &[u8])
        requires calls { 0 < self.old.room.calls }
        requires said { length bytes.now ≤ self.old.room.said }
        ensures steps { Steps (log_of self.old) (log_of self.new) (spoke bytes.now (outside self.old)) }
        ensures places { places_of self.new ≡ places_of self.old }
        ensures room { self.new.room ≡ spent 0 (length bytes.now) self.old.room }
    {
        let spoken = self.said.extend_from_slice(bytes);
        prove!(spoken.is_ok());
        let noted = self.changes.push(Change::Said(bytes.len()));
        prove!(noted.is_ok());
        self.room = self.room.spent(0, bytes.len());
    }
}
