//! Images and scripts in memory, and a record of what each call replaced.
mod attach;
mod calls;
mod find;
mod put;

ghost use Rattle.std.specs.Prelude.{◌≡◌, ◌+◌, ◌<◌, ◌≤◌, length, vec_len, vec_capacity};
ghost use Rattle.std.specs.Option.{ForSome};
ghost use Rattle.tm_memworld.specs.Sites.{IsFirst, AreSmall, AreBy};

use crate::change::Change;
use crate::room::Room;
use crate::script::Script;
use crate::site::Site;
use std::alloc::{AllocError, Global};
use tm_world::Side;

/// What is outside, in memory, and what was there before each change since it began.
#[derive(Drop)]
pub struct Devices {
    alloc: Global,
    // no two of one path
    sites: Vec<Site>,
    // the sites that are attached
    volume: Option<usize>,
    store: Option<usize>,
    // of two of one path the later counts
    scripts: Vec<Script>,
    // the script that is attached, and how many of its bytes were taken
    script: Option<usize>,
    position: usize,
    said: Vec<u8>,
    // the blocks that writes replaced
    saved: Vec<[u8; 4096]>,
    changes: Vec<Change>,
    // how many changes there were when images or scripts were put last, or at the last stop
    began: usize,
    // for how much more memory is taken
    room: Room,
    ghost volume_first: { ForSome volume (λ i. IsFirst sites.items i) },
    ghost store_first: { ForSome store (λ i. IsFirst sites.items i) },
    ghost script_in: { ForSome script (λ i. i < length scripts.items) },
    ghost small: { AreSmall sites.items },
    ghost by_now: { AreBy (length changes.items) sites.items },
    ghost begun: { began ≤ length changes.items },
    ghost changes_fit: { vec_len changes + room.calls ≤ vec_capacity changes },
    ghost sites_fit: { vec_len sites + room.calls ≤ vec_capacity sites },
    ghost saved_fit: { vec_len saved + room.writes ≤ vec_capacity saved },
    ghost said_fit: { vec_len said + room.said ≤ vec_capacity said },
}

impl Devices {
    ghost use Rattle.std.specs.Prelude.{OnOk, OnErr};
    ghost use Rattle.tm_world.specs.Disk.{nothing};
    ghost use Rattle.tm_memworld.specs.Room.{spent};
    ghost use Rattle.tm_memworld.specs.Contents.{attached_at};
    ghost use Rattle.tm_memworld.specs.Devices.{contents_of, log_of, outside, places_of};
    ghost use Rattle.tm_memworld.specs.Nothing.{empty};

    /// Nothing stands anywhere, and there is no room. It takes no memory.
    pub fn new(alloc: Global) -> Devices
        ensures outside { outside result ≡ empty }
        ensures places { places_of result ≡ (λ _. 0) }
        ensures room { result.room ≡ record { calls = 0; writes = 0; said = 0 } }
    {
        Devices {
            alloc,
            sites: Vec::new(alloc),
            volume: None,
            store: None,
            scripts: Vec::new(alloc),
            script: None,
            position: 0,
            said: Vec::new(alloc),
            saved: Vec::new(alloc),
            changes: Vec::new(alloc),
            began: 0,
            room: Room {
                calls: 0,
                writes: 0,
                said: 0,
            },
        }
    }

    /// The room that is left.
    pub fn room(&self) -> Room
        ensures { result ≡ self.now.room }
    {
        self.room
    }

    /// The bytes said since the last stop.
    pub fn said(&self) -> &[u8]
        ensures { result.now ≡ (outside self.now).said }
    {
        &self.said
    }

    /// Takes memory for so many more calls, block writes and said bytes.
    pub fn reserve(&mut self, calls: u64, writes: u64, said: u64) -> Result<(), AllocError>
        ensures ok { OnOk result (self.new.room ≡ record { calls = self.old.room.calls + calls; writes = self.old.room.writes + writes; said = self.old.room.said + said }) }
        ensures err { OnErr result (self.new.room ≡ self.old.room) }
        ensures outside { outside self.new ≡ outside self.old }
        ensures places { places_of self.new ≡ places_of self.old }
    {
        let (Some(calls), Some(writes), Some(said)) = (
            self.room.calls.checked_add(calls as usize),
            self.room.writes.checked_add(writes as usize),
            self.room.said.checked_add(said as usize),
        ) else {
            return Err(AllocError);
        };
        self.changes.reserve(calls)?;
        self.sites.reserve(calls)?;
        self.saved.reserve(writes)?;
        self.said.reserve(said)?;
        self.room = Room {
            calls,
            writes,
            said,
        };
        Ok(())
    }

    // The site that is attached at a side.
    fn site_of(&self, side: Side) -> Option<usize>
        ensures { result ≡ attached_at side (contents_of self.now) }
    {
        match side {
            Side::Volume => self.volume,
            Side::Store => self.store,
        }
    }
}
