//! What a test does to the devices.
ghost use Rattle.std.specs.Prelude.{◌≡◌, ◌≤◌, length, Some, OnOk, OnErr};
ghost use Rattle.tm_base.specs.Limits.{max_blocks};
ghost use Rattle.tm_world.specs.Disk.{zeros};
ghost use Rattle.tm_world.specs.Outside.{put_at};
ghost use Rattle.tm_memworld.specs.Torn.{stopped};
ghost use Rattle.tm_memworld.specs.Site.{disk_of, count_at, IsBy};
ghost use Rattle.tm_memworld.specs.Sites.{AreTorn, AreBy};
ghost use Rattle.tm_memworld.specs.Putting.{with_script, with_room, placed};
ghost use Rattle.tm_memworld.specs.Devices.{log_of, outside, places_of};

use super::Devices;
use super::find::find;
use crate::script::Script;
use crate::site::Site;
use std::alloc::AllocError;

// Tears each image.
fn tear_all(sites: &mut [Site], torn: &[u8; 4096], time: usize)
    requires { AreBy time sites.old }
    ensures { AreTorn torn.now time sites.old sites.new }
{
    for i in 0..sites.len() {
        sites[i].tear(torn, time);
    }
}

impl Devices {
    /// An image of zeros stands at a path.
    pub fn put_image(&mut self, path: &[u8], blocks: u32) -> Result<(), AllocError>
        requires { blocks ≤ max_blocks }
        ensures ok { OnOk result (outside self.new ≡ put_at (Some path.now) (zeros blocks) (outside self.old)) }
        ensures err { OnErr result (outside self.new ≡ outside self.old) }
        ensures places_ok { OnOk result (places_of self.new ≡ with_room path.now blocks (places_of self.old)) }
        ensures places_err { OnErr result (places_of self.new ≡ places_of self.old) }
        ensures room { self.new.room ≡ self.old.room }
    {
        let mut site = Site::blank(self.alloc, path, blocks)?;
        site.open(blocks);
        self.put_site(site)
    }

    /// There is memory for an image of so many blocks at a path, where nothing stands.
    pub fn put_place(&mut self, path: &[u8], blocks: u32) -> Result<(), AllocError>
        requires { blocks ≤ max_blocks }
        ensures outside { outside self.new ≡ outside self.old }
        ensures places_ok { OnOk result (places_of self.new ≡ placed path.now blocks (places_of self.old) (outside self.old)) }
        ensures places_err { OnErr result (places_of self.new ≡ places_of self.old) }
        ensures room { self.new.room ≡ self.old.room }
    {
        if self.stands(path) {
            return Ok(());
        }
        let site = Site::blank(self.alloc, path, blocks)?;
        self.put_site(site)
    }

    /// A script stands at a path.
    pub fn put_script(&mut self, path: &[u8], text: &[u8]) -> Result<(), AllocError>
        ensures ok { OnOk result (outside self.new ≡ with_script path.now text.now (outside self.old)) }
        ensures err { OnErr result (outside self.new ≡ outside self.old) }
        ensures places { places_of self.new ≡ places_of self.old }
        ensures room { self.new.room ≡ self.old.room }
    {
        let script = Script::new(self.alloc, path, text)?;
        self.scripts.push(script)?;
        self.began = self.changes.len();
        Ok(())
    }

    /// Each loose block holds these bytes, and nothing is said.
    pub fn stop(&mut self, torn: &[u8; 4096])
        ensures outside { outside self.new ≡ stopped torn.now (outside self.old) }
        ensures places { places_of self.new ≡ places_of self.old }
        ensures room { self.new.room ≡ self.old.room }
    {
        tear_all(&mut self.sites, torn, self.changes.len());
        self.said.clear();
        self.began = self.changes.len();
    }

    // Whether an image stands at a path.
    fn stands(&self, path: &[u8]) -> bool
        ensures { result ≡ ((outside self.now).stands (Some path.now)).there }
    {
        match find(&self.sites, path) {
            Some(i) => self.sites[i].count().is_some(),
            None => false,
        }
    }

    // A site takes the place of the one of its path.
    fn put_site(&mut self, site: Site) -> Result<(), AllocError>
        requires small { count_at site ≤ max_blocks }
        requires new { IsBy 0 site }
        ensures ok { OnOk result (outside self.new ≡ put_at (Some site.path) (disk_of site) (outside self.old)) }
        ensures err { OnErr result (outside self.new ≡ outside self.old) }
        ensures places_ok { OnOk result (places_of self.new ≡ with_room site.path (length site.blocks) (places_of self.old)) }
        ensures places_err { OnErr result (places_of self.new ≡ places_of self.old) }
        ensures room { self.new.room ≡ self.old.room }
    {
        match find(&self.sites, site.path()) {
            Some(i) => {
                self.sites[i] = site;
                self.began = self.changes.len();
                Ok(())
            }
            None => {
                let Some(more) = self.room.calls.checked_add(1) else {
                    return Err(AllocError);
                };
                self.sites.reserve(more)?;
                let pushed = self.sites.push(site);
                prove!(pushed.is_ok());
                self.began = self.changes.len();
                Ok(())
            }
        }
    }
}
