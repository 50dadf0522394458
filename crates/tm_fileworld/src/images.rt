//! The two images, each in a file of its own.
ghost use Rattle.std.specs.Prelude.{◌≡◌, ◌≢◌, ◌<◌, ◌≤◌, None, IsOk, OnOk};
ghost use Rattle.tm_base.specs.Limits.{max_blocks};
ghost use Rattle.tm_world.specs.declared.world.Side.{Side};
ghost use Rattle.tm_fileworld.specs.Blocks.{first_byte};
ghost use Rattle.tm_fileworld.specs.Places.{ReadsAt, WritesAt, OnFile};
ghost use Rattle.tm_fileworld.specs.Images.{blocks_of_image, blocks_at, file_at, image_at};

use crate::image::Image;
use std::fs::OpenFile;
use std::io::{Read, Seek, Write};
use tm_world::{Failed, Side};

/// What is attached as each side; a side that has no file has no blocks.
#[derive(Drop)]
pub(crate) struct Images<F> {
    volume: Option<Image<F>>,
    store: Option<Image<F>>,
}

impl<F: Read + Write + Seek + OpenFile + Drop> Images<F> {
    /// No image is attached.
    pub fn new() -> Images<F>
        ensures { (side : Side) → image_at result side ≡ None }
    {
        Images {
            volume: None,
            store: None,
        }
    }

    /// Attaches an image, or none, as a side, and answers how many blocks it has.
    pub fn put(&mut self, side: Side, image: Option<Image<F>>) -> u32
        ensures blocks { result ≡ blocks_of_image image }
        ensures image { image_at self.new side ≡ image }
        ensures other { (other : Side) → other ≢ side → image_at self.new other ≡ image_at self.old other }
        ensures most { result ≤ max_blocks }
    {
        let blocks = match &image {
            Some(image) => image.blocks(),
            None => 0,
        };
        match side {
            Side::Volume => self.volume = image,
            Side::Store => self.store = image,
        }
        blocks
    }

    /// Reads a block of a side.
    pub fn read(&mut self, side: Side, block: u32, into: &mut [u8; 4096]) -> Result<(), Failed>
        requires { block < blocks_at self.old side }
        ensures blocks { blocks_at self.new ≡ blocks_at self.old }
        ensures reads { OnOk result (OnFile (ReadsAt F.stream_position F.remaining (first_byte block) into.new) (file_at self.old side) (file_at self.new side)) }
        ensures other { (other : Side) → other ≢ side → image_at self.new other ≡ image_at self.old other }
    {
        match side {
            Side::Volume => self.volume.as_mut().unwrap().read(block, into),
            Side::Store => self.store.as_mut().unwrap().read(block, into),
        }
    }

    /// Writes a block of a side.
    pub fn write(&mut self, side: Side, block: u32, bytes: &[u8; 4096]) -> Result<(), Failed>
        requires { block < blocks_at self.old side }
        ensures blocks { blocks_at self.new ≡ blocks_at self.old }
        ensures writes { OnOk result (OnFile (WritesAt F.stream_position F.contents (first_byte block) bytes.now) (file_at self.old side) (file_at self.new side)) }
        ensures other { (other : Side) → other ≢ side → image_at self.new other ≡ image_at self.old other }
    {
        match side {
            Side::Volume => self.volume.as_mut().unwrap().write(block, bytes),
            Side::Store => self.store.as_mut().unwrap().write(block, bytes),
        }
    }

    /// Makes what was written to a side stable. A side of no blocks has nothing to do.
    pub fn sync(&self, side: Side) -> Result<(), Failed>
        ensures { blocks_at self.now side ≡ 0 → IsOk result }
    {
        let image = match side {
            Side::Volume => &self.volume,
            Side::Store => &self.store,
        };
        match image {
            Some(image) if image.blocks() > 0 => image.sync(),
            _ => Ok(()),
        }
    }
}
