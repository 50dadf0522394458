//! An image in a file.
ghost use Rattle.std.specs.Prelude.{◌≡◌, ◌≤◌, IfOk, IsSome, OnOk, OnSome};
ghost use Rattle.std.specs.Option.{ForSome};
ghost use Rattle.std.specs.Io.Seek.{MovesTo};
ghost use Rattle.tm_base.specs.Limits.{max_blocks};
ghost use Rattle.tm_fileworld.specs.Blocks.{whole_blocks, first_byte};
ghost use Rattle.tm_fileworld.specs.Places.{ReadsAt, WritesAt};

use crate::streams::{read_all, write_all};
use std::fs::{File, OpenFile, OpenOptions};
use std::io::{ErrorKind, Read, Seek, SeekFrom, Write};
use std::path::Path;
use std::rt::Files;
use tm_base::limits::{BLOCK_BYTES, MAX_BLOCKS};
use tm_world::Failed;

/// A file and how many whole blocks it has.
#[derive(Drop)]
pub(crate) struct Image<F> {
    file: F,
    blocks: u32,
    ghost small: { blocks ≤ max_blocks },
}

// How many whole blocks are in so many bytes, up to the most that an image has.
fn whole_blocks(bytes: u64) -> u32
    ensures { result ≡ whole_blocks bytes }
{
    (bytes / BLOCK_BYTES as u64).min(u64::from(MAX_BLOCKS)) as u32
}

// Where a block begins in its file; also how many bytes so many blocks have.
fn first_byte(block: u32) -> u64
    ensures { result ≡ first_byte block }
{
    u64::from(block) * BLOCK_BYTES as u64
}

// Goes to where a block begins.
fn go_to<F: Seek>(file: &mut F, block: u32) -> Result<(), Failed>
    // Where the file tells its place.
    ensures moves { MovesTo (F.stream_position file.old) (F.stream_position file.new) (first_byte block) result }
{
    match file.seek(SeekFrom::Start(first_byte(block))) {
        Ok(_) => Ok(()),
        Err(_) => Err(Failed),
    }
}

impl<F: Read + Write + Seek + OpenFile> Image<F> {
    /// How many whole blocks it has.
    pub fn blocks(&self) -> u32
        ensures blocks { result ≡ self.now.blocks }
        ensures small { result ≤ max_blocks }
    {
        self.blocks
    }

    /// Reads a block; it fails where the file ends before the block does.
    pub fn read(&mut self, block: u32, into: &mut [u8; 4096]) -> Result<(), Failed>
        ensures blocks { self.new.blocks ≡ self.old.blocks }
        ensures reads { OnOk result (ReadsAt F.stream_position F.remaining (first_byte block) into.new self.old.file self.new.file) }
    {
        go_to(&mut self.file, block)?;
        read_all(&mut self.file, into)
    }

    /// Writes a block.
    pub fn write(&mut self, block: u32, bytes: &[u8; 4096]) -> Result<(), Failed>
        ensures blocks { self.new.blocks ≡ self.old.blocks }
        ensures writes { OnOk result (WritesAt F.stream_position F.contents (first_byte block) bytes.now self.old.file self.new.file) }
    {
        go_to(&mut self.file, block)?;
        write_all(&mut self.file, bytes)
    }

    /// Makes what was written stable. Nothing that a file tells shows what is stable, so no clause
    /// is owed but that of the world above, which counts the fault (`World::sync: cause`).
    pub fn sync(&self) -> Result<(), Failed> {
        self.file.sync_all().map_err(|_| Failed)
    }
}

// The image in a file that is open.
fn image_in<F: OpenFile + Drop>(file: F) -> Result<Image<F>, Failed>
    ensures { IfOk result (λ image. image.file ≡ file) }
{
    match file.metadata() {
        Ok(metadata) => Ok(Image {
            file,
            blocks: whole_blocks(metadata.len()),
        }),
        Err(_) => Err(Failed),
    }
}

// Makes the name of a new file stable.
fn sync_folder<R: Files>(rt: &R, path: &str) -> Result<(), Failed> {
    let folder = match Path::new(path).parent() {
        Some(folder) if !folder.as_str().is_empty() => folder,
        _ => Path::new("."),
    };
    let folder = File::open(rt, folder).map_err(|_| Failed)?;
    folder.sync_all().map_err(|_| Failed)
}

// Gives a new file so many zero blocks, and makes them stable.
fn make_zeros<F: OpenFile>(file: &F, blocks: u32) -> Result<(), Failed> {
    file.set_len(first_byte(blocks)).map_err(|_| Failed)?;
    file.sync_all().map_err(|_| Failed)
}

// Makes an image of so many zero blocks, which are stable.
fn make_image<R: Files>(rt: &R, path: &str, blocks: u32) -> Result<Image<R::File>, Failed>
    requires { blocks ≤ max_blocks }
    ensures { IfOk result (λ image. image.blocks ≡ blocks) }
{
    let file = OpenOptions::new()
        .read(true)
        .write(true)
        .create_new(true)
        .open(rt, path)
        .map_err(|_| Failed)?;
    if make_zeros(&file, blocks).is_err() || sync_folder(rt, path).is_err() {
        let _ = rt.remove_file(path);
        return Err(Failed);
    }
    Ok(Image { file, blocks })
}

/// Opens what stands at a path, to read and write it. Where nothing stands there, it makes an image of
/// so many zero blocks, or gives none.
pub(crate) fn open_image<R: Files>(
    rt: &R,
    path: &str,
    create: Option<u32>,
) -> Result<Option<Image<R::File>>, Failed>
    requires { ForSome create (λ blocks. blocks ≤ max_blocks) }
    ensures { OnSome create (IfOk result (λ image. IsSome image)) }
{
    match OpenOptions::new().read(true).write(true).open(rt, path) {
        Ok(file) => image_in(file).map(Some),
        Err(error) => {
            if error.kind() != ErrorKind::NotFound {
                return Err(Failed);
            }
            match create {
                Some(blocks) => make_image(rt, path, blocks).map(Some),
                None => Ok(None),
            }
        }
    }
}
