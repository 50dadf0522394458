//! Images on a volume in memory: committed, stopped, damaged and filled.
ghost use Rattle.std.specs.Prelude.{◌≡◌, ◌≢◌, ◌<◌, ◌≤◌, ◌+◌, ◌^◌, ℕ, [], ◌∷◌, IfOk, OnOk, IfSome, IsSome, length};
ghost use Rattle.std.specs.List.{All};
ghost use Rattle.tm_world.specs.Outside.{disk};
ghost use Rattle.tm_world.specs.Log.{now};
ghost use Rattle.tm_gate.specs.Tag.{IsTag};
ghost use Rattle.tm_blockmap.specs.Counts.{times};
ghost use Rattle.tm_records.specs.Records.{at as found};
ghost use Rattle.tm_records.specs.Puts.{brought};
ghost use Rattle.tm_image.specs.Seen.{staged, IsSound, IsSettled, Stands};
ghost use Rattle.tm_image.specs.Room.{HasRoom};
ghost use Rattle.tm_image.specs.Commit.{IsPut};
ghost use Rattle.tm_image.specs.Blank.{IsFirstPut};

use std::alloc::{AllocError, Global};
use std::test::Fail;
use tm_image::{Changes, Image, ImageError, LoadError, changes_by_key};
use tm_memworld::MemWorld;
use tm_records::{Body, Put};
use tm_testing::{attach, change, zeros};
use tm_world::{Bytes, Cause, Failed, Side, World};

/// The tags of a volume of generation 1 whose next number is 1, and 2.
const FIRST: &[u8; 64] =
    b"\0\0\0\0\0\0\0\0\0\0\0\0\0\0\0\x01\0\0\0\0\0\0\0\x01\0\0\0\0\0\0\0\0\0\0\0\0\0\0\0\0\0\0\0\0\0\0\0\0\0\0\0\0\0\0\0\0\0\0\0\0\0\0\0\0";

const SECOND: &[u8; 64] =
    b"\0\0\0\0\0\0\0\0\0\0\0\0\0\0\0\x01\0\0\0\0\0\0\0\x02\0\0\0\0\0\0\0\0\0\0\0\0\0\0\0\0\0\0\0\0\0\0\0\0\0\0\0\0\0\0\0\0\0\0\0\0\0\0\0\0";

/// The tag of a new volume, or another.
fn tag(second: bool) -> [u8; 64]
    ensures { IsTag Side.Volume result }
{
    if second { *SECOND } else { *FIRST }
}

/// A meta of so many bytes.
fn meta(alloc: Global, byte: u8, count: usize) -> Result<Bytes, AllocError>
    requires { count < 2 ^ 32 }
    ensures { IfOk result (λ meta. length meta ≡ count) }
{
    Ok(Bytes::of(vec![in alloc; byte; count]?))
}

/// A record without data at the key 1 with the meta `a`, and one at the key 2 whose meta has so many `b`.
fn first_puts(alloc: Global, count: usize) -> Result<Vec<Put>, AllocError>
    requires { count < 2 ^ 32 }
    ensures puts { IfOk result (λ puts. All IsFirstPut puts.items) }
    ensures some { IfOk result (λ puts. puts.items ≢ []) }
{
    let one = Put {
        key: 1,
        meta: meta(alloc, b'a', 1)?,
        body: Body::Empty,
    };
    let two = Put {
        key: 2,
        meta: meta(alloc, b'b', count)?,
        body: Body::Empty,
    };
    Ok(vec![in alloc; one, two]?)
}

/// Attaches the volume and formats it with these records, by ten calls where their table has one block.
fn format<W: World>(alloc: Global, world: &mut W, count: usize) -> Result<Image, ImageError> {
    if count > 100_000 {
        return Err(ImageError::Fault);
    }
    let blocks = attach(world, Side::Volume)?;
    world.sync(Side::Volume)?;
    match Image::load(alloc, world, Side::Volume, blocks) {
        Err(LoadError::Unformatted) => {}
        _ => return Err(ImageError::Fault),
    }
    let puts = first_puts(alloc, count)?;
    Image::blank(alloc, world, Side::Volume, blocks, puts, tag(false))
}

/// Attaches the volume and reads its image, by five calls where the table has one block.
fn open<W: World>(alloc: Global, world: &mut W) -> Result<Image, LoadError>
    ensures side { IfOk result (λ m. m.side ≡ Side.Volume) }
    ensures count { IfOk result (λ m. length m.used ≡ W.blocks world.new m.side) }
    ensures sound { IfOk result IsSound }
    ensures settled { IfOk result IsSettled }
    ensures space { IfOk result HasRoom }
    ensures stands { W.told → IfOk result (λ m. Stands m (disk m.side (now (W.log world.new)))) }
{
    let blocks = attach(world, Side::Volume)?;
    world.sync(Side::Volume)?;
    let image = Image::load(alloc, world, Side::Volume, blocks)?;
    Ok(image)
}

/// A record that can be put at a key: these bytes are staged for it.
fn staged_put<W: World>(
    alloc: Global,
    world: &mut W,
    image: &mut Image,
    key: u64,
    bytes: &[u8],
) -> Result<Put, ImageError>
    requires count { length image.old.used ≡ W.blocks world.old image.old.side }
    requires settled { IsSettled image.old }
    requires space { HasRoom image.old }
    requires stands { W.told → Stands image.old (disk image.old.side (now (W.log world.old))) }
    ensures put { IfOk result (λ p. (p.key ≡ key) × IsPut image.new.records p) }
    ensures brought { IfOk result (λ p. (b : ℕ) → times b (brought p.body) ≤ staged b image.new) }
    ensures side { image.new.side ≡ image.old.side }
    ensures count { OnOk result (length image.new.used ≡ W.blocks world.new image.new.side) }
    ensures settled { OnOk result (IsSettled image.new) }
    ensures space { OnOk result (HasRoom image.new) }
    ensures stands { W.told → OnOk result (Stands image.new (disk image.new.side (now (W.log world.new)))) }
{
    let meta = meta(alloc, b'c', 1)?;
    let blob = image.stage(world, bytes)?;
    Ok(Put {
        key,
        meta,
        body: Body::New(blob),
    })
}

/// One key, and one put.
fn changes_of(alloc: Global, out: u64, put: Put) -> Result<Changes, AllocError>
    ensures remove { IfOk result (λ changes. changes.remove.items ≡ out ∷ []) }
    ensures put { IfOk result (λ changes. changes.put.items ≡ put ∷ []) }
{
    Ok(Changes {
        remove: vec![in alloc; out]?,
        put: vec![in alloc; put]?,
    })
}

/// Commits a put at a key, and takes another key out.
fn put_for<W: World>(
    alloc: Global,
    world: &mut W,
    image: &mut Image,
    put: Put,
    out: u64,
) -> Result<(), ImageError>
    requires side { image.old.side ≡ Side.Volume }
    requires count { length image.old.used ≡ W.blocks world.old image.old.side }
    requires sound { IsSound image.old }
    requires settled { IsSettled image.old }
    requires space { HasRoom image.old }
    requires stands { W.told → Stands image.old (disk image.old.side (now (W.log world.old))) }
    requires put { IsPut image.old.records put }
    requires brought { (b : ℕ) → times b (brought put.body) ≤ staged b image.old }
    requires apart { out ≢ put.key }
{
    changes_by_key();
    let changes = changes_of(alloc, out, put)?;
    image.commit(world, changes, tag(true))
}

/// Opens the image and commits these bytes at a key, and takes another key out: by five calls, one
/// for each block of data, and five.
fn put<W: World>(
    alloc: Global,
    world: &mut W,
    key: u64,
    bytes: &[u8],
    out: u64,
) -> Result<(), ImageError> {
    if out == key {
        return Err(ImageError::Fault);
    }
    match open(alloc, world) {
        Ok(mut image) => {
            let put = staged_put(alloc, world, &mut image, key, bytes)?;
            put_for(alloc, world, &mut image, put, out)
        }
        Err(_) => Err(ImageError::Fault),
    }
}

/// Opens the image and puts a meta of so many bytes at the key 2, whose data is kept.
fn put_meta<W: World>(alloc: Global, world: &mut W, count: usize) -> Result<(), ImageError> {
    if count > 100_000 {
        return Err(ImageError::Fault);
    }
    match open(alloc, world) {
        Ok(mut image) => {
            if image.length(2).is_none() {
                return Err(ImageError::Fault);
            }
            let put = Put {
                key: 2,
                meta: meta(alloc, b'd', count)?,
                body: Body::Kept,
            };
            put_for(alloc, world, &mut image, put, 9)
        }
        Err(_) => Err(ImageError::Fault),
    }
}

/// What stands at a key: the first byte of its meta, the length of its data, and their first and last byte.
type Found = Option<(u8, u64, u8, u8)>;

/// A byte of the data at a key.
fn byte_at<W: World>(world: &mut W, image: &Image, key: u64, at: u64) -> Result<u8, Failed>
    requires count { length image.now.used ≡ W.blocks world.old image.now.side }
    requires there { IsSome (found key image.now.records) }
    requires within { IfSome (found key image.now.records) (λ r. at < r.length) }
    ensures blocks { W.blocks world.new ≡ W.blocks world.old }
{
    let mut byte = [0u8; 1];
    image.read_part(world, key, at, &mut byte)?;
    Ok(byte[0])
}

/// What stands at a key of an image.
fn find<W: World>(world: &mut W, image: &Image, key: u64) -> Result<Found, Failed>
    requires count { length image.now.used ≡ W.blocks world.old image.now.side }
    ensures blocks { W.blocks world.new ≡ W.blocks world.old }
{
    let (Some(meta), Some(length)) = (image.meta(key), image.length(key)) else {
        return Ok(None);
    };
    let front = meta.first().copied().unwrap_or(0);
    if length == 0 {
        return Ok(Some((front, 0, 0, 0)));
    }
    let first = byte_at(world, image, key, 0)?;
    let last = byte_at(world, image, key, length - 1)?;
    Ok(Some((front, length, first, last)))
}

/// What the image of the volume says: the next number of its tag, and what stands at the keys 1 to 3.
fn read<W: World>(alloc: Global, world: &mut W) -> Result<(u8, [Found; 3]), LoadError> {
    let image = open(alloc, world)?;
    let one = find(world, &image, 1)?;
    let two = find(world, &image, 2)?;
    let three = find(world, &image, 3)?;
    Ok((image.tag()[23], [one, two, three]))
}

/// The blocks of the image's table, and those that are free.
fn count<W: World>(alloc: Global, world: &mut W) -> Result<(u32, u32), LoadError> {
    let image = open(alloc, world)?;
    Ok((image.table_blocks(), image.free()))
}

/// A world with a formatted volume of so many blocks, of which the key 3 has 5,000 sevens. The calls 0 to 21 made it.
fn start(alloc: Global, blocks: u32) -> Result<MemWorld, ImageError> {
    let mut world = zeros(alloc, blocks).or(Err(ImageError::Memory))?;
    format(alloc, &mut world, 1)?;
    put(alloc, &mut world, 3, &[7u8; 5000], 9)?;
    Ok(world)
}

/// What stands after [`start`].
const STARTED: (u8, [Found; 3]) = (
    2,
    [
        Some((b'a', 0, 0, 0)),
        Some((b'b', 0, 0, 0)),
        Some((b'c', 5000, 7, 7)),
    ],
);

#[test]
fn commits_are_read_again(rt: HostRuntime) -> Result<(), Fail> {
    let alloc = rt.alloc();
    let mut world = zeros(alloc, 16)?;
    assert_eq!(rt; open(alloc, &mut world).err(), Some(LoadError::Unformatted));
    format(alloc, &mut world, 1).or(Err("formats"))?;
    let first = (1, [Some((b'a', 0, 0, 0)), Some((b'b', 0, 0, 0)), None]);
    assert_eq!(rt; read(alloc, &mut world), Ok(first));
    assert_eq!(rt; count(alloc, &mut world), Ok((1, 12)));
    put(alloc, &mut world, 3, &[7u8; 5000], 9).or(Err("puts"))?;
    assert_eq!(rt; read(alloc, &mut world), Ok(STARTED));
    assert_eq!(rt; count(alloc, &mut world), Ok((1, 10)));
    put(alloc, &mut world, 2, &[8u8; 10], 3).or(Err("replaces"))?;
    put_meta(alloc, &mut world, 4100).or(Err("keeps"))?;
    let last = (2, [Some((b'a', 0, 0, 0)), Some((b'd', 10, 8, 8)), None]);
    assert_eq!(rt; read(alloc, &mut world), Ok(last));
    assert_eq!(rt; count(alloc, &mut world), Ok((2, 10)));
    Ok(())
}

#[test]
fn a_stop_leaves_the_old_image_or_the_new(rt: HostRuntime) -> Result<(), Fail> {
    let alloc = rt.alloc();
    let new = (2, [Some((b'a', 0, 0, 0)), Some((b'c', 10, 8, 8)), None]);
    // Five calls open the image, one writes the data, one the table, and four turn the gate to the slot in block 2.
    for (torn, from) in [(0, 11), (255, 9)] {
        for calls in 0..12u64 {
            let mut world = start(alloc, 16).or(Err("starts"))?;
            world.fuse(22 + calls);
            let done = put(alloc, &mut world, 2, &[8u8; 10], 3).is_ok();
            assert_eq!(rt; done, calls == 11);
            world.stop(&[torn; 4096]);
            let want = if calls < from { STARTED } else { new };
            assert_eq!(rt; read(alloc, &mut world), Ok(want), "{calls} calls, {torn}");
        }
    }
    Ok(())
}

#[test]
fn a_stop_leaves_the_side_unformatted_or_the_first_image(rt: HostRuntime) -> Result<(), Fail> {
    let alloc = rt.alloc();
    let new = (1, [Some((b'a', 0, 0, 0)), Some((b'b', 0, 0, 0)), None]);
    // Six calls open the side and write the table, and four turn the gate to the slot in block 2.
    for (torn, from) in [(0, 10), (255, 8)] {
        for calls in 0..11u64 {
            let mut world = zeros(alloc, 8)?;
            world.fuse(calls);
            assert_eq!(rt; format(alloc, &mut world, 1).is_ok(), calls == 10);
            world.stop(&[torn; 4096]);
            let want = if calls < from {
                Err(LoadError::Unformatted)
            } else {
                Ok(new)
            };
            assert_eq!(rt; read(alloc, &mut world), want, "{calls} calls, {torn}");
        }
    }
    Ok(())
}

#[test]
fn each_check_damaged(rt: HostRuntime) -> Result<(), Fail> {
    let alloc = rt.alloc();
    // Slot in block 1, table in block 6 with the record of the key 3 at its offset 42, data in the blocks 4 and 5.
    for (block, at, byte, want) in [
        (1, 0, 0, LoadError::Unformatted),
        (1, 9, 2, bad(Cause::Slot, 9)),
        (6, 3, 7, bad(Cause::Chain, 6)),
        (6, 200, 1, bad(Cause::Chain, 6)),
        (6, 53, 2, bad(Cause::Table, 42)),
        (6, 70, 16, bad(Cause::Table, 42)),
        (6, 70, 5, bad(Cause::Block, 5)),
        (6, 74, 6, bad(Cause::Block, 6)),
    ] {
        let mut world = start(alloc, 16).or(Err("starts"))?;
        change(&mut world, Side::Volume, block, at, &[byte])?;
        assert_eq!(rt;
            read(alloc, &mut world).err(),
            Some(want),
            "{byte} at {at} of {block}"
        );
    }
    // Of seven blocks the data of the key 3 take block 4 and the table block 5. Blocks 3 and 6 are data too, so none is free.
    let mut world = zeros(alloc, 7)?;
    format(alloc, &mut world, 1).or(Err("formats"))?;
    put(alloc, &mut world, 3, &[7u8; 4096], 9).or(Err("puts"))?;
    for (block, at, byte) in [(5, 65, 0x30), (5, 74, 3), (5, 78, 6), (1, 31, 75)] {
        change(&mut world, Side::Volume, block, at, &[byte])?;
    }
    assert_eq!(rt; read(alloc, &mut world).err(), Some(bad(Cause::Room, 0)));
    Ok(())
}

/// The answer of a check.
fn bad(cause: Cause, place: u64) -> LoadError {
    LoadError::Bad { cause, place }
}

#[test]
fn full_at_its_bound(rt: HostRuntime) -> Result<(), Fail> {
    let alloc = rt.alloc();
    // A new image whose table has a block, and two.
    for (blocks, count, full) in [
        (5, 1, None),
        (4, 1, Some((2, 1))),
        (1, 1, Some((2, 0))),
        (7, 5000, None),
        (6, 5000, Some((4, 3))),
    ] {
        let mut world = zeros(alloc, blocks)?;
        assert_eq!(rt;
            format(alloc, &mut world, count).err(),
            full.map(refusal),
            "{blocks} blocks"
        );
    }
    // Of sixteen blocks twelve are free, one of which the table keeps.
    for (count, full) in [(45056, None), (45057, Some((13, 12)))] {
        let mut world = zeros(alloc, 16)?;
        format(alloc, &mut world, 1).or(Err("formats"))?;
        let bytes = vec![in alloc; 7u8; count]?;
        let put = put(alloc, &mut world, 3, &bytes, 9);
        assert_eq!(rt; put.err(), full.map(refusal), "{count} bytes");
    }
    // A table of six blocks needs eleven, one of seven needs thirteen. Its text has 41 bytes and the meta.
    for (count, full) in [(24511, None), (24512, Some((13, 12)))] {
        let mut world = zeros(alloc, 16)?;
        format(alloc, &mut world, 1).or(Err("formats"))?;
        let put = put_meta(alloc, &mut world, count);
        assert_eq!(rt; put.err(), full.map(refusal), "{count} bytes");
    }
    Ok(())
}

/// The refusal where so many blocks are needed and so many are free.
fn refusal(blocks: (u64, u64)) -> ImageError {
    ImageError::Full {
        need: blocks.0,
        free: blocks.1,
    }
}
