//! Texts on chains of a volume and bytes on its blocks: written, read, damaged, and cut short.
ghost use Rattle.std.specs.Prelude.{◌≡◌, ◌≢◌, ◌<◌, ℕ, length, slice_index};
ghost use Rattle.tm_blockmap.specs.Counts.{IsDistinct};

use std::alloc::Global;
use std::test::Fail;
use tm_chain::{Chain, ChainError, read_blob, read_chain, write_blob, write_chain};
use tm_testing::{attach, change, read_block, zeros};
use tm_world::{Failed, Side, World};

/// Two different blocks of an image of so many.
fn pair(first: u32, second: u32, total: u32) -> [u32; 2]
    requires first { first < total }
    requires second { second < total }
    requires apart { first ≢ second }
    ensures many { length result ≡ 2 }
    ensures within { (k : ℕ) → k < length result → slice_index result k < total }
    ensures distinct { IsDistinct result }
{
    [first, second]
}

/// Attaches the volume and writes a text of two blocks, 4,093 to 8,184 bytes.
fn write_text<W: World>(world: &mut W, text: &[u8], first: u32, second: u32) -> Result<(), Failed> {
    let total = attach(world, Side::Volume)?;
    if first >= total || second >= total || first == second {
        return Err(Failed);
    }
    if text.len() <= 4092 || text.len() > 8184 {
        return Err(Failed);
    }
    write_chain(world, Side::Volume, text, &pair(first, second, total))
}

/// Attaches the volume and reads a text.
fn read_text<W: World>(
    alloc: Global,
    world: &mut W,
    first: u32,
    len: u64,
) -> Result<Chain, ChainError> {
    let total = attach(world, Side::Volume)?;
    if first < 3 || first >= total || len == 0 {
        return Err(ChainError::Fault);
    }
    read_chain(alloc, world, Side::Volume, first, len, total)
}

/// Attaches the volume and writes the bytes of two blocks, 4,097 to 8,192.
fn write_bytes<W: World>(
    world: &mut W,
    bytes: &[u8],
    first: u32,
    second: u32,
) -> Result<(), Failed> {
    let total = attach(world, Side::Volume)?;
    if first >= total || second >= total || first == second {
        return Err(Failed);
    }
    if bytes.len() <= 4096 || bytes.len() > 8192 {
        return Err(Failed);
    }
    write_blob(world, Side::Volume, bytes, &pair(first, second, total))
}

/// Attaches the volume and reads bytes of two blocks.
fn read_bytes<W: World>(
    world: &mut W,
    first: u32,
    second: u32,
    at: u64,
    into: &mut [u8],
) -> Result<(), Failed> {
    let total = attach(world, Side::Volume)?;
    if first >= total || second >= total || first == second {
        return Err(Failed);
    }
    if into.len() > 8192 || at > 8192 - into.len() as u64 {
        return Err(Failed);
    }
    let blocks = pair(first, second, total);
    read_blob(world, Side::Volume, &blocks, at, into)
}

/// A text of 4,093 bytes: the last is 8, the others are 7.
fn text() -> [u8; 4093] {
    let mut text = [7u8; 4093];
    text[4092] = 8;
    text
}

/// 4,196 bytes: the first, those beside the end of a block, and the last are 10 to 13, the others are 1.
fn bytes() -> [u8; 4196] {
    let mut bytes = [1u8; 4196];
    bytes[0] = 10;
    bytes[4095] = 11;
    bytes[4096] = 12;
    bytes[4195] = 13;
    bytes
}

#[test]
fn a_text_on_blocks_3_and_5(rt: HostRuntime) -> Result<(), Fail> {
    let text = text();
    let mut world = zeros(rt.alloc(), 8)?;
    write_text(&mut world, &text, 3, 5)?;
    let front = read_block(&mut world, Side::Volume, 3)?;
    assert!(rt; front.starts_with(b"\0\0\0\x05\x07"));
    assert_eq!(rt; front[4095], 7);
    let last = read_block(&mut world, Side::Volume, 5)?;
    assert!(rt; last.starts_with(b"\0\0\0\0\x08"));
    assert!(rt; last.iter().skip(5).all(|byte| *byte == 0));
    let chain = read_text(rt.alloc(), &mut world, 3, 4093)?;
    assert!(rt; chain.text.as_slice() == text.as_slice());
    assert_eq!(rt; chain.blocks.as_slice(), [3, 5].as_slice());
    Ok(())
}

#[test]
fn bad_chains(rt: HostRuntime) -> Result<(), Fail> {
    let text = text();
    // The length that is read, a byte of a block that is changed, and the block that breaks a rule.
    for (len, block, at, byte, bad) in [
        (4093, 3, 3, 5, None),
        // The next number is below 3, the image's count, above it, the block itself.
        (4093, 3, 3, 0, Some(3)),
        (4093, 3, 3, 2, Some(3)),
        (4093, 3, 3, 7, None),
        (4093, 3, 3, 8, Some(3)),
        (4093, 3, 0, 1, Some(3)),
        (4093, 3, 3, 3, Some(3)),
        // A third block is needed: none is named, the first again, the second again, one of zeros.
        (8185, 5, 3, 0, Some(5)),
        (8185, 5, 3, 3, Some(5)),
        (8185, 5, 3, 5, Some(5)),
        (8185, 5, 3, 7, None),
        // The last names one.
        (4093, 5, 3, 6, Some(5)),
        (4093, 5, 0, 1, Some(5)),
        (4092, 5, 0, 0, Some(3)),
        // The rest isn't zeros; a byte of the text may be any.
        (4093, 5, 4, 9, None),
        (4093, 5, 5, 1, Some(5)),
        (4093, 5, 4095, 1, Some(5)),
    ] {
        let mut world = zeros(rt.alloc(), 8)?;
        write_text(&mut world, &text, 3, 5)?;
        change(&mut world, Side::Volume, block, at, &[byte])?;
        assert_eq!(rt;
            read_text(rt.alloc(), &mut world, 3, len).err(),
            bad.map(ChainError::BadChain),
            "{len} bytes, {byte} at {at} of {block}"
        );
    }
    Ok(())
}

#[test]
fn chain_calls_that_fail(rt: HostRuntime) -> Result<(), Fail> {
    let text = text();
    // Of the two writes one fails: what block 3 begins with then, and block 5 stays zeros.
    for (call, next) in [(1, 0), (2, 5)] {
        let mut world = zeros(rt.alloc(), 8)?;
        world.fail_at(&[call])?;
        assert_eq!(rt; write_text(&mut world, &text, 3, 5), Err(Failed));
        assert_eq!(rt; read_block(&mut world, Side::Volume, 3)?[3], next);
        assert_eq!(rt; read_block(&mut world, Side::Volume, 5)?[4], 0);
    }
    // Of the two reads one fails.
    for call in [4, 5] {
        let mut world = zeros(rt.alloc(), 8)?;
        write_text(&mut world, &text, 3, 5)?;
        world.fail_at(&[call])?;
        let read = read_text(rt.alloc(), &mut world, 3, 4093);
        assert_eq!(rt; read.err(), Some(ChainError::Fault));
    }
    Ok(())
}

#[test]
fn bytes_on_blocks_5_and_3(rt: HostRuntime) -> Result<(), Fail> {
    let bytes = bytes();
    let mut world = zeros(rt.alloc(), 8)?;
    write_bytes(&mut world, &bytes, 5, 3)?;
    assert_eq!(rt; read_block(&mut world, Side::Volume, 5)?[0], 10);
    let last = read_block(&mut world, Side::Volume, 3)?;
    assert_eq!(rt; (last[0], last[99]), (12, 13));
    assert!(rt; last.iter().skip(100).all(|byte| *byte == 0));
    let mut all = [0u8; 4196];
    read_bytes(&mut world, 5, 3, 0, &mut all)?;
    assert!(rt; all.as_slice() == bytes.as_slice());
    Ok(())
}

#[test]
fn parts_of_bytes(rt: HostRuntime) -> Result<(), Fail> {
    let bytes = bytes();
    // Four bytes from a place on, and whether they lie in two blocks.
    for (at, want, two) in [
        (0, [10, 1, 1, 1], false),
        (4092, [1, 1, 1, 11], false),
        (4093, [1, 1, 11, 12], true),
        (4095, [11, 12, 1, 1], true),
        (4096, [12, 1, 1, 1], false),
        (4192, [1, 1, 1, 13], false),
        (4194, [1, 13, 0, 0], false),
        (8188, [0, 0, 0, 0], false),
    ] {
        let mut world = zeros(rt.alloc(), 8)?;
        write_bytes(&mut world, &bytes, 5, 3)?;
        let mut part = [9u8; 4];
        read_bytes(&mut world, 5, 3, at, &mut part)?;
        assert_eq!(rt; part, want, "from {at} on");
        // The calls 0 to 2 wrote, and 3 to 4 or 5 read. Of the next a third one fails, if there is one.
        let third = if two { 8 } else { 7 };
        world.fail_at(&[third])?;
        let read = read_bytes(&mut world, 5, 3, at, &mut part);
        assert_eq!(rt; read.is_err(), two, "from {at} on");
    }
    Ok(())
}

#[test]
fn blob_calls_that_fail(rt: HostRuntime) -> Result<(), Fail> {
    let bytes = bytes();
    for (call, first) in [(1, 0), (2, 10)] {
        let mut world = zeros(rt.alloc(), 8)?;
        world.fail_at(&[call])?;
        assert_eq!(rt; write_bytes(&mut world, &bytes, 5, 3), Err(Failed));
        assert_eq!(rt; read_block(&mut world, Side::Volume, 5)?[0], first);
        assert_eq!(rt; read_block(&mut world, Side::Volume, 3)?[0], 0);
    }
    // Of the two reads one fails.
    for call in [4, 5] {
        let mut world = zeros(rt.alloc(), 8)?;
        write_bytes(&mut world, &bytes, 5, 3)?;
        world.fail_at(&[call])?;
        let mut all = [0u8; 4196];
        assert_eq!(rt; read_bytes(&mut world, 5, 3, 0, &mut all), Err(Failed));
        // What the call that didn't fail read is kept.
        assert_eq!(rt; all[0], if call == 4 { 0 } else { 10 });
    }
    Ok(())
}
