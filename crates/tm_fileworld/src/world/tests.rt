//! Worlds over files, each in a folder of its own.
ghost use Rattle.std.specs.Prelude.{◌≡◌, ◌<◌, OnOk};
ghost use Rattle.tm_fileworld.specs.World.{blocks_of};

use super::{FileWorld, part};
use std::fs;
use std::process::Abort;
use std::rt::Files;
use std::test::Fail;
use tm_world::{Failed, Faults, Part, Side, World};

const IMAGES: &str = "tm_fileworld_images";

const IMAGE: &str = "tm_fileworld_images/image";

const SCRIPTS: &str = "tm_fileworld_scripts";

const SCRIPT: &str = "tm_fileworld_scripts/script";

/// Attaches the image as a side. It has 8 blocks, and is made with so many.
fn attach_eight<R: Files + Print>(
    world: &mut FileWorld<'_, R>,
    side: Side,
) -> Result<(), &'static str>
    ensures { OnOk result (blocks_of world.new side ≡ 8) }
{
    match world.attach(part(side), IMAGE, Some(8)) {
        Ok(8) => Ok(()),
        _ => Err("not an image of 8 blocks"),
    }
}

/// A block of a side of 8 blocks.
fn block_of<R: Files + Print>(
    world: &mut FileWorld<'_, R>,
    side: Side,
    block: u32,
) -> Result<[u8; 4096], Failed>
    requires blocks { blocks_of world.old side ≡ 8 }
    requires below { block < 8 }
    ensures { blocks_of world.new side ≡ 8 }
{
    let mut into = [1; 4096];
    match world.read(side, block, &mut into) {
        Ok(()) => Ok(into),
        Err(Failed) => Err(Failed),
    }
}

/// Makes an image and writes a block of it.
fn write_image<R: Files + Print + Abort>(rt: &R) -> Result<(), Fail> {
    let mut world = FileWorld::new(rt);
    assert_eq!(rt; world.attach(Part::Store, IMAGE, None), Ok(0));
    assert_eq!(rt; world.sync(Side::Store), Ok(()));
    attach_eight(&mut world, Side::Volume)?;
    assert_eq!(rt; world.write(Side::Volume, 3, &[7; 4096]), Ok(()));
    assert_eq!(rt; world.sync(Side::Volume), Ok(()));
    assert_eq!(rt; world.faults, Faults::new());
    Ok(())
}

/// Reads the image in another world, also when it has become shorter.
fn read_image<R: Files + Print + Abort>(rt: &R) -> Result<(), Fail> {
    let mut world = FileWorld::new(rt);
    attach_eight(&mut world, Side::Store)?;
    assert_eq!(rt; block_of(&mut world, Side::Store, 7), Ok([0; 4096]));
    assert_eq!(rt; block_of(&mut world, Side::Store, 3), Ok([7; 4096]));
    fs::write(rt, IMAGE, [5; 7 * 4096 + 4095].as_slice())?;
    assert_eq!(rt; block_of(&mut world, Side::Store, 6), Ok([5; 4096]));
    assert_eq!(rt; block_of(&mut world, Side::Store, 7), Err(Failed));
    assert_eq!(rt; world.attach(Part::Volume, IMAGE, None), Ok(7));
    // A folder is no image.
    assert_eq!(rt; world.attach(Part::Volume, IMAGES, None), Err(Failed));
    assert_eq!(rt; (world.faults.volume, world.faults.store), (1, 1));
    Ok(())
}

#[test]
fn images_are_kept(rt: HostRuntime) -> Result<(), Fail> {
    let _ = fs::remove_dir_all(&rt, IMAGES);
    fs::create_dir(&rt, IMAGES)?;
    write_image(&rt)?;
    assert_eq!(rt; fs::metadata(&rt, IMAGE)?.len(), 8 * 4096);
    read_image(&rt)?;
    fs::remove_dir_all(&rt, IMAGES)?;
    Ok(())
}

#[test]
fn scripts_are_read(rt: HostRuntime) -> Result<(), Fail> {
    let _ = fs::remove_dir_all(&rt, SCRIPTS);
    fs::create_dir(&rt, SCRIPTS)?;
    let mut world = FileWorld::new(&rt);
    let mut bytes = [0; 4];
    assert_eq!(rt; world.take(&mut bytes), Err(Failed));
    assert_eq!(rt; world.attach(Part::Script, SCRIPT, None), Err(Failed));
    fs::write(&rt, SCRIPT, b"at".as_slice())?;
    assert_eq!(rt; world.attach(Part::Script, SCRIPT, None), Ok(0));
    assert_eq!(rt; world.take(&mut bytes), Ok(2));
    assert_eq!(rt; bytes, *b"at\0\0");
    assert_eq!(rt; world.take(&mut bytes), Ok(0));
    assert_eq!(rt; world.say(b""), Ok(()));
    assert_eq!(rt; (world.faults.script, world.faults.out), (2, 0));
    fs::remove_dir_all(&rt, SCRIPTS)?;
    Ok(())
}
