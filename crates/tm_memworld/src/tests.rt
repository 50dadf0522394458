//! Worked rows, each computed by hand.
ghost use Rattle.std.specs.Prelude.{◌≡◌, ℕ, IfSome};
ghost use Rattle.tm_world.specs.declared.world.Side.{Side};
ghost use Rattle.tm_memworld.specs.World.{blocks_of};

use crate::MemWorld;
use std::alloc::Global;
use std::test::Fail;
use tm_world::{Failed, Part, Side, World};

/// A call in a table.
#[derive(Clone, Copy)]
enum Call {
    /// Writes a block of these bytes.
    Write(Side, u32, u8),
    Sync(Side),
    Say,
}

/// A write to each side, a sync of each, and a write to the volume between them.
const CALLS: [Call; 6] = [
    Call::Write(Side::Volume, 1, 7),
    Call::Write(Side::Store, 2, 8),
    Call::Sync(Side::Volume),
    Call::Write(Side::Volume, 1, 9),
    Call::Say,
    Call::Sync(Side::Store),
];

/// A world with two images of 4 blocks, both attached by the calls 0 and 1, and so much room.
fn opened(alloc: Global, calls: u64, writes: u64, said: u64) -> Option<MemWorld>
    ensures { IfSome result (λ w. (side : Side) → blocks_of w side ≡ 4) }
{
    let mut world = MemWorld::new(alloc).ok()?;
    world.put_image("v", 4).ok()?;
    world.put_image("s", 4).ok()?;
    world.room(calls, writes, said).ok()?;
    let Ok(4) = world.attach(Part::Volume, "v", None) else {
        return None;
    };
    let Ok(4) = world.attach(Part::Store, "s", None) else {
        return None;
    };
    Some(world)
}

/// Makes a call, and answers whether it failed.
fn fails(world: &mut MemWorld, call: Call) -> bool
    requires { (side : Side) → blocks_of world.old side ≡ 4 }
    ensures { blocks_of world.new ≡ blocks_of world.old }
{
    let done = match call {
        Call::Write(side, block, byte) if block < 4 => world.write(side, block, &[byte; 4096]),
        Call::Write(_, _, _) => Err(Failed),
        Call::Sync(side) => world.sync(side),
        Call::Say => world.say(b"ok"),
    };
    done.is_err()
}

/// Makes so many calls of a table, and answers which failed.
fn failed(world: &mut MemWorld, calls: &[Call; 6], count: usize) -> [bool; 6]
    requires { (side : Side) → blocks_of world.old side ≡ 4 }
    ensures { (side : Side) → blocks_of world.new side ≡ 4 }
{
    let mut failed = [false; 6];
    for i in 0..count.min(6) {
        failed[i] = fails(world, calls[i]);
    }
    failed
}

/// The first byte of a block, and 255 after a fault.
fn first_byte(world: &mut MemWorld, side: Side, block: u32) -> u8
    requires { (side : Side) → blocks_of world.old side ≡ 4 }
    ensures { blocks_of world.new ≡ blocks_of world.old }
{
    let mut bytes = [0u8; 4096];
    if block < 4 && world.read(side, block, &mut bytes).is_ok() {
        bytes[0]
    } else {
        255
    }
}

/// What block 1 of the volume and block 2 of the store begin with.
fn first_bytes(world: &mut MemWorld) -> (u8, u8)
    requires { (side : Side) → blocks_of world.old side ≡ 4 }
{
    let volume = first_byte(world, Side::Volume, 1);
    (volume, first_byte(world, Side::Store, 2))
}

/// The same after a stop with both sides attached again, and how many bytes are said then.
fn left_by_a_stop(world: &mut MemWorld) -> Option<(u8, u8, usize)> {
    world.stop(&[5; 4096]);
    let said = world.said().len();
    let Ok(4) = world.attach(Part::Volume, "v", None) else {
        return None;
    };
    let Ok(4) = world.attach(Part::Store, "s", None) else {
        return None;
    };
    let (volume, store) = first_bytes(world);
    Some((volume, store, said))
}

#[test]
fn a_stop_after_each_call(rt: HostRuntime) -> Result<(), Fail> {
    let left = [(0, 0), (5, 0), (5, 5), (7, 5), (5, 5), (5, 5), (5, 8)];
    for (count, (volume, store)) in left.iter().enumerate() {
        let mut world = opened(rt.alloc(), 64, 16, 16).ok_or("memory")?;
        assert_eq!(rt; failed(&mut world, &CALLS, count), [false; 6]);
        assert_eq!(rt;
            left_by_a_stop(&mut world),
            Some((*volume, *store, 0)),
            "after {count}"
        );
    }
    Ok(())
}

#[test]
fn each_call_fails_in_turn(rt: HostRuntime) -> Result<(), Fail> {
    let left = [(5, 8), (5, 0), (5, 8), (5, 8), (5, 8), (5, 5)];
    for (at, (volume, store)) in left.iter().enumerate() {
        let mut world = opened(rt.alloc(), 64, 16, 16).ok_or("memory")?;
        world.fail_at(&[2 + at as u64])?;
        let mut want = [false; 6];
        want[at] = true;
        assert_eq!(rt; failed(&mut world, &CALLS, 6), want);
        assert_eq!(rt;
            left_by_a_stop(&mut world),
            Some((*volume, *store, 0)),
            "with {at} failing"
        );
    }
    Ok(())
}

#[test]
fn a_fuse_ends_at_a_stop(rt: HostRuntime) -> Result<(), Fail> {
    let mut world = opened(rt.alloc(), 64, 16, 16).ok_or("memory")?;
    world.fuse(4);
    assert_eq!(rt;
        failed(&mut world, &CALLS, 6),
        [false, false, true, true, true, true]
    );
    assert_eq!(rt; left_by_a_stop(&mut world), Some((5, 5, 0)));
    Ok(())
}

#[test]
fn room_is_used_up(rt: HostRuntime) -> Result<(), Fail> {
    let mut world = opened(rt.alloc(), 7, 1, 3).ok_or("memory")?;
    let calls = [
        Call::Write(Side::Volume, 1, 7),
        Call::Write(Side::Volume, 1, 8),
        Call::Say,
        Call::Say,
        Call::Sync(Side::Volume),
        Call::Sync(Side::Volume),
    ];
    assert_eq!(rt;
        failed(&mut world, &calls, 6),
        [false, true, false, true, false, true]
    );
    world.room(2, 0, 2)?;
    let calls = [
        Call::Say,
        Call::Sync(Side::Store),
        Call::Sync(Side::Store),
        Call::Say,
        Call::Sync(Side::Volume),
        Call::Write(Side::Volume, 0, 7),
    ];
    assert_eq!(rt;
        failed(&mut world, &calls, 6),
        [false, false, true, true, true, true]
    );
    assert_eq!(rt; world.said(), b"okok".as_slice());
    Ok(())
}

#[test]
fn scripts_are_taken(rt: HostRuntime) -> Result<(), Fail> {
    let mut world = MemWorld::new(rt.alloc())?;
    world.put_script("x", b"abc")?;
    world.room(16, 0, 0)?;
    assert_eq!(rt; world.attach(Part::Script, "y", None), Err(Failed));
    assert_eq!(rt; world.attach(Part::Script, "x", None), Ok(0));
    let mut into = [0u8; 2];
    assert_eq!(rt; (world.take(&mut into), into), (Ok(2), *b"ab"));
    world.put_script("x", b"de")?;
    assert_eq!(rt; (world.take(&mut into), into), (Ok(1), *b"cb"));
    assert_eq!(rt; (world.take(&mut into), into), (Ok(0), *b"cb"));
    assert_eq!(rt; world.attach(Part::Script, "x", None), Ok(0));
    assert_eq!(rt; (world.take(&mut into), into), (Ok(2), *b"de"));
    Ok(())
}

#[test]
fn images_are_made_in_places(rt: HostRuntime) -> Result<(), Fail> {
    let mut world = MemWorld::new(rt.alloc())?;
    world.room(16, 0, 0)?;
    assert_eq!(rt; world.attach(Part::Volume, "p", None), Ok(0));
    assert_eq!(rt; world.attach(Part::Volume, "p", Some(8)), Err(Failed));
    world.put_place("p", 8)?;
    assert_eq!(rt; world.attach(Part::Volume, "p", Some(9)), Err(Failed));
    assert_eq!(rt; world.attach(Part::Store, "p", Some(8)), Err(Failed));
    assert_eq!(rt; world.attach(Part::Volume, "p", Some(8)), Ok(8));
    assert_eq!(rt; world.attach(Part::Store, "p", Some(1)), Ok(8));
    world.put_image("p", 3)?;
    assert_eq!(rt; world.attach(Part::Store, "p", None), Ok(3));
    let long = [b'a'; 1024];
    assert_eq!(rt;
        world.attach(Part::Store, str::from_utf8(&long[..1023])?, None),
        Ok(0)
    );
    assert_eq!(rt;
        world.attach(Part::Store, str::from_utf8(&long)?, None),
        Err(Failed)
    );
    Ok(())
}
