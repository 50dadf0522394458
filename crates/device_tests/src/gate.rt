//! The gate of a volume: turned, stopped and damaged.
ghost use Rattle.std.specs.Prelude.{◌≡◌, ◌≤◌, IfOk, OnOk};
ghost use Rattle.tm_world.specs.Outside.{disk};
ghost use Rattle.tm_world.specs.Log.{now};
ghost use Rattle.tm_gate.specs.Gate.{IsGate};

use std::test::Fail;
use tm_gate::{Gate, GateError, Root, load_gate, turn};
use tm_testing::{attach, change, read_block, zeros};
use tm_world::{Side, World};

/// The gate of a side on which nothing is unsynced; that of an unformatted one has an empty root.
fn open<W: World>(world: &mut W, side: Side, blocks: u32) -> Result<Gate, GateError>
    requires blocks { W.blocks world.old side ≡ blocks }
    ensures gate { W.told → IfOk result (λ gate. IsGate (disk side (now (W.log world.new))) gate.named ((disk side (now (W.log world.new))).bytes gate.named)) }
    ensures blocks { W.blocks world.new ≡ W.blocks world.old }
    ensures room { IfOk result (λ gate. 3 ≤ blocks) }
{
    world.sync(side)?;
    match load_gate(world, side, blocks) {
        Ok(gate) => Ok(gate),
        Err(GateError::Unformatted { named }) => {
            if blocks < 3 {
                return Err(GateError::Unformatted { named });
            }
            Ok(Gate {
                named,
                root: Root::new(side, 3, 1, [0u8; 64]),
            })
        }
        Err(error) => Err(error),
    }
}

/// Attaches the volume and turns its gate. It makes eight calls, the last four of which are the turn's.
fn replace<W: World>(world: &mut W, root: Root) -> Result<Gate, GateError> {
    let blocks = attach(world, Side::Volume)?;
    let mut gate = open(world, Side::Volume, blocks)?;
    turn(world, Side::Volume, &mut gate, root)?;
    Ok(gate)
}

/// Attaches the volume and reads its gate, by three calls.
fn load<W: World>(world: &mut W) -> Result<Gate, GateError> {
    let blocks = attach(world, Side::Volume)?;
    load_gate(world, Side::Volume, blocks)
}

/// A root with this sequence. The mark of its volume is off, the generation and the next number are 1.
fn root(first: u32, table_len: u64, sequence: u64) -> Root {
    let mut tag = [0u8; 64];
    tag[15] = 1;
    tag[23] = 1;
    let mut root = Root::new(Side::Volume, first, table_len, tag);
    root.sequence = sequence;
    root
}

#[test]
fn turns_go_to_and_fro(rt: HostRuntime) -> Result<(), Fail> {
    let mut world = zeros(rt.alloc(), 8)?;
    assert_eq!(rt; load(&mut world), Err(GateError::Unformatted { named: 1 }));
    for (first, named, sequence) in [(3, 2, 1), (4, 1, 2), (7, 2, 3)] {
        let gate = replace(&mut world, root(first, 300, 9))?;
        assert_eq!(rt;
            (gate.named, gate.root),
            (named, root(first, 300, sequence))
        );
        assert_eq!(rt; load(&mut world), Ok(gate));
        let block = read_block(&mut world, Side::Volume, u32::from(named))?;
        let front = b"TMIMAGE1\x01\x01\0\0\0\0\0";
        assert!(rt; block.starts_with(front));
        assert_eq!(rt; (block[15], block[23]), (first as u8, sequence as u8));
        assert_eq!(rt; (block[30], block[31]), (1, 0x2c));
        assert_eq!(rt; read_block(&mut world, Side::Volume, 0)?[0], named - 1);
    }
    Ok(())
}

#[test]
fn a_stop_leaves_the_old_root_or_the_new(rt: HostRuntime) -> Result<(), Fail> {
    // After a turn the slot in block 2 is named, after two that in block 1. From so many calls on the new is named.
    for (turns, torn, from) in [(1, 0, 2), (1, 255, 4), (2, 0, 4), (2, 255, 2)] {
        for calls in 0..5u64 {
            let mut world = zeros(rt.alloc(), 8)?;
            for _turn in 0..turns {
                replace(&mut world, root(3, 300, 9))?;
            }
            let made = if turns == 1 { 8u64 } else { 16 };
            world.fuse(made + 4 + calls);
            let done = replace(&mut world, root(5, 77, 9)).is_ok();
            assert_eq!(rt; done, calls == 4);
            world.stop(&[torn; 4096]);
            let gate = load(&mut world)?;
            let want = if calls < from {
                root(3, 300, turns)
            } else {
                root(5, 77, if turns == 1 { 2 } else { 3 })
            };
            assert_eq!(rt; gate.root, want, "{calls} calls, {torn}, after {turns}");
        }
    }
    Ok(())
}

#[test]
fn reads_that_fail_are_faults(rt: HostRuntime) -> Result<(), Fail> {
    for call in [9, 10] {
        let mut world = zeros(rt.alloc(), 8)?;
        let gate = replace(&mut world, root(3, 300, 9))?;
        world.fail_at(&[call])?;
        assert_eq!(rt; load(&mut world), Err(GateError::Fault), "call {call}");
        assert_eq!(rt; load(&mut world), Ok(gate));
    }
    Ok(())
}

#[test]
fn small_images_are_unformatted(rt: HostRuntime) -> Result<(), Fail> {
    for (blocks, named) in [(1, 0), (2, 0), (3, 1)] {
        let mut world = zeros(rt.alloc(), blocks)?;
        assert_eq!(rt; attach(&mut world, Side::Volume), Ok(blocks));
        assert_eq!(rt; load(&mut world), Err(GateError::Unformatted { named }));
    }
    Ok(())
}

#[test]
fn fields_damaged_in_turn(rt: HostRuntime) -> Result<(), Fail> {
    let unformatted = Some(GateError::Unformatted { named: 2 });
    for (block, at, byte, want) in [
        (2, 0, b't', unformatted),
        (2, 7, b'2', unformatted),
        (2, 8, 2, Some(GateError::BadSlot(8))),
        (2, 9, 2, Some(GateError::BadSlot(9))),
        (2, 11, 1, Some(GateError::BadSlot(10))),
        (2, 15, 2, Some(GateError::BadSlot(12))),
        (2, 15, 8, Some(GateError::BadSlot(12))),
        (2, 16, 255, None),
        (2, 24, 1, Some(GateError::BadSlot(24))),
        (2, 32, 2, Some(GateError::BadSlot(32))),
        (2, 39, 1, Some(GateError::BadSlot(33))),
        (2, 40, 0x40, Some(GateError::BadSlot(40))),
        (2, 55, 0, Some(GateError::BadSlot(48))),
        (2, 95, 1, Some(GateError::BadSlot(56))),
        (2, 96, 1, Some(GateError::BadSlot(96))),
        (2, 4095, 1, Some(GateError::BadSlot(96))),
        // The other slot isn't read, and of the selector one bit is.
        (1, 0, 1, None),
        (0, 0, 255, None),
        (0, 4095, 1, None),
        (0, 0, 254, Some(GateError::Unformatted { named: 1 })),
    ] {
        let mut world = zeros(rt.alloc(), 8)?;
        replace(&mut world, root(3, 300, 9))?;
        change(&mut world, Side::Volume, block, at, &[byte])?;
        assert_eq!(rt;
            load(&mut world).err(),
            want,
            "byte {byte} at {at} of {block}"
        );
    }
    Ok(())
}
