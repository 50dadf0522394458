//! Slots by hand, and each of their fields damaged.
use super::field::first_bad;
use super::root::Root;
use tm_world::Side;

/// The tag of a new volume: the mark is off, the generation and the next number are 1.
fn volume_tag() -> [u8; 64] {
    let mut tag = [0u8; 64];
    tag[15] = 1;
    tag[23] = 1;
    tag
}

/// The tag of a new store: no backup runs, and the next has number 1.
fn store_tag() -> [u8; 64] {
    let mut tag = [0u8; 64];
    tag[23] = 1;
    tag
}

#[test]
fn a_slot_by_hand(rt: HostRuntime) {
    let mut root = Root::new(Side::Volume, 5, 300, volume_tag());
    root.sequence = 0x0102_0304_0506_0708;
    let slot = root.to_slot();
    let front =
        b"TMIMAGE1\x01\x01\0\0\0\0\0\x05\x01\x02\x03\x04\x05\x06\x07\x08\0\0\0\0\0\0\x01\x2c";
    let tag = b"\0\0\0\0\0\0\0\0\0\0\0\0\0\0\0\x01\0\0\0\0\0\0\0\x01";
    assert!(rt; slot.starts_with(front));
    assert!(rt; slot[32..].starts_with(tag));
    assert!(rt; slot.iter().skip(56).all(|byte| *byte == 0));
    assert!(rt; Root::new(Side::Store, 3, 1, store_tag()).to_slot()[8] == 2);
}

/// The first bad field where these bytes are written over a good slot of an image of 8 blocks.
fn damaged(side: Side, changes: &[(usize, u8)]) -> Option<usize> {
    let tag = match side {
        Side::Volume => volume_tag(),
        Side::Store => store_tag(),
    };
    let mut slot = Root::new(side, 5, 300, tag).to_slot();
    for (at, byte) in changes {
        if let Some(there) = slot.get_mut(*at) {
            *there = *byte;
        }
    }
    first_bad(&slot, side, 8)
}

#[test]
fn each_field_damaged(rt: HostRuntime) {
    // On either side.
    for side in [Side::Volume, Side::Store] {
        assert_eq!(rt; damaged(side, &[]), None);
        for (at, byte, place) in [
            (8, 0, Some(8)),
            (8, 3, Some(8)),
            (9, 0, Some(9)),
            (9, 2, Some(9)),
            (10, 1, Some(10)),
            (11, 1, Some(10)),
            (12, 1, Some(12)),
            (15, 2, Some(12)),
            (15, 3, None),
            (15, 7, None),
            (15, 8, Some(12)),
            (16, 255, None),
            (23, 255, None),
            (24, 1, Some(24)),
            (32, 2, Some(32)),
            (33, 1, Some(33)),
            (39, 1, Some(33)),
            (55, 0, Some(48)),
            (56, 1, Some(56)),
            (95, 1, Some(56)),
            (96, 1, Some(96)),
            (4095, 1, Some(96)),
        ] {
            assert_eq!(rt; damaged(side, &[(at, byte)]), place, "byte {byte} at {at}");
        }
    }
}

#[test]
fn bounds_of_fields(rt: HostRuntime) {
    // The length of the table text is 1 to 5 * 4092, 20,460 or 4fec.
    assert_eq!(rt; damaged(Side::Volume, &[(30, 0), (31, 0)]), Some(24));
    assert_eq!(rt; damaged(Side::Volume, &[(30, 0), (31, 1)]), None);
    assert_eq!(rt; damaged(Side::Volume, &[(30, 0x4f), (31, 0xec)]), None);
    assert_eq!(rt; damaged(Side::Volume, &[(30, 0x4f), (31, 0xed)]), Some(24));
    // The kind is the side's.
    assert_eq!(rt; damaged(Side::Volume, &[(8, 2)]), Some(8));
    assert_eq!(rt; damaged(Side::Store, &[(8, 1)]), Some(8));
    // A generation is 1 to 2^62 - 1, a next number 1 to 2^62.
    assert_eq!(rt; damaged(Side::Volume, &[(47, 0)]), Some(40));
    assert_eq!(rt; damaged(Side::Volume, &[(40, 0x3f)]), None);
    assert_eq!(rt; damaged(Side::Volume, &[(40, 0x40)]), Some(40));
    assert_eq!(rt; damaged(Side::Volume, &[(48, 0x40), (55, 0)]), None);
    assert_eq!(rt; damaged(Side::Volume, &[(48, 0x40), (55, 1)]), Some(48));
    // Without a backup there is no date; with one it ends with the year 9999: 3a_ff_f4_41_7f.
    assert_eq!(rt; damaged(Side::Store, &[(47, 1)]), Some(40));
    assert_eq!(rt; damaged(Side::Store, &[(32, 1)]), None);
    let latest = [
        (32, 1),
        (43, 0x3a),
        (44, 0xff),
        (45, 0xf4),
        (46, 0x41),
        (47, 0x7f),
    ];
    assert_eq!(rt; damaged(Side::Store, &latest), None);
    let later = [
        (32, 1),
        (43, 0x3a),
        (44, 0xff),
        (45, 0xf4),
        (46, 0x41),
        (47, 0x80),
    ];
    assert_eq!(rt; damaged(Side::Store, &later), Some(40));
    // The number of the next backup is 1 to 2^40.
    assert_eq!(rt; damaged(Side::Store, &[(50, 1), (55, 0)]), None);
    assert_eq!(rt; damaged(Side::Store, &[(50, 1), (55, 1)]), Some(48));
    // The first bad field is told.
    assert_eq!(rt;
        damaged(Side::Store, &[(96, 1), (33, 1), (12, 1)]),
        Some(12)
    );
}
