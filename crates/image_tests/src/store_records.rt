//! A store that keeps every rule, and records that break one (`docs/RECORDS.md`, "Records of a store").
use tm_testing::{Meta, NODE, Record, SNAPSHOT};

/// The machine's record.
pub(crate) const MACHINE: Meta<'static> = Meta::Plain(b"\x03Mac");

/// The snapshots.
const FIRST: Meta<'static> = Meta::Snapshot(100, 1, 5, 4);

const SECOND: Meta<'static> = Meta::Snapshot(200, 1, 9, 6);

/// The link `l`, which is of one stamp, and the entries of the folder `a`, which holds it.
const TARGET: &[u8] = b"\0\0\0\0\0\0\0\x02\0\x01f";

const HOLDS_L: &[u8] = b"\0\0\0\x01\x01l\0\0\0\0\0\0\0\x02";

/// The entries of the two roots: `a` and `f`, of which the second backup copied the file anew.
const HOLDS_1: &[u8] = b"\0\0\0\x02\x01a\0\0\0\0\0\0\0\x03\x01f\0\0\0\0\0\0\0\x01";

const HOLDS_5: &[u8] = b"\0\0\0\x02\x01a\0\0\0\0\0\0\0\x03\x01f\0\0\0\0\0\0\0\x05";

/// The records of a store that keep every rule: two snapshots, which share the folder `a` with the
/// link `l` and have a file `f` each. The number of the next backup is 3.
pub(crate) const GOOD: [Record<'static>; 9] = [
    (1, MACHINE, 0, &[]),
    (SNAPSHOT + 1, FIRST, 0, &[]),
    (SNAPSHOT + 2, SECOND, 0, &[]),
    (NODE + 1, Meta::File(1, 1, 1), 5, &[4]),
    (NODE + 2, Meta::Link(1, 1, TARGET), 0, &[]),
    (NODE + 3, Meta::Folder(1, 2, HOLDS_L), 0, &[]),
    (NODE + 4, Meta::Folder(1, 1, HOLDS_1), 0, &[]),
    (NODE + 5, Meta::File(2, 1, 2), 6000, &[6, 7]),
    (NODE + 6, Meta::Folder(2, 1, HOLDS_5), 0, &[]),
];

/// Records that take the place of those with their keys in the good store, or come to it, and the
/// least key that then breaks a rule, if one does.
pub(crate) const EDITS: [(&[Record<'static>], Option<u64>); 89] = [
    // Keys that no record of a store has.
    (&[(0, Meta::Plain(b""), 0, &[])], Some(0)),
    (&[(2, Meta::Plain(b""), 0, &[])], Some(2)),
    (&[(3, Meta::Plain(b""), 0, &[])], Some(3)),
    (
        &[(SNAPSHOT - 1, Meta::Plain(b""), 0, &[])],
        Some(SNAPSHOT - 1),
    ),
    // A machine without a record, with none, with too much, with names that are none, and with data.
    (&[(1, Meta::Gone, 0, &[])], Some(1)),
    (&[(1, Meta::Plain(b""), 0, &[])], Some(1)),
    (&[(1, Meta::Plain(b"\x03Macx"), 0, &[])], Some(1)),
    (&[(1, Meta::Plain(b"\x04Mac"), 0, &[])], Some(1)),
    (&[(1, Meta::Plain(b"\0"), 0, &[])], Some(1)),
    (&[(1, Meta::Plain(b"\x01/"), 0, &[])], Some(1)),
    (&[(1, Meta::Plain(b"\x02.."), 0, &[])], Some(1)),
    (&[(1, Meta::Plain(b"\x01\xff"), 0, &[])], Some(1)),
    (&[(1, MACHINE, 1, &[8])], Some(1)),
    // A snapshot that is none, that has a byte less or more, or a volume's name that is none.
    (
        &[(SNAPSHOT + 2, Meta::Plain(b""), 0, &[])],
        Some(SNAPSHOT + 2),
    ),
    (
        &[(
            SNAPSHOT + 2,
            Meta::Plain(
                b"\0\0\0\0\0\0\0\xc8\0\0\0\0\0\0\0\0\0\0\0\0\0\0\0\x01\0\0\0\0\0\0\0\x01\0\0\0\0\0\0\0\x09\x02HD\0\0\0\0\0\0\0\x06",
            ),
            0,
            &[],
        )],
        None,
    ),
    (
        &[(
            SNAPSHOT + 2,
            Meta::Plain(
                b"\0\0\0\0\0\0\0\xc8\0\0\0\0\0\0\0\0\0\0\0\0\0\0\0\x01\0\0\0\0\0\0\0\x01\0\0\0\0\0\0\0\x09\x02HD\0\0\0\0\0\0\0\x06x",
            ),
            0,
            &[],
        )],
        Some(SNAPSHOT + 2),
    ),
    (
        &[(
            SNAPSHOT + 2,
            Meta::Plain(
                b"\0\0\0\0\0\0\0\xc8\0\0\0\0\0\0\0\0\0\0\0\0\0\0\0\x01\0\0\0\0\0\0\0\x01\0\0\0\0\0\0\0\x09\x02HD\0\0\0\0\0\0\0",
            ),
            0,
            &[],
        )],
        Some(SNAPSHOT + 2),
    ),
    (
        &[(
            SNAPSHOT + 2,
            Meta::Plain(
                b"\0\0\0\0\0\0\0\xc8\0\0\0\0\0\0\0\0\0\0\0\0\0\0\0\x01\0\0\0\0\0\0\0\x01\0\0\0\0\0\0\0\x09\x02H/\0\0\0\0\0\0\0\x06",
            ),
            0,
            &[],
        )],
        Some(SNAPSHOT + 2),
    ),
    // A snapshot with data.
    (&[(SNAPSHOT + 2, SECOND, 1, &[8])], Some(SNAPSHOT + 2)),
    // Backups whose number is 0, was not used yet, or is the greatest that a key can have.
    (
        &[(SNAPSHOT, Meta::Snapshot(50, 1, 5, 4), 0, &[])],
        Some(SNAPSHOT),
    ),
    (
        &[(SNAPSHOT + 3, Meta::Snapshot(300, 1, 5, 4), 0, &[])],
        Some(SNAPSHOT + 3),
    ),
    (
        &[(NODE - 1, Meta::Snapshot(300, 1, 5, 4), 0, &[])],
        Some(NODE - 1),
    ),
    // A snapshot that is as late as the one before, earlier, or too late.
    (
        &[(SNAPSHOT + 2, Meta::Snapshot(100, 1, 9, 6), 0, &[])],
        Some(SNAPSHOT + 2),
    ),
    (
        &[(SNAPSHOT + 2, Meta::Snapshot(99, 1, 9, 6), 0, &[])],
        Some(SNAPSHOT + 2),
    ),
    (
        &[(SNAPSHOT + 1, Meta::Snapshot(200, 1, 5, 4), 0, &[])],
        Some(SNAPSHOT + 2),
    ),
    (
        &[(
            SNAPSHOT + 2,
            Meta::Snapshot(253_402_300_799, 1, 9, 6),
            0,
            &[],
        )],
        None,
    ),
    (
        &[(
            SNAPSHOT + 2,
            Meta::Snapshot(253_402_300_800, 1, 9, 6),
            0,
            &[],
        )],
        Some(SNAPSHOT + 2),
    ),
    // Generations and cursors at their bounds.
    (
        &[(SNAPSHOT + 2, Meta::Snapshot(200, 0, 9, 6), 0, &[])],
        Some(SNAPSHOT + 2),
    ),
    (
        &[(
            SNAPSHOT + 2,
            Meta::Snapshot(200, NODE - 1, NODE - 1, 6),
            0,
            &[],
        )],
        None,
    ),
    (
        &[(SNAPSHOT + 2, Meta::Snapshot(200, NODE, 9, 6), 0, &[])],
        Some(SNAPSHOT + 2),
    ),
    (
        &[(SNAPSHOT + 2, Meta::Snapshot(200, 1, NODE, 6), 0, &[])],
        Some(SNAPSHOT + 2),
    ),
    (
        &[(SNAPSHOT + 2, Meta::Snapshot(200, 1, 0, 6), 0, &[])],
        None,
    ),
    // A root that is no node, the node 0, a file, a link, and a record that is no node.
    (
        &[(SNAPSHOT + 2, Meta::Snapshot(200, 1, 9, 7), 0, &[])],
        Some(SNAPSHOT + 2),
    ),
    (
        &[(SNAPSHOT + 2, Meta::Snapshot(200, 1, 9, 0), 0, &[])],
        Some(SNAPSHOT + 2),
    ),
    (
        &[(SNAPSHOT + 2, Meta::Snapshot(200, 1, 9, 5), 0, &[])],
        Some(SNAPSHOT + 2),
    ),
    (
        &[(SNAPSHOT + 2, Meta::Snapshot(200, 1, 9, 2), 0, &[])],
        Some(SNAPSHOT + 2),
    ),
    (&[(NODE + 6, Meta::Plain(b""), 0, &[])], Some(SNAPSHOT + 2)),
    (&[(NODE + 6, Meta::Gone, 0, &[])], Some(SNAPSHOT + 2)),
    // The node 0, and nodes with the greatest number of a backup and with one more.
    (&[(NODE, Meta::File(1, 1, 1), 0, &[])], Some(NODE)),
    (
        &[
            (NODE + 6, Meta::Gone, 0, &[]),
            (SNAPSHOT + 2, Meta::Snapshot(200, 1, 9, 524_288), 0, &[]),
            (NODE + 524_288, Meta::Folder(2, 1, HOLDS_5), 0, &[]),
        ],
        None,
    ),
    (
        &[
            (NODE + 6, Meta::Gone, 0, &[]),
            (SNAPSHOT + 2, Meta::Snapshot(200, 1, 9, 524_289), 0, &[]),
            (NODE + 524_289, Meta::Folder(2, 1, HOLDS_5), 0, &[]),
        ],
        Some(NODE + 524_289),
    ),
    // Nodes that are none: nothing, kinds that there aren't, a byte less and more.
    (&[(NODE + 1, Meta::Plain(b""), 5, &[4])], Some(NODE + 1)),
    (
        &[(
            NODE + 1,
            Meta::Plain(
                b"\0\0\0\0\0\0\0\0\x01\0\0\0\0\0\0\0\x01\0\0\0\0\0\0\0\0\0\0\0\0\0\0\0\0\0\0\0\0\0\0\0\0\0\0\x01",
            ),
            5,
            &[4],
        )],
        Some(NODE + 1),
    ),
    (
        &[(
            NODE + 1,
            Meta::Plain(
                b"\x02\0\0\0\0\0\0\0\x01\0\0\0\0\0\0\0\x01\0\0\0\0\0\0\0\0\0\0\0\0\0\0\0\0\0\0\0\0\0\0\0\0\0\0\x01",
            ),
            5,
            &[4],
        )],
        None,
    ),
    (
        &[(
            NODE + 1,
            Meta::Plain(
                b"\x04\0\0\0\0\0\0\0\x01\0\0\0\0\0\0\0\x01\0\0\0\0\0\0\0\0\0\0\0\0\0\0\0\0\0\0\0\0\0\0\0\0\0\0\x01",
            ),
            5,
            &[4],
        )],
        Some(NODE + 1),
    ),
    (
        &[(
            NODE + 1,
            Meta::Plain(
                b"\x02\0\0\0\0\0\0\0\x01\0\0\0\0\0\0\0\x01\0\0\0\0\0\0\0\0\0\0\0\0\0\0\0\0\0\0\0\0\0\0\0\0\0\0\x01x",
            ),
            5,
            &[4],
        )],
        Some(NODE + 1),
    ),
    (
        &[(
            NODE + 1,
            Meta::Plain(
                b"\x02\0\0\0\0\0\0\0\x01\0\0\0\0\0\0\0\x01\0\0\0\0\0\0\0\0\0\0\0\0\0\0\0\0\0\0\0\0\0\0\0\0\0\0",
            ),
            5,
            &[4],
        )],
        Some(NODE + 1),
    ),
    // A mode of more than 12 bits, a date that is too late, and one that isn't.
    (
        &[(
            NODE + 1,
            Meta::Plain(
                b"\x02\0\0\0\0\0\0\0\x01\0\0\0\0\0\0\0\x01\x10\0\0\0\0\0\0\0\0\0\0\0\0\0\0\0\0\0\0\0\0\0\0\0\0\0\x01",
            ),
            5,
            &[4],
        )],
        Some(NODE + 1),
    ),
    (
        &[(
            NODE + 1,
            Meta::Plain(
                b"\x02\0\0\0\0\0\0\0\x01\0\0\0\0\0\0\0\x01\0\0\0\0\0\0\0\0\0\0\0\0\0\x3a\xff\xf4\x41\x80\0\0\0\0\0\0\0\0\x01",
            ),
            5,
            &[4],
        )],
        Some(NODE + 1),
    ),
    (
        &[(
            NODE + 1,
            Meta::Plain(
                b"\x02\0\0\0\0\0\0\0\x01\0\0\0\0\0\0\0\x01\0\0\0\0\0\0\0\0\0\0\0\0\0\x3a\xff\xf4\x41\x7f\0\0\0\0\0\0\0\0\x01",
            ),
            5,
            &[4],
        )],
        None,
    ),
    // Extra attributes `b` and `a`, in this order, twice `a`, and in the other order.
    (
        &[(
            NODE + 1,
            Meta::Plain(
                b"\x02\0\0\0\0\0\0\0\x01\0\0\0\0\0\0\0\x01\0\0\0\0\0\0\0\0\0\0\0\0\0\0\0\0\0\0\x02\x01b\0\0\x01a\0\0\0\0\0\0\0\0\0\x01",
            ),
            5,
            &[4],
        )],
        Some(NODE + 1),
    ),
    (
        &[(
            NODE + 1,
            Meta::Plain(
                b"\x02\0\0\0\0\0\0\0\x01\0\0\0\0\0\0\0\x01\0\0\0\0\0\0\0\0\0\0\0\0\0\0\0\0\0\0\x02\x01a\0\0\x01a\0\0\0\0\0\0\0\0\0\x01",
            ),
            5,
            &[4],
        )],
        Some(NODE + 1),
    ),
    (
        &[(
            NODE + 1,
            Meta::Plain(
                b"\x02\0\0\0\0\0\0\0\x01\0\0\0\0\0\0\0\x01\0\0\0\0\0\0\0\0\0\0\0\0\0\0\0\0\0\0\x02\x01a\0\0\x01b\0\0\0\0\0\0\0\0\0\x01",
            ),
            5,
            &[4],
        )],
        None,
    ),
    // A link without a target, with one that holds a zero, and one that is no text.
    (
        &[(
            NODE + 2,
            Meta::Link(1, 1, b"\0\0\0\0\0\0\0\x02\0\0"),
            0,
            &[],
        )],
        Some(NODE + 2),
    ),
    (
        &[(
            NODE + 2,
            Meta::Link(1, 1, b"\0\0\0\0\0\0\0\x02\0\x01\0"),
            0,
            &[],
        )],
        Some(NODE + 2),
    ),
    (
        &[(
            NODE + 2,
            Meta::Link(1, 1, b"\0\0\0\0\0\0\0\x02\0\x01\xff"),
            0,
            &[],
        )],
        Some(NODE + 2),
    ),
    // A folder that is no node names nothing, so what it held has no entry: the folder `a`, and the
    // second root, whose names don't rise, so that the snapshot has none.
    (&[(NODE + 3, Meta::Plain(b""), 0, &[])], Some(NODE + 2)),
    (
        &[
            (NODE + 2, Meta::Link(1, 2, TARGET), 0, &[]),
            (
                NODE + 3,
                Meta::Folder(
                    1,
                    2,
                    b"\0\0\0\x02\x01l\0\0\0\0\0\0\0\x02\x01l\0\0\0\0\0\0\0\x02",
                ),
                0,
                &[],
            ),
        ],
        Some(NODE + 2),
    ),
    (
        &[(
            NODE + 6,
            Meta::Folder(
                2,
                1,
                b"\0\0\0\x02\x01f\0\0\0\0\0\0\0\x05\x01a\0\0\0\0\0\0\0\x03",
            ),
            0,
            &[],
        )],
        Some(SNAPSHOT + 2),
    ),
    // An entry less than is said, and one more; an entry whose name is none.
    (
        &[(
            NODE + 6,
            Meta::Folder(
                2,
                1,
                b"\0\0\0\x03\x01a\0\0\0\0\0\0\0\x03\x01f\0\0\0\0\0\0\0\x05",
            ),
            0,
            &[],
        )],
        Some(SNAPSHOT + 2),
    ),
    (
        &[(
            NODE + 6,
            Meta::Folder(
                2,
                1,
                b"\0\0\0\x01\x01a\0\0\0\0\0\0\0\x03\x01f\0\0\0\0\0\0\0\x05",
            ),
            0,
            &[],
        )],
        Some(SNAPSHOT + 2),
    ),
    (
        &[(
            NODE + 6,
            Meta::Folder(
                2,
                1,
                b"\0\0\0\x02\x01.\0\0\0\0\0\0\0\x03\x01f\0\0\0\0\0\0\0\x05",
            ),
            0,
            &[],
        )],
        Some(SNAPSHOT + 2),
    ),
    // A folder and a link with data.
    (
        &[(NODE + 3, Meta::Folder(1, 2, HOLDS_L), 1, &[8])],
        Some(NODE + 3),
    ),
    (
        &[(NODE + 2, Meta::Link(1, 1, TARGET), 1, &[8])],
        Some(NODE + 2),
    ),
    // Labels of no backup and of one to come.
    (&[(NODE + 1, Meta::File(0, 1, 1), 5, &[4])], Some(NODE + 1)),
    (&[(NODE + 1, Meta::File(3, 1, 1), 5, &[4])], Some(NODE + 1)),
    // Two nodes with one label at one path.
    (&[(NODE + 1, Meta::File(2, 1, 1), 5, &[4])], Some(NODE + 5)),
    (
        &[(NODE + 5, Meta::File(1, 1, 2), 6000, &[6, 7])],
        Some(NODE + 5),
    ),
    // An entry that names no node, one that names its own folder, and one a greater node.
    (
        &[(
            NODE + 4,
            Meta::Folder(
                1,
                1,
                b"\0\0\0\x03\x01a\0\0\0\0\0\0\0\x03\x01f\0\0\0\0\0\0\0\x01\x01g\0\0\0\0\0\0\0\x09",
            ),
            0,
            &[],
        )],
        Some(NODE + 4),
    ),
    (
        &[(
            NODE + 4,
            Meta::Folder(
                1,
                2,
                b"\0\0\0\x03\x01a\0\0\0\0\0\0\0\x03\x01f\0\0\0\0\0\0\0\x01\x01g\0\0\0\0\0\0\0\x04",
            ),
            0,
            &[],
        )],
        Some(NODE + 4),
    ),
    (
        &[
            (
                NODE + 4,
                Meta::Folder(
                    1,
                    1,
                    b"\0\0\0\x03\x01a\0\0\0\0\0\0\0\x03\x01f\0\0\0\0\0\0\0\x01\x01g\0\0\0\0\0\0\0\x05",
                ),
                0,
                &[],
            ),
            (NODE + 5, Meta::File(2, 2, 2), 6000, &[6, 7]),
        ],
        Some(NODE + 4),
    ),
    (&[(NODE + 1, Meta::Gone, 0, &[])], Some(NODE + 4)),
    (&[(NODE + 2, Meta::Gone, 0, &[])], Some(NODE + 3)),
    // Links that are none, too many and too few, of files, folders and roots.
    (&[(NODE + 1, Meta::File(1, 0, 1), 5, &[4])], Some(NODE + 1)),
    (&[(NODE + 1, Meta::File(1, 2, 1), 5, &[4])], Some(NODE + 1)),
    (
        &[(NODE + 3, Meta::Folder(1, 1, HOLDS_L), 0, &[])],
        Some(NODE + 3),
    ),
    (
        &[(NODE + 4, Meta::Folder(1, 2, HOLDS_1), 0, &[])],
        Some(NODE + 4),
    ),
    (&[(SNAPSHOT + 1, Meta::Gone, 0, &[])], Some(NODE + 4)),
    (&[(SNAPSHOT + 2, Meta::Gone, 0, &[])], Some(NODE + 6)),
    // A node that nothing names, with a link and with none.
    (&[(NODE + 7, Meta::File(2, 1, 3), 0, &[])], Some(NODE + 7)),
    (&[(NODE + 7, Meta::File(2, 0, 3), 0, &[])], Some(NODE + 7)),
    // A file at two paths, of one snapshot and of two.
    (
        &[
            (NODE + 1, Meta::File(1, 2, 1), 5, &[4]),
            (
                NODE + 4,
                Meta::Folder(
                    1,
                    1,
                    b"\0\0\0\x03\x01a\0\0\0\0\0\0\0\x03\x01f\0\0\0\0\0\0\0\x01\x01g\0\0\0\0\0\0\0\x01",
                ),
                0,
                &[],
            ),
        ],
        Some(NODE + 1),
    ),
    (
        &[
            (NODE + 1, Meta::File(1, 2, 1), 5, &[4]),
            (
                NODE + 6,
                Meta::Folder(
                    2,
                    1,
                    b"\0\0\0\x03\x01a\0\0\0\0\0\0\0\x03\x01f\0\0\0\0\0\0\0\x05\x01g\0\0\0\0\0\0\0\x01",
                ),
                0,
                &[],
            ),
        ],
        Some(NODE + 1),
    ),
    // A file that both snapshots share keeps the rules.
    (
        &[
            (NODE + 1, Meta::File(1, 2, 1), 5, &[4]),
            (NODE + 5, Meta::Gone, 0, &[]),
            (NODE + 6, Meta::Folder(2, 1, HOLDS_1), 0, &[]),
        ],
        None,
    ),
    // A root that stands in another folder too: it and all beneath it stand at two paths.
    (
        &[
            (NODE + 4, Meta::Folder(1, 2, HOLDS_1), 0, &[]),
            (
                NODE + 6,
                Meta::Folder(
                    2,
                    1,
                    b"\0\0\0\x03\x01a\0\0\0\0\0\0\0\x03\x01f\0\0\0\0\0\0\0\x05\x01g\0\0\0\0\0\0\0\x04",
                ),
                0,
                &[],
            ),
        ],
        Some(NODE + 1),
    ),
    // A snapshot that breaks a bound counts as a link of its root all the same.
    (
        &[
            (SNAPSHOT + 3, Meta::Snapshot(300, 1, 9, 6), 0, &[]),
            (NODE + 6, Meta::Folder(2, 2, HOLDS_5), 0, &[]),
        ],
        Some(SNAPSHOT + 3),
    ),
    // A machine that is none comes before a snapshot that is.
    (
        &[
            (1, Meta::Plain(b""), 0, &[]),
            (SNAPSHOT + 1, Meta::Plain(b""), 0, &[]),
        ],
        Some(1),
    ),
    // Of two keys that break a rule the least.
    (
        &[
            (SNAPSHOT + 2, Meta::Plain(b""), 0, &[]),
            (NODE + 1, Meta::File(1, 0, 1), 5, &[4]),
        ],
        Some(SNAPSHOT + 2),
    ),
    (
        &[
            (NODE + 1, Meta::File(1, 2, 1), 5, &[4]),
            (NODE + 4, Meta::Folder(1, 2, HOLDS_1), 0, &[]),
        ],
        Some(NODE + 1),
    ),
];
