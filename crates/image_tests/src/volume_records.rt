//! A volume that keeps every rule, and records that break one (`docs/FORMATS.md`, "Records of a volume").
use tm_testing::{HEAD_KEY, ITEM, Meta, Record};

/// The id 1, the capacity 1 and the name `HD`.
const HEAD: Meta<'static> = Meta::Plain(b"\0\0\0\0\0\0\0\0\0\0\0\0\0\0\0\x01\0\0\0\x01\x02HD");

/// An empty meta.
pub(crate) const EMPTY: Meta<'static> = Meta::Plain(b"");

/// The root, the folder `a` in it, and the folder `b` in that.
const ROOT: Meta<'static> = Meta::Item(b"\x01\0\0\0\0\0", b"");

const FOLDER: Meta<'static> = Meta::Item(b"\x01\0\0\0\x01\x01a", b"");

const DEEPER: Meta<'static> = Meta::Item(b"\x01\0\0\0\x02\x01b", b"");

/// The file `f` and the link `l` in the root.
pub(crate) const FILE: Meta<'static> = Meta::Item(b"\x02\0\0\0\x01\x01f", b"\0\0\0\0\0\0\0\x01");

const LINK: Meta<'static> = Meta::Item(b"\x03\0\0\0\x01\x01l", b"\0\0\0\0\0\0\0\x02\0\x01f");

/// The records of a volume that keep every rule. Its next number is 16.
pub(crate) const GOOD: [Record<'static>; 6] = [
    (HEAD_KEY, HEAD, 0, &[]),
    (ITEM + 1, ROOT, 0, &[]),
    (ITEM + 2, FOLDER, 0, &[]),
    (ITEM + 3, DEEPER, 0, &[]),
    (ITEM + 4, FILE, 0, &[]),
    (ITEM + 5, LINK, 0, &[]),
];

/// A record that is put into the good volume, with its data, and the key that then breaks a rule.
pub(crate) const PUTS: [(u64, Meta<'static>, &[u8], u64); 37] = [
    // Keys that no record of a volume has.
    (0, EMPTY, b"", 0),
    (3, EMPTY, b"", 3),
    (ITEM, FOLDER, b"", ITEM),
    (ITEM + 65_537, FOLDER, b"", ITEM + 65_537),
    // A head that is none, one whose capacity is 0 or too high, and fixed paths that are none, or the root.
    (1, EMPTY, b"", 1),
    (
        1,
        Meta::Plain(b"\0\0\0\0\0\0\0\0\0\0\0\0\0\0\0\x01\0\0\0\0\x02HD"),
        b"",
        1,
    ),
    (
        1,
        Meta::Plain(b"\0\0\0\0\0\0\0\0\0\0\0\0\0\0\0\x01\0\x01\0\x01\x02HD"),
        b"",
        1,
    ),
    (1, HEAD, b"\xff", 1),
    (1, HEAD, b"\0", 1),
    // A journal with a meta.
    (2, Meta::Plain(b"x"), b"", 2),
    // A folder that is none, with no name, under no item, under a file, beneath itself, and with data.
    (ITEM + 2, EMPTY, b"", ITEM + 2),
    (
        ITEM + 2,
        Meta::Item(b"\x04\0\0\0\x01\x01a", b""),
        b"",
        ITEM + 2,
    ),
    (
        ITEM + 2,
        Meta::Item(b"\x01\0\0\0\x01\0", b""),
        b"",
        ITEM + 2,
    ),
    (
        ITEM + 2,
        Meta::Item(b"\x01\0\0\0\0\x01a", b""),
        b"",
        ITEM + 2,
    ),
    (
        ITEM + 2,
        Meta::Item(b"\x01\0\0\0\x07\x01a", b""),
        b"",
        ITEM + 2,
    ),
    (
        ITEM + 2,
        Meta::Item(b"\x01\0\0\0\x04\x01a", b""),
        b"",
        ITEM + 2,
    ),
    (
        ITEM + 2,
        Meta::Item(b"\x01\0\0\0\x02\x01a", b""),
        b"",
        ITEM + 2,
    ),
    (
        ITEM + 2,
        Meta::Item(b"\x01\0\0\0\x03\x01a", b""),
        b"",
        ITEM + 2,
    ),
    (ITEM + 2, FOLDER, b"x", ITEM + 2),
    // A second item of one name in one folder, and a folder that is none any more.
    (
        ITEM + 5,
        Meta::Item(b"\x01\0\0\0\x01\x01f", b""),
        b"",
        ITEM + 5,
    ),
    (
        ITEM + 2,
        Meta::Item(b"\x02\0\0\0\x01\x01a", b"\0\0\0\0\0\0\0\x01"),
        b"",
        ITEM + 3,
    ),
    // A root with a parent, with a name, with the exclusion attribute, with data, and one that is a file.
    (
        ITEM + 1,
        Meta::Item(b"\x01\0\0\0\x01\0", b""),
        b"",
        ITEM + 1,
    ),
    (
        ITEM + 1,
        Meta::Item(b"\x01\0\0\0\0\x01a", b""),
        b"",
        ITEM + 1,
    ),
    (
        ITEM + 1,
        Meta::Plain(
            b"\x01\0\0\0\0\0\0\0\0\0\0\0\0\0\0\0\0\0\0\0\0\0\0\0\x01\x2fcom.apple.metadata:com_apple_backup_excludeItem\0\0",
        ),
        b"",
        ITEM + 1,
    ),
    (ITEM + 1, Meta::Item(b"\x01\0\0\0\0\0", b""), b"x", ITEM + 1),
    (
        ITEM + 1,
        Meta::Item(b"\x02\0\0\0\0\0", b"\0\0\0\0\0\0\0\x01"),
        b"",
        ITEM + 1,
    ),
    // A file and a link whose stamp is 0 or was not drawn yet.
    (
        ITEM + 4,
        Meta::Item(b"\x02\0\0\0\x01\x01f", b"\0\0\0\0\0\0\0\0"),
        b"",
        ITEM + 4,
    ),
    (
        ITEM + 4,
        Meta::Item(b"\x02\0\0\0\x01\x01f", b"\0\0\0\0\0\0\0\x10"),
        b"",
        ITEM + 4,
    ),
    (
        ITEM + 5,
        Meta::Item(b"\x03\0\0\0\x01\x01l", b"\0\0\0\0\0\0\0\0\0\x01f"),
        b"",
        ITEM + 5,
    ),
    (
        ITEM + 5,
        Meta::Item(b"\x03\0\0\0\x01\x01l", b"\0\0\0\0\0\0\0\x10\0\x01f"),
        b"",
        ITEM + 5,
    ),
    // A link with data, without a target, and with a byte too many; names that no item has.
    (
        ITEM + 5,
        Meta::Item(b"\x03\0\0\0\x01\x01l", b"\0\0\0\0\0\0\0\x02\0\x01f"),
        b"x",
        ITEM + 5,
    ),
    (
        ITEM + 5,
        Meta::Item(b"\x03\0\0\0\x01\x01l", b"\0\0\0\0\0\0\0\x02\0\0"),
        b"",
        ITEM + 5,
    ),
    (
        ITEM + 5,
        Meta::Item(b"\x03\0\0\0\x01\x01l", b"\0\0\0\0\0\0\0\x02\0\x01fx"),
        b"",
        ITEM + 5,
    ),
    (
        ITEM + 2,
        Meta::Item(b"\x01\0\0\0\x01\x01/", b""),
        b"",
        ITEM + 2,
    ),
    (
        ITEM + 2,
        Meta::Item(b"\x01\0\0\0\x01\x02..", b""),
        b"",
        ITEM + 2,
    ),
    // A second folder `a`, and of two keys that break a rule the least.
    (ITEM + 6, FOLDER, b"", ITEM + 6),
    (
        ITEM + 2,
        Meta::Item(b"\x02\0\0\0\x01\x01f", b"\0\0\0\0\0\0\0\x01"),
        b"",
        ITEM + 3,
    ),
];

/// A journal of these rows, where the volume was closed cleanly, and the key that then breaks a rule.
pub(crate) const ROWS: [(&[u8], Option<u64>); 8] = [
    (b"", None),
    (b"\0\0\0\0\0\0\0\x0f\0\0", None),
    // No rows, and a row without its path.
    (b"x", Some(2)),
    (b"\0\0\0\0\0\0\0\x0f\0", Some(2)),
    (b"\0\0\0\0\0\0\0\x0f\x02\0", Some(2)),
    // A row more than the capacity, and ids that were not drawn.
    (b"\0\0\0\0\0\0\0\x01\0\0\0\0\0\0\0\0\0\x02\0\0", Some(2)),
    (b"\0\0\0\0\0\0\0\0\0\0", Some(2)),
    (b"\0\0\0\0\0\0\0\x10\0\0", Some(2)),
];

/// A key that is taken out of the good volume, and the key that then breaks a rule.
pub(crate) const TAKEN: [(u64, u64); 3] = [(1, 1), (ITEM + 1, ITEM + 1), (ITEM + 2, ITEM + 3)];
