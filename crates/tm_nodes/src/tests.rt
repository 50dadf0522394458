//! Records written by hand.
use super::*;
use std::test::Fail;
use tm_tree::{ItemBody, LeafRow, NodeBody};

#[test]
fn items(rt: HostRuntime) -> Result<(), Fail> {
    let root = b"\x01\x00\x00\x00\x00\x00\
\x01\xed\x00\x00\x01\xf5\x00\x00\x00\x14\x00\x00\x00\x00\x3b\x9a\xca\x00\x00";
    let row = read_item(rt.alloc(), 7, root, 9)?;
    assert_eq!(rt; row.parent, 0);
    assert!(rt; row.name.is_none());
    assert!(rt;
        matches!(&row.body, ItemBody::Folder { attrs } if attrs.mode == 0o755 && attrs.uid == 501)
    );
    assert_eq!(rt; item_meta(rt.alloc(), &row)?.as_slice(), &root[..]);
    assert_eq!(rt; kind_of(root), Some(Kind::Folder));

    let file = b"\x02\x00\x00\x00\x01\x05a.txt\
\x01\xa4\x00\x00\x01\xf5\x00\x00\x00\x14\x00\x00\x00\x00\x3b\x9a\xca\x00\x02\
\x01a\x00\x00\x01b\x00\x02xy\x00\x00\x00\x00\x00\x00\x01\x02";
    let row = read_item(rt.alloc(), 7, file, 9)?;
    assert_eq!(rt; row.parent, 1);
    assert!(rt; matches!(&row.name, Some(name) if name.as_bytes() == b"a.txt".as_slice()));
    match &row.body {
        ItemBody::Leaf(
            LeafRow::File {
                attrs,
                stamp,
                length,
            },
        ) => {
            assert_eq!(rt; attrs.mode, 0o644);
            assert_eq!(rt; attrs.gid, 20);
            assert_eq!(rt; attrs.modified.seconds(), 1_000_000_000);
            assert_eq!(rt; attrs.extra.len(), 2);
            assert_eq!(rt; *stamp, 258);
            assert_eq!(rt; *length, 9);
        }
        _ => return Err("no file".into()),
    }
    assert_eq!(rt; item_meta(rt.alloc(), &row)?.as_slice(), &file[..]);
    assert_eq!(rt; kind_of(file), Some(Kind::File));
    assert_eq!(rt; parent_of(file), Some(1));

    let link = b"\x03\x00\x00\x01\x02\x01l\
\x00\x00\x00\x00\x00\x00\x00\x00\x00\x00\x00\x00\x00\x00\x00\x00\x00\x00\x00\
\x00\x00\x00\x00\x00\x00\x00\x05\x00\x02/x";
    let row = read_item(rt.alloc(), 7, link, 9)?;
    assert!(rt;
        matches!(&row.body, ItemBody::Leaf(LeafRow::Link { stamp: 5, target, .. }) if target.as_slice() == b"/x".as_slice())
    );
    assert_eq!(rt; kind_of(link), Some(Kind::Link));
    assert_eq!(rt; parent_of(link), Some(258));
    assert_eq!(rt;
        read_item(rt.alloc(), 7, &link[..30], 9).err(),
        Some(NodeError::BadNode(7))
    );
    Ok(())
}

#[test]
fn no_items(rt: HostRuntime) {
    // A link without extras, but for its mode, its extras and its target.
    for (meta, what) in [
        (
            b"\x03\x00\x00\x00\x01\x01l\x10\x00\x00\x00\x00\x00\x00\x00\x00\x00\x00\x00\x00\x00\x00\x00\x00\x00\x00\
\x00\x00\x00\x00\x00\x00\x00\x05\x00\x02/x"
                .as_slice(),
            "the mode 4096",
        ),
        (
            b"\x03\x00\x00\x00\x01\x01l\x00\x00\x00\x00\x00\x00\x00\x00\x00\x00\x00\x00\x00\x00\x00\x00\x00\x00\x02\
\x01b\x00\x00\x01a\x00\x00\x00\x00\x00\x00\x00\x00\x00\x05\x00\x02/x"
                .as_slice(),
            "extras that fall",
        ),
        (
            b"\x03\x00\x00\x00\x01\x01l\x00\x00\x00\x00\x00\x00\x00\x00\x00\x00\x00\x00\x00\x00\x00\x00\x00\x00\x00\
\x00\x00\x00\x00\x00\x00\x00\x05\x00\x02/\x00"
                .as_slice(),
            "a target with NUL",
        ),
        (
            b"\x03\x00\x00\x00\x01\x01l\x00\x00\x00\x00\x00\x00\x00\x00\x00\x00\x00\x00\x00\x00\x00\x00\x00\x00\x00\
\x00\x00\x00\x00\x00\x00\x00\x05\x00\x02/xy"
                .as_slice(),
            "a byte left over",
        ),
        (
            b"\x04\x00\x00\x00\x01\x01l\x00\x00\x00\x00\x00\x00\x00\x00\x00\x00\x00\x00\x00\x00\x00\x00\x00\x00\x00\
\x00\x00\x00\x00\x00\x00\x00\x05\x00\x02/x"
                .as_slice(),
            "the kind 4",
        ),
    ] {
        assert_eq!(rt;
            read_item(rt.alloc(), 7, meta, 0).err(),
            Some(NodeError::BadNode(7)),
            "{what}"
        );
    }
}

#[test]
fn nodes(rt: HostRuntime) -> Result<(), Fail> {
    let folder = b"\x01\x00\x00\x00\x00\x00\x00\x00\x03\x00\x00\x00\x00\x00\x00\x00\x02\
\x01\xed\x00\x00\x01\xf5\x00\x00\x00\x14\x00\x00\x00\x00\x3b\x9a\xca\x00\x00\
\x00\x00\x00\x02\x01a\x00\x00\x00\x00\x00\x00\x00\x07\x02bc\x00\x00\x00\x00\x00\x00\x01\x00";
    let row = read_node(rt.alloc(), 8, folder, 0)?;
    assert_eq!(rt; row.label, 3);
    assert_eq!(rt; row.links, 2);
    match &row.body {
        NodeBody::Folder { entries, .. } => {
            let entries = entries.as_slice();
            assert_eq!(rt; entries.len(), 2);
            assert!(rt;
                entries.iter().any(|child| child.name.as_bytes() == b"bc".as_slice()
                    && child.node.0 == 256)
            );
        }
        _ => return Err("no folder".into()),
    }
    assert_eq!(rt; node_meta(rt.alloc(), &row)?.as_slice(), &folder[..]);
    assert_eq!(rt; kind_of(folder), Some(Kind::Folder));

    let file = b"\x02\x00\x00\x00\x00\x00\x00\x00\x03\x00\x00\x00\x00\x00\x00\x00\x01\
\x01\xed\x00\x00\x01\xf5\x00\x00\x00\x14\x00\x00\x00\x00\x3b\x9a\xca\x00\x00\
\x00\x00\x00\x00\x00\x00\x00\x0a";
    let row = read_node(rt.alloc(), 8, file, 4096)?;
    assert!(rt;
        matches!(
            &row.body,
            NodeBody::Leaf(LeafRow::File {
                stamp: 10,
                length: 4096,
                ..
            })
        )
    );
    assert_eq!(rt;
        read_node(rt.alloc(), 8, &file[1..], 0).err(),
        Some(NodeError::BadNode(8))
    );
    Ok(())
}

#[test]
fn heads(rt: HostRuntime) -> Result<(), Fail> {
    let volume =
        b"\x6b\xa7\xb8\x10\x9d\xad\x11\xd1\x80\xb4\x00\xc0\x4f\xd4\x30\xc8\x00\x01\x00\x00\x02HD";
    let head = read_volume(rt.alloc(), volume)?;
    assert_eq!(rt; head.id, 0x6ba7_b810_9dad_11d1_80b4_00c0_4fd4_30c8);
    assert_eq!(rt; head.capacity, 65_536);
    assert_eq!(rt; head.name.as_bytes(), b"HD".as_slice());
    assert_eq!(rt; volume_meta(rt.alloc(), &head)?.as_slice(), &volume[..]);
    assert_eq!(rt;
        read_volume(rt.alloc(), &volume[..22]).err(),
        Some(NodeError::BadNode(1))
    );

    let machine = read_machine(rt.alloc(), b"\x04iMac")?;
    assert_eq!(rt; machine.as_bytes(), b"iMac".as_slice());
    assert_eq!(rt;
        machine_meta(rt.alloc(), &machine)?.as_slice(),
        b"\x04iMac".as_slice()
    );
    assert_eq!(rt;
        read_machine(rt.alloc(), b"\x01/").err(),
        Some(NodeError::BadNode(1))
    );

    let snapshot = b"\x00\x00\x00\x00\x3b\x9a\xca\x00\
\x6b\xa7\xb8\x10\x9d\xad\x11\xd1\x80\xb4\x00\xc0\x4f\xd4\x30\xc8\
\x00\x00\x00\x00\x00\x00\x00\x02\x00\x00\x00\x00\x00\x00\x01\x00\x02HD\x00\x00\x00\x00\x00\x00\x00\x05";
    let row = read_snapshot(rt.alloc(), 9, snapshot)?;
    assert_eq!(rt; row.date.seconds(), 1_000_000_000);
    assert_eq!(rt; row.mark.generation, 2);
    assert_eq!(rt; row.mark.cursor, 256);
    assert_eq!(rt; row.root.0, 5);
    assert_eq!(rt; snapshot_meta(rt.alloc(), &row)?.as_slice(), &snapshot[..]);
    assert_eq!(rt;
        read_snapshot(rt.alloc(), 9, b"").err(),
        Some(NodeError::BadNode(9))
    );
    Ok(())
}

#[test]
fn lists(rt: HostRuntime) -> Result<(), Fail> {
    let fixed = b"\x01\x01a\x02\x01a\x01b";
    let paths = read_paths(rt.alloc(), fixed)?;
    assert_eq!(rt; paths.as_slice().len(), 2);
    assert_eq!(rt; paths_data(rt.alloc(), &paths)?.as_slice(), &fixed[..]);
    assert_eq!(rt; read_paths(rt.alloc(), b"")?.as_slice().len(), 0);
    assert_eq!(rt;
        read_paths(rt.alloc(), b"\x00").err(),
        Some(NodeError::BadNode(1))
    );
    assert_eq!(rt;
        read_paths(rt.alloc(), b"\x01\x01b\x01\x01a").err(),
        Some(NodeError::BadNode(1))
    );

    let journal =
        b"\x00\x00\x00\x00\x00\x00\x00\x04\x00\x00\x00\x00\x00\x00\x00\x00\x01\x01\x05\x01\x01a";
    let rows = read_rows(rt.alloc(), journal)?;
    assert_eq!(rt; rows.as_slice().len(), 2);
    assert!(rt;
        rows.as_slice().iter().any(|row| row.id == 257 && row.flags == 5 && !row.path.is_root())
    );
    assert_eq!(rt; rows_data(rt.alloc(), &rows)?.as_slice(), &journal[..]);
    assert_eq!(rt;
        read_rows(rt.alloc(), b"\x00\x00\x00\x00\x00\x00\x00\x04\x02\x00").err(),
        Some(NodeError::BadNode(2))
    );
    Ok(())
}
