//! The text of every reply form, from the rules by hand.
use crate::{Attributes, Kind, ListedName, Reply, ReplyRow, ReplyRows, print};
use std::alloc::Global;
use std::process::Abort;
use std::test::Fail;
use tm_base::{Moment, Name, Path, Refused};
use tm_world::Bytes;

fn bytes(alloc: Global, bytes: &[u8]) -> Result<Bytes, Fail> {
    Ok(Bytes::of(bytes.to_vec(alloc)?))
}

fn path(alloc: Global, names: &[&[u8]]) -> Result<Path, Fail> {
    let mut path = Path::root(alloc);
    for name in names {
        path = path.child(&Name::read(alloc, name)?)?;
    }
    Ok(path)
}

fn date(text: &[u8]) -> Result<Moment, Fail> {
    Ok(Moment::read(text)?)
}

fn attributes(mode: u16, extras: u64) -> Result<Attributes, Fail> {
    Ok(Attributes {
        mode,
        uid: 501,
        gid: 20,
        modified: date(b"2009-03-02-090000")?,
        extras,
    })
}

// The reply of this one row is this text and `ok`.
fn row_is(rt: &impl Abort, alloc: Global, row: ReplyRow, text: &[u8]) -> Result<(), Fail> {
    let mut rows = ReplyRows::new(alloc);
    rows.push(row)?;
    let reply = Reply {
        rows,
        refused: None,
    };
    let printed = print(alloc, &reply)?;
    let wanted = [text, b"\nok\n"].concat(alloc)?;
    assert_eq!(rt; printed.as_slice(), wanted.as_slice());
    Ok(())
}

#[test]
fn listed_items(rt: HostRuntime) -> Result<(), Fail> {
    let alloc = rt.alloc();
    let name = ListedName::Path(Path::root(alloc));
    let row = ReplyRow::Folder {
        attributes: attributes(0o755, 2)?,
        name,
    };
    row_is(&rt, alloc, row, b"folder 755 501 20 2009-03-02-090000 2 /")?;
    let name = ListedName::Entry(Name::read(alloc, b"a b%\x7f")?);
    let row = ReplyRow::File {
        attributes: attributes(0, 0)?,
        length: 16_777_216,
        stamp: 7,
        name,
    };
    row_is(
        &rt,
        alloc,
        row,
        b"file 0 501 20 2009-03-02-090000 0 16777216 7 a%20b%25%7F",
    )?;
    let name = ListedName::Path(path(alloc, &[b"a", b"~\xC3\xAB"])?);
    let row = ReplyRow::Link {
        attributes: attributes(0o7777, 16)?,
        stamp: 18_446_744_073_709_551_615,
        name,
        target: bytes(alloc, b"../x y")?,
    };
    row_is(
        &rt,
        alloc,
        row,
        b"link 7777 501 20 2009-03-02-090000 16 18446744073709551615 /a/~%C3%AB ../x%20y",
    )?;
    let row = ReplyRow::Extra {
        name: Name::read(alloc, b"color")?,
        value: bytes(alloc, b"\0\x1f\x20\x21\xff")?,
    };
    row_is(&rt, alloc, row, b"extra color %00%1F%20!%FF")?;
    let row = ReplyRow::Extra {
        name: Name::read(alloc, b"color")?,
        value: bytes(alloc, b"")?,
    };
    row_is(&rt, alloc, row, b"extra color")
}

#[test]
fn contents_and_places(rt: HostRuntime) -> Result<(), Fail> {
    let alloc = rt.alloc();
    row_is(
        &rt,
        alloc,
        ReplyRow::Contents(bytes(alloc, b"")?),
        b"bytes 0",
    )?;
    row_is(
        &rt,
        alloc,
        ReplyRow::Contents(bytes(alloc, b"a\nb")?),
        b"bytes 3 a%0Ab",
    )?;
    row_is(
        &rt,
        alloc,
        ReplyRow::Target(bytes(alloc, b"/x")?),
        b"target /x",
    )?;
    row_is(
        &rt,
        alloc,
        ReplyRow::Excluded(path(alloc, &[b"c", b"x"])?),
        b"[Excluded] /c/x",
    )?;
    row_is(
        &rt,
        alloc,
        ReplyRow::Included(Path::root(alloc)),
        b"[Included] /",
    )?;
    let row = ReplyRow::Event {
        id: 9,
        flags: 3,
        path: path(alloc, &[b"b"])?,
    };
    row_is(&rt, alloc, row, b"event 9 3 /b")?;
    row_is(
        &rt,
        alloc,
        ReplyRow::Uuid(0x6ba7b810_9dad_11d1_80b4_00c04fd430ca),
        b"uuid 6ba7b810-9dad-11d1-80b4-00c04fd430ca",
    )?;
    let row = ReplyRow::Volume {
        name: Name::read(alloc, b"HD")?,
        id: 1,
    };
    row_is(
        &rt,
        alloc,
        row,
        b"volume HD 00000000-0000-0000-0000-000000000001",
    )
}

#[test]
fn snapshots(rt: HostRuntime) -> Result<(), Fail> {
    let alloc = rt.alloc();
    let mac = Name::read(alloc, b"My Mac")?;
    let date = date(b"2009-03-02-090000")?;
    row_is(
        &rt,
        alloc,
        ReplyRow::Machine(mac.clone()?),
        b"machine My%20Mac",
    )?;
    row_is(
        &rt,
        alloc,
        ReplyRow::MachineDirectory(mac.clone()?),
        b"/Backups.backupdb/My%20Mac",
    )?;
    let row = ReplyRow::SnapshotPath {
        machine: mac.clone()?,
        date,
    };
    row_is(
        &rt,
        alloc,
        row,
        b"/Backups.backupdb/My%20Mac/2009-03-02-090000",
    )?;
    let row = ReplyRow::Removed { machine: mac, date };
    row_is(
        &rt,
        alloc,
        row,
        b"removed /Backups.backupdb/My%20Mac/2009-03-02-090000",
    )?;
    row_is(
        &rt,
        alloc,
        ReplyRow::Snapshot(date),
        b"snapshot 2009-03-02-090000",
    )?;
    row_is(
        &rt,
        alloc,
        ReplyRow::InProgress(date),
        b"running 2009-03-02-090000.inProgress",
    )?;
    row_is(
        &rt,
        alloc,
        ReplyRow::Latest(date),
        b"latest 2009-03-02-090000",
    )?;
    row_is(&rt, alloc, ReplyRow::Running { left: 0 }, b"running 0")?;
    let row = ReplyRow::Finished { date, walked: 12 };
    row_is(&rt, alloc, row, b"finished 2009-03-02-090000 walked 12")
}

#[test]
fn counts(rt: HostRuntime) -> Result<(), Fail> {
    let alloc = rt.alloc();
    let row = ReplyRow::Generated {
        files: 10,
        folders: 21,
        bytes: 1665,
    };
    row_is(&rt, alloc, row, b"gen files 10 folders 21 bytes 1665")?;
    row_is(&rt, alloc, ReplyRow::Unique { bytes: 5 }, b"unique 5")?;
    for (kind, text) in [
        (Kind::Folder, b"stat folder label 1 links 2".as_slice()),
        (Kind::File, b"stat file label 1 links 2"),
        (Kind::Link, b"stat link label 1 links 2"),
    ] {
        let row = ReplyRow::Stat {
            kind,
            label: 1,
            links: 2,
        };
        row_is(&rt, alloc, row, text)?;
    }
    let row = ReplyRow::Df {
        blocks: 64,
        free: 57,
        nodes: 11,
        stored: 12,
        snapshots: 2,
    };
    row_is(
        &rt,
        alloc,
        row,
        b"df blocks 64 free 57 nodes 11 stored 12 snapshots 2",
    )
}

#[test]
fn closing_lines(rt: HostRuntime) -> Result<(), Fail> {
    let alloc = rt.alloc();
    let date = date(b"2009-03-02-090000")?;
    let count = 18_446_744_073_709_551_727;
    for (refused, text) in [
        (None, "ok\n"),
        (Some(Refused::NoVolume), "refused 1 NoVolume\n"),
        (Some(Refused::NoStore), "refused 2 NoStore\n"),
        (Some(Refused::Already), "refused 3 Already\n"),
        (Some(Refused::Small), "refused 4 Small\n"),
        (Some(Refused::NotFound), "refused 5 NotFound\n"),
        (Some(Refused::Exists), "refused 6 Exists\n"),
        (Some(Refused::NotFolder), "refused 7 NotFolder\n"),
        (Some(Refused::IsFolder), "refused 8 IsFolder\n"),
        (Some(Refused::NotEmpty), "refused 9 NotEmpty\n"),
        (Some(Refused::IntoSelf), "refused 10 IntoSelf\n"),
        (Some(Refused::TooDeep), "refused 11 TooDeep\n"),
        (
            Some(Refused::TooLong { length: 16_777_217 }),
            "refused 12 TooLong 16777217\n",
        ),
        (
            Some(Refused::TooMany { count }),
            "refused 13 TooMany 18446744073709551727\n",
        ),
        (Some(Refused::RootItem), "refused 14 RootItem\n"),
        (
            Some(Refused::Full { need: 12, free: 7 }),
            "refused 15 Full 12 7\n",
        ),
        (
            Some(Refused::Busy { date }),
            "refused 16 Busy 2009-03-02-090000\n",
        ),
        (Some(Refused::NoBackup), "refused 17 NoBackup\n"),
        (
            Some(Refused::DateNotLater { date }),
            "refused 18 DateNotLater 2009-03-02-090000\n",
        ),
        (Some(Refused::NoMoment), "refused 19 NoMoment\n"),
        (
            Some(Refused::ClockBack { date }),
            "refused 20 ClockBack 2009-03-02-090000\n",
        ),
        (Some(Refused::NoSnapshot), "refused 21 NoSnapshot\n"),
        (Some(Refused::NotExcluded), "refused 22 NotExcluded\n"),
        (Some(Refused::NoAttribute), "refused 24 NoAttribute\n"),
        (Some(Refused::IdsSpent), "refused 25 IdsSpent\n"),
        (Some(Refused::IdTaken), "refused 26 IdTaken\n"),
        (Some(Refused::NotBuilt), "refused 27 NotBuilt\n"),
    ] {
        let reply = Reply {
            rows: ReplyRows::new(alloc),
            refused,
        };
        assert!(rt;
            print(alloc, &reply)?.as_slice() == text.as_bytes(),
            "{text}"
        );
    }
    Ok(())
}
