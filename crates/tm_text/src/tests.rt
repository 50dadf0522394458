//! Lines that are good and lines that are bad, from the rules by hand.
use crate::{Line, ParseError, StorePath, Stored, Which, parse};
use std::alloc::Global;
use std::process::Abort;
use std::test::Fail;

// How many lines a script has, or the number of its first bad line.
fn read(alloc: Global, script: &[u8]) -> Result<Result<usize, u64>, Fail> {
    match parse(alloc, script) {
        Ok(lines) => Ok(Ok(lines.as_slice().len())),
        Err(ParseError::BadLine(number)) => Ok(Err(number)),
        Err(ParseError::Memory) => Err(Fail::from("memory")),
    }
}

// `front`, and then `piece` so many times.
fn long(alloc: Global, front: &[u8], piece: &[u8], count: usize) -> Result<Vec<u8>, Fail> {
    let mut line = Vec::new(alloc);
    line.extend_from_slice(front)?;
    for _ in 0..count {
        line.extend_from_slice(piece)?;
    }
    Ok(line)
}

fn is_good(rt: &impl Abort, alloc: Global, line: &[u8]) -> Result<(), Fail> {
    assert!(rt; read(alloc, line)? == Ok(1), "{line:?}");
    Ok(())
}

fn is_bad(rt: &impl Abort, alloc: Global, script: &[u8], number: u64) -> Result<(), Fail> {
    assert!(rt; read(alloc, script)? == Err(number), "{script:?}");
    Ok(())
}

#[test]
fn good_lines(rt: HostRuntime) -> Result<(), Fail> {
    let alloc = rt.alloc();
    for line in [
        b"at 1970-01-01-000000".as_slice(),
        b"at 9999-12-31-235959\n",
        b"newvolume HD 6ba7b8109dad11d180b400c04fd430c8 1",
        b"newvolume %48%44 6BA7B810-9DAD-11D1-80B4-00C04FD430C8 65536",
        b"newvolume HD {6ba7b810-9dad-11d1-80b4-00c04fd430c8} 0001",
        b"newvolume HD urn:uuid:6ba7b810-9dad-11d1-80b4-00c04fd430c8 00000000000000000001",
        b"newstore Mac",
        b"mkdir /",
        b"  mkdir   //a//b%20c/  ",
        b"write /f %00",
        b"append /f 100%",
        b"fill /f 0 18446744073709551615",
        b"rm /a",
        b"rmdir /a",
        b"mv / /x",
        b"ln /l ../x",
        b"chmod /f 0",
        b"chmod /f 7777",
        b"chown /f 0 4294967295",
        b"setx /f color",
        b"setx /f color %FF",
        b"rmx /f color",
        b"ls /",
        b"cat /f",
        b"gen 0 18446744073709551615",
        b"tmutil startbackup",
        b"tmutil startbackup --block",
        b"advance 1",
        b"tmutil stopbackup",
        b"tmutil listbackups",
        b"tmutil latestbackup",
        b"tmutil machinedirectory",
        b"tmutil addexclusion /a",
        b"tmutil addexclusion -p /a",
        b"tmutil removeexclusion /a",
        b"tmutil removeexclusion -p /a",
        b"tmutil isexcluded /a",
        b"tmutil uniquesize /Backups.backupdb/Mac/Latest",
        b"tmutil uniquesize /Backups.backupdb/Mac/Latest/HD/a",
        b"tmutil delete /Backups.backupdb/Mac/2009-03-02-090000",
        b"tmutil restore /Backups.backupdb/Mac/Latest/HD / ",
        b"thin",
        b"fsevents since 0",
        b"fsevents uuid",
        b"fsevents drop",
        b"fsevents lose",
        b"store ls /Backups.backupdb",
        b"store ls //Backups%2Ebackupdb//Mac/",
        b"store ls /Backups.backupdb/Mac/2009-03-02-090000",
        b"store ls /Backups.backupdb/Mac/Latest/HD",
        b"store cat /Backups.backupdb/Mac/Latest/HD/a/b",
        b"store stat /Backups.backupdb/Mac/Latest/HD",
        b"store df",
    ] {
        is_good(&rt, alloc, line)?;
    }
    Ok(())
}

#[test]
fn good_long_lines(rt: HostRuntime) -> Result<(), Fail> {
    let alloc = rt.alloc();
    for (front, piece, count) in [
        (b"newstore ".as_slice(), b"a".as_slice(), 255),
        (b"newstore ", b"%41", 255),
        (b"ls ", b"/a", 64),
        (b"store cat /Backups.backupdb/M/Latest/HD", b"/a", 64),
        (b"ln /l ", b"t", 1023),
        (b"setx /f n ", b"%00", 4096),
    ] {
        is_good(&rt, alloc, &long(alloc, front, piece, count)?)?;
        is_bad(&rt, alloc, &long(alloc, front, piece, count + 1)?, 1)?;
    }
    Ok(())
}

#[test]
fn bad_lines(rt: HostRuntime) -> Result<(), Fail> {
    let alloc = rt.alloc();
    for (script, number) in [
        (b"at 2009-03-02-090000\nfrob".as_slice(), 2),
        (b"\n# a comment\n  \nls", 4),
        (b"ls /\nls\nls", 2),
        (b"ls\t/", 1),
        (b"thin\r\n", 1),
        (b"Thin", 1),
        (b"%74hin", 1),
        (b"thin now", 1),
        (b"at 2009-02-30-000000", 1),
        (b"at 2009%2D03-02-090000", 1),
        (b"at 1969-12-31-235959", 1),
        (b"newvolume HD 6ba7b810-9dad-11d1-80b4-00c04fd430c8 0", 1),
        (
            b"newvolume HD 6ba7b810-9dad-11d1-80b4-00c04fd430c8 65537",
            1,
        ),
        (b"newvolume HD 6ba7b810-9dad-11d1-80b4-00c04fd430c 1", 1),
        (b"newvolume HD {6ba7b8109dad11d180b400c04fd430c8} 1", 1),
        (b"newstore .", 1),
        (b"newstore a%2Fb", 1),
        (b"mkdir a", 1),
        (b"mkdir /a%2Fb", 1),
        (b"mkdir /%2E%2E", 1),
        (b"mkdir %2Fa", 1),
        (b"mkdir /%FF", 1),
        (b"mkdir /a /b", 1),
        (b"write /f", 1),
        (b"fill /f %31 0", 1),
        (b"fill /f +1 0", 1),
        (b"fill /f 18446744073709551616 0", 1),
        (b"fill /f 000000000000000000001 0", 1),
        (b"fill /f 0x1 0", 1),
        (b"ln /l %00", 1),
        (b"ln /l %FF", 1),
        (b"chmod /f 8", 1),
        (b"chmod /f 00755", 1),
        (b"chmod /f +7", 1),
        (b"chown /f 0 4294967296", 1),
        (b"chown /f 0", 1),
        (b"setx /f", 1),
        (b"setx /f n v w", 1),
        (b"advance 0", 1),
        (b"tmutil", 1),
        (b"tmutil startbackup -b", 1),
        (b"tmutil startbackup --block x", 1),
        (b"tmutil addexclusion -p", 1),
        (b"tmutil addexclusion /a -p", 1),
        (b"tmutil delete /Backups.backupdb/Mac/Latest/HD", 1),
        (b"tmutil restore /Backups.backupdb/Mac/Latest /", 1),
        (b"tmutil uniquesize /Backups.backupdb/Mac", 1),
        (b"fsevents", 1),
        (b"store ls /", 1),
        (b"store ls /backups.backupdb", 1),
        (b"store ls /Backups.backupdb/Mac/latest", 1),
        (b"store ls /Backups.backupdb/Mac/%4Catest", 1),
        (b"store cat /Backups.backupdb/Mac/Latest", 1),
        (b"store", 1),
    ] {
        is_bad(&rt, alloc, script, number)?;
    }
    Ok(())
}

#[test]
fn words_are_decoded(rt: HostRuntime) -> Result<(), Fail> {
    let alloc = rt.alloc();
    let script = b"newvolume H%44 urn:uuid:00000000-0000-0000-0000-000000000100 016
mkdir //a%20b//%25
append /f 100%25%zz
fill /f 7 8
chmod /f 0755
setx /f n
tmutil addexclusion -p /a
tmutil uniquesize /Backups.backupdb/My%20Mac/2009-03-02-090000
store ls /Backups.backupdb/Mac/Latest/HD/x";
    let lines = parse(alloc, script).map_err(|_| "parse")?;
    let lines = lines.as_slice();
    assert_eq!(rt; lines.len(), 9);
    assert!(rt;
        matches!(&lines[0], Line::NewVolume { name, id: 256, events: 16 } if name.as_bytes() == b"HD".as_slice())
    );
    assert!(rt;
        matches!(&lines[1], Line::Mkdir(path) if path.names().len() == 2
        && path.names()[0].as_bytes() == b"a b".as_slice() && path.names()[1].as_bytes() == b"%".as_slice())
    );
    assert!(rt;
        matches!(&lines[2], Line::Append { text, .. } if text.as_slice() == b"100%%zz".as_slice())
    );
    assert!(rt;
        matches!(
            &lines[3],
            Line::Fill {
                length: 7,
                seed: 8,
                ..
            }
        )
    );
    assert!(rt; matches!(&lines[4], Line::Chmod { mode: 0o755, .. }));
    assert!(rt; matches!(&lines[5], Line::Setx { value, .. } if value.as_slice().is_empty()));
    assert!(rt; matches!(&lines[6], Line::AddFixedExclusion(_)));
    assert!(rt;
        matches!(&lines[7], Line::UniqueSize(Stored::Snapshot(snapshot))
        if snapshot.machine.as_bytes() == b"My Mac".as_slice()
        && matches!(&snapshot.at, Which::At(date) if date.seconds() == 1_235_984_400))
    );
    assert!(rt;
        matches!(&lines[8], Line::StoreLs(StorePath::Item(item))
        if matches!(&item.snapshot.at, Which::Latest) && item.path.names().len() == 1)
    );
    Ok(())
}

#[test]
fn a_script_of_a_mebibyte(rt: HostRuntime) -> Result<(), Fail> {
    let alloc = rt.alloc();
    let lines = long(alloc, b"", b"ls /a/b\n", 131_072)?;
    assert_eq!(rt; lines.len(), 1_048_576);
    assert_eq!(rt; read(alloc, &lines)?, Ok(131_072));
    let word = long(alloc, b"write /f ", b"x", 1_048_567)?;
    assert_eq!(rt; read(alloc, &word)?, Ok(1));
    let blanks = long(alloc, b"#", b" \n", 524_287)?;
    assert_eq!(rt; read(alloc, &blanks)?, Ok(0));
    Ok(())
}

#[test]
fn skipped_lines_are_no_lines(rt: HostRuntime) -> Result<(), Fail> {
    let alloc = rt.alloc();
    for (script, count) in [
        (b"".as_slice(), 0),
        (b"\n", 0),
        (b"#", 0),
        (b"  # mkdir\n\nthin\n#", 1),
        (b"thin\n\n  thin", 2),
    ] {
        assert_eq!(rt; read(alloc, script)?, Ok(count));
    }
    Ok(())
}
