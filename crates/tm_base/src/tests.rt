//! What no clause says: that the calls succeed, and dates and names from outside.
use crate::{Moment, Name, NameError, Path, PathError, Refused};
use std::test::Fail;

#[test]
fn names_are_read(rt: HostRuntime) -> Result<(), Fail> {
    let alloc = rt.alloc();
    let long = [b'a'; 255];
    let longer = [b'a'; 256];
    for good in [b"a".as_slice(), b"Zo\xC3\xAB K", b"...", b"a b%", &long] {
        let name = Name::read(alloc, good)?;
        assert!(rt; name.as_bytes() == good);
        assert!(rt; name == name.clone()?);
    }
    for bad in [
        b"".as_slice(),
        b".",
        b"..",
        b"a/b",
        b"a\0",
        b"\xFF",
        &longer,
    ] {
        assert!(rt; matches!(Name::read(alloc, bad), Err(NameError::BadName)));
    }
    Ok(())
}

#[test]
fn moments_are_seconds(rt: HostRuntime) -> Result<(), Fail> {
    let alloc = rt.alloc();
    // The seconds are those of `date -u -d DATE +%s`.
    for (text, seconds) in [
        ("1970-01-01-000000", 0),
        ("2000-02-29-235959", 951_868_799),
        ("2009-03-02-090000", 1_235_984_400),
        ("9999-12-31-235959", 253_402_300_799),
    ] {
        let moment = Moment::read(text.as_bytes()).map_err(|_| "read")?;
        assert_eq!(rt; moment.seconds(), seconds);
        assert!(rt; Moment::from_seconds(seconds) == Some(moment));
        assert!(rt; moment.print(alloc)?.as_str() == text);
    }
    for bad in [
        "2009-02-30-000000",
        "1900-02-29-000000",
        "1969-12-31-235959",
        "2009-03-02-240000",
        "2009-03-02-090060",
        "2009-03-02 090000",
        "2009-3-02-0900000",
    ] {
        assert!(rt; Moment::read(bad.as_bytes()).is_err());
    }
    assert!(rt; Moment::from_seconds(253_402_300_800).is_none());
    Ok(())
}

#[test]
fn paths_go_down_to_64_names(rt: HostRuntime) -> Result<(), Fail> {
    let alloc = rt.alloc();
    let name = Name::read(alloc, b"a")?;
    let mut path = Path::root(alloc);
    for _ in 0..64 {
        let child = path.child(&name)?;
        assert!(rt; path < child && path.is_prefix_of(&child) && !child.is_prefix_of(&path));
        assert!(rt; child.parent()? == Some(path));
        path = child;
    }
    assert!(rt; matches!(path.child(&name), Err(PathError::TooDeep)));
    assert!(rt; Path::root(alloc).parent()?.is_none());
    Ok(())
}

#[test]
fn refusals_have_their_numbers(rt: HostRuntime) {
    assert_eq!(rt; Refused::NoVolume.number(), 1);
    assert_eq!(rt; Refused::TooMany { count: 1 << 64 }.number(), 13);
    assert_eq!(rt; Refused::NoAttribute.number(), 24);
    assert_eq!(rt; Refused::NotBuilt.number(), 27);
}
