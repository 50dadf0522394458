//! What no clause says: dates worked by hand, and 1,024 snapshots thinned at once.
ghost use Rattle.std.specs.Prelude.{◌≡◌, IsTrue};
ghost use Rattle.std.specs.List.Sorted.{IsStrictlyIncreasing};

use crate::keep;
use std::alloc::Global;
use std::test::Fail;
use tm_base::Moment;

fn rise(dates: &[Moment]) -> bool
    ensures { IsTrue result → IsStrictlyIncreasing dates.now }
{
    for at in 1..dates.len() {
        if dates[at - 1] >= dates[at] {
            return false;
        }
    }
    true
}

// The places of those that go, or of those that stay.
fn places(alloc: Global, dates: &[Moment], moment: Moment, stays: bool) -> Result<Vec<usize>, Fail>
    requires { IsStrictlyIncreasing dates.now }
{
    let mut places = Vec::new(alloc);
    for at in 0..dates.len() {
        if keep(dates, at, moment) == stays {
            places.push(at)?;
        }
    }
    Ok(places)
}

fn read(text: &str) -> Result<Moment, Fail> {
    Ok(Moment::read(text.as_bytes()).map_err(|_| "read")?)
}

// A snapshot at each end of a day and of 30 days goes, and so does the second of an hour.
#[test]
fn old_snapshots_go(rt: HostRuntime) -> Result<(), Fail> {
    let alloc = rt.alloc();
    let mut dates = Vec::new(alloc);
    for text in [
        "2009-01-30-000000",
        "2009-01-31-085959",
        "2009-01-31-090000",
        "2009-03-01-000000",
        "2009-03-01-085959",
        "2009-03-01-090000",
        "2009-03-01-090500",
        "2009-03-02-090000",
    ] {
        dates.push(read(text)?)?;
    }
    let dates = dates.as_slice();
    assert!(rt; rise(dates));
    let gone = places(alloc, dates, read("2009-03-02-090000")?, false)?;
    assert!(rt; gone.as_slice() == [1, 4, 6].as_slice());
    Ok(())
}

// Weeks begin on Monday: 2009-03-02 was one, and 1970-01-05 the first of all.
#[test]
fn weeks_begin_on_monday(rt: HostRuntime) -> Result<(), Fail> {
    let alloc = rt.alloc();
    let mut dates = Vec::new(alloc);
    for text in [
        "1970-01-01-000000",
        "1970-01-04-235959",
        "1970-01-05-000000",
        "2009-02-28-120000",
        "2009-03-01-235959",
        "2009-03-02-000000",
        "2009-03-08-235959",
        "2009-03-09-000000",
        "2009-03-09-000001",
    ] {
        dates.push(read(text)?)?;
    }
    let dates = dates.as_slice();
    assert!(rt; rise(dates));
    let gone = places(alloc, dates, read("2010-01-01-000000")?, false)?;
    assert!(rt; gone.as_slice() == [1, 4, 6].as_slice());
    Ok(())
}

// A snapshot every 50 minutes from Monday, 2009-03-02-090000: what stays was counted by a calendar of
// another make.
#[test]
fn many_go_at_once(rt: HostRuntime) -> Result<(), Fail> {
    let alloc = rt.alloc();
    let mut dates = Vec::new(alloc);
    for number in 0..1024 {
        dates.push(Moment::from_seconds(1_235_984_400 + 3_000 * number).ok_or("date")?)?;
    }
    let dates = dates.as_slice();
    assert!(rt; rise(dates));
    for (moment, count) in [
        ("2009-03-02-090000", 1024),
        ("2009-04-04-213000", 114),
        ("2009-04-06-213000", 55),
        ("2010-05-11-213000", 7),
    ] {
        let stay = places(alloc, dates, read(moment)?, true)?;
        assert_eq!(rt; stay.len(), count, "at {moment}");
    }
    let stay = places(alloc, dates, read("2010-05-11-213000")?, true)?;
    assert!(rt; stay.as_slice() == [0, 191, 393, 594, 796, 998, 1023].as_slice());
    Ok(())
}
