//! A volume that is opened anew for each line, beside the plain volume.
use std::alloc::Global;
use std::collections::BTreeMap;
use std::test::Fail;
use tm_base::{Moment, Name, Path};
use tm_machine::change_of;
use tm_memworld::MemWorld;
use tm_plain::Volume as PlainVolume;
use tm_run::Status;
use tm_run_testing::{FORMAT_VOLUME, read_volume, run_next};
use tm_testing::pair;
use tm_text::parse;
use tm_tree::Item;

/// The hour at which the volume is made, and its id.
const HOUR: &[u8] = b"2009-03-02-090000";

const ID: u128 = 0x6ba7b810_9dad_11d1_80b4_00c04fd430c8;

/// A line of each kind that changes a volume, and how many items there are after it.
const CHANGES: [(&str, usize); 14] = [
    ("mkdir /a", 2),
    ("write /a/f one", 3),
    ("append /a/f two", 3),
    ("fill /g 5000 250", 4),
    ("ln /l a/f", 5),
    ("chmod /a/f 600", 5),
    ("chown /g 0 4294967295", 5),
    ("setx /l color red", 5),
    ("setx /l empty", 5),
    ("rmx /l color", 5),
    ("mv /g /a/h", 5),
    ("rm /l", 4),
    ("mkdir /b", 5),
    ("rmdir /b", 4),
];

/// Whether each of these items stands in the plain volume.
pub(crate) fn stand(items: &BTreeMap<Path, Item>, plain: &PlainVolume) -> bool {
    for (path, item) in items {
        match plain.find(path) {
            Ok(found) if found.is_same(item) => {}
            _ => return false,
        }
    }
    true
}

/// Makes the change of a line in the plain volume.
pub(crate) fn change(
    alloc: Global,
    plain: &mut PlainVolume,
    line: &str,
    moment: Moment,
) -> Result<bool, Fail> {
    let lines = parse(alloc, line.as_bytes()).or(Err("parses"))?;
    let Some(line) = lines.as_slice().first() else {
        return Ok(false);
    };
    match change_of(line)? {
        Some(change) => Ok(plain.change(&change, Some(moment)).is_ok()),
        None => Ok(false),
    }
}

/// The plain volume that [`FORMAT_VOLUME`] makes.
pub(crate) fn new_volume(alloc: Global) -> Result<PlainVolume, Fail> {
    let moment = Moment::read(HOUR).or(Err("a date"))?;
    let name = Name::read(alloc, b"HD").or(Err("a name"))?;
    Ok(PlainVolume::blank(alloc, &name, ID, 1000, moment)?)
}

/// Does a line in a run of its own, and in the plain volume. Whether both did it.
fn does(
    alloc: Global,
    world: &mut MemWorld,
    plain: &mut PlainVolume,
    line: &str,
) -> Result<bool, Fail> {
    let moment = Moment::read(HOUR).or(Err("a date"))?;
    let script = format!(in alloc; "at 2009-03-02-090000\n{line}\n")?;
    let ended = run_next(alloc, world, &script)?;
    Ok(ended == Status::Done && change(alloc, plain, line, moment)?)
}

#[test]
fn each_line_leaves_what_the_plain_volume_has(rt: HostRuntime) -> Result<(), Fail> {
    let alloc = rt.alloc();
    let mut world = pair(alloc, 64, 64)?;
    let mut plain = new_volume(alloc)?;
    assert_eq!(rt; run_next(alloc, &mut world, FORMAT_VOLUME)?, Status::Done);
    for (line, count) in CHANGES {
        assert!(rt; does(alloc, &mut world, &mut plain, line)?, "{line}");
        let read = read_volume(alloc, &mut world).or(Err("reads"))?;
        assert!(rt; stand(&read.items, &plain), "{line}");
        assert_eq!(rt;
            (read.items.len(), read.next),
            (count, plain.next()),
            "{line}"
        );
    }
    Ok(())
}
