//! What no clause says: that the calls succeed with ample memory, and rows worked by hand.
ghost use Rattle.std.specs.Prelude.{◌≡◌, ◌+◌, ◌<◌, ◌≤◌, All, IfOk};

use crate::{Journal, Since};
use std::alloc::Global;
use std::process::Abort;
use std::string::String;
use std::test::Fail;
use tm_base::{Name, Path};
use tm_tree::{Mark, RowList};

const ID: u128 = 0x6ba7b810_9dad_11d1_80b4_00c04fd430c8;

fn path(alloc: Global, names: &str) -> Result<Path, Fail> {
    let mut path = Path::root(alloc);
    for name in names.split('/') {
        if !name.is_empty() {
            path = path.child(&Name::read(alloc, name.as_bytes())?)?;
        }
    }
    Ok(path)
}

// A touch whose id is below the next number.
fn touch(journal: &mut Journal, id: u64, next: u64, path: Path, flags: u8)
    requires room { 1 ≤ journal.old.room }
    requires above { All (λ row. row.id < id) journal.old.rows }
    requires below { id < next }
    ensures below { All (λ row. row.id < next) journal.new.rows }
    ensures generation { journal.new.generation ≡ journal.old.generation }
    ensures capacity { journal.new.capacity ≡ journal.old.capacity }
    ensures room { journal.old.room ≤ journal.new.room + 1 }
{
    journal.add(id, path, flags);
}

// A journal after touches, each with its id, path and flags.
fn touched(alloc: Global, capacity: u32, touches: &[(u32, &str, u8)]) -> Result<Journal, Fail>
    requires { 1 ≤ capacity }
    ensures { IfOk result (λ journal. (journal.generation ≡ 1) × (journal.capacity ≡ capacity)) }
{
    let mut journal = Journal::new(alloc, ID, 1, capacity);
    journal.reserve(touches.len())?;
    let mut next = 1;
    for (id, names, flags) in touches {
        let id = *id as u64;
        if id < next {
            return Err("ids rise")?;
        }
        next = id + 1;
        touch(&mut journal, id, next, path(alloc, names)?, *flags);
    }
    Ok(journal)
}

// The rows since an id, each with its id, flags and path.
fn since(alloc: Global, journal: &Journal, cursor: u64) -> Result<String, Fail> {
    let mark = Mark {
        generation: journal.generation(),
        cursor,
    };
    match journal.since(&mark)? {
        Since::Rows(rows) => printed(alloc, &rows),
        Since::Lost => Err("lost")?,
    }
}

fn printed(alloc: Global, rows: &RowList) -> Result<String, Fail> {
    let mut text = String::new(alloc);
    for row in rows.as_slice() {
        let head = format!(in alloc; "{} {} ", row.id, row.flags)?;
        text.push_str(head.as_str())?;
        for name in row.path.names() {
            text.push_str("/")?;
            text.push_str(str::from_utf8(name.as_bytes()).map_err(|_| "text")?)?;
        }
        text.push_str(";")?;
    }
    Ok(text)
}

fn shows(
    rt: &impl Abort,
    alloc: Global,
    capacity: u32,
    touches: &[(u32, &str, u8)],
    expected: &str,
) -> Result<(), Fail>
    requires { 1 ≤ capacity }
{
    let journal = touched(alloc, capacity, touches)?;
    let rows = since(alloc, &journal, 4)?;
    assert_eq!(rt; rows.as_str(), expected);
    Ok(())
}

// A folder is moved to and fro; a journal of one row overflows; a folder above takes all beneath.
#[test]
fn rows_are_coalesced(rt: HostRuntime) -> Result<(), Fail> {
    let alloc = rt.alloc();
    shows(
        &rt,
        alloc,
        1000,
        &[
            (1, "/", 0),
            (2, "/a", 1),
            (4, "/a", 0),
            (5, "/", 0),
            (6, "/", 0),
            (7, "/b", 1),
            (9, "/b", 0),
            (10, "/", 0),
            (11, "/", 0),
            (12, "/a", 1),
        ],
        "7 1 /b;9 0 /b;11 0 ;12 1 /a;",
    )?;
    shows(
        &rt,
        alloc,
        1,
        &[(1, "/", 0), (2, "/a", 1), (6, "/a", 0), (8, "/b", 0)],
        "8 3 ;",
    )?;
    shows(
        &rt,
        alloc,
        1000,
        &[
            (5, "/a/b", 0),
            (6, "/a", 0),
            (7, "/a/b/c", 1),
            (8, "/ab", 1),
            (9, "/a/b", 0),
            (10, "/a", 1),
        ],
        "8 1 /ab;10 1 /a;",
    )
}

#[test]
fn a_drop_leaves_one_row(rt: HostRuntime) -> Result<(), Fail> {
    let alloc = rt.alloc();
    let mut journal = Journal::new(alloc, ID, 1, 1);
    journal.drop_all(1);
    assert_eq!(rt; since(alloc, &journal, 0)?.as_str(), "1 5 ;");
    assert_eq!(rt; since(alloc, &journal, 1)?.as_str(), "");
    Ok(())
}

#[test]
fn a_lost_history_is_told(rt: HostRuntime) -> Result<(), Fail> {
    let alloc = rt.alloc();
    let mut journal = touched(alloc, 3, &[(1, "/a", 0)])?;
    let mark = Mark {
        generation: 1,
        cursor: 0,
    };
    journal.lose();
    assert!(rt; matches!(journal.since(&mark)?, Since::Lost));
    assert_eq!(rt; since(alloc, &journal, 0)?.as_str(), "");
    let mut buffer = uuid::Uuid::encode_buffer();
    let text = journal.uuid().hyphenated().encode_lower(&mut buffer);
    assert!(rt; text == "6ba7b810-9dad-11d1-80b4-00c04fd430ca");
    Ok(())
}

// A journal of the rows of another.
fn again(journal: &Journal, capacity: u32) -> Result<Journal, Fail>
    requires { capacity ≡ journal.now.capacity }
    ensures { IfOk result (λ journal. journal.generation ≡ 2) }
{
    journal.rules();
    let mark = Mark {
        generation: journal.generation(),
        cursor: 0,
    };
    match journal.since(&mark)? {
        Since::Rows(rows) => Ok(Journal::from_rows(ID, 2, capacity, rows)),
        Since::Lost => Err("lost")?,
    }
}

#[test]
fn kept_rows_are_read_again(rt: HostRuntime) -> Result<(), Fail> {
    let alloc = rt.alloc();
    let touches = [(1, "/b", 0), (2, "/a", 0), (3, "/c", 1), (4, "/a/d", 0)];
    let journal = touched(alloc, 5, &touches)?;
    let journal = again(&journal, 5)?;
    assert_eq!(rt;
        since(alloc, &journal, 1)?.as_str(),
        "2 0 /a;3 1 /c;4 0 /a/d;"
    );
    Ok(())
}
