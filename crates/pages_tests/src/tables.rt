//! Tables under changes: where their pages lie, worked out by hand, and what is read again.
use crate::failure::Failure;
use crate::table::{Step, Table, after, read_again};
use std::collections::BTreeMap;
use std::test::Fail;
use tm_pages::Page;
use tm_records::Record;
use tm_testing::zeros;

/// Whether pages lie on these blocks with these lengths.
fn lie_on(table: &Table, want: &[(u32, u16)]) -> bool {
    let pages: &[Page] = &table.pages;
    pages.len() == want.len()
        && pages.iter().zip(want).all(|(page, want)| page.block == want.0 && page.length == want.1)
}

/// Whether two maps have records with the same metas at these keys, and at no others.
fn agree(a: &BTreeMap<u64, Record>, b: &BTreeMap<u64, Record>, keys: &[u64]) -> bool {
    if a.len() != keys.len() || b.len() != keys.len() {
        return false;
    }
    for key in keys {
        match (a.get(key), b.get(key)) {
            (Some(one), Some(two)) if one.meta.as_slice() == two.meta.as_slice() => {}
            _ => return false,
        }
    }
    true
}

#[test]
fn a_table_under_changes(rt: HostRuntime) -> Result<(), Fail> {
    let alloc = rt.alloc();
    let steps = [
        // 120 bytes behind the record: the page with the byte before them is cut anew.
        Step::Put(2, b'b', 100),
        // 2,020 bytes more, for which the last page is cut in two.
        Step::Put(3, b'c', 2000),
        // The 120 bytes go: the page that had them may stand beside both others.
        Step::Remove(2),
        // The first record has 30 bytes in the place of 8,020: all 2,050 that are left are one page.
        Step::Put(1, b'd', 10),
    ];
    // How many steps are made, the pages then, and the keys.
    let wanted: [(usize, &[(u32, u16)], &[u64]); 5] = [
        (0, &[(3, 4096), (4, 3924)], &[1]),
        (1, &[(3, 4096), (5, 4044)], &[1, 2]),
        (2, &[(3, 4096), (4, 4096), (6, 1968)], &[1, 2, 3]),
        (3, &[(3, 4096), (5, 3976), (6, 1968)], &[1, 3]),
        (4, &[(4, 2050)], &[1, 3]),
    ];
    for (count, pages, keys) in wanted {
        let mut world = zeros(alloc, 16)?;
        let table = after(alloc, &mut world, 8000, &steps[..count])?;
        assert!(rt; lie_on(&table, pages), "after {count} steps");
        let read = read_again(alloc, &mut world, &table)?;
        assert!(rt; agree(&read, &table.records, keys), "after {count} steps");
    }
    Ok(())
}

#[test]
fn full_by_one_block(rt: HostRuntime) -> Result<(), Fail> {
    let alloc = rt.alloc();
    // A record of 8,193 bytes needs three pages beside the blocks 0 to 2.
    for (blocks, want) in [(5, Some(Failure::Full)), (6, None)] {
        let mut world = zeros(alloc, blocks)?;
        let table = after(alloc, &mut world, 8173, &[]);
        assert_eq!(rt; table.err(), want);
    }
    Ok(())
}
