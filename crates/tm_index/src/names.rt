//! Numbers by folder and name, as maps.
ghost use Rattle.std.specs.Prelude.{◌≡◌, Some, None, IfOk, OnOk, OnErr};
ghost use Rattle.tm_items.specs.Index.{SetsAt};
ghost use Rattle.tm_items.specs.Places.{at_name};
ghost use Rattle.tm_index.specs.Folders.{numbers_in, folders_of, SetsName};

use std::alloc::{AllocError, Global};
use std::collections::BTreeMap;
use tm_base::Name;

/// Sets the number at a name of one folder. Where memory is refused, the folder is as before.
fn insert_name(named: &mut BTreeMap<Name, u64>, name: Name, number: u64) -> Result<(), AllocError>
    ensures ok { OnOk result (SetsName name (Some number) (Some named.old.entries) named.new.entries) }
    ensures err { OnErr result (named.new.entries ≡ named.old.entries) }
{
    named.insert(name, number)?;
    Ok(())
}

/// A folder with one number.
fn one_name(alloc: Global, name: Name, number: u64) -> Result<BTreeMap<Name, u64>, AllocError>
    ensures { IfOk result (λ named. SetsName name (Some number) None named.entries) }
{
    let mut named = BTreeMap::new(alloc);
    named.insert(name, number)?;
    Ok(named)
}

/// Sets the number at a name in a folder. Where memory is refused, all is as before.
pub fn insert_number(
    alloc: Global,
    folders: &mut BTreeMap<u64, BTreeMap<Name, u64>>,
    parent: u64,
    name: Name,
    number: u64,
) -> Result<(), AllocError>
    ensures ok { OnOk result (SetsAt (at_name parent name) (Some number) (numbers_in (folders_of folders.old.entries)) (numbers_in (folders_of folders.new.entries))) }
    ensures err { OnErr result (folders_of folders.new.entries ≡ folders_of folders.old.entries) }
{
    match folders.get_mut(&parent) {
        Some(named) => insert_name(named, name, number),
        None => {
            let named = one_name(alloc, name, number)?;
            folders.insert(parent, named)?;
            Ok(())
        }
    }
}

/// Takes the number at a name in a folder out, if one is there.
pub fn remove_number(folders: &mut BTreeMap<u64, BTreeMap<Name, u64>>, parent: u64, name: &Name)
    ensures { SetsAt (at_name parent name.now) None (numbers_in (folders_of folders.old.entries)) (numbers_in (folders_of folders.new.entries)) }
{
    if let Some(named) = folders.get_mut(&parent) {
        let _ = named.remove(name);
    }
}
