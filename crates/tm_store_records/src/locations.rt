//! Where nodes stand, found from the greatest number down.
//!
//! A node's entries name lower nodes, so all its places are known when the walk comes down to it. A
//! path is kept as a number: a step goes from the number of a path by a name to the number of the
//! longer path. So no path is kept whole.
ghost use Rattle.std.specs.Prelude.{◌≡◌, ◌<◌, ◌≤◌, ◌+◌, ◌==◌, ℕ, List, true, nat_eq, Some, None, OnOk, IfOk, IfSome, length, slice_get, take, if◌then◌else◌};
ghost use Rattle.std.specs.List.Sorted.{IsStrictlySortedBy};
ghost use Rattle.std.specs.Ordering.{nat_cmp};
ghost use Rattle.std.specs.Map.{keys_of};
ghost use Rattle.std.specs.Set.{is_member};
ghost use Rattle.std.specs.BTreeMap.{get};
ghost use Rattle.tm_base.specs.Limits.{max_names};
ghost use Rattle.tm_graph.specs.Nodes.{Nodes};
ghost use Rattle.tm_store_records.specs.Found.{roots_of};
ghost use Rattle.tm_store_records.specs.Places.{NodeStandsAt};
ghost use Rattle.tm_store_records.specs.Located.{step_cmp, step_of, StepLeads, location_with, Comes, DoneFrom, DoneIn, LocationsTell, IsEntryAt, IsJoined, AllRise, AreEntriesAt};

use crate::snapshot::Snapshot;
use std::alloc::{AllocError, Global};
use std::collections::BTreeMap;
use tm_base::Name;
use tm_base::limits::MAX_NAMES;
use tm_graph::children_of;
use tm_tree::{Child, NodeId, NodeRow};

/// The most names of a path.
const MAX_DEPTH: u64 = MAX_NAMES as u64;

/// Where a number stands, as far as is known.
#[derive(Clone, Copy, Debug, PartialEq, Eq)]
pub(crate) enum Location {
    /// At the path of this number, of so many names.
    At { path: u64, depth: u64 },
    /// At more than one path, or under too many names.
    Misplaced,
}

/// A name after a path.
#[derive(PartialEq, Eq, PartialOrd, Ord, Drop)]
pub(crate) struct Step {
    pub(crate) path: u64,
    pub(crate) name: Name,
}

/// The locations of numbers, and the numbers of paths.
#[derive(Drop)]
pub(crate) struct Locations {
    pub(crate) locations: BTreeMap<u64, Location>,
    pub(crate) paths: BTreeMap<Step, u64>,
    /// How many paths have a number; the root's is 0.
    pub(crate) count: u64,
}

/// The number of the path that is one name longer than another, a new one if it has none yet.
fn number_of(
    paths: &mut BTreeMap<Step, u64>,
    count: &mut u64,
    path: u64,
    name: &Name,
) -> Result<u64, AllocError>
    ensures { IfOk result (λ id. StepLeads (λ s. get step_cmp paths.old s) (λ s. get step_cmp paths.new s) count.old count.new (step_of path name.now) id) }
{
    let next = Step {
        path,
        name: name.clone()?,
    };
    if let Some(id) = paths.get(&next) {
        return Ok(*id);
    }
    let id = *count;
    // More paths than 64 bits count would need more memory than there is.
    let more = id.checked_add(1).ok_or(AllocError)?;
    paths.insert(next, id)?;
    *count = more;
    Ok(id)
}

/// Puts a location at a number.
fn put_location(
    locations: &mut BTreeMap<u64, Location>,
    number: u64,
    location: Location,
) -> Result<(), AllocError>
    ensures { OnOk result ((q : ℕ) → get nat_cmp locations.new q ≡ (if nat_eq q number then Some location else get nat_cmp locations.old q)) }
{
    locations.insert(number, location)?;
    Ok(())
}

/// The location of a number with a place more, at the path of a number.
fn location_with(
    locations: &BTreeMap<u64, Location>,
    number: u64,
    path: u64,
    depth: u64,
) -> Location
    ensures { result ≡ location_with (get nat_cmp locations.now number) path depth }
{
    match locations.get(&number) {
        None => Location::At { path, depth },
        Some(
            Location::At {
                path: other,
                depth: far,
            },
        ) if *other == path => Location::At {
            path: *other,
            depth: *far,
        },
        Some(_) => Location::Misplaced,
    }
}

/// Puts the roots of these snapshots at the root of all paths.
fn put_roots(
    locations: &mut BTreeMap<u64, Location>,
    snapshots: &[Snapshot],
) -> Result<(), AllocError>
    ensures { OnOk result ((q : ℕ) → get nat_cmp locations.new q ≡ (if is_member nat_eq (roots_of snapshots.now) q then Some (Location.At 0 0) else get nat_cmp locations.old q)) }
{
    for snapshot in snapshots {
        let root = snapshot.root;
        put_location(locations, root.0, Location::At { path: 0, depth: 0 })?;
    }
    Ok(())
}

/// The locations of the roots alone.
fn at_roots(
    alloc: Global,
    nodes: &[(NodeId, NodeRow)],
    snapshots: &[Snapshot],
) -> Result<Locations, AllocError>
    ensures { IfOk result (λ locations. LocationsTell nodes.now (roots_of snapshots.now) (Comes nodes.now (roots_of snapshots.now) (DoneFrom nodes.now (length nodes.now))) locations) }
{
    let mut locations = BTreeMap::new(alloc);
    put_roots(&mut locations, snapshots)?;
    // This shows how many nodes there are.
    let _ = nodes.len();
    Ok(Locations {
        locations,
        paths: BTreeMap::new(alloc),
        count: 1,
    })
}

impl Locations {
    /// An entry of a folder at the path of this number, of `depth` names.
    fn join(&mut self, path: u64, depth: u64, child: &Child) -> Result<(), AllocError>
        requires { depth < max_names }
        ensures { OnOk result (IsJoined self.old self.new path depth child.now) }
    {
        let id = number_of(&mut self.paths, &mut self.count, path, &child.name)?;
        let location = location_with(&self.locations, child.node.0, id, depth + 1);
        put_location(&mut self.locations, child.node.0, location)
    }

    /// An entry of the folder of this number, which stands at this location.
    fn step(&mut self, number: u64, location: Location, child: &Child) -> Result<(), AllocError>
        requires { get nat_cmp self.old.locations number ≡ Some location }
        ensures here { OnOk result (get nat_cmp self.new.locations number ≡ Some location) }
        ensures tell { OnOk result ((g : Nodes) (roots : List ℕ) (place entry : ℕ) → IsEntryAt g place entry number child.now → LocationsTell g roots (Comes g roots (DoneIn g place entry)) self.old → LocationsTell g roots (Comes g roots (DoneIn g place (entry + 1))) self.new) }
    {
        let node = child.node;
        if node.0 >= number {
            return Ok(());
        }
        match location {
            Location::At { path, depth } => {
                if depth < MAX_DEPTH {
                    self.join(path, depth, child)
                } else {
                    put_location(&mut self.locations, child.node.0, Location::Misplaced)
                }
            }
            Location::Misplaced => put_location(
                &mut self.locations,
                child.node.0,
                Location::Misplaced,
            ),
        }
    }

    /// The entries of the folder of this number, which stands at this location.
    fn pass_entries(
        &mut self,
        number: u64,
        location: Location,
        children: &[Child],
    ) -> Result<(), AllocError>
        requires { get nat_cmp self.old.locations number ≡ Some location }
        ensures { OnOk result ((g : Nodes) (roots : List ℕ) (place : ℕ) → AreEntriesAt g place number children.now → LocationsTell g roots (Comes g roots (DoneIn g place 0)) self.old → LocationsTell g roots (Comes g roots (DoneIn g place (length children.now))) self.new) }
    {
        for child in children {
            self.step(number, location, child)?;
        }
        Ok(())
    }

    /// The node at a place, after all those of greater numbers.
    fn pass(&mut self, nodes: &[(NodeId, NodeRow)], place: usize) -> Result<(), AllocError>
        requires place { place < length nodes.now }
        requires sorted { IsStrictlySortedBy nat_cmp (keys_of nodes.now) }
        requires rise { AllRise nodes.now }
        ensures { OnOk result ((roots : List ℕ) → LocationsTell nodes.now roots (Comes nodes.now roots (DoneFrom nodes.now (place + 1))) self.old → LocationsTell nodes.now roots (Comes nodes.now roots (DoneFrom nodes.now place)) self.new) }
    {
        let entry = &nodes[place];
        match self.locations.get(&entry.0.0).copied() {
            Some(location) => self.pass_entries(entry.0.0, location, children_of(&entry.1)),
            None => Ok(()),
        }
    }
}

/// Where the nodes stand: all that can be said of each number's places.
pub(crate) fn find_locations(
    alloc: Global,
    nodes: &[(NodeId, NodeRow)],
    snapshots: &[Snapshot],
) -> Result<Locations, AllocError>
    requires sorted { IsStrictlySortedBy nat_cmp (keys_of nodes.now) }
    requires rise { AllRise nodes.now }
    ensures { IfOk result (λ locations. LocationsTell nodes.now (roots_of snapshots.now) (NodeStandsAt nodes.now (roots_of snapshots.now)) locations) }
{
    let mut locations = at_roots(alloc, nodes, snapshots)?;
    let mut place = nodes.len();
    while place > 0 {
        place -= 1;
        locations.pass(nodes, place)?;
    }
    Ok(locations)
}
