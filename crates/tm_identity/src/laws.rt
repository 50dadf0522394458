//! What the definitions say together.
ghost use Rattle.tm_identity.specs.Stores.{IdentitiesAreNodes, NodesStand};
ghost use Rattle.tm_identity.specs.Entries.{EntriesStand};
ghost use Rattle.tm_identity.specs.Links.{LinksAreCounted};
ghost use Rattle.tm_identity.specs.Stored.{StoredIsCounted, SumsAreCounted};
ghost use Rattle.tm_identity.specs.Uniques.{UniqueFits, UniqueIsCounted};
ghost use Rattle.tm_identity.specs.Removals.{RemovalKeeps};
ghost use Rattle.tm_identity.specs.Additions.{AdditionKeeps};

/// Each node of a store stands at a path beneath a root.
pub fn nodes_stand()
    ensures { NodesStand }
{}

/// The entries of a folder's node are what stands in the folder, by name.
pub fn entries_stand()
    ensures { EntriesStand }
{}

/// A tree holds an identity exactly where a node of that label stands at that path.
pub fn identities_are_nodes()
    ensures { IdentitiesAreNodes }
{}

/// A node's links are those of its identity: how many folders hold it, or for a root how many
/// snapshots.
pub fn links_are_counted()
    ensures { LinksAreCounted }
{}

/// Stored bytes are the sum over the nodes, and there are as many identities as nodes.
pub fn stored_is_counted()
    ensures { StoredIsCounted }
{}

/// A sum over identities is the sum over the nodes, whatever it weighs of an item, its path and its
/// tree.
pub fn sums_are_counted()
    ensures { SumsAreCounted }
{}

/// Unique bytes are told by links alone.
pub fn unique_is_counted()
    ensures { UniqueIsCounted }
{}

/// No more bytes are unique than are stored.
pub fn unique_fits()
    ensures { UniqueFits }
{}

/// A store less a snapshot is a store, and the other trees stay.
pub fn removal_keeps()
    ensures { RemovalKeeps }
{}

/// A store with a snapshot more is a store, and the other trees stay.
pub fn addition_keeps()
    ensures { AdditionKeeps }
{}
