//! The rules of snapshots.
ghost use Rattle.std.specs.Prelude.{◌≡◌, ◌↔◌, ◌<◌, ◌≤◌, ◌^◌, ℕ, Some, None, IsTrue, IfSome, IfNone, slice_get, length};
ghost use Rattle.std.specs.List.Sorted.{IsStrictlySortedBy};
ghost use Rattle.std.specs.Ordering.{nat_cmp};
ghost use Rattle.std.specs.Map.{keys_of};
ghost use Rattle.tm_store_records.specs.declared.snapshot.Snapshot.{Snapshot};
ghost use Rattle.tm_store_records.specs.Rules.{IsGoodSnapshot};
ghost use Rattle.tm_store_records.specs.Drafts.{IsSnapshotAfter, IsFirstBadSnapshot};

use crate::lookups::is_folder_at;
use crate::snapshot::Snapshot;
use tm_base::Moment;
use tm_base::limits::MAX_SNAPSHOTS;
use tm_tree::{NodeId, NodeRow};

/// Generations and cursors are below this.
const LIMIT: u64 = 1 << 62;

/// Whether a snapshot keeps the rules, at this place in the list, after the one with the date
/// `before` if there is one.
fn is_good(
    nodes: &[(NodeId, NodeRow)],
    before: Option<Moment>,
    number: u64,
    place: usize,
    snapshot: &Snapshot,
) -> bool
    requires { IsStrictlySortedBy nat_cmp (keys_of nodes.now) }
    ensures { IsTrue result ↔ IsSnapshotAfter nodes.now before number place snapshot.now }
{
    let is_later = match before {
        Some(date) => date < snapshot.date,
        None => true,
    };
    is_later
        && place < MAX_SNAPSHOTS
        && 1 <= snapshot.number
        && snapshot.number < number
        && 1 <= snapshot.mark.generation
        && snapshot.mark.generation < LIMIT
        && snapshot.mark.cursor < LIMIT
        && is_folder_at(nodes, snapshot.root.0)
}

/// The place of the first snapshot that breaks a rule, if one does.
pub(crate) fn first_bad_snapshot(
    nodes: &[(NodeId, NodeRow)],
    snapshots: &[Snapshot],
    number: u64,
) -> Option<usize>
    requires { IsStrictlySortedBy nat_cmp (keys_of nodes.now) }
    ensures none { IfNone result ((i : ℕ) (s : Snapshot) → slice_get snapshots.now i ≡ Some s → IsGoodSnapshot nodes.now snapshots.now number i s) }
    ensures some { IfSome result (λ place. IsFirstBadSnapshot nodes.now snapshots.now number place) }
{
    let mut before = None;
    for (place, snapshot) in snapshots.iter().enumerate() {
        if !is_good(nodes, before, number, place, snapshot) {
            return Some(place);
        }
        before = Some(snapshot.date);
    }
    None
}
