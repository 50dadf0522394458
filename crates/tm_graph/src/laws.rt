//! What the definitions say together.
ghost use Rattle.tm_graph.specs.Growing.{GrownReads, GrowthIsUndone};
ghost use Rattle.tm_graph.specs.Reached.{NodesAreReached, LeavesLinked, GoneIsOne};
ghost use Rattle.tm_graph.specs.Reads.{AddedReads, LinkedReads};
ghost use Rattle.tm_graph.specs.Trees.{RowsStand};
ghost use Rattle.tm_graph.specs.Unlinking.{LossesLeaveLinked};
ghost use Rattle.tm_graph.specs.Ways.{WaysFind};

/// What a graph with one node more has under each number.
pub fn added_reads()
    ensures { AddedReads }
{}

/// What a graph with one root link more has under each number.
pub fn linked_reads()
    ensures { LinkedReads }
{}

/// Where no node is without links, the nodes are those that stand at or beneath a root.
pub fn nodes_are_reached()
    ensures { NodesAreReached }
{}

/// `unlink_root` takes one root link, and leaves no node without links.
pub fn leaves_linked()
    ensures { LeavesLinked }
{}

/// `unlink_roots` leaves a graph, takes those root links, and leaves no node without links.
pub fn losses_leave_linked()
    ensures { LossesLeaveLinked }
{}

/// The nodes that go are told by the graph and the root.
pub fn gone_is_one()
    ensures { GoneIsOne }
{}

/// The rows under a node stand in path order, each with what stands at its path.
pub fn rows_stand()
    ensures { RowsStand }
{}

/// The way down from a node ends at the node that stands at the path.
pub fn ways_find()
    ensures { WaysFind }
{}

/// What a graph with new nodes and a root link has under each number.
pub fn grown_reads()
    ensures { GrownReads }
{}

/// Without the root link that new nodes came with, the graph is as it was before them.
pub fn growth_is_undone()
    ensures { GrowthIsUndone }
{}
