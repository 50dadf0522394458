//! What every reader of a table may rely on.
ghost use Rattle.tm_table.specs.Laws.{OneBreak, OneTable, TableOrBreak};

/// A text is that of one list of records at most, or else one place at most is the first that
/// breaks a rule: the answer of [`crate::decode`] is the only one.
pub fn tables_are_one()
    ensures table { OneTable }
    ensures either { TableOrBreak }
    ensures place { OneBreak }
{}
