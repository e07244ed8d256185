//! Law of the rows of one tree in another order.
ghost use Rattle.bw_questions.specs.changes.Order.{RowOrderChangesNothing};

/// Law: in another order of the rows, with siblings in the same one, each group has what it had.
pub fn row_order_changes_nothing()
    ensures { RowOrderChangesNothing }
{}
