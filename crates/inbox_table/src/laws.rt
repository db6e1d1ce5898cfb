//! Laws of tables, each as the contract of a function that does nothing.

ghost use Rattle.inbox_table.specs.Law.{StopsLeaveAList, StopsLeaveNoEvents, StopsLeaveOneVersion};

use database_layout::laws::trees_tell_tables;

/// A `keep` may be stopped at any write: then its clause `crash` tells what is left. The file that
/// is opened again has the list of before, or all that was given too, and that is what
/// [`crate::Table::adopt`] finds. Where the call had answered, its clause `settled` leaves the
/// latter alone.
pub fn stops_leave_a_list()
    ensures { StopsLeaveAList }
{
    trees_tell_tables();
}

/// So may a `create` of the inbox's table. The file that is opened again is as it was, or has it
/// without events, and so [`crate::Table::open`] finds it.
pub fn stops_leave_no_events()
    ensures { StopsLeaveNoEvents }
{
    trees_tell_tables();
}

/// So may the taking over of an inbox of version 1. The file that is opened again is as it was, or
/// has in version 2 the list that it had in version 1: never both versions, and never neither.
pub fn stops_leave_one_version()
    ensures { StopsLeaveOneVersion }
{
    trees_tell_tables();
}
