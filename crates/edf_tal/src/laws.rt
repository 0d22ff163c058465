//! Laws over the definitions alone: each is the contract of a function that does nothing.

ghost use Rattle.edf_tal.specs.Faults.{HasListOrFault};
ghost use Rattle.edf_tal.specs.Timekeeping.{HasOneList};

/// A lane has at most one list of TALs.
pub fn lane_has_one_list()
    ensures { HasOneList }
{}

/// A lane is one of some list of TALs, or it has a first fault.
pub fn lane_has_a_list_or_a_fault()
    ensures { HasListOrFault }
{}
