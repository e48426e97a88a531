//! What a change of one or two views does to a sum, as contracts of calls that do nothing.
ghost use Rattle.view_sums.specs.Changes.{OneChanged, TwoChanged, OneAdded};

/// One view changed.
pub fn one_changed<V>()
    ensures { OneChanged V }
{}

/// Two views changed.
pub fn two_changed<V>()
    ensures { TwoChanged V }
{}

/// One view changed, and one came at the end.
pub fn one_added<V>()
    ensures { OneAdded V }
{}
