//! Laws over the definitions, each the contract of a call that does nothing.
ghost use Rattle.frag_value.specs.Carried.{HoldsComeBack};
ghost use Rattle.frag_value.specs.Counts.{FragmentsAreCounted};
ghost use Rattle.frag_value.specs.Exactly.{ValuesAreCounted, ValuesComeAndGo};
ghost use Rattle.frag_value.specs.Few.{AreFew};
ghost use Rattle.frag_value.specs.Stays.{ValuesStay};

/// How many fragments of each class some bytes have, and an append, by their number; and how many at most.
pub fn fragments_are_counted()
    ensures { FragmentsAreCounted }
{}

/// A value stays, with its bytes, whatever is done with other ones. Two values of a seat share no buffer.
pub fn values_stay()
    ensures { ValuesStay }
{}

/// What becomes of the values that a seat has exactly, when one is written, comes, gets longer, is released, or goes.
pub fn values_come_and_go()
    ensures { ValuesComeAndGo }
{}

/// A seat that has some values exactly has a hold of each class for each of their fragments, and holds so many buffers.
pub fn values_are_counted()
    ensures { ValuesAreCounted }
{}

/// A seat that gets a value's holds and gives them up has its other holds as before, in their order.
pub fn holds_come_back()
    ensures { HoldsComeBack }
{}

/// Fragments that lie in different buffers are at most as many as there are buffers.
pub fn few_fragments()
    ensures { AreFew }
{}
