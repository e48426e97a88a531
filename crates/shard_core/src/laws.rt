//! How a call's clauses follow from those of its parts, as contracts of calls that do nothing.
ghost use Rattle.shard_core.specs.Steps.{PartsAdd, DeedsAreTold, RunningStarts, PartStep, RunningRests};
ghost use Rattle.shard_core.specs.Steps.{CutsBefore, CutsBehind, CutsRest};

/// One part more adds its deed and its segments.
pub fn parts_add()
    ensures { PartsAdd }
{}

/// The deeds of a call have its answers, and are what its session is told.
pub fn deeds_are_told()
    ensures { DeedsAreTold }
{}

/// A call before its first part.
pub fn running_starts()
    ensures { RunningStarts }
{}

/// The parts of a call, one more.
pub fn part_step()
    ensures { PartStep }
{}

/// What pins and gives back between parts changes nothing of what they claimed.
pub fn running_rests()
    ensures { RunningRests }
{}

/// Memory that was wanting before a call's first part.
pub fn cuts_before()
    ensures { CutsBefore }
{}

/// And in the part behind those that ran.
pub fn cuts_behind()
    ensures { CutsBehind }
{}

/// What is given back behind it changes nothing of what was claimed.
pub fn cuts_rest()
    ensures { CutsRest }
{}
