//! What a dump implies, as contracts of calls that do nothing.
ghost use Rattle.std.specs.Prelude.{◌≡◌, ◌≤◌, List, [], ◌∷◌, ℕ, length, map};
ghost use Rattle.std.specs.List.{AllByRecursion};
ghost use Rattle.flake_base.specs.declared.journal.Entry.{Entry};
ghost use Rattle.flake_model.specs.Resp.{judged_bytes};
ghost use Rattle.flake_model.specs.Command.{command_of};
ghost use Rattle.dump_model.specs.Dump.{ParsedInput, commands_parsed, AreHome, IsServedAgain, dumped};
ghost use Rattle.dump_model.specs.Seen.{SeenMakesDump};
ghost use Rattle.dump_model.specs.Worked.{dump_table};

/// A dump that isn't too long can be served again: it gives each shard what it had at its point.
pub fn served_again()
    ensures { (inputs : List ParsedInput) (journal : List (List Entry)) (points : List ℕ)
        → length points ≡ length journal
        → AreHome (commands_parsed inputs) journal
        → length (dumped (commands_parsed inputs) journal points) ≤ judged_bytes
        → IsServedAgain (commands_parsed inputs) journal points }
{}

/// With the seats of all shards, each of whose deeds does what its entry stands for, the text of what a session saw is
/// the dump of the journal, and the points lie between the session's calls.
pub fn dump_of_seen()
    ensures { SeenMakesDump }
{}

/// The worked dumps are as their table says.
pub fn worked_dumps()
    ensures { AllByRecursion (λ row. dumped (map command_of row.requests ∷ []) row.journal row.points ≡ row.sent)
        dump_table }
{}
