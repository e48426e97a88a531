//! What the clauses of a session's and a device's calls say of what lines are judged by.
ghost use Rattle.std.specs.Prelude.{◌≡◌, [], true, false, Bool, List, ℕ, length};
ghost use Rattle.pin_core.specs.declared.sizes.Sizes.{Sizes};
ghost use Rattle.flake_base.specs.declared.segment.Seg.{Seg};
ghost use Rattle.flake_model.specs.Command.{Command};
ghost use Rattle.session_pass.specs.Views.{SessionView};
ghost use Rattle.session_pass.specs.Calls as call;
ghost use Rattle.drive_script.specs.Calls as line;
ghost use Rattle.drive_script.specs.Shown.{session_shown, LiesInPool};

/// A call that posts its reply.
pub fn post_is_shown()
    ensures { (z : Sizes) (shards : ℕ) (command : Command) (old new : SessionView) (number freed : ℕ)
        (sent stored : List Seg) → LiesInPool z old
        → call.CallPosts z shards command old new number freed sent stored
        → line.ShowsPost command (session_shown z old) (session_shown z new) number freed sent stored }
{}

/// A call for which the ring has too little room.
pub fn full_ring_is_shown()
    ensures { (z : Sizes) (command : Command) (old new : SessionView) (need room : ℕ) → LiesInPool z old
        → call.FindsRingFull command old new need room
        → line.ShowsRingFull command (session_shown z old) (session_shown z new) need room }
{}

/// A call for which the stage has too few buffers.
pub fn full_stage_is_shown()
    ensures { (z : Sizes) (command : Command) (old new : SessionView) (need free : ℕ) → LiesInPool z old
        → LiesInPool z new
        → call.FindsStageFull command old new need free
        → line.ShowsStageFull command (session_shown z old) (session_shown z new) need free }
{}

/// A call that meets want of memory.
pub fn refusal_is_shown()
    ensures { (z : Sizes) (shards : ℕ) (command : Command) (old new : SessionView)
        → call.CallRefused z shards command old new
        → line.ShowsRefusal (session_shown z old) (session_shown z new) }
{}

/// A reap that gives a reply back.
pub fn reap_is_shown()
    ensures { (z : Sizes) (old new : SessionView) (number recycled : ℕ) → call.ReapsOne old new number recycled
        → line.ShowsOneReap (session_shown z old) (session_shown z new) number recycled }
{}

/// A reap that gives none back.
pub fn no_reap_is_shown()
    ensures { (z : Sizes) (old new : SessionView) → call.ReapsNone old new
        → line.ShowsNoReap (session_shown z old) (session_shown z new) }
{}
