//! How what was said of a session stays right, over each kind of line and from the first to the last.
ghost use Rattle.std.specs.Prelude.{◌≡◌, ◌⊎◌, ◌++◌, ◌∷◌, [], true, false, List, ℕ};
ghost use Rattle.std.specs.Prelude.{Some, length, slice_get};
ghost use Rattle.std.specs.List.{AllByRecursion};
ghost use Rattle.flake_base.specs.declared.segment.Seg.{Seg};
ghost use Rattle.flake_base.specs.declared.session.End.TheVariants.{Memory};
ghost use Rattle.flake_base.specs.declared.session.SessionEnd.{SessionEnd};
ghost use Rattle.flake_base.specs.Growth.{Grew};
ghost use Rattle.flake_model.specs.Command.{Command};
ghost use Rattle.transcript_model.specs.Lines.{LineEvent, posted, ring_full, stage_full, at_end, sent, dropped};
ghost use Rattle.transcript_model.specs.Lines.{nothing_posted, reaped, nothing_reaped};
ghost use Rattle.transcript_model.specs.Terms.{Terms};
ghost use Rattle.transcript_model.specs.Right.{is_known};
ghost use Rattle.transcript_model.specs.Sessions.{texts_of, IsRightSession};
ghost use Rattle.transcript_model.specs.News.{with_news};
ghost use Rattle.drive_script.specs.Views.{SessionShown, DeviceShown};
ghost use Rattle.drive_script.specs.Calls.{ShowsPost, ShowsOneReap, ShowsNoReap, Gathers, GathersNone, ShowsRingFull};
ghost use Rattle.drive_script.specs.Calls.{ShowsStageFull, ShowsRefusal, BothEnds};
ghost use Rattle.reply_planner.specs.Parcels.{texts_in};
ghost use Rattle.drive_script.specs.Matches.{IsRightSoFar, HasMore};
ghost use Rattle.drive_script.specs.Quiet.{IsAtStart, IsQuiet};
ghost use Rattle.any_wire.specs.Texts.{IsSending};

/// Before the first line.
pub fn first_line()
    ensures { (terms : Terms) (session : SessionShown) (device : DeviceShown) → IsAtStart terms session device
        → IsRightSoFar terms session device [] }
{}

/// A reply was sent.
pub fn line_of_sent()
    ensures { (terms : Terms) (session session' : SessionShown) (device gathered device' : DeviceShown)
        (events : List LineEvent) (call bytes : ℕ) → IsRightSoFar terms session device events
        → Gathers device gathered call bytes true → BothEnds session session' gathered device'
        → IsRightSoFar (with_news terms terms.commands terms.end (length gathered.completed) terms.deeds) session'
        device'
        (events ++ sent call bytes ∷ []) }
{}

/// A reply was dropped.
pub fn line_of_dropped()
    ensures { (terms : Terms) (session session' : SessionShown) (device gathered device' : DeviceShown)
        (events : List LineEvent) (call bytes : ℕ) → IsRightSoFar terms session device events
        → Gathers device gathered call bytes false → BothEnds session session' gathered device'
        → IsRightSoFar terms session' device' (events ++ dropped call bytes ∷ []) }
{}

/// The ring was found empty.
pub fn line_of_empty()
    ensures { (terms : Terms) (session : SessionShown) (device device' : DeviceShown) (events : List LineEvent)
        → IsRightSoFar terms session device events → GathersNone device device'
        → IsRightSoFar terms session device' (events ++ nothing_posted ∷ []) }
{}

/// A reply was reaped.
pub fn line_of_reaped()
    ensures { (terms : Terms) (session given session' : SessionShown) (device device' : DeviceShown)
        (events : List LineEvent) → IsRightSoFar terms session device events → (call recycled : ℕ)
        → ShowsOneReap session given call recycled → BothEnds given session' device device'
        → IsRightSoFar terms session' device' (events ++ reaped call recycled ∷ []) }
{}

/// None was reaped.
pub fn line_of_none()
    ensures { (terms : Terms) (session session' : SessionShown) (device : DeviceShown) (events : List LineEvent)
        → IsRightSoFar terms session device events → ShowsNoReap session session'
        → IsRightSoFar terms session' device (events ++ nothing_reaped ∷ []) }
{}

/// A call was posted.
pub fn line_of_posted()
    ensures { (terms : Terms) (session given session' : SessionShown) (device device' : DeviceShown)
        (events : List LineEvent) (kept : IsRightSoFar terms session device events) → kept.standing.ended ≡ false
        → (command : Command) (call freed : ℕ) (segments fragments : List Seg)
        → ShowsPost command session given call freed segments fragments → BothEnds given session' device device'
        → (commands : List Command) → HasMore terms.commands commands
        → slice_get commands (length session.posted) ≡ Some command
        → IsRightSoFar (with_news terms commands terms.end terms.whole given.deeds) session' device'
        (events ++ posted call freed segments fragments ∷ []) }
{}

/// The ring had too little room for a call.
pub fn line_of_ring()
    ensures { (terms : Terms) (session given session' : SessionShown) (device device' : DeviceShown)
        (events : List LineEvent) (kept : IsRightSoFar terms session device events) → kept.standing.ended ≡ false
        → (command : Command) (commands : List Command) → HasMore terms.commands commands
        → slice_get commands (length session.posted) ≡ Some command
        → (need room : ℕ) → ShowsRingFull command session given need room → BothEnds given session' device device'
        → IsRightSoFar (with_news terms commands terms.end terms.whole session.deeds) session' device'
        (events ++ ring_full need room ∷ []) }
{}

/// The stage had too few buffers for it.
pub fn line_of_stage()
    ensures { (terms : Terms) (session given session' : SessionShown) (device device' : DeviceShown)
        (events : List LineEvent) (kept : IsRightSoFar terms session device events) → kept.standing.ended ≡ false
        → (command : Command) (commands : List Command) → HasMore terms.commands commands
        → slice_get commands (length session.posted) ≡ Some command
        → (need free : ℕ) → ShowsStageFull command session given need free → BothEnds given session' device device'
        → IsRightSoFar (with_news terms commands terms.end terms.whole session.deeds) session' device'
        (events ++ stage_full need free ∷ []) }
{}

/// The end is said for the first time: the input ended, or a call met want of memory.
pub fn line_of_end()
    ensures { (terms : Terms) (session given session' : SessionShown) (device device' : DeviceShown)
        (events : List LineEvent) (kept : IsRightSoFar terms session device events) → kept.standing.ended ≡ false
        → (commands : List Command) → HasMore terms.commands commands
        → (end : SessionEnd) → is_known end.end ≡ true → end.replies ≡ length session.posted
        → (refused : ShowsRefusal session given) → (end.end ≡ Memory) ⊎ (refused.gone ≡ [])
        → BothEnds given session' device device'
        → IsRightSoFar (with_news terms commands end terms.whole (session.deeds ++ refused.done)) session' device'
        (events ++ at_end ∷ []) }
{}

/// The end is said again.
pub fn line_of_end_again()
    ensures { (terms : Terms) (session : SessionShown) (device : DeviceShown) (events : List LineEvent)
        (kept : IsRightSoFar terms session device events) → kept.standing.ended ≡ true
        → IsRightSoFar terms session device (events ++ at_end ∷ []) }
{}

/// More becomes known of the input and its end, and nothing is said.
pub fn nothing_said()
    ensures { (terms : Terms) (session : SessionShown) (device : DeviceShown) (events : List LineEvent)
        (kept : IsRightSoFar terms session device events) (commands : List Command) (end : SessionEnd)
        → HasMore terms.commands commands
        → (kept.standing.ended ≡ true → (end.end ≡ terms.end.end) × (end.replies ≡ terms.end.replies))
        → IsRightSoFar (with_news terms commands end terms.whole terms.deeds) session device events }
{}

/// All replies were gathered, those behind the last line without lines: what was said of the session is right from its
/// first line to its last.
pub fn last_line()
    ensures { (terms : Terms) (session : SessionShown) (device : DeviceShown) (events quiet : List LineEvent)
        (kept : IsRightSoFar terms session device (events ++ quiet)) → AllByRecursion IsQuiet quiet
        → length session.posted ≡ terms.end.replies → length device.completed ≡ length session.posted
        → kept.standing.ended ≡ is_known terms.end.end → device.failed ≡ terms.end.failed
        → IsRightSession terms events }
{}

/// And the texts of all that it posted are those of its replies.
pub fn all_texts()
    ensures { (terms : Terms) (session : SessionShown) (device : DeviceShown) (events : List LineEvent)
        → IsRightSoFar terms session device events → length session.posted ≡ terms.end.replies
        → texts_of terms ≡ texts_in session.posted }
{}

/// Wires that tell what they are sent are ones on which texts can be sent in parts.
pub fn told_is_sending()
    ensures { IsSending Grew }
{}
