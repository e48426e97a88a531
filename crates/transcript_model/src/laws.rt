//! What the definitions imply.
ghost use Rattle.std.specs.Prelude.{◌≡◌, ◌+◌, ◌*◌, ◌≤◌, ◌++◌, [], ◌∷◌, List, ℕ, length, codes};
ghost use Rattle.std.specs.List.{AllByRecursion};
ghost use Rattle.flake_base.specs.declared.segment.Seg.{Seg};
ghost use Rattle.flake_base.specs.declared.session.SessionEnd.{SessionEnd};
ghost use Rattle.flake_model.specs.Command.{Command};
ghost use Rattle.flake_model.specs.Deed.{Deed};
ghost use Rattle.schedule_text.specs.declared.line.Line.{Line};
ghost use Rattle.transcript_model.specs.Lines.{LineEvent, posted, reaped, EventLine, event_text, transcript_text};
ghost use Rattle.transcript_model.specs.Lengths.{IsNumber, ArePlain, segment_limit, head_limit};
ghost use Rattle.transcript_model.specs.Terms.{Terms};
ghost use Rattle.transcript_model.specs.Standing.{Standing, at_first};
ghost use Rattle.transcript_model.specs.Right.{AreRight};
ghost use Rattle.transcript_model.specs.Transcript.{DrivenRun, Wires, AreAllApart, transcript_places, IsToldBy};
ghost use Rattle.transcript_model.specs.Transcript.{IsTranscript, CutReplyIsDropped};
ghost use Rattle.any_wire.specs.Sent.{WasSentByPuts};
ghost use Rattle.transcript_model.specs.News.{with_news, LeavesSaid};
ghost use Rattle.transcript_model.specs.Sources.{AreSources};
ghost use Rattle.transcript_model.specs.Worked.{worked, wrong, wants_memory};
ghost use Rattle.transcript_model.specs.Whole.{two_sessions, no_bytes_of_two, replies_of_two};
ghost use Rattle.transcript_model.specs.Whole.{schedule_of_two, lines_of_two, CutIsDropped, SharedStageIsWrong};

/// The lines of the worked transcripts are right.
pub fn worked_transcripts()
    ensures { AllByRecursion (λ row. (last : Standing) × AreRight row.terms at_first row.events last) worked }
{}

/// Those of the wrong ones are not, whatever they would leave.
pub fn wrong_transcripts()
    ensures { AllByRecursion (λ row. (last : Standing) → AreRight row.terms at_first row.events last → ⊥) wrong }
{}

/// A call that met want of memory may have reaped: both go on rightly.
pub fn either_was_reaped()
    ensures none { (last : Standing)
        × AreRight (wants_memory []).terms at_first (wants_memory (reaped 0 0 ∷ [])).events last }
    ensures one { (last : Standing)
        × AreRight (wants_memory []).terms at_first (wants_memory (reaped 1 0 ∷ [])).events last }
{}

/// Two sessions over one store have this transcript.
pub fn whole_transcript()
    ensures { IsTranscript two_sessions no_bytes_of_two replies_of_two schedule_of_two lines_of_two }
{}

/// Where a put failed a reply was dropped, also where the wire kept all bytes of it.
pub fn cut_reply_is_dropped()
    ensures law { CutReplyIsDropped }
    ensures worked { CutIsDropped }
{}

/// No two sessions have a staging buffer in common.
pub fn no_stage_is_shared()
    ensures { SharedStageIsWrong }
{}

/// Its text.
pub fn whole_text()
    ensures { transcript_text lines_of_two two_sessions.small_held two_sessions.large_held
        ≡ codes "call 0 0 send 1048576:5 store 1179648:1\ncall 1 0 send 1114112:4 1179648:1 1114116:2\nheld 1 0\n" }
{}

/// Lines that were right stay right as more becomes known of the session.
pub fn right_lines_stay()
    ensures { (terms : Terms) (now : Standing) (commands : List Command) (end : SessionEnd) (whole : ℕ)
        (deeds : List Deed) (events : List LineEvent) → LeavesSaid terms now commands end whole deeds
        → AreRight terms at_first events now → AreRight (with_news terms commands end whole deeds) at_first events now }
{}

/// What is right by the sessions' own deeds is right by the journal, whose deeds store where the transcript shows it.
pub fn journal_tells()
    ensures { (run : DrivenRun) (olds news : Wires) (schedule : List Line) (lines : List EventLine)
        (shards : List (List Deed))
        (own : ℕ → List Deed) (by_own : IsToldBy WasSentByPuts run olds news own schedule lines)
        → AreSources run shards own by_own.stages → AreAllApart (transcript_places run lines)
        → IsTranscript run olds news schedule lines }
{}

/// The line of a posted call is no longer than its segments ask for.
pub fn lines_are_short()
    ensures { (session call freed : ℕ) (segments fragments : List Seg) → IsNumber session → IsNumber call
        → IsNumber freed → ArePlain segments → ArePlain fragments
        → length (event_text session (posted call freed segments fragments))
        ≤ head_limit + segment_limit * (length segments + length fragments) }
{}
