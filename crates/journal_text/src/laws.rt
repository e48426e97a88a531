//! What the definitions imply.
ghost use Rattle.std.specs.Prelude.{◌≡◌, List, ℕ};
ghost use Rattle.flake_base.specs.declared.journal.Entry.{Entry};
ghost use Rattle.journal_text.specs.Lines.{lines_of};
ghost use Rattle.journal_text.specs.Text.{journal_lines, journal_text_of};
ghost use Rattle.journal_text.specs.Reading.{AreJournalLines};

/// A journal's text has the journal's lines: what is written is read back.
pub fn text_has_lines()
    ensures { (journal : List (List Entry)) → lines_of (journal_text_of journal) ≡ journal_lines journal }
{}

/// No two journals have the same lines.
pub fn one_journal()
    ensures { (lines : List (List ℕ)) (journal other : List (List Entry)) → AreJournalLines lines journal
        → AreJournalLines lines other → journal ≡ other }
{}
