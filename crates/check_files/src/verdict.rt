// The verdict on files.
ghost use Rattle.std.specs.Prelude.{◌≡◌, ◌≤◌, ◌%◌, length, IfOk, IfErr, OnOk};
ghost use Rattle.check_files.specs.File.{file_names, file_wholes, file_givens, file_endeds, file_faults};
ghost use Rattle.check_files.specs.Files.{texts_since, AllReadToEnd, AllGaveMore};
ghost use Rattle.check_files.specs.Judged.{IsJudged};
ghost use Rattle.check_files.specs.Stopped.{FaultsBy, WhyStopped, ReadsBy};

use crate::contents::read_all;
use crate::{CheckError, File};
use flake_base::Source;
use journal_text::read_journal;
use replay_check::{Verdict, check};
use std::alloc::Global;

/// Reads all files whole, in order: a journal's text, and then each session's input and its replies. Says whether
/// the replies are those that the journal gives.
pub fn check_files<S: Source>(alloc: Global, files: &mut [File<S>]) -> Result<Verdict, CheckError>
    requires pairs { length files.old % 2 ≡ 1 }
    requires few { length files.old ≤ 33 }
    ensures verdict { IfOk result
        (IsJudged (texts_since (file_givens S.given files.old) (file_givens S.given files.new))) }
    ensures ended { OnOk result (AllReadToEnd (file_endeds S.ended files.new)) }
    ensures more { AllGaveMore (file_givens S.given files.old) (file_givens S.given files.new) }
    ensures faults { OnOk result (file_faults S.read_faults files.new ≡ file_faults S.read_faults files.old) }

    // Each error has its cause.
    ensures err { IfErr result
        (WhyStopped (texts_since (file_givens S.given files.old) (file_givens S.given files.new))) }
    ensures reads { IfErr result (λ e. ReadsBy e (file_givens S.given files.old) (file_givens S.given files.new)
        (file_endeds S.ended files.old) (file_endeds S.ended files.new)) }
    ensures counts { IfErr result (λ e. FaultsBy e (file_faults S.read_faults files.old)
        (file_faults S.read_faults files.new)) }

    // They are the same files.
    ensures names { file_names S.name files.new ≡ file_names S.name files.old }
    ensures wholes { file_wholes S.whole files.new ≡ file_wholes S.whole files.old }
{
    let texts = read_all(alloc, files)?;
    let journal = read_journal(alloc, texts.journal.as_slice())?;
    let verdict = check(alloc, &texts.inputs, &journal, &texts.replies)?;
    Ok(verdict)
}
