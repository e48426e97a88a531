// The files of a check, which are read whole in their order.
ghost use Rattle.std.specs.Prelude.{◌≡◌, ◌≢◌, ◌<◌, ◌≤◌, ◌%◌, ◌++◌, ◌∷◌, [], ℕ, Some, true};
ghost use Rattle.std.specs.Prelude.{length, slice_get, IfOk, IfErr, OnOk};
ghost use Rattle.replay_check.specs.Inputs.{contents};
ghost use Rattle.check_files.specs.File.{file_names, file_wholes, file_givens, file_endeds, file_faults};
ghost use Rattle.check_files.specs.Files.{file_limit, texts_since, AllReadToEnd, AllGaveMore, AreContents, AreWithin};
ghost use Rattle.check_files.specs.Files.{IsTextOf};
ghost use Rattle.check_files.specs.Stopped.{of_unread, FaultsBy, WhyStopped, IsStoppedAt, ReadsBy};

use crate::file::read_file;
use crate::{CheckError, File, Unread};
use flake_base::{Bytes, Inputs, Memory, Source, Texts};
use std::alloc::Global;

/// The most bytes of an input.
const INPUT: usize = 67_108_864;

/// The most bytes of a journal's text or of replies.
const TEXT: usize = 134_217_728;

fn limit_of(place: usize) -> usize
    ensures { result ≡ file_limit place }
{
    if place % 2 == 1 { INPUT } else { TEXT }
}

// Why there is no verdict, where a file of this number wasn't read whole.
fn error_at(unread: Unread, file: u16) -> CheckError
    ensures { result ≡ of_unread file unread }
{
    match unread {
        Unread::Fault => CheckError::ReadFault { file },
        Unread::TooLarge => CheckError::TooLarge { file },
        Unread::Memory => CheckError::Memory,
    }
}

/// All bytes that the file at a place still gives.
pub fn read_at<S: Source>(
    alloc: Global,
    files: &mut [File<S>],
    place: usize,
) -> Result<Bytes, CheckError>
    requires within { place < length files.old }
    requires few { length files.old ≤ 33 }
    ensures text { IfOk result (λ bytes.
        IsTextOf (texts_since (file_givens S.given files.old) (file_givens S.given files.new)) place bytes.items) }
    ensures ended { OnOk result (slice_get (file_endeds S.ended files.new) place ≡ Some true) }
    ensures more { AllGaveMore (file_givens S.given files.old) (file_givens S.given files.new) }
    ensures others { (k : ℕ) → k ≢ place
        → slice_get (file_givens S.given files.new) k ≡ slice_get (file_givens S.given files.old) k }
    ensures others_ended { (k : ℕ) → k ≢ place
        → slice_get (file_endeds S.ended files.new) k ≡ slice_get (file_endeds S.ended files.old) k }
    ensures faults { OnOk result (file_faults S.read_faults files.new ≡ file_faults S.read_faults files.old) }
    ensures err { IfErr result
        (IsStoppedAt (texts_since (file_givens S.given files.old) (file_givens S.given files.new)) place) }
    ensures counts { IfErr result (λ e. FaultsBy e (file_faults S.read_faults files.old)
        (file_faults S.read_faults files.new)) }
    ensures names { file_names S.name files.new ≡ file_names S.name files.old }
    ensures wholes { file_wholes S.whole files.new ≡ file_wholes S.whole files.old }
{
    match read_file(alloc, &mut files[place], limit_of(place)) {
        Ok(bytes) => Ok(bytes),
        Err(unread) => Err(error_at(unread, place as u16)),
    }
}

// Puts a text behind others.
fn put(texts: &mut Texts, text: Bytes) -> Result<(), Memory>
    ensures { OnOk result (texts.new.items ≡ texts.old.items ++ text ∷ []) }
{
    texts.push(text)?;
    Ok(())
}

/// What the files of a check gave.
#[derive(Debug, Drop)]
pub struct Contents {
    pub journal: Bytes,
    pub inputs: Inputs,
    pub replies: Texts,
}

/// Reads all files whole, in order: a journal's text, and then each session's input and its replies.
pub fn read_all<S: Source>(alloc: Global, files: &mut [File<S>]) -> Result<Contents, CheckError>
    requires pairs { length files.old % 2 ≡ 1 }
    requires few { length files.old ≤ 33 }
    ensures contents { IfOk result (λ texts.
        AreContents (texts_since (file_givens S.given files.old) (file_givens S.given files.new))
        texts.journal.items (contents texts.inputs.items) (contents texts.replies.items)) }
    ensures within { OnOk result (AreWithin
        (texts_since (file_givens S.given files.old) (file_givens S.given files.new)) (length files.old)) }
    ensures ended { OnOk result (AllReadToEnd (file_endeds S.ended files.new)) }
    ensures more { AllGaveMore (file_givens S.given files.old) (file_givens S.given files.new) }
    ensures faults { OnOk result (file_faults S.read_faults files.new ≡ file_faults S.read_faults files.old) }
    ensures err { IfErr result
        (WhyStopped (texts_since (file_givens S.given files.old) (file_givens S.given files.new))) }
    ensures reads { IfErr result (λ e. ReadsBy e (file_givens S.given files.old) (file_givens S.given files.new)
        (file_endeds S.ended files.old) (file_endeds S.ended files.new)) }
    ensures counts { IfErr result (λ e. FaultsBy e (file_faults S.read_faults files.old)
        (file_faults S.read_faults files.new)) }
    ensures names { file_names S.name files.new ≡ file_names S.name files.old }
    ensures wholes { file_wholes S.whole files.new ≡ file_wholes S.whole files.old }
{
    let journal = read_at(alloc, files, 0)?;
    let mut inputs = Inputs::new(alloc);
    let mut replies = Texts::new(alloc);
    for session in 0..files.len() / 2 {
        let input = read_at(alloc, files, 2 * session + 1)?;
        let reply = read_at(alloc, files, 2 * session + 2)?;
        put(&mut inputs, input)?;
        put(&mut replies, reply)?;
    }
    Ok(Contents {
        journal,
        inputs,
        replies,
    })
}
