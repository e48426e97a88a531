// The verdict on files that a host holds.
ghost use Rattle.std.specs.Prelude.{◌≡◌, ◌≤◌, ◌%◌, [], length, map, vec_capacity, IfOk, IfErr};
ghost use Rattle.check_files.specs.Answer.{FailedBy, HasCauseIn, WereJudged};
ghost use Rattle.check_files.specs.File.{file_names, file_wholes, file_givens, file_endeds, file_faults};
ghost use Rattle.check_files.specs.Named.{named, NoneFailed};

use crate::opening::open_named;
use crate::{CheckError, File, check_files};
use flake_base::{Host, Source};
use replay_check::Verdict;
use std::alloc::Global;

/// Opens the files that have names, reads all whole, and says whether the replies are those that the journal gives.
/// All files that were opened come back, in their order.
pub fn check_named<H: Host>(
    alloc: Global,
    host: &mut H,
    names: &[Option<&str>],
    room: Vec<File<H::In>>,
) -> (Result<Verdict, CheckError>, Vec<File<H::In>>)
    requires room { (room.items ≡ []) × (length names.now ≤ vec_capacity room) }
    requires pairs { length names.now % 2 ≡ 1 }
    requires few { length names.now ≤ 33 }
    ensures verdict { IfOk result.0 (WereJudged (map named names.entry.now) (H.host_told host.old)
        (H.host_told host.new) (file_names H.In.name result.1.items) (file_wholes H.In.whole result.1.items)
        (file_givens H.In.given result.1.items) (file_endeds H.In.ended result.1.items)) }
    ensures none_failed { IfOk result.0 (λ v. NoneFailed (file_faults H.In.read_faults result.1.items)) }

    // Each error has its cause.
    ensures err { IfErr result.0 (HasCauseIn (map named names.entry.now) (H.host_told host.old)
        (H.host_told host.new) (file_names H.In.name result.1.items) (file_wholes H.In.whole result.1.items)
        (file_givens H.In.given result.1.items) (file_endeds H.In.ended result.1.items)) }
    ensures failed { IfErr result.0 (λ e. FailedBy e (file_faults H.In.read_faults result.1.items)) }

    // Nothing is said.
    ensures said { (H.host_told host.new).said ≡ (H.host_told host.old).said }
    ensures say_faults { (H.host_told host.new).say_faults ≡ (H.host_told host.old).say_faults }
{
    match open_named(host, names, room) {
        Ok(files) => {
            let mut files = files;
            let answer = check_files(alloc, files.as_mut_slice());
            (answer, files)
        }
        Err(files) => {
            let file = files.len() as u16;
            (Err(CheckError::OpenFault { file }), files)
        }
    }
}
