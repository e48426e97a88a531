ghost use Rattle.std.specs.Prelude.{◌≡◌, IfOk, IfErr, OnOk};
ghost use Rattle.check_files.specs.File.{name_in, whole_in, given_in, ended_in, faults_in};
ghost use Rattle.check_files.specs.Whole.{GaveMore, IsReadWhole, IsUnread};

use crate::Unread;
use crate::whole::read_whole;
use flake_base::{Bytes, Source};
use std::alloc::Global;

/// A file that was opened, or none, in whose place no bytes stand.
#[derive(Drop)]
pub enum File<S> {
    Opened(S),
    Absent,
}

/// All bytes that a file still gives, if they are no more than so many.
pub(crate) fn read_file<S: Source>(
    alloc: Global,
    file: &mut File<S>,
    limit: usize,
) -> Result<Bytes, Unread>
    ensures ok { IfOk result (λ bytes. IsReadWhole limit (given_in S.given file.old) (given_in S.given file.new)
        (ended_in S.ended file.new) bytes.items) }
    ensures more { GaveMore (given_in S.given file.old) (given_in S.given file.new) }
    ensures faults { OnOk result (faults_in S.read_faults file.new ≡ faults_in S.read_faults file.old) }
    ensures err { IfErr result (λ unread. IsUnread unread limit (given_in S.given file.old) (given_in S.given file.new)
        (faults_in S.read_faults file.old) (faults_in S.read_faults file.new)) }
    ensures name { name_in S.name file.new ≡ name_in S.name file.old }
    ensures whole { whole_in S.whole file.new ≡ whole_in S.whole file.old }
{
    match file {
        File::Opened(source) => read_whole(alloc, source, limit),
        File::Absent => Ok(Bytes::new(alloc)),
    }
}
