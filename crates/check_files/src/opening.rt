// Files that are opened by their names, in order.
ghost use Rattle.std.specs.Prelude.{◌≡◌, ◌≤◌, [], length, map, take, vec_capacity, is_none, IfOk, IfErr, OnErr};
ghost use Rattle.check_files.specs.File.{name_in, whole_in, given_in, ended_in, faults_in};
ghost use Rattle.check_files.specs.File.{file_names, file_wholes, file_givens, file_endeds, file_faults};
ghost use Rattle.check_files.specs.Named.{AreUnread, FailsOne, FileFails, FilesOpened, named, NoneFailed, OpensOne};

use crate::File;
use flake_base::{Failed, Host, Source};

// Opens a file, if it has a name.
fn open_one<H: Host>(host: &mut H, name: Option<&str>) -> Result<File<H::In>, Failed>
    ensures opens { IfOk result (λ file. OpensOne (named name.entry) (H.host_told host.old) (H.host_told host.new)
        (whole_in H.In.whole file)) }
    ensures name { IfOk result (λ file. name_in H.In.name file ≡ named name.entry) }
    ensures unread { IfOk result (λ file. given_in H.In.given file ≡ []) }
    ensures ended { IfOk result (λ file. ended_in H.In.ended file ≡ is_none (named name.entry)) }
    ensures fresh { IfOk result (λ file. faults_in H.In.read_faults file ≡ 0) }
    ensures failed { OnErr result (FailsOne (named name.entry) (H.host_told host.old) (H.host_told host.new)) }
{
    match name {
        Some(name) => match host.open(name) {
            Ok(source) => Ok(File::Opened(source)),
            Err(Failed) => Err(Failed),
        },
        None => Ok(File::Absent),
    }
}

/// Opens each file that has a name, in order. The first that doesn't open ends it: those in front come back.
pub fn open_named<H: Host>(
    host: &mut H,
    names: &[Option<&str>],
    room: Vec<File<H::In>>,
) -> Result<Vec<File<H::In>>, Vec<File<H::In>>>
    requires { (room.items ≡ []) × (length names.now ≤ vec_capacity room) }
    ensures opened { IfOk result (λ files. FilesOpened (map named names.entry.now) (H.host_told host.old)
        (H.host_told host.new) (file_names H.In.name files.items) (file_wholes H.In.whole files.items)) }
    ensures unread { IfOk result (λ files. AreUnread (map named names.entry.now)
        (file_givens H.In.given files.items) (file_endeds H.In.ended files.items)) }
    ensures fresh { IfOk result (λ files. NoneFailed (file_faults H.In.read_faults files.items)) }
    ensures failed { IfErr result (λ files. FileFails (map named names.entry.now) (length files.items)
        (H.host_told host.old) (H.host_told host.new) (file_names H.In.name files.items)
        (file_wholes H.In.whole files.items)) }
    ensures failed_unread { IfErr result (λ files. AreUnread (take (length files.items) (map named names.entry.now))
        (file_givens H.In.given files.items) (file_endeds H.In.ended files.items)) }
    ensures failed_fresh { IfErr result (λ files. NoneFailed (file_faults H.In.read_faults files.items)) }
    ensures said { (H.host_told host.new).said ≡ (H.host_told host.old).said }
    ensures say_faults { (H.host_told host.new).say_faults ≡ (H.host_told host.old).say_faults }
{
    let mut files = room;
    for name in names {
        let Ok(file) = open_one(host, *name) else {
            return Err(files);
        };
        let _ = files.push(file);
    }
    Ok(files)
}
