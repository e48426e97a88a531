// The files of a check that were opened.
ghost use Rattle.std.specs.Prelude.{◌≡◌, ◌<◌, ◌≤◌, ◌++◌, ◌∷◌, [], length, vec_len, vec_capacity};
ghost use Rattle.std.specs.List.{AllByRecursion};
ghost use Rattle.flake_run.specs.Files.{opened_from};
ghost use Rattle.flake_run.specs.Outcome.{GaveFront, opened_told, source_told, sources_of};

use crate::outcome::Opened;
use check_files::File;
use flake_base::Source;

// Puts a source behind others, with its number, if it is there.
fn put_opened<S: Source + Drop>(opened: &mut Vec<Opened<S>>, place: u16, file: File<S>)
    requires { vec_len opened.old < vec_capacity opened.old }
    ensures items { opened.new.items ≡ opened.old.items ++ opened_from place (file ∷ []) }
    ensures room { vec_capacity opened.old ≤ vec_capacity opened.new }
{
    if let File::Opened(source) = file {
        let _ = opened.push(Opened {
            file: place,
            source,
        });
    }
}

/// The sources of the files that are there, with their numbers, in room that was taken ahead.
pub fn opened_of<S: Source + Drop>(files: Vec<File<S>>, room: Vec<Opened<S>>) -> Vec<Opened<S>>
    requires room { (room.items ≡ []) × (length files.items ≤ vec_capacity room) }
    requires few { length files.items ≤ 33 }
    ensures items { result.items ≡ opened_from 0 files.items }
    ensures fronts { AllByRecursion GaveFront (sources_of (opened_told (source_told S.name S.whole S.given S.ended
        S.read_faults) result.items)) }
{
    let mut opened = room;
    let mut place = 0;
    for file in files {
        put_opened(&mut opened, place, file);
        place += 1;
    }
    opened
}
