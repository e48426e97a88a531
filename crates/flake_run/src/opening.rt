// Files that are opened before any is read.
ghost use Rattle.std.specs.Prelude.{◌≡◌, ◌<◌, ◌≤◌, suc, [], ◌∷◌, length, map, vec_capacity, IfOk, IfErr};
ghost use Rattle.std.specs.List.{AllByRecursion, range_with_len};
ghost use Rattle.flake_run.specs.Opening.{AreOpened, FailsToOpen};
ghost use Rattle.flake_run.specs.Outcome.{GaveFront, opened_told, source_told, sources_of};

use crate::outcome::Opened;
use flake_base::{Host, Source};

/// Opens each file, in order. The first that doesn't open ends it: the sources of those in front come back.
pub fn open_files<H: Host>(
    host: &mut H,
    files: &[&str],
    room: Vec<H::In>,
) -> Result<Vec<H::In>, Vec<H::In>>
    requires { (room.items ≡ []) × (length files.now ≤ vec_capacity room) }
    ensures opened { IfOk result (λ sources. AreOpened (map (λ file. file.now) files.entry.now)
        (H.host_told host.old) (H.host_told host.new)
        (map (source_told H.In.name H.In.whole H.In.given H.In.ended H.In.read_faults) sources.items)) }
    ensures failed { IfErr result (λ sources. FailsToOpen (map (λ file. file.now) files.entry.now)
        (H.host_told host.old) (H.host_told host.new)
        (map (source_told H.In.name H.In.whole H.In.given H.In.ended H.In.read_faults) sources.items)) }
{
    let mut sources = room;
    for file in files {
        let Ok(source) = host.open(*file) else {
            return Err(sources);
        };
        let _ = sources.push(source);
    }
    Ok(sources)
}

/// The sources with their files' numbers, in room that was taken ahead.
pub fn numbered<S: Source + Drop>(sources: Vec<S>, room: Vec<Opened<S>>) -> Vec<Opened<S>>
    requires room { (room.items ≡ []) × (length sources.items ≤ vec_capacity room) }
    requires few { length sources.items ≤ 16 }
    ensures files { map (λ s. s.file) result.items ≡ range_with_len 0 (length sources.items) }
    ensures sources { map (λ s. s.source) result.items ≡ sources.items }
    ensures fronts { AllByRecursion GaveFront (sources_of (opened_told (source_told S.name S.whole S.given S.ended
        S.read_faults) result.items)) }
{
    let mut opened = room;
    for source in sources {
        let file = opened.len() as u16;
        let _ = opened.push(Opened { file, source });
    }
    opened
}

/// A first source and others behind it, with their files' numbers, in room that was taken ahead.
pub fn numbered_behind<S: Source + Drop>(
    first: S,
    sources: Vec<S>,
    room: Vec<Opened<S>>,
) -> Vec<Opened<S>>
    requires room { (room.items ≡ []) × (length sources.items < vec_capacity room) }
    requires few { length sources.items ≤ 16 }
    ensures files { map (λ s. s.file) result.items ≡ range_with_len 0 (suc (length sources.items)) }
    ensures sources { map (λ s. s.source) result.items ≡ first ∷ sources.items }
    ensures fronts { AllByRecursion GaveFront (sources_of (opened_told (source_told S.name S.whole S.given S.ended
        S.read_faults) result.items)) }
{
    let mut opened = room;
    let _ = opened.push(Opened {
        file: 0,
        source: first,
    });
    for source in sources {
        let file = opened.len() as u16;
        let _ = opened.push(Opened { file, source });
    }
    opened
}
