// The words of the command line.
ghost use Rattle.std.specs.Prelude.{◌≡◌, ◌<◌, ◌≤◌, length, IfOk, IfSome};
ghost use Rattle.std.specs.Option.{option_map};
ghost use Rattle.run_resources.specs.Opened.{HasRunSizes};
ghost use Rattle.command_line.specs.Frames.{CanServeFrames, shown_frames};
ghost use Rattle.command_line.specs.Task.{IsAllowed, task_shown};
ghost use Rattle.flake_run.specs.Task.{framed_job_of, job_of, shown_task, run_sizes, run_task_of, wires_of};

use command_line::{CommandName, FramesTask, ServeTask, command_name, frames_task, serve_task};
use flake_base::Memory;
use serve_inputs::RunSizes;
use std::alloc::Global;

/// The files that are to be served, the sizes to serve them with, how many workers do it, and whether the journal is
/// what is said of it.
#[derive(Debug, Drop)]
pub struct FilesTask<'a> {
    pub files: Vec<&'a str>,
    pub sizes: RunSizes,
    pub workers: u16,
    pub journal: bool,
}

impl<'a> FilesTask<'a> {
    /// How many wires it needs: one for each file, and one for the dump.
    pub fn wires(&self) -> usize
        ensures { result ≡ wires_of (shown_task self.now) }
    {
        match self.sizes.dump {
            Some(_) => self.files.len() + 1,
            None => self.files.len(),
        }
    }
}

/// The task that the words ask `serve` or `frames` for; none where they are bad words.
pub fn files_task<'a>(alloc: Global, words: &'a [String]) -> Result<Option<FilesTask<'a>>, Memory>
    ensures value { IfOk result (λ task. option_map shown_task task ≡ run_task_of words.entry.now) }
    ensures sized { IfOk result (λ task. IfSome task (λ t. HasRunSizes (length t.files.items) t.sizes)) }
    ensures workers { IfOk result (λ task. IfSome task (λ t. (0 < t.workers) × (t.workers ≤ 16))) }
{
    match command_name(words) {
        CommandName::Frames => match frames_task(alloc, words)? {
            Some(task) => Ok(Some(framed_task(task))),
            None => Ok(None),
        },
        _ => match serve_task(alloc, words)? {
            Some(task) => Ok(Some(sized_task(task))),
            None => Ok(None),
        },
    }
}

fn sized_task<'a>(task: ServeTask<'a>) -> FilesTask<'a>
    requires { IsAllowed (task_shown task) }
    ensures value { shown_task result ≡ job_of (task_shown task.entry) }
    ensures sized { HasRunSizes (length result.files.items) result.sizes }
    ensures workers { (0 < result.workers) × (result.workers ≤ 16) }
{
    FilesTask {
        sizes: sizes_of(task.dump, &task.sizes),
        workers: task.workers,
        journal: task.journal,
        files: task.files,
    }
}

// Nothing is dumped, and the summary is what is said of it.
fn framed_task<'a>(task: FramesTask<'a>) -> FilesTask<'a>
    requires { CanServeFrames (shown_frames task) }
    ensures value { shown_task result ≡ framed_job_of (shown_frames task.entry) }
    ensures sized { HasRunSizes (length result.files.items) result.sizes }
    ensures workers { (0 < result.workers) × (result.workers ≤ 16) }
{
    FilesTask {
        sizes: RunSizes {
            mtu: Some(task.mtu),
            ..sizes_of(None, &task.sizes)
        },
        workers: task.workers,
        journal: false,
        files: task.files,
    }
}

/// The sizes of a run, which dumps all shards before this call, if it is to.
pub(crate) fn sizes_of(dump: Option<u32>, sizes: &command_line::SizeOptions) -> RunSizes
    ensures { result ≡ run_sizes dump sizes.now }
{
    RunSizes {
        shards: sizes.shards,
        small: sizes.small,
        large: sizes.large,
        ring: sizes.ring,
        threshold: sizes.threshold,
        dump,
        mtu: None,
    }
}
