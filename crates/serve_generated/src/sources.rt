ghost use Rattle.std.specs.Prelude.{◌≡◌, ◌≤◌, IfOk, length, map};
ghost use Rattle.std.specs.List.{range_with_len};
ghost use Rattle.request_gen.specs.Words.{all_words, requests_text};
ghost use Rattle.serve_generated.specs.Input.{new_input};

use crate::input::InputSource;
use flake_base::Memory;
use request_gen::session_input;
use std::alloc::Global;

/// The first requests of so many sessions, a source for each.
pub(crate) fn generated_sources(
    alloc: Global,
    number: u32,
    sessions: u16,
    count: u32,
) -> Result<Vec<InputSource>, Memory>
    requires { sessions ≤ 16 }
    ensures inputs { IfOk result (λ sources. sources.items
        ≡ map (λ session. new_input (requests_text (all_words number session count))) (range_with_len 0 sessions)) }
    ensures many { IfOk result (λ sources. length sources.items ≡ sessions) }
{
    let mut sources = Vec::with_capacity(alloc, usize::from(sessions))?;
    for session in 0..sessions {
        let text = session_input(alloc, number, session, count)?;
        sources.push(InputSource::new(text))?;
    }
    Ok(sources)
}
