// What a session is asked to do.
ghost use Rattle.std.specs.Prelude.{◌≡◌};

use flake_base::Sequence;

/// A line of a schedule, with the number of its session.
#[derive(Clone, Copy, Debug, PartialEq, Eq, Drop)]
pub enum Line {
    /// The session's next command is called.
    Call(u16),
    /// Its next reply is gathered.
    Gather(u16),
    /// Its oldest gathered reply is reaped.
    Reap(u16),
}

pub type Schedule = Sequence<Line>;

impl Line {
    ghost use Rattle.schedule_text.specs.Text.{line_session};

    /// The session that it is for.
    pub fn session(&self) -> u16
        ensures { result ≡ line_session self.now }
    {
        match self {
            Line::Call(session) => *session,
            Line::Gather(session) => *session,
            Line::Reap(session) => *session,
        }
    }
}
