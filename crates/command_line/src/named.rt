ghost use Rattle.std.specs.Prelude.{◌≡◌};
ghost use Rattle.command_line.specs.Named.{begins_with, name_of};
ghost use Rattle.command_line.specs.Task.{word_texts};

/// What the first word of a command line asks for.
#[derive(Clone, Copy, Debug, PartialEq, Eq)]
pub enum CommandName {
    /// `serve`, or a word that names no command: such words are bad words of `serve`.
    Serve,
    Check,
    Gen,
    Drive,
    Join,
    Frames,
}

/// The command that the words behind the program's name ask for.
pub fn command_name(words: &[String]) -> CommandName
    ensures { result ≡ name_of (word_texts words.now) }
{
    match words {
        [command, ..] if command.as_str() == "check" => CommandName::Check,
        [command, ..] if command.as_str() == "gen" => CommandName::Gen,
        [command, ..] if command.as_str() == "drive" => CommandName::Drive,
        [command, ..] if command.as_str() == "join" => CommandName::Join,
        [command, ..] if command.as_str() == "frames" => CommandName::Frames,
        _ => CommandName::Serve,
    }
}

/// Whether the first word is this one.
pub(crate) fn begins_with(words: &[String], name: &str) -> bool
    ensures { result ≡ begins_with name.now (word_texts words.now) }
{
    match words {
        [command, ..] => command.as_str() == name,
        [] => false,
    }
}
