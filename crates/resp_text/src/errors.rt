ghost use Rattle.std.specs.Prelude.{◌≡◌};
ghost use Rattle.flake_model.specs.Reply as model;

use flake_base::ErrorKind;

/// The text of an error, as it stands behind the mark `-` and before the line end.
pub fn error_text(kind: ErrorKind) -> &'static str
    ensures { result.now ≡ model.error_text kind }
{
    match kind {
        ErrorKind::UnknownCommand => "ERR unknown command",
        ErrorKind::WrongCount => "ERR wrong number of arguments",
        ErrorKind::Syntax => "ERR syntax error",
        ErrorKind::TooManyKeys => "ERR too many keys",
        ErrorKind::KeyTooLong => "ERR key too long",
        ErrorKind::ValueTooLong => "ERR value too long",
        ErrorKind::NoBuffer => "OOM no free buffer",
        ErrorKind::ProtocolCount => "ERR Protocol error: invalid multibulk length",
        ErrorKind::ProtocolBulk => "ERR Protocol error: expected '$'",
        ErrorKind::ProtocolLength => "ERR Protocol error: invalid bulk length",
        ErrorKind::ProtocolInline => { "ERR Protocol error: inline commands are not supported" }
        ErrorKind::NotInteger => "ERR value is not an integer or out of range",
    }
}
