//! Each call of a source, a wire or a host, in a function that has no clauses, so that no assertion carries those of
//! the call.
use flake_base::{Failed, Host, Source, Wire};

pub fn read(source: &mut impl Source, room: &mut [u8]) -> Result<usize, Failed> {
    if room.is_empty() {
        return Err(Failed);
    }
    source.read(room)
}

pub fn put(wire: &mut impl Wire, piece: &[u8]) -> Result<(), Failed> {
    if piece.is_empty() {
        return Err(Failed);
    }
    wire.put(piece)
}

pub fn flush(wire: &mut impl Wire) -> Result<(), Failed> {
    wire.flush()
}

pub fn open<H: Host>(host: &mut H, name: &str) -> Option<H::In> {
    host.open(name).ok()
}

pub fn say(host: &mut impl Host, piece: &[u8]) -> Result<(), Failed> {
    if piece.is_empty() {
        return Err(Failed);
    }
    host.say(piece)
}
