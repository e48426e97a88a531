ghost use Rattle.std.specs.Prelude.{◌≤◌, length};

/// What replies are made of.
#[derive(Clone, Copy)]
pub struct Asked<'a> {
    /// How many replies there are.
    pub replies: u32,
    /// How often a value is handed to each. Without one the reply is the line that answers a PING.
    pub values: usize,
    /// The line that stands before more than one.
    pub head: &'a [u8],
    ghost few: { (values ≤ 64) × (length head.now ≤ 23) },
}
