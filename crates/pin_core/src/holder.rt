/// Who has a hold, or a credit.
#[derive(Clone, Copy, PartialEq, Eq, Debug)]
pub enum Holder {
    Shard(u16),
    Session(u16),
    Parcel { session: u16, call: u32 },
}
