// A session between its source and its wire.
use crate::dump::{DumpTaken, DumpTurn};
use command_pump::Pump;
use device_model::Device;
use flake_base::{SessionEnd, Source};
use order_book::{BookName, SessionSeat};
use pinned_pool::{PoolName, PoolSeat};
use reply_planner::Parcel;
use session_pass::Session;
use tx_descriptor::Framed;

/// A session, where its commands come from, and who gathers its replies.
#[derive(Drop)]
pub struct Link<N: BookName, P: PoolName + Send, S: Source>
where
    Parcel<P>: Framed,
{
    pub session: Session<N, P>,
    pub pump: Pump<S>,
    pub device: Device<P>,
    pub dump: DumpTurn<P>,
    /// Replies are put as frames of at most so many bytes, if there is a bound.
    pub mtu: Option<u16>,
}

/// What a served session leaves.
#[derive(Drop)]
pub struct ServedAccount<N: BookName, P: PoolName, S: Source> {
    pub end: SessionEnd,
    pub seat: PoolSeat<P>,
    pub mine: SessionSeat<N>,
    /// So many bytes were put in whole replies; a full count stands still.
    pub sent: u64,
    /// With its source, and what that gave.
    pub pump: Pump<S>,
    /// What came of the dump, if the session was asked for one.
    pub dump: Option<DumpTaken<P>>,
}
