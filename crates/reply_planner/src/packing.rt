//! A reply's lists become a parcel.
ghost use Rattle.std.specs.Prelude.{◌≡◌, ◌+◌, ◌*◌, ◌^◌, ◌<◌, ◌≤◌, ◌++◌, ℕ, length, take, drop, map};
ghost use Rattle.view_sums.specs.Total.{Each};
ghost use Rattle.pinned_pool.specs.Moves.{hold_key};
ghost use Rattle.reply_layout.specs.Gathered.{IsStaged, read_all};
ghost use Rattle.reply_layout.specs.Layout.{staging_buffers_for};
ghost use Rattle.reply_planner.specs.Owned.{AreOwn, IsStaging, OnlyTookHolds, key_buffers};
ghost use Rattle.reply_planner.specs.Parcels.{pinned_keys, IsLaid, Hands};
ghost use Rattle.reply_planner.specs.Places.{reading, buffer_addresses, IsHeld};
ghost use Rattle.reply_planner.specs.Stages.{stage_size, merged};

use crate::filling::fill_words;
use crate::lists::Lists;
use crate::parcel::Parcel;
use crate::stage::Stage;
use pinned_pool::{Pool, PoolName, PoolSeat};

// The holds of staging buffers that are used, and the rest goes to the stage.
fn keep_used<N: PoolName>(stage: &mut Stage<N>, lists: &mut Lists<N>, used: usize)
    requires staging { Each (IsStaging N.sizes) lists.old.staged.items }
    requires room { length stage.old + length lists.old.staged.items ≤ stage_size }
    ensures used { lists.new.staged.items ≡ take used lists.old.staged.items }
    ensures rest { stage.new ≡ merged (drop used (key_buffers lists.old.staged.items)) stage.old }
    ensures same { (lists.new.text ≡ lists.old.text) × (lists.new.segments ≡ lists.old.segments)
        × (lists.new.pins ≡ lists.old.pins) }
{
    while lists.staged.len() > used {
        if let Some(hold) = lists.staged.pop() {
            stage.put(hold);
        }
    }
}

/// Puts a reply's copied bytes into its staging buffers, and makes a parcel of its segments, with the holds that
/// `own` has and those of the staging buffers that are used. So many of its credits go to the session's seat, and all
/// else goes to the stage.
pub(crate) fn pack<N: PoolName>(
    pool: &Pool<N>,
    seat: &mut PoolSeat<N>,
    stage: &mut Stage<N>,
    own: PoolSeat<N>,
    credits: u64,
    lists: Box<Lists<N>>,
    call: u32,
) -> Parcel<N>
    requires text { (0 < length lists.value.text.items)
        × (length lists.value.text.items ≤ 512 * length lists.value.staged.items) }
    requires staging { Each (IsStaging N.sizes) lists.value.staged.items }
    requires room { length stage.old + length lists.value.staged.items ≤ stage_size }
    requires buffers { AreOwn seat.old.holds (stage.old ++ key_buffers lists.value.staged.items) }
    requires pins { map hold_key own.holds ≡ lists.value.pins.items }
    requires own { (0 < credits) × (own.credits ≡ credits + 1) × OnlyTookHolds own }
    requires some { (0 < length lists.value.segments.items) × (length lists.value.segments.items < 2 ^ 32) }
    requires laid { Each
        (IsLaid N.sizes own.holds (key_buffers lists.value.staged.items) (length lists.value.text.items))
        lists.value.segments.items }
    ensures segments { result.segments ≡ lists.value.segments.items }
    ensures text { result.text ≡ read_all (reading N.sizes result.holds) result.segments }
    ensures call { result.call ≡ call }
    ensures staged { result.staged
        ≡ take (staging_buffers_for (length lists.value.text.items)) (key_buffers lists.value.staged.items) }
    ensures pinned { (result.pinned ≡ length lists.value.pins.items)
        × (result.paid ≡ pinned_keys lists.value.pins.items) }
    ensures copied { IsStaged (reading N.sizes result.holds)
        (buffer_addresses N.sizes (key_buffers lists.value.staged.items)) lists.value.text.items }
    ensures kept { (address n : ℕ) → IsHeld N.sizes own.holds address n
        → reading N.sizes result.holds address n ≡ reading N.sizes own.holds address n }
    ensures stage { stage.new
        ≡ merged (drop (staging_buffers_for (length lists.value.text.items)) (key_buffers lists.value.staged.items))
        stage.old }
    ensures hands { Hands result.staged own seat.old seat.new }
    ensures left { AreOwn seat.new.holds stage.new }
{
    let mut lists = lists;
    let mut own = own;
    let parts = &mut *lists;
    let used = parts.text.len().div_ceil(512);
    fill_words(pool, seat, &parts.staged, &mut parts.text);
    seat.is_seat();
    keep_used(stage, parts, used);
    pool.fetch(seat, &mut own, parts.staged.as_slice());
    own.is_seat();
    let rest = pool.split(&mut own, (), credits);
    pool.join(seat, rest);
    Parcel {
        seat: own,
        lists,
        call,
    }
}
