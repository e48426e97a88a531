ghost use Rattle.std.specs.Prelude.{◌≡◌, ◌+◌, ◌*◌, ◌/◌, ◌<◌, ◌≤◌, length, take};
ghost use Rattle.view_sums.specs.Total.{Each};
ghost use Rattle.reply_planner.specs.Owned.{AreOwn, IsStaging, bare_all, key_buffers};
ghost use Rattle.reply_planner.specs.Filled.{IsFilledWith};

use pinned_pool::{Hold, Pool, PoolName, PoolSeat};

// Writes a text into staging buffers, 512 bytes into each but the last.
fn fill_each<N: PoolName>(pool: &Pool<N>, seat: &mut PoolSeat<N>, staged: &[Hold<N>], text: &[u8])
    requires staging { Each (IsStaging N.sizes) staged.now }
    requires own { AreOwn seat.old.holds (key_buffers staged.now) }
    requires fits { length text.now ≤ 512 * length staged.now }
    ensures filled { IsFilledWith text.now (key_buffers staged.now) seat.old seat.new }
{
    seat.is_seat();
    let used = text.len().div_ceil(512);
    for i in 0..used {
        let to = text.len().min(512 * i + 512);
        pool.put_bytes(seat, &staged[i], 0, &text[512 * i..to]);
    }
}

// Writes a text into staging buffers, 512 bytes into each but the last. Most texts lie in one.
#[inline(always)]
fn fill<N: PoolName>(pool: &Pool<N>, seat: &mut PoolSeat<N>, staged: &[Hold<N>], text: &[u8])
    requires staging { Each (IsStaging N.sizes) staged.now }
    requires own { AreOwn seat.old.holds (key_buffers staged.now) }
    requires fits { length text.now ≤ 512 * length staged.now }
    ensures filled { IsFilledWith text.now (key_buffers staged.now) seat.old seat.new }
{
    if text.is_empty() || text.len() > 512 {
        fill_each(pool, seat, staged, text);
        return;
    }
    seat.is_seat();
    pool.put_bytes(seat, &staged[0], 0, text);
}

// Makes a text longer up to the end of a word, where there is room, and answers where that is. Else the answer is where
// the text ends.
#[inline(always)]
fn pad(text: &mut Vec<u8>) -> usize
    ensures before { take (length text.old.items) text.new.items ≡ text.old.items }
    ensures end { (length text.old.items ≤ result) × (result ≤ length text.new.items) }
    ensures near { result ≤ (length text.old.items + 7) / 8 * 8 }
{
    let size = text.len();
    if text.capacity() - size < 8 {
        return size;
    }
    // There is room, so it doesn't fail.
    let _ = text.extend_from_slice(&[0u8; 8]);
    (text.len() - 1) / 8 * 8
}

/// Writes a text into staging buffers, 512 bytes into each but the last. A whole word costs less than a part of one, so
/// the text is made longer.
pub(crate) fn fill_words<N: PoolName>(
    pool: &Pool<N>,
    seat: &mut PoolSeat<N>,
    staged: &[Hold<N>],
    text: &mut Vec<u8>,
)
    requires staging { Each (IsStaging N.sizes) staged.now }
    requires own { AreOwn seat.old.holds (key_buffers staged.now) }
    requires fits { length text.old.items ≤ 512 * length staged.now }
    ensures filled { IsFilledWith text.old.items (key_buffers staged.now) seat.old seat.new }
{
    let end = pad(text);
    fill(pool, seat, staged, &text[..end]);
}
