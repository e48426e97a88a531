//! What a card finds: the descriptors of a frame, and the bytes that they name.
ghost use Rattle.std.specs.Prelude.{◌≡◌, ℕ, IfOk, OnOk, Some, slice_get};
ghost use Rattle.reply_planner.specs.Places.{reading};
ghost use Rattle.tx_ring.specs.Jobs.{frame_of, segments};

use flake_base::{Memory, Seg};
use hex::encode;
use pinned_pool::{Pool, PoolName};
use reply_planner::Parcel;
use std::alloc::{AllocError, Global};
use tx_ring::Job;

// The bytes of a segment, read under the reply's own holds.
fn read_segment<N: PoolName>(
    alloc: Global,
    pool: &Pool<N>,
    parcel: &mut Parcel<N>,
    segment: Seg,
) -> Result<Vec<u8>, AllocError>
    requires segment { (i : ℕ) × (slice_get parcel.old.segments i ≡ Some segment) }
    ensures parcel { parcel.new ≡ parcel.old }
    ensures bytes { IfOk result (λ v. v.items ≡ reading N.sizes parcel.old.holds segment.address segment.len) }
{
    parcel.is_parcel();
    let Some((buffer, from)) = pool.buffer_at(segment.address) else {
        unreachable!()
    };
    let mut bytes = Vec::from_elem(alloc, 0u8, segment.len as usize)?;
    parcel.load_bytes(pool, buffer, from, bytes.as_mut_slice());
    Ok(bytes)
}

/// A line for each descriptor, with its bytes and those that it names.
pub fn show_job<N: PoolName + Send>(
    alloc: Global,
    pool: &Pool<N>,
    job: &mut Job<Parcel<N>>,
) -> Result<String, Memory>
    requires job { segments job.old ≡ (frame_of job.old).segments }
    ensures { OnOk result (job.new ≡ job.old) }
{
    let mut text = String::new(alloc);
    for i in 0..job.count() {
        let descriptor = encode(alloc, job.descriptor(i))?;
        let segment = job.segment(i);
        let bytes = read_segment(alloc, pool, job.frame(), segment)?;
        let named = encode(alloc, bytes)?;
        text.push_str(descriptor.as_str())?;
        text.push_str(" ")?;
        text.push_str(named.as_str())?;
        text.push_str("\n")?;
    }
    Ok(text)
}
