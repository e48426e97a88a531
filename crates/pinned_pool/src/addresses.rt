//! The addresses of a pool's buffers.
ghost use Rattle.std.specs.Prelude.{◌≡◌, ℕ, IfSome, None};
ghost use Rattle.pinned_pool.specs.Addresses.{address_of, Covers};

use crate::name::PoolName;
use crate::pool::Pool;

const BASE: u64 = 1_048_576;

impl<N: PoolName> Pool<N> {
    /// The address of the buffer's first byte. The small buffers stand one after another, 512 bytes each, and behind
    /// them the large ones, 4,096 bytes each. A number behind the last buffer has the address that a further one would
    /// have.
    pub fn address(&self, buffer: u32) -> u64
        ensures { result ≡ address_of N.sizes buffer }
    {
        let buffer = u64::from(buffer);
        let small = u64::from(self.small);
        if buffer < small {
            BASE + 512 * buffer
        } else {
            BASE + 512 * small + 4096 * (buffer - small)
        }
    }

    /// The buffer that has the byte, and the byte's offset in it. `None` where no buffer covers the address.
    pub fn buffer_at(&self, address: u64) -> Option<(u32, u32)>
        ensures some { IfSome result (λ r. Covers N.sizes r.0 r.1 address) }
        ensures none { result ≡ None → (b : ℕ) (i : ℕ) → Covers N.sizes b i address → ⊥ }
    {
        if address < BASE {
            return None;
        }
        let at = address - BASE;
        let small_bytes = 512 * u64::from(self.small);
        if at < small_bytes {
            return Some(((at / 512) as u32, (at % 512) as u32));
        }
        let rest = at - small_bytes;
        if rest / 4096 >= u64::from(self.large) {
            return None;
        }
        Some((self.small + (rest / 4096) as u32, (rest % 4096) as u32))
    }
}
