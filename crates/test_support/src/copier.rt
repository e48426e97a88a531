ghost use Rattle.std.specs.Prelude.{◌≡◌, ◌+◌, ◌*◌, ◌<◌, ◌≤◌, [], true, false};
ghost use Rattle.std.specs.Prelude.{length, take, drop, vec_capacity, IfOk};
ghost use Rattle.pinned_pool.specs.Addresses.{address_of};
ghost use Rattle.pinned_pool.specs.Bytes.{bytes_of_words};
ghost use Rattle.pinned_pool.specs.Moves.{meant_count, front_of};

use flake_base::Memory;
use frag_value::{Frag, Taker, Value};
use pinned_pool::{Pool, PoolName, PoolSeat};
use std::alloc::Global;

/// A run of a fragment's bytes that was copied.
#[derive(Drop)]
pub struct Copied {
    pub address: u64,
    pub offset: u32,
    pub bytes: [u8; 4096],
    pub len: usize,
    pub over: bool,
    ghost short: { len ≤ 4096 },
}

/// Takes one value, or a range of one, and copies it.
#[derive(Drop)]
pub struct Copier {
    pub size: u64,
    pub whole: bool,
    pub fresh: bool,
    pub taking: bool,
    pub copies: Vec<Copied>,
    ghost limit: { size ≤ 65536 },
    ghost room: { 16 ≤ vec_capacity copies },
    ghost once: { fresh ≡ true → (taking ≡ false) × (copies.items ≡ []) },
}

impl Copier {
    pub fn new(alloc: Global) -> Result<Copier, Memory>
        ensures { IfOk result (λ c. (c.fresh ≡ true) × (c.taking ≡ false)) }
    {
        let copies = Vec::with_capacity(alloc, 16)?;
        Ok(Copier {
            size: 0,
            whole: true,
            fresh: true,
            taking: false,
            copies,
        })
    }
}

// A run's length, which no buffer is shorter than.
fn len_of<N: PoolName>(owner: &PoolSeat<N>, frag: &Frag<N>, from: u32, len: u32) -> usize
    requires held { 0 < meant_count frag.now.hold owner.now.holds }
    requires filled { (from + len ≤ frag.now.len)
        × (frag.now.len ≤ 8 * length (front_of frag.now.hold.buffer owner.now.holds)) }
    ensures len { result ≡ len }
    ensures short { result ≤ 4096 }
{
    owner.is_seat();
    let _ = from;
    let _ = frag;
    len as usize
}

fn copy<N: PoolName>(
    pool: &Pool<N>,
    owner: &mut PoolSeat<N>,
    frag: &Frag<N>,
    from: u32,
    len: u32,
) -> Copied
    requires held { 0 < meant_count frag.now.hold owner.old.holds }
    requires filled { (from + len ≤ frag.now.len)
        × (frag.now.len ≤ 8 * length (front_of frag.now.hold.buffer owner.old.holds)) }
    ensures owner { owner.new ≡ owner.old }
    ensures place { (result.address ≡ address_of N.sizes frag.now.hold.buffer)
        × (result.offset ≡ from) × (result.over ≡ false) }
    ensures bytes { take result.len result.bytes
        ≡ take len (drop from (bytes_of_words (front_of frag.now.hold.buffer owner.old.holds))) }
{
    let len = len_of(owner, frag, from, len);
    let buffer = frag.hold.buffer();
    let mut bytes = [0u8; 4096];
    pool.load_bytes(owner, buffer, from, &mut bytes[..len]);
    Copied {
        address: pool.address(buffer),
        offset: from,
        bytes,
        len,
        over: false,
    }
}

impl<N: PoolName> Taker<N> for Copier {
    ghost use Rattle.std.specs.Prelude.{List, [], ◌∷◌, Some, None, map, take, if◌then◌else◌};
    ghost use Rattle.frag_value.specs.Taken.{whole, entire, ranged};

    type Base = ();

    ghost taken = { λ c. if c.fresh then [] else (if c.taking then [] else whole (record {
      extent = if c.whole then entire else ranged;
      size = c.size;
      frags = map (λ f. record { address = f.address; offset = f.offset; bytes = take f.len f.bytes; over = f.over })
          c.copies.items;
    }) ∷ []) };

    ghost begun = { λ c. if c.taking then Some (record {
      extent = if c.whole then entire else ranged;
      size = c.size;
      frags = map (λ f. record { address = f.address; offset = f.offset; bytes = take f.len f.bytes; over = f.over })
          c.copies.items;
    }) else None };

    ghost base = { λ _. tt };

    ghost room = { λ c. if c.fresh then 1 else 0 };

    ghost range_room = { λ c. if c.fresh then 1 else 0 };

    fn begin(&mut self, len: u64) {
        self.size = len;
        self.whole = true;
        self.fresh = false;
        self.taking = true;
    }

    fn begin_part(&mut self, len: u64) {
        self.size = len;
        self.whole = false;
        self.fresh = false;
        self.taking = true;
    }

    fn take_part(
        &mut self,
        pool: &Pool<N>,
        owner: &mut PoolSeat<N>,
        frag: &Frag<N>,
        from: u32,
        len: u32,
    ) {
        let copied = copy(pool, owner, frag, from, len);
        self.copies.push_reserved(copied);
    }

    fn take_over(&mut self, pool: &Pool<N>, owner: &mut PoolSeat<N>, value: &mut Value<N>) {
        if let Some(frag) = value.next_frag() {
            let mut copied = copy(pool, owner, &frag, 0, frag.len);
            copied.over = true;
            self.copies.push_reserved(copied);
            let Frag { hold, len: _ } = frag;
            pool.unpin(owner, hold);
        }
    }

    fn finish(&mut self) {
        self.taking = false;
    }
}
