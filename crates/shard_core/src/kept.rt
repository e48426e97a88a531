//! A map of values, and the seat that holds their fragments.
ghost use Rattle.std.specs.Prelude.{◌≡◌, ◌<◌, List, ℕ, Some, if◌then◌else◌, length, slice_get};
ghost use Rattle.indexmap.specs.IndexMap.{keys, spare, index_of_by, set_value_at, insert_entry};
ghost use Rattle.shard_core.specs.Keys.{same_bytes, key_eq, is_key};
ghost use Rattle.shard_core.specs.Kept.{value_at};

use crate::slot::Slot;
use frag_value::Value;
use indexmap::IndexMap;
use pinned_pool::{ClaimStart, PoolName, PoolSeat};
use std::alloc::Global;

pub(crate) type Values<P> = IndexMap<Vec<u8>, Slot<P>>;

/// Where the claims of the part begin that is done; a shard's values, the seat that holds their fragments, and what
/// memory is taken from.
#[derive(Drop)]
pub(crate) struct Kept<P: PoolName> {
    pub(crate) start: ClaimStart,
    pub(crate) alloc: Global,
    pub(crate) own: PoolSeat<P>,
    pub(crate) values: Values<P>,
}

/// The value that the key has at this index.
pub(crate) fn value_in<'a, P: PoolName>(
    values: &'a Values<P>,
    key: &[u8],
    index: usize,
) -> &'a Value<P>
    requires { index_of_by (is_key key.now) values.now ≡ Some index }
    ensures { value_at key.now values.now.entries ≡ Some result.now }
{
    let _ = key;
    let Some((_, slot)) = values.get_index(index) else {
        unreachable!()
    };
    slot.value()
}

/// The key and the value at this index.
pub(crate) fn entry_at<P: PoolName>(values: &Values<P>, index: usize) -> (&Vec<u8>, &Value<P>)
    requires { index < length values.now.entries }
    ensures { slice_get values.now.entries index ≡ Some (result.0.now, result.1.now) }
{
    let Some((key, slot)) = values.get_index(index) else {
        unreachable!()
    };
    (key, slot.value())
}

/// Puts a value in the place of the one that the key has at this index.
pub(crate) fn exchange<P: PoolName>(
    values: &mut Values<P>,
    key: &[u8],
    index: usize,
    value: Value<P>,
) -> Value<P>
    requires { index_of_by (is_key key.now) values.old ≡ Some index }
    ensures old { value_at key.now values.old.entries ≡ Some result }
    ensures entries { values.new.entries ≡ set_value_at values.old.entries index value }
    ensures keys { keys values.new ≡ keys values.old }
    ensures changed { (c : List ℕ) → value_at c values.new.entries
        ≡ (if same_bytes key.now c then Some value else value_at c values.old.entries) }
{
    let _ = key;
    let Some(slot) = values.get_index_mut(index) else {
        unreachable!()
    };
    slot.exchange(value)
}

/// Puts a value at a key, for which there is room.
pub(crate) fn insert<P: PoolName>(values: &mut Values<P>, name: Vec<u8>, value: Value<P>)
    requires { 0 < spare values.old }
    ensures entries { values.new.entries ≡ insert_entry key_eq values.old.entries name value }
    ensures changed { (c : List ℕ) → value_at c values.new.entries
        ≡ (if same_bytes name.items c then Some value else value_at c values.old.entries) }
{
    let Ok(_) = values.insert(name, Slot::new(value)) else {
        unreachable!()
    };
}
