// How long the text of pairs is. A sum that would pass the last value of 64 bits stays there.
ghost use Rattle.std.specs.Prelude.{◌≡◌, length};
ghost use Rattle.dump_model.specs.Dump.{Pair};
ghost use Rattle.resp_text.specs.Sizes.{fitted};
ghost use Rattle.frag_value.specs.Pins.{KeyFrags};
ghost use Rattle.pin_dump.specs.Dumps.{pair_length, pairs_length};

use frag_value::PinnedPair;
use pinned_pool::PoolName;
use resp_text::line_size;

// Of the request that sets a key to its value.
fn pair_size<N: PoolName>(pair: &PinnedPair<N>) -> u64
    ensures { result ≡ fitted (pair_length pair.now) }
{
    let key = pair.key().len() as u64;
    let value = pair.value().len();
    let heads = 17 + line_size(key) as u64 + line_size(value) as u64;
    key.saturating_add(value).saturating_add(heads)
}

/// Of all requests.
pub(crate) fn pairs_size<N: PoolName>(pairs: &[PinnedPair<N>]) -> u64
    ensures { result ≡ fitted (pairs_length pairs.now) }
{
    let mut size = 0u64;
    for i in 0..pairs.len() {
        size = size.saturating_add(pair_size(&pairs[i]));
    }
    size
}
