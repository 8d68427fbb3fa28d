//! The entries of maps, pairs of a key and a value: the order of their keys.

ghost use Rattle.std.specs.Prelude.{◌≡◌};
ghost use Rattle.archive_tuple.specs.Entries.{entries_ascend};

/// Whether the keys of entries ascend strictly, each behind the one before it. Each two neighbours
/// are compared once, up to the first two that don't ascend.
pub fn is_ascending<K: Ord, V>(entries: &[(K, V)]) -> bool
    ensures { result ≡ entries_ascend K.cmp entries.now }
{
    let Some(last) = entries.len().checked_sub(1) else {
        return true;
    };
    for index in 0..last {
        let order = entries[index].0.cmp(&entries[index + 1].0);
        if !order.is_lt() {
            return false;
        }
    }
    true
}
