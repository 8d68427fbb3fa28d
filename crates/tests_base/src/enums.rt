// Options and results, as archives hold them.

mod options;
mod results;

use std::hash::{DefaultHasher, Hash, Hasher};

// What a value feeds a hasher comes to.
fn hash_of<T: Hash>(value: &T) -> u64 {
    let mut state = DefaultHasher::new();
    value.hash(&mut state);
    state.finish()
}
