// Whole archives, and what they share: shared and weak pointers, pools, and cycles.

mod cycles;
mod edits;
mod endless;
mod kept;
mod pairs;
mod pools;
mod positions;
mod reading;
mod refusing;
mod rel_ptr;
mod shared;
mod shared_pairs;
mod shared_seals;
mod two_pools;
mod writing;

// The archive of the text "hello world": the text, a zero, and at 12 the string that points back at it.
const HELLO_WORLD: &[u8] = b"hello world\0\x8b\0\0\0\xf4\xff\xff\xff";
