//! Values that are written: each into a new buffer, or all into one.

ghost use Rattle.std.specs.Prelude.{◌≡◌, IfOk};

use crate::rounds::probe;
use crate::values::Values;
use archive_core::api::{HighSerializer, to_bytes, to_bytes_in};
use archive_core::error::Error;
use archive_core::traits::Serialize;
use std::alloc::Global;

// Writes one of the values a round, in turns, into a new buffer or always into the same one. Returns the sum of the lengths and of a byte of each.
fn written<T: Serialize<HighSerializer<Vec<u8>, Global>>>(
    alloc: Global,
    values: &[T],
    count: usize,
    reuse: bool,
) -> Result<usize, Error>
    ensures { count ≡ 0 → IfOk result (λ n. n ≡ 0) }
{
    let mut total = 0usize;
    let mut buffer = Vec::new(alloc);
    let mut turn = 0;
    for round in 0..count {
        let Some(value) = values.get(turn) else {
            return Ok(total);
        };
        turn += 1;
        if turn == values.len() {
            turn = 0;
        }
        if reuse {
            buffer.clear();
            buffer = to_bytes_in(alloc, value, buffer)?;
        } else {
            // The old buffer is freed first, as by the other formats.
            drop(buffer);
            buffer = to_bytes(alloc, value)?;
        }
        total = total.wrapping_add(probe(buffer.as_slice(), round));
    }
    Ok(total)
}

/// Makes the set's values and writes one a round, each into a new buffer, or all into one if `reuse` is true. Returns the sum of the lengths and of a
/// byte of each; 0 if a value couldn't be made or written.
pub fn written_over<T: Serialize<HighSerializer<Vec<u8>, Global>> + Drop, S: Values<T>>(
    alloc: Global,
    size: usize,
    count: usize,
    reuse: bool,
) -> usize
    ensures { count ≡ 0 → result ≡ 0 }
{
    match S::values(alloc, size) {
        Ok(values) => written(alloc, values.as_slice(), count, reuse).unwrap_or(0),
        Err(_) => 0,
    }
}
