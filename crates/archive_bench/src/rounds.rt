//! What changes from round to round.

ghost use Rattle.std.specs.Prelude.{◌≡◌, ◌≤◌, ◌<◌, ◌+◌};

/// Where the next archive ends, of those of `step` bytes that stand one after another in `len` bytes; after the last comes the first again.
pub fn next_end(end: usize, step: usize, len: usize) -> usize
    ensures inside { result ≤ len }
    ensures next { end + step ≤ len → result ≡ end + step }
    ensures again { step ≤ len → len < end + step → result ≡ step }
{
    if step > len {
        return len;
    }
    if end > len - step {
        return step;
    }
    end + step
}

/// The length of what was written and one of its bytes, a later one each round.
pub fn probe(bytes: &[u8], round: usize) -> usize {
    let byte = match bytes.get(round & 0xff) {
        Some(byte) => usize::from(*byte),
        None => 0,
    };
    bytes.len().wrapping_add(byte)
}
