//! A writer over bytes that are lent to it.

ghost use Rattle.std.specs.Prelude.{◌≡◌, ◌+◌, ◌-◌, ◌≤◌, ◌++◌, ◌↔◌, length, take, drop, false, IsTrue, IsFalse, None, Some, OnOk, OnErr, IfErr, IsOk, IsErrOf};
ghost use Rattle.std.proofs.Common.{sym};
ghost use Rattle.std.proofs.lemmas.List.{length-take-le};
ghost use Rattle.archive_check.specs.WriterState.{KeepsKeys, no_keys};
ghost use Rattle.archive_check.specs.declared.format.error.Error.TheVariants.{BufferOverflow};
ghost use Rattle.archive_write.specs.Written.{IsBeginning};
ghost use Rattle.archive_write.specs.Writes.{HoldsMore, SpendsRest, ExplainsFull};

use crate::ser::{Positional, Writer};
use archive_check::format::error::Error;
use archive_check::format::traits::Keys;

/// A writer over bytes that are lent to it. Those beyond what is written stay as they were. rkyv
/// 0.8.18 lends bytes that may be uninitialized, too.
///
/// ```
/// let mut array = [0; 64];
/// let buffer = to_bytes_in(alloc, &value, Buffer::from(&mut array))?;
/// let archive = buffer.as_slice();
/// ```
#[derive(Drop)]
pub struct Buffer<'a> {
    bytes: &'a mut [u8],
    len: usize,
    ghost in_bounds: { len ≤ length bytes.now },
}

/// The bytes, of which none is written yet.
impl<'a> From<&'a mut [u8]> for Buffer<'a> {
    ghost from_gives = { λ b w. (w.bytes.now ≡ b.now) × (w.bytes.ghost_name ≡ b.ghost_name)
        × (w.len ≡ 0) };

    fn from(bytes: &'a mut [u8]) -> Buffer<'a> {
        Buffer { bytes, len: 0 }
    }
}

/// The array's bytes, of which none is written yet.
impl<'a, const N: usize> From<&'a mut [u8; N]> for Buffer<'a> {
    ghost from_gives = { λ b w. (w.bytes.now ≡ b.now) × (w.len ≡ 0) };

    fn from(bytes: &'a mut [u8; N]) -> Buffer<'a> {
        Buffer::from(bytes.as_mut_slice())
    }
}

impl<'a> Buffer<'a> {
    /// What is written, from the first byte.
    pub fn as_slice(&self) -> &[u8]
        ensures { result.now ≡ (⟦<Buffer<'a> as Keys>⟧.state self.now).bytes }
    {
        &self.bytes[..self.len]
    }
}

impl<'a> Positional for Buffer<'a> {
    ghost position = { λ b. b.len };

    fn pos(&self) -> usize {
        self.len
    }
}

impl<'a> Keys for Buffer<'a> {
    ghost state = { λ b. record {
      bytes = take b.len b.bytes.now;
      room = Some (length b.bytes.now - b.len);
      failures = 0;
      states = no_keys;
    } };
}

/// A write fails with `BufferOverflow` exactly if the bytes don't fit, and then changes nothing. It
/// takes no memory.
impl<'a> Writer for Buffer<'a> {
    ghost takes_memory = { false };

    ghost position_law = { λ b. sym (length-take-le b.len b.bytes.now b.in_bounds) };

    fn write(&mut self, bytes: &[u8]) -> Result<(), Error>
        ensures written { OnOk result (HoldsMore self.old.len self.old.bytes.now self.new.len
            self.new.bytes.now bytes.now) }
        ensures kept { OnErr result (IsBeginning (take self.old.len self.old.bytes.now)
            (take self.new.len self.new.bytes.now)) }
        ensures room { SpendsRest self.old.len self.old.bytes.now self.new.len self.new.bytes.now }
        ensures refusal { IfErr result (ExplainsFull bytes.now self.old.len self.old.bytes.now
            self.new.len self.new.bytes.now) }
        ensures device { 0 ≤ 0 }
        ensures keys { KeepsKeys no_keys no_keys }
        ensures memory { IsErrOf result Error.OutOfMemory → IsTrue false }
        ensures fits { IsOk result ↔ (self.old.len + length bytes.now ≤ length self.old.bytes.now) }
        ensures overflow { IfErr result (λ e. e ≡ BufferOverflow (length bytes.now)
            (length self.old.bytes.now) self.old.len) }
        ensures unchanged { OnErr result ((self.new.bytes.now ≡ self.old.bytes.now)
            × (self.new.len ≡ self.old.len)) }
        ensures beyond { drop self.new.len self.new.bytes.now
            ≡ drop self.new.len self.old.bytes.now }
        ensures same_reference { self.new.bytes.ghost_name ≡ self.old.bytes.ghost_name }
    {
        if !self.write_at_once(bytes) {
            return Err(Error::BufferOverflow {
                write_len: bytes.len(),
                cap: self.bytes.len(),
                len: self.len,
            });
        }
        Ok(())
    }

    #[inline(always)]
    fn write_at_once(&mut self, bytes: &[u8]) -> bool
        ensures written { IsTrue result → HoldsMore self.old.len self.old.bytes.now self.new.len
            self.new.bytes.now bytes.now }
        ensures room { IsTrue result → SpendsRest self.old.len self.old.bytes.now self.new.len
            self.new.bytes.now }
        ensures device { 0 ≤ 0 }
        ensures keys { KeepsKeys no_keys no_keys }
        ensures untouched { IsFalse result → ⟦<Buffer<'a> as Keys>⟧.state self.new
            ≡ ⟦<Buffer<'a> as Keys>⟧.state self.old }
        ensures unchanged { IsFalse result → (self.new.bytes.now ≡ self.old.bytes.now)
            × (self.new.len ≡ self.old.len) }
        ensures fits { IsTrue result ↔ (self.old.len + length bytes.now
            ≤ length self.old.bytes.now) }
        ensures beyond { drop self.new.len self.new.bytes.now
            ≡ drop self.new.len self.old.bytes.now }
        ensures same_length { length self.new.bytes.now ≡ length self.old.bytes.now }
        ensures same_reference { self.new.bytes.ghost_name ≡ self.old.bytes.ghost_name }
    {
        let room = self.bytes.len() - self.len;
        if bytes.len() > room {
            return false;
        }
        let end = self.len + bytes.len();
        self.bytes[self.len..end].copy_from_slice(bytes);
        self.len = end;
        true
    }
}
