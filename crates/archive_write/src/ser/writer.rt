//! Writers.

ghost use Rattle.std.specs.Prelude.{◌≡◌, ◌++◌, ◌≤◌, ℕ, Bool, true, IsTrue, IsFalse, None, length, OnOk, OnErr, IfErr, IsErrOf, refl, replicate, ◌<◌};
ghost use Rattle.archive_check.specs.WriterState.{KeepsKeys, no_keys};
ghost use Rattle.archive_write.specs.Written.{IsBeginning, RoomFalls, ExplainsRefusal};
ghost use Rattle.archive_write.specs.Writes.{SpendsRoom, ExplainsWrite};

use archive_check::format::error::Error;
use archive_check::format::traits::Keys;
use core::mem::replace_with;
use std::alloc::Allocator;

/// What is at a position. As in rkyv 0.8.18.
pub trait Positional {
    // The position: how many bytes stand before it.
    ghost position: { Self → ℕ };

    /// The position: how many bytes come before it.
    fn pos(&self) -> usize
        ensures { result ≡ position self.now };
}

/// What takes bytes at its end. The call is that of rkyv 0.8.18; in contracts a writer has its
/// bytes, its room and its device's failures.
pub trait Writer: Positional + Keys {
    // Whether a write may ask for memory.
    ghost takes_memory: { Bool };

    /// Appends `bytes`. Fails with `OutOfMemory` if memory is refused, never where a write takes
    /// none; with `BufferOverflow` only if its room is less, and then nothing is taken; and with
    /// `WriterFailed` only if its device fails in this call or has failed `u64::MAX` times.
    /// Existing bytes stay, after a failure too. The shared keys are as before.
    fn write(&mut self, bytes: &[u8]) -> Result<(), Error>
        ensures written { OnOk result ((Self.state self.new).bytes ≡ (Self.state self.old).bytes
            ++ bytes.now) }
        ensures kept { OnErr result (IsBeginning (Self.state self.old).bytes
            (Self.state self.new).bytes) }
        ensures room { SpendsRoom Self.state self }
        ensures refusal { IfErr result (ExplainsWrite Self.state self Self.position
            (length bytes.now)) }
        ensures device { (Self.state self.old).failures ≤ (Self.state self.new).failures }
        ensures keys { KeepsKeys (Self.state self.old).states (Self.state self.new).states }
        ensures memory { IsErrOf result Error.OutOfMemory → IsTrue takes_memory };

    /// Appends `n` zeros, fewer than 32, as `write` does.
    #[inline(always)]
    fn write_zeros(&mut self, n: usize) -> Result<(), Error>
        requires { n < 32 }
        ensures written { OnOk result ((Self.state self.new).bytes ≡ (Self.state self.old).bytes
            ++ replicate n 0) }
        ensures kept { OnErr result (IsBeginning (Self.state self.old).bytes
            (Self.state self.new).bytes) }
        ensures room { SpendsRoom Self.state self }
        ensures refusal { IfErr result (ExplainsWrite Self.state self Self.position n) }
        ensures device { (Self.state self.old).failures ≤ (Self.state self.new).failures }
        ensures keys { KeepsKeys (Self.state self.old).states (Self.state self.new).states }
        ensures memory { IsErrOf result Error.OutOfMemory → IsTrue takes_memory }
    {
        let zeros = [0; 32];
        self.write(&zeros[..n])
    }

    /// Appends `bytes` if the room is at hand, so that no memory is requested and nothing can fail;
    /// else changes nothing and returns false. By default it returns false, and the caller then
    /// writes as ever.
    #[inline(always)]
    fn write_at_once(&mut self, bytes: &[u8]) -> bool
        ensures written { IsTrue result → (Self.state self.new).bytes ≡ (Self.state self.old).bytes
            ++ bytes.now }
        ensures room { IsTrue result → SpendsRoom Self.state self }
        ensures device { (Self.state self.old).failures ≤ (Self.state self.new).failures }
        ensures keys { KeepsKeys (Self.state self.old).states (Self.state self.new).states }
        ensures untouched { IsFalse result → Self.state self.new ≡ Self.state self.old }
    {
        false
    }

    /// Makes room for `n` more bytes at once, so that writes needn't piece by piece. A hint: it
    /// never fails and appends nothing, and by default it does nothing.
    #[inline(always)]
    fn make_room(&mut self, _n: usize)
        ensures unchanged { Self.state self.new ≡ Self.state self.old }
    {}

    // It stands behind the bytes that it tells.
    ghost position_law: { (w : Self) → Self.position w ≡ length (Self.state w).bytes };
}

/// What is borrowed is where its owner is.
impl<P: Positional> Positional for &P {
    ghost position = { λ r. P.position r.now };

    #[inline(always)]
    fn pos(&self) -> usize {
        P::pos(*self)
    }
}

/// What is borrowed is where its owner is.
impl<P: Positional> Positional for &mut P {
    ghost position = { λ r. P.position r.now };

    #[inline(always)]
    fn pos(&self) -> usize {
        P::pos(&**self)
    }
}

/// A borrowed writer writes to its owner, which keeps the bytes when the borrow ends.
impl<W: Writer> Writer for &mut W {
    ghost takes_memory = { W.takes_memory };

    ghost position_law = { λ r. W.position_law r.now };

    #[inline(always)]
    fn write(&mut self, bytes: &[u8]) -> Result<(), Error> {
        W::write(&mut **self, bytes)
    }

    #[inline(always)]
    fn write_zeros(&mut self, n: usize) -> Result<(), Error> {
        W::write_zeros(&mut **self, n)
    }

    #[inline(always)]
    fn write_at_once(&mut self, bytes: &[u8]) -> bool {
        W::write_at_once(&mut **self, bytes)
    }

    #[inline(always)]
    fn make_room(&mut self, n: usize) {
        W::make_room(&mut **self, n);
    }
}

impl<A: Allocator> Positional for Vec<u8, A> {
    ghost position = { λ v. length v.items };

    #[inline(always)]
    fn pos(&self) -> usize {
        self.len()
    }
}

// The list, with room for so many bytes more, and whether there is memory for it. It takes the list itself: were the place of the list lent to a call, all
// of a serializer would lie in memory. Nor does it take the bytes: a local array that is lent to no call lies in registers. (The place of `replace_with` is
// inlined where this isn't marked as cold.)
#[inline(never)]
fn with_room<A: Allocator>(mut list: Vec<u8, A>, n: usize) -> (Vec<u8, A>, bool)
    ensures { result.0.items ≡ list.items }
{
    let made = list.reserve(n).is_ok();
    (list, made)
}

/// A vector has no limit but memory. Fails with `OutOfMemory` alone, and then unchanged.
impl<A: Allocator> Writer for Vec<u8, A> {
    ghost takes_memory = { true };

    ghost position_law = { λ v. refl };

    #[inline(always)]
    fn write(&mut self, bytes: &[u8]) -> Result<(), Error>
        ensures written { OnOk result (self.new.items ≡ self.old.items ++ bytes.now) }
        ensures kept { OnErr result (IsBeginning self.old.items self.new.items) }
        ensures room { RoomFalls None None self.old.items self.new.items }
        ensures refusal { IfErr result (ExplainsRefusal (length bytes.now) (length self.old.items)
            (length self.new.items) None 0 0) }
        ensures device { 0 ≤ 0 }
        ensures keys { KeepsKeys no_keys no_keys }
        ensures memory { IsErrOf result Error.OutOfMemory → IsTrue true }
        ensures unchanged { OnErr result (self.new.items ≡ self.old.items) }
        ensures out_of_memory { IfErr result (λ e. e ≡ Error.OutOfMemory) }
    {
        if self.capacity() - self.len() < bytes.len()
            && !replace_with(self, bytes.len(), with_room)
        {
            return Err(Error::OutOfMemory);
        }
        // The room is asked for once more, so that the compiled code grows nothing here.
        if self.capacity() - self.len() < bytes.len() {
            return Err(Error::OutOfMemory);
        }
        Ok(self.extend_from_slice(bytes)?)
    }

    // Where there is room for 32 zeros they are written and cut: so many take one step.
    #[inline(always)]
    fn write_zeros(&mut self, n: usize) -> Result<(), Error> {
        if self.capacity() - self.len() < 32 {
            let zeros = [0; 32];
            return self.write(&zeros[..n]);
        }
        let end = self.len() + n;
        self.extend_from_slice(&[0; 32])?;
        self.truncate(end);
        Ok(())
    }

    #[inline(always)]
    fn write_at_once(&mut self, bytes: &[u8]) -> bool {
        if self.capacity() - self.len() < bytes.len() {
            return false;
        }
        self.extend_from_slice(bytes).is_ok()
    }

    #[inline(always)]
    fn make_room(&mut self, n: usize) {
        let _ = replace_with(self, n, with_room);
    }
}
