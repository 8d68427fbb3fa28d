//! What is written to every writer.

ghost use Rattle.std.specs.Prelude.{◌≡◌, ◌++◌, ◌<◌, ◌≤◌, OnOk, OnErr, IfOk, IfErr, IsErrOf, IsTrue, length, replicate};
ghost use Rattle.archive_check.specs.WriterState.{KeepsKeys, Pads};
ghost use Rattle.archive_write.specs.Written.{IsBeginning, padding};
ghost use Rattle.archive_write.specs.Writes.{SpendsRoom, ExplainsWrite, ExplainsPadding, Padded};

use crate::ser::Writer;
use archive_check::format::error::Error;
use archive_check::format::traits::Portable;

// How many zeros stand between a position and the next multiple of an alignment.
#[inline(always)]
fn zeros_due(pos: usize, align: usize) -> usize
    requires { 0 < align }
    ensures due { result ≡ padding align pos }
    ensures few { result < align }
{
    let past = pos % align;
    (align - past) % align
}

/// As many bytes or more are long: room for them is made at once.
const LONG: usize = 1024;

/// Room is made for this many bytes more: for what mostly follows the last long region of an
/// archive, its owner and the root.
const BEHIND: usize = 64;

// Makes room at once for so many values of a size, if they are long together.
#[inline(always)]
fn make_room_for<W: Writer>(writer: &mut W, count: usize, size: usize)
    ensures unchanged { W.state writer.new ≡ W.state writer.old }
    ensures same_position { W.position writer.new ≡ W.position writer.old }
{
    let bytes = count.saturating_mul(size);
    if bytes >= LONG {
        writer.make_room(bytes.saturating_add(BEHIND));
    }
}

/// What every writer can do besides. Errors are those of the writer's `write`: `OutOfMemory`,
/// `BufferOverflow` and `WriterFailed`; existing bytes stay. As in rkyv 0.8.18.
pub trait WriterExt: Writer {
    /// Writes `n` zeros. Requires fewer than 32, where rkyv 0.8.18 takes 32, too.
    #[inline(always)]
    final fn pad(&mut self, n: usize) -> Result<(), Error>
    where
        Self: Sized,
        requires { n < 32 }
        ensures written { OnOk result ((Self.state self.new).bytes ≡ (Self.state self.old).bytes
            ++ replicate n 0) }
        ensures kept { OnErr result (IsBeginning (Self.state self.old).bytes
            (Self.state self.new).bytes) }
        ensures room { SpendsRoom Self.state self }
        ensures refusal { IfErr result (ExplainsWrite Self.state self Self.position n) }
        ensures device { (Self.state self.old).failures ≤ (Self.state self.new).failures }
        ensures keys { KeepsKeys (Self.state self.old).states (Self.state self.new).states }
        ensures memory { IsErrOf result Error.OutOfMemory → IsTrue Self.takes_memory }
    {
        if n == 0 {
            return Ok(());
        }
        self.write_zeros(n)
    }

    /// Writes zeros up to the next multiple of `align` bytes, and returns the position there, in
    /// bytes from the first one. The caller must ensure that `align` is from 1 to 32; it need not
    /// be a power of two.
    #[inline(always)]
    final fn align(&mut self, align: usize) -> Result<usize, Error>
    where
        Self: Sized,
        requires low { 0 < align }
        requires high { align ≤ 32 }
        ensures position { IfOk result (λ p. p ≡ Self.position self.new) }
        ensures written { OnOk result (Padded Self.state self Self.position align) }
        ensures kept { OnErr result (IsBeginning (Self.state self.old).bytes
            (Self.state self.new).bytes) }
        ensures room { SpendsRoom Self.state self }
        ensures refusal { IfErr result (ExplainsPadding Self.state self Self.position align) }
        ensures device { (Self.state self.old).failures ≤ (Self.state self.new).failures }
        ensures keys { KeepsKeys (Self.state self.old).states (Self.state self.new).states }
        ensures memory { IsErrOf result Error.OutOfMemory → IsTrue Self.takes_memory }
    {
        self.pad(zeros_due(self.pos(), align))?;
        Ok(self.pos())
    }

    /// Writes zeros up to the alignment of `T`, and returns the position there, in bytes from the
    /// first one.
    #[tactic(auto, using(crate::proofs::Padding::pads_by))]
    #[inline(always)]
    final fn align_for<T: Portable>(&mut self) -> Result<usize, Error>
    where
        Self: Sized,
        ensures position { IfOk result (λ p. p ≡ Self.position self.new) }
        ensures padded { OnOk result (Pads T.layout.align (Self.state self.old)
            (Self.state self.new)) }
        ensures written { OnOk result (Padded Self.state self Self.position T.layout.align) }
        ensures kept { OnErr result (IsBeginning (Self.state self.old).bytes
            (Self.state self.new).bytes) }
        ensures room { SpendsRoom Self.state self }
        ensures refusal { IfErr result (ExplainsPadding Self.state self Self.position
            T.layout.align) }
        ensures device { (Self.state self.old).failures ≤ (Self.state self.new).failures }
        ensures keys { KeepsKeys (Self.state self.old).states (Self.state self.new).states }
        ensures memory { IsErrOf result Error.OutOfMemory → IsTrue Self.takes_memory }
    {
        self.align(T::align())
    }

    /// As `align_for`, with room made at once for `count` values, if these are long.
    #[inline(always)]
    final fn align_for_run<T: Portable>(&mut self, count: usize) -> Result<usize, Error>
    where
        Self: Sized,
        ensures position { IfOk result (λ p. p ≡ Self.position self.new) }
        ensures padded { OnOk result (Pads T.layout.align (Self.state self.old)
            (Self.state self.new)) }
        ensures written { OnOk result (Padded Self.state self Self.position T.layout.align) }
        ensures kept { OnErr result (IsBeginning (Self.state self.old).bytes
            (Self.state self.new).bytes) }
        ensures room { SpendsRoom Self.state self }
        ensures refusal { IfErr result (ExplainsPadding Self.state self Self.position
            T.layout.align) }
        ensures device { (Self.state self.old).failures ≤ (Self.state self.new).failures }
        ensures keys { KeepsKeys (Self.state self.old).states (Self.state self.new).states }
        ensures memory { IsErrOf result Error.OutOfMemory → IsTrue Self.takes_memory }
    {
        make_room_for(self, count, T::size());
        self.align_for::<T>()
    }

    /// As `write`, with room made at once, if the bytes are long.
    #[inline(always)]
    final fn write_long(&mut self, bytes: &[u8]) -> Result<(), Error>
    where
        Self: Sized,
        ensures written { OnOk result ((Self.state self.new).bytes ≡ (Self.state self.old).bytes
            ++ bytes.now) }
        ensures kept { OnErr result (IsBeginning (Self.state self.old).bytes
            (Self.state self.new).bytes) }
        ensures room { SpendsRoom Self.state self }
        ensures refusal { IfErr result (ExplainsWrite Self.state self Self.position
            (length bytes.now)) }
        ensures device { (Self.state self.old).failures ≤ (Self.state self.new).failures }
        ensures keys { KeepsKeys (Self.state self.old).states (Self.state self.new).states }
        ensures memory { IsErrOf result Error.OutOfMemory → IsTrue Self.takes_memory }
    {
        make_room_for(self, bytes.len(), 1);
        self.write(bytes)
    }
}

impl<W: Writer> WriterExt for W {}
