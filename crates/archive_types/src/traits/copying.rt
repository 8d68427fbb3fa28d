// Values that are copied in bulk.

ghost use Rattle.archive_check.specs.Denotes.{Naming};
ghost use Rattle.std.specs.Prelude.{◌≡◌, ◌*◌, ◌≤◌, ℕ, List, length, true, false};
ghost use Rattle.archive_check.specs.Value.{Value};
ghost use Rattle.archive_types.specs.Copies.{each_bytes, IsCopied, EachCopied, OwnsNothing};

use super::{Archive, Portable};
use std::marker::PhantomData;

/// Whether slices of a `T` are written in bulk. As in rkyv 0.8.18, where it is a constant, and a promise of what implements it.
#[derive(Clone, Copy, Debug)]
pub struct CopyOptimization<T> {
    is_enabled: bool,
    of: PhantomData<T>,
}

impl<T> CopyOptimization<T> {
    /// They are. As in rkyv 0.8.18, where the call is unsafe.
    pub fn enable() -> CopyOptimization<T>
        ensures { result.is_enabled ≡ true }
    {
        Self::enable_if(true)
    }

    /// They are where `is_enabled` holds. As in rkyv 0.8.18, where the call is unsafe.
    pub fn enable_if(is_enabled: bool) -> CopyOptimization<T>
        ensures { result.is_enabled ≡ is_enabled }
    {
        CopyOptimization {
            is_enabled,
            of: PhantomData,
        }
    }

    /// They aren't. As in rkyv 0.8.18.
    pub fn disable() -> CopyOptimization<T>
        ensures { result.is_enabled ≡ false }
    {
        Self::enable_if(false)
    }

    /// Whether they are. As in rkyv 0.8.18.
    pub fn is_enabled(&self) -> bool
        ensures { result ≡ self.now.is_enabled }
    {
        self.is_enabled
    }
}

/// A source whose values own nothing, and have each the same bytes wherever they are archived:
/// slices of such values can be written in bulk. It is beside `Archive`, so that what implements
/// that can call `slice::copy_groups`; `CopiedSource` says that the two agree.
pub trait Copied {
    /// The archived type.
    type CopiedAs: Portable;

    // The keys of a value, and what it means.
    ghost copied_keys: { Self → List Naming };

    ghost copied_meaning: { Self → Value };

    // The bytes of a value.
    ghost copied_bytes: { Self → List ℕ };

    /// How many bytes each value has: 1,024 at most.
    fn copied_size() -> usize
        ensures size { result ≡ Self.CopiedAs.layout.size }
        ensures small { result ≤ 1024 }
        ensures owns_nothing { (v : Self) → OwnsNothing Self.CopiedAs.definitions
            Self.CopiedAs.shape (copied_keys v) (copied_meaning v) };

    /// Writes the value's bytes over `bytes`. The caller must ensure that there are `copied_size`
    /// of them.
    fn copy_one(&self, bytes: &mut [u8])
        requires sized { length bytes.old ≡ Self.CopiedAs.layout.size }
        ensures copied { bytes.new ≡ copied_bytes self.now }
        ensures read { IsCopied Self.CopiedAs.definitions Self.CopiedAs.shape
            Self.CopiedAs.layout.size (copied_meaning self.now) (copied_bytes self.now) };

    /// Writes the bytes of the values, one after another, over `bytes`. The caller must ensure that
    /// these have the size of the values together.
    #[inline(always)]
    final fn copy_into(values: &[Self], bytes: &mut [u8])
        requires sized { length bytes.old ≡ length values.now * Self.CopiedAs.layout.size }
        ensures copied { bytes.new ≡ each_bytes Self.copied_bytes values.now }
        ensures read { EachCopied Self.CopiedAs.definitions Self.CopiedAs.shape
            Self.CopiedAs.layout.size Self.copied_meaning Self.copied_bytes values.now }
        ensures same_length { length bytes.new ≡ length bytes.old }
    {
        let size = Self::copied_size();
        for index in 0..values.len() {
            let begin = index * size;
            values[index].copy_one(&mut bytes[begin..begin + size]);
        }
    }
}

/// A source that is copied in bulk, as its `Archive` says: what is copied of a value has its keys and its meaning.
pub trait CopiedSource: Archive + Copied<CopiedAs = <Self as Archive>::Archived> {
    ghost same_keys: { Self.copied_keys ≡ Self.keys };

    ghost same_meaning: { Self.copied_meaning ≡ Self.meaning };
}
