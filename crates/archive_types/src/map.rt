//! Sorted maps: entries in a region of their own, whose keys ascend, with their number.

ghost use Rattle.std.specs.Prelude.{◌≡◌, refl};
ghost use Rattle.std.proofs.Common.{inl, inr};
ghost use Rattle.archive_check.specs.Shape.{one, sorted_map};
ghost use Rattle.archive_check.specs.SelfCheck.Maps.{entry_size, entry_definitions};
ghost use Rattle.archive_types.specs.Members.Maps.{entries_checked, entries_reached};

mod iter;
mod owned;
mod reading;
mod search;
mod slices;
mod sorted_keys;
mod sources;
mod views;

use crate::traits::{ArchivePointee, MapKey, Portable, PortableParts};
use archive_check::format::error::Error;
use archive_check::format::expr::{Defs, Expr};
use archive_check::self_check::MapCheck;
pub use iter::Iter;
pub use slices::SortedEntries;
pub use sorted_keys::SortedKey;
pub use sources::SortedMapResolver;
use std::alloc::Global;
use std::marker::PhantomData;

/// An archived sorted map: eight bytes at a multiple of four, an offset to the entries and their
/// number. An entry is a key and its value; the keys ascend strictly.
///
/// ```
/// let view = access::<ArchivedSortedMap<ArchivedString, ArchivedU32>>(alloc, bytes.as_slice())?;
/// let count = view.get(&name);          // name: String
/// ```
///
/// rkyv 0.8.18's maps have other formats.
#[derive(Debug)]
pub struct ArchivedSortedMap<K, V> {
    of: PhantomData<(K, V)>,
}

impl<K: MapKey, V: Portable> ArchivePointee for ArchivedSortedMap<K, V> {
    type ArchivedMetadata = ();

    ghost pointee = { one (sorted_map K.key V.shape) };

    ghost definitions = { entry_definitions K.definitions V.definitions };

    ghost metadata_length = { λ _. 0 };

    fn pointer_metadata(_metadata: &()) -> usize {
        0
    }
}

impl<K: MapKey, V: Portable> Portable for ArchivedSortedMap<K, V> {
    ghost shape = { sorted_map K.key V.shape };

    ghost layout = { record { size = 8; align = 4 } };

    type Check = MapCheck<K, V>;

    ghost is_one = { refl };

    ghost is_align = { inr (inr (inl refl)) };

    ghost has_layout = { record { solved = λ s k. refl } };

    ghost no_others = { entries_reached K.definitions K.shape V.definitions V.shape K.key K.is_key
        K.no_others V.no_others };

    ghost checks = { entries_checked K.definitions K.shape V.definitions V.shape K.key K.is_key
        K.layout.size K.Check.definitions K.Check.shape K.Check.span K.Check.nameless K.Check.direct
        V.layout.size V.Check.definitions V.Check.shape V.Check.span V.Check.nameless V.Check.direct
        (entry_size K.layout V.layout) K.checks V.checks };

    fn size() -> usize {
        8
    }

    fn align() -> usize {
        4
    }

    fn expr(alloc: Global) -> Result<Expr, Error> {
        Ok(Expr::Map(K::key(), Box::new(alloc, V::expr(alloc)?)?))
    }

    fn define(alloc: Global, defs: &mut Defs) -> Result<(), Error> {
        <(K, (V, ())) as PortableParts>::define(alloc, defs)
    }
}
