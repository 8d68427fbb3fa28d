// More entries than a map can have.

ghost use Rattle.std.specs.Prelude.{◌≡◌, ⊤, refl, [], pos, length, OnOk, IfErr, None};
ghost use Rattle.archive_types.specs.Outcomes.{ResolvesAs};
ghost use Rattle.archive_check.specs.Definitions.{no_definition};
ghost use Rattle.archive_types.specs.Members.Keyed.{number_keyed};
ghost use Rattle.archive_types.specs.Members.Planned.{leaf_planned};
ghost use Rattle.archive_check.specs.Shape.{leaf, number as number_kind, unsigned};
ghost use Rattle.archive_check.specs.Value.{number};
ghost use Rattle.archive_types.specs.Writing.{ZeroedPlace};
ghost use Rattle.std.specs.Int.{w8};

use crate::assertions::assert_unwritten;
use archive_check::format::error::Error;
use archive_types::map::{SortedEntries, SortedKey};
use archive_types::place::Place;
use archive_types::ser::Writer;
use archive_types::traits::{Archive, CopyOptimization, Keys, Portable, Serialize};
use std::alloc::Global;
use std::process::Abort;

// A key that is archived as a 1 and takes no memory of the machine, so that a slice of any length can be had.
#[derive(Clone, Copy, Debug, PartialEq, Eq, PartialOrd, Ord, Drop)]
struct One;

impl Archive for One {
    type Archived = u8;

    type Resolver = ();

    ghost meaning = { λ _. number (pos 1) };

    ghost flat = { λ _ _. number (pos 1) };

    ghost keys = { λ _. [] };

    ghost belongs = { λ _ _. ⊤ };

    ghost in_bulk = { None };

    ghost keyed = { λ _. number_keyed (pos 1) };

    ghost planned = { λ _. leaf_planned no_definition (leaf (number_kind unsigned w8))
        (number_kind unsigned w8) [] (pos 1) refl };

    fn resolve(&self, _resolver: (), place: Place<'_, u8>) -> Result<(), Error>
        requires zeroed { ZeroedPlace 1 place.pos place.bytes.now }
        requires same_value { ⊤ }
        ensures { ResolvesAs ⟦<Self::Archived as Portable>⟧ place
            (⟦<Self as Archive>⟧.flat self.now _resolver) result }
    {
        let Place { bytes, pos, .. } = place;
        1u8.resolve((), Place::new(pos, bytes))
    }

    #[inline(always)]
    fn copy_optimization() -> CopyOptimization<Self> {
        CopyOptimization::disable()
    }

    #[inline(always)]
    fn serialize_copied<S: Writer + Keys>(
        _values: &[Self],
        _together: usize,
        _serializer: &mut S,
    ) -> Result<Option<usize>, Error> {
        Ok(None)
    }
}

impl<S: Writer + Keys> Serialize<S> for One {
    fn serialize(&self, serializer: &mut S) -> Result<(), Error> {
        1u8.serialize(serializer)
    }
}

impl SortedKey for One {
    ghost sorted = { λ x y. refl };

    ghost exact = { λ x y e. (refl, refl) };
}

// So many entries are refused so, and nothing is written. As a parameter the number isn't counted out by the check.
fn assert_so_many_refused<const N: usize>(rt: &impl Abort, alloc: Global, error: Error) {
    let entries = [(One, ()); N];
    let entries = SortedEntries { entries: &entries };
    assert_unwritten(rt, "so many", alloc, &entries, error);
}

// The keys of so many entries don't ascend, either.
#[test]
fn entries_are_counted_before_their_keys_are_compared(rt: HostRuntime) {
    assert_so_many_refused::<4_294_967_296>(&rt, rt.alloc(), Error::LengthTooLarge);
    assert_so_many_refused::<4_294_967_295>(&rt, rt.alloc(), Error::UnsortedKeys);
}
