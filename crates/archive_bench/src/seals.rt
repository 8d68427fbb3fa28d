//! A number that is written over in place.

ghost use Rattle.std.specs.Prelude.{◌≡◌, ◌≤◌, Some, IfSome};
ghost use Rattle.archive_core.specs.PartsLayout.{part_at, definitions_at};
ghost use Rattle.archive_core.specs.KnownParts.{KnowsAlso};
ghost use Rattle.archive_core.specs.ComesTo.{IsComeTo};
ghost use Rattle.archive_core.specs.SealsKept.{KeepsSeals};
ghost use Rattle.archive_core.specs.Standing.{view};
ghost use Rattle.archive_bench.specs.Lists.{optional_list, SpotBeside};

use crate::sets::ArchivedSmall;
use archive_core::api::access;
use archive_core::option::ArchivedOption;
use archive_core::primitive::ArchivedI32;
use archive_core::seal::{SealedLeaf, Spot, SpotExt};
use archive_core::traits::{ArchivePointee, Portable, Record};
use archive_core::vec::ArchivedVec;
use archive_core::view::Ref;
use std::alloc::Global;

// Where the third element stands of the list that a record's part with the index 2 may be.
fn third<R: Record, T: Portable>(root: Ref<'_, R>) -> Option<Spot<T>>
    requires shape { part_at R.Parts.parts 2 ≡ Some (optional_list T.shape) }
    requires definitions { KnowsAlso (definitions_at R.Parts.definitions 2) T.definitions }
    ensures { IfSome result (λ s. SpotBeside T.pointee s root.entry) }
{
    let list = root.field::<ArchivedOption<ArchivedVec<T>>>(2).as_ref()?;
    let item = list.as_slice().get(2)?;
    Some(item.spot())
}

// Writes a value over the leaf at a spot. What seals reach beside it, they reach as before.
fn write_leaf<T: SealedLeaf>(bytes: &mut [u8], spot: Spot<T>, value: T::Written)
    requires come_to { IsComeTo T.definitions bytes.old spot.pos T.pointee spot.len }
    requires can_hold { T.can_hold value }
    ensures { KeepsSeals bytes.old bytes.new (view spot.pos T.pointee spot.len) }
{
    spot.seal(bytes).write(value);
}

// Writes a value over that element, and answers whether there is one. Seals come to the root as before.
fn write_third<R: Record, T: Portable + SealedLeaf>(
    bytes: &mut [u8],
    root: Spot<R>,
    value: T::Written,
) -> bool
    requires come_to { IsComeTo R.definitions bytes.old root.pos R.pointee root.len }
    requires shape { part_at R.Parts.parts 2 ≡ Some (optional_list T.shape) }
    requires definitions { KnowsAlso (definitions_at R.Parts.definitions 2) T.definitions }
    requires can_hold { T.can_hold value }
    ensures come_to { IsComeTo R.definitions bytes.new root.pos R.pointee root.len }
{
    let spot = match third::<R, T>(root.view(bytes)) {
        None => return false,
        Some(spot) => spot,
    };
    write_leaf(bytes, spot, value);
    true
}

// How many of `count` writes over that number found one.
fn written_over<R: Record>(bytes: &mut [u8], root: Spot<R>, count: usize) -> usize
    requires come_to { IsComeTo R.definitions bytes.old root.pos R.pointee root.len }
    requires shape { part_at R.Parts.parts 2 ≡ Some (optional_list
        ⟦<ArchivedI32 as Portable>⟧.shape) }
    requires definitions { KnowsAlso (definitions_at R.Parts.definitions 2)
        ⟦<ArchivedI32 as ArchivePointee>⟧.definitions }
    ensures { result ≤ count }
{
    let mut written = 0;
    for round in 0..count {
        if write_third::<R, ArchivedI32>(bytes, root, (round & 0xffff) as i32) {
            written += 1;
        }
    }
    written
}

/// Goes to the third number of a small record's list `count` times and writes another one over it; the record was checked once. How many were
/// written; 0 where the bytes are refused.
#[unsafe(no_mangle)]
pub extern "C" fn archive_bench_seal_record(alloc: Global, bytes: &mut [u8], count: usize) -> usize
    ensures { result ≤ count }
{
    let root = match access::<ArchivedSmall>(alloc, bytes) {
        Ok(root) => root.spot(),
        Err(_) => return 0,
    };
    written_over(bytes, root, count)
}
