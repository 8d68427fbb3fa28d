// Two texts that are edited through one loan of the bytes.

ghost use Rattle.std.specs.Prelude.{◌≡◌, Some};
ghost use Rattle.archive_core.specs.PartsLayout.{part_at, definitions_at};
ghost use Rattle.archive_core.specs.SealOutcomes.{IsSealOf};

use crate::assertions::{assert_holds, assert_same};
use archive_core::api::access_mut;
use archive_core::core_impls::ArchivedTuple2;
use archive_core::error::Error;
use archive_core::seal::{Seal, SpotExt};
use archive_core::string::ArchivedString;
use archive_core::traits::{ArchivePointee, Portable, Record};
use std::alloc::Global;

type Names = ArchivedTuple2<ArchivedString, ArchivedString>;

// Writes a text over that of part `i` of a record, where both have the same number of bytes. The seal shows the record as before.
fn write_part<R: Record>(seal: &mut Seal<'_, R>, i: usize, value: &str) -> bool
    requires come_to { IsSealOf R.definitions R.pointee seal.old }
    requires part { part_at R.Parts.parts i ≡ Some ⟦<ArchivedString as Portable>⟧.shape }
    requires definitions { definitions_at R.Parts.definitions i
        ≡ ⟦<ArchivedString as ArchivePointee>⟧.definitions }
    ensures same_reference { seal.new.bytes.ghost_name ≡ seal.old.bytes.ghost_name }
    ensures come_to { IsSealOf R.definitions R.pointee seal.new }
{
    let part = seal.as_ref().field::<ArchivedString>(i);
    if part.len() != value.len() {
        return false;
    }
    let spot = part.spot();
    seal.write_string_at(spot, value);
    true
}

// Writes over both texts of a pair, and answers whether both fit.
fn write_names(alloc: Global, bytes: &mut [u8], first: &str, second: &str) -> Result<bool, Error> {
    let mut names = match access_mut::<Names>(alloc, bytes) {
        Ok(names) => names,
        Err(error) => return Err(error),
    };
    let is_first = write_part(&mut names, 0, first);
    let is_second = write_part(&mut names, 1, second);
    Ok(is_first && is_second)
}

// The texts "hello" and "world" in place.
#[test]
fn two_texts_are_edited_through_one_loan(rt: HostRuntime) {
    let mut bytes = *b"hello\xff\xff\xffworld\xff\xff\xff";
    let written = write_names(rt.alloc(), &mut bytes, "jolly", "women").expect(&rt, "a pair");
    assert_holds(&rt, "both", written);
    let right = b"jolly\xff\xff\xffwomen\xff\xff\xff";
    assert_same(&rt, "the bytes", &bytes, right);
    let written = write_names(rt.alloc(), &mut bytes, "hey", "girls").expect(&rt, "a pair");
    assert_holds(&rt, "the second alone", !written);
    let right = b"jolly\xff\xff\xffgirls\xff\xff\xff";
    assert_same(&rt, "the bytes then", &bytes, right);
}
