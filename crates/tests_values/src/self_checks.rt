// Types that validate themselves answer as their schemas do: with the same fault, or with as many regions entered.

ghost use Rattle.std.specs.Prelude.{◌≢◌, Some};

use crate::assertions::{HELLO_WORLD, assert_same};
use archive_check::context::HighValidator;
use archive_check::self_check::{SelfCheck, check_root};
use archive_schema::shape::Schema;
use archive_tuple::{ArchivedTuple1, ArchivedTuple2, ArchivedTuple3};
use archive_types::boxed::ArchivedBox;
use archive_types::map::ArchivedSortedMap;
use archive_types::primitive::{ArchivedI32, ArchivedNonZeroU16, ArchivedU32, ArchivedU128};
use archive_types::rc::{ArchivedRcWeak, RcFlavor};
use archive_types::result::ArchivedResult;
use archive_types::slice::ArchivedSlice;
use archive_types::string::{ArchivedStr, ArchivedString};
use archive_types::traits::Portable;
use archive_types::vec::ArchivedVec;
use std::alloc::{AllocError, Global};
use std::process::Abort;

// A weak pointer to a number, which its schema checks.
type Weak = ArchivedRcWeak<ArchivedU32, RcFlavor>;

// A bool and a byte, which validate themselves.
type Label = ArchivedTuple2<bool, u8>;

// Whether a type validates itself.
fn checks_itself<T: Portable>() -> bool {
    T::Check::is_direct()
}

// Whether a check and one by the schema accept with as many regions entered, or refuse alike; with so many levels.
fn answers_alike<T: Portable>(
    alloc: Global,
    schema: &Schema,
    bytes: &[u8],
    pos: usize,
    levels: Option<usize>,
) -> bool
    requires { levels ≢ Some 0 }
{
    let mut own = HighValidator::with_max_depth(alloc, bytes, levels);
    let mut other = HighValidator::with_max_depth(alloc, bytes, levels);
    let answer = check_root::<T, HighValidator<'_>>(bytes, pos, &mut own);
    if answer != schema.check(bytes, pos, &mut other) {
        return false;
    }
    answer.is_err() || own.subtrees() == other.subtrees()
}

// The same at each position, with any number of levels, and with three, two and one.
fn agrees<T: Portable>(alloc: Global, schema: &Schema, bytes: &[u8]) -> bool {
    for pos in 0..bytes.len().saturating_add(2) {
        let alike = answers_alike::<T>(alloc, schema, bytes, pos, None)
            && answers_alike::<T>(alloc, schema, bytes, pos, Some(3))
            && answers_alike::<T>(alloc, schema, bytes, pos, Some(2))
            && answers_alike::<T>(alloc, schema, bytes, pos, Some(1));
        if !alike {
            return false;
        }
    }
    true
}

// The archive with another byte at an index.
fn edited(alloc: Global, archive: &[u8], index: usize, value: u8) -> Result<Vec<u8>, AllocError> {
    let mut bytes = Vec::new(alloc);
    bytes.extend_from_slice(archive)?;
    if let Some(byte) = bytes.get_mut(index) {
        *byte = value;
    }
    Ok(bytes)
}

// The same for the archive, for each beginning of it, and with each byte in turn made another one.
fn agrees_when_edited<T: Portable>(rt: &impl Abort, alloc: Global, archive: &[u8]) -> bool {
    let schema = Schema::of::<T>(alloc).expect(rt, "a schema");
    for index in 0..archive.len() {
        if !agrees::<T>(alloc, &schema, &archive[..index]) {
            return false;
        }
        for value in [0, 1, 2, 0x7f, 0x80, 0xc3, 0xd8, 0xf0, 0xff] {
            let bytes = edited(alloc, archive, index, value).expect(rt, "memory for a copy");
            if !agrees::<T>(alloc, &schema, &bytes) {
                return false;
            }
        }
    }
    agrees::<T>(alloc, &schema, archive)
}

// In each row an archive of a type that validates itself, and answers so.
fn assert_agrees<T: Portable>(rt: &impl Abort, alloc: Global, archives: &[&[u8]]) {
    for archive in archives {
        let agrees = checks_itself::<T>() && agrees_when_edited::<T>(rt, alloc, archive);
        assert_same(rt, "the checks", (*archive, agrees), (*archive, true));
    }
}

#[test]
fn leaves_and_strings_answer_as_their_schemas_do(rt: HostRuntime) {
    let alloc = rt.alloc();
    assert_agrees::<ArchivedU128>(&rt, alloc, &[HELLO_WORLD]);
    let strings: [&[u8]; 3] = [
        HELLO_WORLD,
        b"hi\xff\xff\xff\xff\xff\xff",
        "héé\u{20ac}".as_bytes(),
    ];
    assert_agrees::<ArchivedString>(&rt, alloc, &strings);
}

#[test]
fn owners_answer_as_their_schemas_do(rt: HostRuntime) {
    let alloc = rt.alloc();
    let text = b"h\xc3\xa9\0\xfc\xff\xff\xff\x03\0\0\0";
    assert_agrees::<ArchivedBox<ArchivedStr>>(&rt, alloc, &[text]);
    let slice = b"\x01\0\0\0\xfc\xff\xff\xff\x02\0\0\0";
    assert_agrees::<ArchivedBox<ArchivedSlice<bool>>>(&rt, alloc, &[slice]);
    let units = b"\0\0\0\0\xff\xff\xff\xff";
    assert_agrees::<ArchivedVec<()>>(&rt, alloc, &[units]);
    let inner = b"\x01\0\0\0\xfc\xff\xff\xff\x02\0\0\0\xf8\xff\xff\xff\x01\0\0\0";
    assert_agrees::<ArchivedVec<ArchivedVec<bool>>>(&rt, alloc, &[inner]);
}

#[test]
fn maps_answer_as_their_schemas_do(rt: HostRuntime) {
    let alloc = rt.alloc();
    let signed = b"\xff\xff\xff\xff\x01\0\0\0\x01\0\0\0\0\0\0\0\xf0\xff\xff\xff\x02\0\0\0";
    assert_agrees::<ArchivedSortedMap<ArchivedI32, bool>>(&rt, alloc, &[signed]);
    let texts =
        b"hello world\0a\xff\xff\xff\xff\xff\xff\xff\x8b\0\0\0\xec\xff\xff\xff\xf0\xff\xff\xff\x02\0\0\0";
    assert_agrees::<ArchivedSortedMap<ArchivedString, ()>>(&rt, alloc, &[texts]);
}

#[test]
fn tuples_and_results_answer_as_their_schemas_do(rt: HostRuntime) {
    let alloc = rt.alloc();
    let items = b"\x01\0\0\0\x01\x02\x03\0\xf8\xff\xff\xff\x02\0\0\0";
    type Labelled = ArchivedTuple3<Label, ArchivedNonZeroU16, ArchivedVec<bool>>;
    assert_agrees::<Labelled>(&rt, alloc, &[items]);
    let outcomes: [&[u8]; 2] = [
        b"hello world\0\0\0\0\0\x8b\0\0\0\xf0\xff\xff\xff",
        b"\x01\0\x01\x02\0\0\0\0\0\0\0\0",
    ];
    type Outcome = ArchivedResult<ArchivedString, ArchivedNonZeroU16>;
    assert_agrees::<Outcome>(&rt, alloc, &outcomes);
}

#[test]
fn what_holds_a_pointer_that_is_shared_goes_by_its_schema(rt: HostRuntime) {
    let single = checks_itself::<ArchivedTuple1<Label>>();
    let nested = checks_itself::<ArchivedTuple2<ArchivedTuple1<bool>, Label>>();
    assert_same(&rt, "tuples", (single, nested), (true, true));
    let found = (
        checks_itself::<ArchivedTuple2<Weak, bool>>(),
        checks_itself::<ArchivedResult<bool, Weak>>(),
        checks_itself::<ArchivedSortedMap<u8, Weak>>(),
    );
    assert_same(
        &rt,
        "what holds a weak pointer",
        found,
        (false, false, false),
    );
}
