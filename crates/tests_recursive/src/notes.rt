// A recursive enum with a map and with tuples that lead back to it, byte for byte, as docs/FORMAT.md has them: written, validated, viewed and read back; and
// damaged ones.

ghost use Rattle.std.specs.Prelude.{◌<◌};

use crate::assertions::{
    assert_changed, assert_holds, assert_same, assert_written, tag_of_none, value_of, viewed,
};
use archive_core::api::{HighValidator, access_with_context};
use archive_core::error::Error;
use archive_core::string::ArchivedString;
use recursive_fields::note::{ArchivedNote, Note, NoteView, ViewOfNote};
use std::alloc::{AllocError, Global};
use std::collections::BTreeMap;
use std::process::Abort;

// A note with its name, and who wrote it, if that is known.
fn named(
    alloc: Global,
    name: &str,
    note: Note,
    by: Option<String>,
) -> Result<(String, Note, Option<String>), AllocError> {
    let name = String::from_str(alloc, name)?;
    Ok((name, note, by))
}

fn text(alloc: Global, text: &str) -> Result<Note, AllocError> {
    Ok(Note::Text(String::from_str(alloc, text)?))
}

fn work(alloc: Global) -> Result<Note, AllocError> {
    let mut hours = BTreeMap::new(alloc);
    hours.insert(3, -1)?;
    Ok(Note::Work(hours))
}

fn notes(alloc: Global) -> Result<Note, AllocError> {
    let me = String::from_str(alloc, "me")?;
    let texts = named(alloc, "texts", text(alloc, "nobody knows")?, None)?;
    let work = named(alloc, "work", work(alloc)?, Some(me))?;
    let environment = named(alloc, "environment", text(alloc, "abc")?, None)?;
    Ok(Note::Table(vec![in alloc; texts, work, environment]?))
}

// The long text at 0, the hours at 12, the long name at 16, the three tuples at 28, and the table of them at 124. A tuple is a name, at 8 a note, and at 20 a tag
// and at 24 a text. Of the 12 bytes of a note the first is its tag, and what it holds lies at 4.
const NOTES: &[u8] = b"nobody knows\x03\0\xff\0environment\0\
    texts\xff\xff\xff\0\0\0\0\x8c\0\0\0\xd8\xff\xff\xff\0\0\0\0\0\0\0\0\0\0\0\0\
    work\xff\xff\xff\xff\x01\0\0\0\xc4\xff\xff\xff\x01\0\0\0\x01\0\0\0me\xff\xff\xff\xff\xff\xff\
    \x8b\0\0\0\xb4\xff\xff\xff\0\0\0\0abc\xff\xff\xff\xff\xff\0\0\0\0\0\0\0\0\0\0\0\0\
    \x02\0\0\0\x9c\xff\xff\xff\x03\0\0\0";

#[test]
fn notes_are_written_and_read_back(rt: HostRuntime) {
    let notes = notes(rt.alloc()).expect(&rt, "notes");
    assert_written(&rt, rt.alloc(), &notes, NOTES);
    let back: Note = value_of(&rt, rt.alloc(), NOTES);
    assert_written(&rt, rt.alloc(), &back, NOTES);
}

fn assert_entries(rt: &impl Abort, alloc: Global) {
    match viewed::<ArchivedNote>(rt, alloc, NOTES).variant() {
        ViewOfNote::Table(entries) => {
            let Some(last) = entries.as_slice().get(2) else {
                assert_holds(rt, "there are three entries", false);
                return;
            };
            let name = last.field::<ArchivedString>(0);
            assert_same(rt, "name", name.as_str(), "environment");
            let note = last.field::<ArchivedNote>(1);
            assert_same(rt, "the tag of the note", note.tag(), 0);
        }
        _ => assert_holds(rt, "a table", false),
    }
}

#[test]
fn views_of_tuples_that_lead_back(rt: HostRuntime) {
    assert_entries(&rt, rt.alloc());
}

fn assert_damaged(rt: &impl Abort, alloc: Global, at: usize, byte: u8, refusal: Error) {
    assert_changed::<ArchivedNote>(rt, alloc, NOTES, at, byte, refusal);
}

// What lies neither behind what was left before nor before what leads there.
fn elsewhere(position: i128, size: usize, start: usize, end: usize) -> Error {
    Error::InvalidSubtreePointer {
        position,
        size,
        start,
        end,
    }
}

// A byte of the text and of a name, tags, and more entries and tuples than there are.
#[test]
fn damaged_notes(rt: HostRuntime) {
    let alloc = rt.alloc();
    assert_damaged(&rt, alloc, 1, 0x80, Error::InvalidUtf8);
    assert_damaged(&rt, alloc, 16, 0xc0, Error::InvalidUtf8);
    assert_damaged(&rt, alloc, 80, 2, tag_of_none("ArchivedOption", 2));
    assert_damaged(&rt, alloc, 100, 8, tag_of_none("ArchivedNote", 8));
    assert_damaged(&rt, alloc, 124, 8, tag_of_none("ArchivedNote", 8));
    assert_damaged(&rt, alloc, 76, 2, elsewhere(16, 11, 20, 28));
    assert_damaged(&rt, alloc, 132, 4, elsewhere(28, 128, 0, 124));
}

// How many regions a check of the notes enters, with a limit of depth.
fn regions(alloc: Global, levels: usize) -> Result<usize, Error>
    requires { 0 < levels }
{
    let mut context = HighValidator::with_max_depth(alloc, NOTES, Some(levels));
    let _ = access_with_context::<ArchivedNote, HighValidator<'_>>(alloc, NOTES, &mut context)?;
    Ok(context.subtrees())
}

fn assert_regions(rt: &impl Abort, alloc: Global, levels: usize, wanted: Result<usize, Error>)
    requires { 0 < levels }
{
    let found = regions(alloc, levels);
    assert_same(rt, "regions", found, wanted);
}

// The root, the tuples, and in them the text, the hours and the long name.
#[test]
fn limits_of_depth(rt: HostRuntime) {
    let too_deep = Err(Error::ExceededMaximumSubtreeDepth);
    assert_regions(&rt, rt.alloc(), 3, too_deep);
    assert_regions(&rt, rt.alloc(), 4, Ok(5));
}

fn either(alloc: Global) -> Result<Note, AllocError> {
    let about = Note::About(Box::new(alloc, Note::Done(true))?);
    let days = Note::Days(vec![in alloc; 1, 2]?);
    let several = Note::Several(vec![in alloc; days]?);
    Ok(Note::Either(Box::new(alloc, about)?, Box::new(alloc, several)?))
}

// What the first box holds at 12, about what is done at 0; the days at 24, the one of several at 28, and what the second box holds at 40; the whole at 52.
const EITHER: &[u8] = b"\x03\x01\0\0\0\0\0\0\0\0\0\0\
    \x05\0\0\0\xf0\xff\xff\xff\0\0\0\0\
    \x01\0\x02\0\
    \x04\0\0\0\xf8\xff\xff\xff\x02\0\0\0\
    \x07\0\0\0\xf0\xff\xff\xff\x01\0\0\0\
    \x06\0\0\0\xd4\xff\xff\xff\xec\xff\xff\xff";

// Variants of the second block of the nest.
#[test]
fn variants_that_come_later(rt: HostRuntime) {
    let notes = either(rt.alloc()).expect(&rt, "notes");
    assert_written(&rt, rt.alloc(), &notes, EITHER);
    let back: Note = value_of(&rt, rt.alloc(), EITHER);
    assert_written(&rt, rt.alloc(), &back, EITHER);
    let days = tag_of_none("ArchivedNote", 8);
    assert_changed::<ArchivedNote>(&rt, rt.alloc(), EITHER, 28, 8, days);
}
