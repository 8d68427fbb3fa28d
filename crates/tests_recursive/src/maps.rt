// A sorted map in a recursive struct, byte for byte: written, validated, viewed and read back; and damaged ones.

use crate::assertions::{
    assert_changed, assert_holds, assert_read, assert_same, assert_written, viewed,
};
use archive_core::error::Error;
use recursive_fields::folder::{ArchivedFolder, Folder, FolderView};
use std::alloc::{AllocError, Global};
use std::collections::BTreeMap;
use std::process::Abort;

fn empty_folder(alloc: Global, id: u8) -> Folder {
    Folder {
        id,
        entries: BTreeMap::new(alloc),
    }
}

// Folder 1 has folders 3 and 4, the first under a long name.
fn folder(alloc: Global) -> Result<Folder, AllocError> {
    let mut entries = BTreeMap::new(alloc);
    entries.insert(String::from_str(alloc, "b")?, empty_folder(alloc, 4))?;
    entries.insert(
        String::from_str(alloc, "assignments")?,
        empty_folder(alloc, 3),
    )?;
    Ok(Folder { id: 1, entries })
}

// The long name at 0, the entries at 12, in the order of their names, and the folder that has them at 52. A folder is its number, and at 4 an offset and a length;
// an entry is a name, and at 8 a folder.
const FOLDER: &[u8] =
    b"assignments\0\x8b\0\0\0\xf4\xff\xff\xff\x03\0\0\0\xf4\xff\xff\xff\0\0\0\0b\xff\xff\xff\xff\xff\xff\xff\x04\0\0\0\xe0\xff\xff\xff\0\0\0\0\x01\0\0\0\xd4\xff\xff\xff\x02\0\0\0";

#[test]
fn map_of_a_struct(rt: HostRuntime) {
    let folder = folder(rt.alloc()).expect(&rt, "a folder");
    assert_written(&rt, rt.alloc(), &folder, FOLDER);
    assert_read(&rt, rt.alloc(), FOLDER, &folder);
}

fn assert_entries(rt: &impl Abort, alloc: Global) {
    let folder = viewed::<ArchivedFolder>(rt, alloc, FOLDER);
    let Some((name, second)) = folder.entries().get_at(1) else {
        assert_holds(rt, "there are two entries", false);
        return;
    };
    assert_same(rt, "its name", name.as_str(), "b");
    assert_same(rt, "number", second.id().get(), 4);
}

#[test]
fn views_of_a_map_of_a_struct(rt: HostRuntime) {
    assert_entries(&rt, rt.alloc());
}

fn assert_folder_changed(rt: &impl Abort, alloc: Global, at: usize, byte: u8, refusal: Error) {
    assert_changed::<ArchivedFolder>(rt, alloc, FOLDER, at, byte, refusal);
}

// A byte of the long name, more entries than there are, and a name that stands before a lesser one.
#[test]
fn damaged_map_of_a_struct(rt: HostRuntime) {
    let alloc = rt.alloc();
    assert_folder_changed(&rt, alloc, 3, 0xc0, Error::InvalidUtf8);
    let outside = Error::InvalidSubtreePointer {
        position: 12,
        size: 60,
        start: 0,
        end: 52,
    };
    assert_folder_changed(&rt, alloc, 60, 3, outside);
    assert_folder_changed(&rt, alloc, 0, 0x63, Error::UnsortedKeys);
}
