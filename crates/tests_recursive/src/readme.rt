// A program over a record of three fields, to which docs/OWN_TYPES.md leads.

use archive_core::api::{access, from_bytes, to_bytes};
use archive_core::error::Error;
use archive_core::view::Ref;
use own_types::test_record::{ArchivedTest, Test, TestView};
use std::alloc::{AllocError, Global};
use std::io;
use std::test::Fail;

// A record.
pub fn record(alloc: Global) -> Result<Test, AllocError> {
    Ok(Test {
        number: 42,
        text: String::from_str(alloc, "hello world")?,
        list: Some(vec![in alloc; 1, 2, 3, 4]?),
    })
}

// The archive of that record.
pub fn archived(alloc: Global) -> Result<Vec<u8>, Error> {
    to_bytes(alloc, &record(alloc)?)
}

// The record of an archive.
pub fn value_of(alloc: Global, bytes: &[u8]) -> Result<Test, Error> {
    from_bytes(alloc, bytes, &mut ())
}

// The number, where it lies.
fn number(view: Ref<'_, ArchivedTest>) -> u8 {
    view.number().get()
}

// The text, where it lies.
fn text(view: Ref<'_, ArchivedTest>) -> &str {
    view.text().as_str()
}

// How many numbers the list has, if there is one.
fn count(view: Ref<'_, ArchivedTest>) -> Option<usize> {
    let list = view.list().as_ref()?;
    Some(list.len())
}

// All of these, once the archive is checked.
fn fields(alloc: Global, bytes: &[u8]) -> Result<(u8, &str, Option<usize>), Error> {
    let view = access::<ArchivedTest>(alloc, bytes)?;
    Ok((number(view), text(view), count(view)))
}

// Prints a record.
fn show(rt: &impl Print, value: &Test) -> io::Result<()> {
    println!(rt; "read back: {value:?}")
}

#[test]
fn the_second_program_of_the_readme(rt: HostRuntime) -> Result<(), Fail> {
    let bytes = archived(rt.alloc())?;
    let (number, text, count) = fields(rt.alloc(), bytes.as_slice())?;
    println!(rt; "{} bytes: {number}, {text}", bytes.len())?;
    if let Some(count) = count {
        println!(rt; "and {count} numbers")?;
    }
    show(&rt, &value_of(rt.alloc(), bytes.as_slice())?)?;
    Ok(())
}
