// A device that fails while archives are written to it.

ghost use Rattle.std.specs.Prelude.{length, refl, true};
ghost use Rattle.archive_check.specs.WriterState.{only_bytes};

use crate::assertions::{assert_bytes, assert_same};
use archive_check::format::error::Error;
use archive_types::ser::{Positional, Serializer, Writer, serialize_one};
use archive_types::sharing::{Share, SharingExt};
use archive_types::string::Text;
use archive_types::traits::Keys;
use std::alloc::Global;
use std::process::Abort;

// A writer whose device takes `left` more writes, and then fails in the midst of each.
#[derive(Drop)]
struct Failing {
    bytes: Vec<u8>,
    left: u32,
    failures: u64,
}

impl Positional for Failing {
    ghost position = { λ w. length w.bytes.items };

    fn pos(&self) -> usize {
        self.bytes.len()
    }
}

impl Keys for Failing {
    ghost state = { λ w. record (only_bytes w.bytes.items) { failures = w.failures } };
}

impl Writer for Failing {
    ghost takes_memory = { true };

    ghost position_law = { λ w. refl };

    fn write(&mut self, bytes: &[u8]) -> Result<(), Error> {
        if self.failures == u64::MAX {
            return Err(Error::WriterFailed);
        }
        if self.left == 0 {
            self.failures += 1;
            self.bytes.write(&bytes[..bytes.len() / 2])?;
            return Err(Error::WriterFailed);
        }
        self.left -= 1;
        self.bytes.write(bytes)
    }
}

// An archive of a text, and behind it regions: a number, a text that is shared by two, and the first text again.
fn write_archives<W: Writer>(alloc: Global, text: &String, device: &mut W) -> Result<(), Error> {
    serialize_one(text, &mut Serializer::new(&mut *device, alloc, ()))?;
    let mut serializer = Serializer::new(device, alloc, Share::new(alloc));
    serialize_one(&7u64, &mut serializer)?;
    let shared = Text { text: "shared" };
    serializer.serialize_shared(1, &shared)?;
    serializer.serialize_shared(1, &shared)?;
    serialize_one(text, &mut serializer)?;
    Ok(())
}

const ARCHIVES: &[u8] =
    b"hello world\0\x8b\0\0\0\xf4\xff\xff\xff\0\0\0\0\x07\0\0\0\0\0\0\0sharedhello world\0\0\0\x8b\0\0\0\xf2\xff\xff\xff";

// A device that failed after so many writes did so once, which was passed on, and holds a beginning of the archives.
fn assert_failed_once(rt: &impl Abort, left: u32, device: &Failing, written: Result<(), Error>) {
    let failed_once = device.failures == 1 && written == Err(Error::WriterFailed);
    let begun = ARCHIVES.starts_with(device.bytes.as_slice());
    let found = (left, failed_once, begun);
    assert_same(rt, "after so many writes", found, (left, true, true));
}

// How many bytes a device holds that takes so many writes and fails then; none where it takes all archives.
fn held_after(rt: &impl Abort, alloc: Global, text: &String, left: u32) -> Option<usize> {
    let mut device = Failing {
        bytes: Vec::new(alloc),
        left,
        failures: 0,
    };
    let written = write_archives(alloc, text, &mut device);
    if device.failures == 0 {
        assert_same(rt, "the last", written, Ok(()));
        assert_bytes(rt, "what it took", device.bytes.as_slice(), ARCHIVES);
        return None;
    }
    assert_failed_once(rt, left, &device, written);
    Some(device.pos())
}

#[test]
fn each_write_fails_in_turn(rt: HostRuntime) {
    let hello = String::from_str(rt.alloc(), "hello world").expect(&rt, "memory");
    let mut held = 0;
    for left in 0..100 {
        let Some(pos) = held_after(&rt, rt.alloc(), &hello, left) else {
            return;
        };
        assert_same(&rt, "no fewer bytes", (left, pos >= held), (left, true));
        held = pos;
    }
    panic!(&rt; "each run failed")
}

#[test]
fn a_device_of_ones_own_takes_nothing_at_once(rt: HostRuntime) {
    let mut device = Failing {
        bytes: Vec::new(rt.alloc()),
        left: 1,
        failures: 0,
    };
    let is_taken = device.write_at_once(b"hello");
    assert_same(&rt, "taken at once", is_taken, false);
    assert_same(&rt, "how many bytes it holds", device.pos(), 0);
}
