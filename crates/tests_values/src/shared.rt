// Shared values: each is written once.

ghost use Rattle.std.specs.Prelude.{◌≡◌, IfOk};

use crate::assertions::{assert_bytes, assert_refusal, assert_same};
use crate::rc::serializer;
use archive_check::format::error::Error;
use archive_types::ser::Writer;
use archive_types::sharing::{Sharing, SharingExt};
use archive_types::string::Text;
use std::process::Abort;

// Writes a shared text twice. The contract of `serialize_shared` alone shows that both stand at one position.
fn write_twice<S: Sharing + Writer>(
    serializer: &mut S,
    key: u64,
    text: &Text<'_>,
) -> Result<(usize, usize), Error>
    ensures { IfOk result (λ p. p.0 ≡ p.1) }
{
    let first = serializer.serialize_shared(key, text)?;
    let second = serializer.serialize_shared(key, text)?;
    Ok((first, second))
}

// Two texts are written, each once, and one whose key is pending isn't.
fn share_texts<S: Sharing + Writer>(rt: &impl Abort, serializer: &mut S) {
    let (hello, world) = (Text { text: "hello" }, Text { text: "world" });
    let twice = write_twice(serializer, 1, &hello).expect(rt, "a text twice");
    let other = serializer.serialize_shared(2, &world).expect(rt, "another");
    assert_same(rt, "the positions", (twice, other), ((0, 0), 5));
    serializer.start_sharing(3).expect(rt, "memory");
    let pending = serializer.serialize_shared(3, &hello);
    assert_refusal(rt, "pending", pending, Error::CyclicSerialize);
}

#[test]
fn a_shared_value_is_written_once(rt: HostRuntime) {
    let mut serializer = serializer(rt.alloc());
    share_texts(&rt, &mut serializer);
    let bytes = serializer.into_writer();
    assert_bytes(&rt, "the bytes", bytes.as_slice(), b"helloworld");
}
