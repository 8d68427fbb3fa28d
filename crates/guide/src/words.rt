//! Two words are written, viewed in place and read back.

use archive_core::api::{access, from_bytes, to_bytes};
use archive_core::string::ArchivedString;
use archive_core::vec::ArchivedVec;
use std::test::Fail;

#[test]
fn two_words(rt: HostRuntime) -> Result<(), Fail> {
    let zero = String::from_str(rt.alloc(), "zero")?;
    let copy = String::from_str(rt.alloc(), "copy")?;
    let words = vec![in rt.alloc(); zero, copy]?;

    // Written: both strings, and the vector that points back at them.
    let bytes = to_bytes(rt.alloc(), &words)?;
    assert_eq!(rt; bytes.len(), 24);

    // Validated, and viewed in place.
    let view = access::<ArchivedVec<ArchivedString>>(rt.alloc(), bytes.as_slice())?;
    for word in view.as_slice().iter() {
        assert_eq!(rt; word.as_str().len(), 4);
    }

    // Read back.
    let back: Vec<String> = from_bytes(rt.alloc(), bytes.as_slice(), &mut ())?;
    assert_eq!(rt; back, words);
    Ok(())
}
