// Few and many shared keys.

use crate::assertions::assert_same;
use archive_types::sharing::{Share, Sharing, SharingState};
use std::process::Abort;

// So many keys are started and finished, each at a position of its own.
fn assert_keys<S: Sharing>(rt: &impl Abort, sharing: &mut S, keys: u8) {
    for key in 0..keys {
        let found = sharing.start_sharing(610 * u64::from(key));
        let found = found.expect(rt, "memory");
        assert_same(rt, "unknown", found, SharingState::Started);
    }
    for key in 0..keys {
        let done = sharing.finish_sharing(610 * u64::from(key), usize::from(key));
        done.expect(rt, "pending");
    }
    for key in 0..keys {
        let found = sharing.start_sharing(610 * u64::from(key));
        let found = found.expect(rt, "memory");
        let wanted = SharingState::Finished(usize::from(key));
        assert_same(rt, "finished", found, wanted);
    }
}

#[test]
fn keys_are_told_apart(rt: HostRuntime) {
    for keys in [1, 2, 10, 17] {
        let mut share = Share::new(rt.alloc());
        assert_keys(&rt, &mut share, keys);
    }
}
