// What may go to another thread, and what several threads may look at. No thread is started: the check proves that each type could.

use archive_core::api::Access;
use archive_core::error::Error;
use archive_core::seal::Seal;
use archive_core::traits::{Portable, PortablePointee};
use archive_core::view::Ref;

// A value may be moved to another thread, and several threads may hold a reference to it.
fn may_be_shared<T: Send + Sync>() -> bool {
    true
}

// A value may be moved to another thread.
fn may_be_moved<T: Send>() -> bool {
    true
}

// Views of any type may be shared.
fn views_may<'a, T: PortablePointee + Send + Sync>() -> bool {
    may_be_shared::<Ref<'a, T>>()
}

// What a check keeps may be moved.
fn kept_checks_may<T: Portable + Send>() -> bool {
    may_be_moved::<Access<T>>()
}

// Seals may be moved.
fn seals_may<'a, T: PortablePointee + Send>() -> bool {
    may_be_moved::<Seal<'a, T>>()
}

#[test]
fn archives_may_go_to_other_threads(rt: HostRuntime) {
    assert!(rt; may_be_shared::<Vec<u8>>() && may_be_shared::<Error>());
    assert!(rt; views_may::<u8>() && kept_checks_may::<u8>() && seals_may::<u8>());
}
