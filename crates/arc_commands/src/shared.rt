//! Pairs of shared and weak pointers.

use archive_core::core_impls::ArchivedTuple2;
use archive_core::error::Error;
use archive_core::primitive::ArchivedU32;
use archive_core::rc::{ArchivedRc, ArchivedRcWeak, RcFlavor, Shared};
use archive_core::slice::ArchivedSlice;
use std::alloc::Global;
use std::rc::Rc;

// A shared `T`, archived.
type ArchivedShared<T> = ArchivedRc<T, RcFlavor>;

/// Two shared numbers, archived.
pub type ArchivedTwoRc = ArchivedTuple2<ArchivedShared<ArchivedU32>, ArchivedShared<ArchivedU32>>;

/// Two shared units, archived.
pub type ArchivedTwoRcUnit = ArchivedTuple2<ArchivedShared<()>, ArchivedShared<()>>;

/// Two shared slices of bytes, archived.
pub type ArchivedTwoRcBytes = ArchivedTuple2<
    ArchivedShared<ArchivedSlice<u8>>,
    ArchivedShared<ArchivedSlice<u8>>,
>;

/// A shared number and a weak pointer to one, archived.
pub type ArchivedRcWeakPair = ArchivedTuple2<
    ArchivedShared<ArchivedU32>,
    ArchivedRcWeak<ArchivedU32, RcFlavor>,
>;

/// Two shared numbers.
pub type TwoRc = (Shared<u32>, Shared<u32>);

/// Two pointers with the key 1 to the one number, or, where there is a second, one of the key 1 and one of the key 2. Memory comes from `alloc`;
/// fails with `OutOfMemory` where it is refused.
pub fn two_rc(alloc: Global, first: u32, second: Option<u32>) -> Result<TwoRc, Error> {
    let first = Shared {
        key: 1,
        value: Rc::new(alloc, first)?,
    };
    let second = match second {
        None => first.clone()?,
        Some(second) => Shared {
            key: 2,
            value: Rc::new(alloc, second)?,
        },
    };
    Ok((first, second))
}
