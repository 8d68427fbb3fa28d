//! Arrays and tuples, as archives hold them. `N` archived values of a type `T` are archived as the
//! array `[T; N]`, which is read back as an `OwnedArray`, one of numbers also as itself; a tuple of
//! `N` values is archived as `ArchivedTupleN`, and as sources its parts are found by `Part0` and so
//! on. rkyv 0.8.18 shows the tuples in `tuple`.

pub use archive_tuple::{
    ArchivedTuple, ArchivedTuple1, ArchivedTuple2, ArchivedTuple3, ArchivedTuple4, ArchivedTuple5,
    ArchivedTuple6, ArchivedTuple7, ArchivedTuple8, ArchivedTuple9, ArchivedTuple10,
    ArchivedTuple11, ArchivedTuple12, ArchivedTuple13,
};
pub use archive_types::array::{ArrayResolver, OwnedArray};
pub use archive_types::tuples::{
    Part0, Part1, Part2, Part3, Part4, Part5, Part6, Part7, Part8, Part9, Part10, Part11, Part12,
};
