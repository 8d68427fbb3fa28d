// Assertions that are proved once. A call of one takes the check a fifth of a second, and `assert_eq!` written out in a body seconds, in a helper of a table
// too; so helpers call these, and where a row is to be named, it is compared with it. A test answers nothing, and no `Error` stands in its body where that can
// be had: the check writes out all locals of a body at each of its steps, and an `Error` among them in a hundred lines.

use archive_check::format::error::Error;
use archive_check::format::expr::{Defs, Expr, Kind};
use archive_check::format::traits::{ArchivePointee, Portable};
use std::alloc::Global;
use std::fmt::{Debug, Display};
use std::process::Abort;

// Two values are equal; `what` names them where they aren't.
pub(crate) fn assert_same<T: PartialEq + Debug + Drop>(
    rt: &impl Abort,
    what: &str,
    found: T,
    wanted: T,
) {
    assert_eq!(rt; found, wanted, "{what}");
}

// What `what` names holds.
pub(crate) fn assert_holds(rt: &impl Abort, what: &str, holds: bool) {
    assert_same(rt, what, holds, true);
}

// What `what` names is refused, with this error.
pub(crate) fn assert_refusal<T: Drop>(
    rt: &impl Abort,
    what: &str,
    found: Result<T, Error>,
    refusal: Error,
) {
    assert_same(rt, what, found.err(), Some(refusal));
}

// A value is shown as this text.
pub(crate) fn assert_shown<T: Display>(rt: &impl Abort, alloc: Global, value: &T, text: &str) {
    let found = value.to_string(alloc).expect(rt, "memory for a text");
    assert_same(rt, "the text", found.as_str(), text);
}

// A type is a leaf of this kind, size and alignment, brings no definition, and a pointer to it has no length.
pub(crate) fn assert_leaf<T: Portable + ArchivePointee<ArchivedMetadata = ()>>(
    rt: &impl Abort,
    alloc: Global,
    kind: Kind,
    size: usize,
    align: usize,
) {
    let found = (kind, T::size(), T::align(), T::pointer_metadata(&()));
    assert_same(rt, "a leaf and its numbers", found, (kind, size, align, 0));
    let expr = T::expr(alloc).expect(rt, "memory for an expression");
    assert_same(rt, "the expression", expr, Expr::Leaf(kind));
    T::define(alloc, &mut Defs::new(alloc)).expect(rt, "no definition");
}
