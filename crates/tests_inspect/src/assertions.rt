// What is asserted, proved once: `assert_eq!` stands in one function, since it takes the check
// seconds.

use archive_inspect::explain::explain_with;
use archive_inspect::form::Form;
use archive_inspect::text::parse;
use std::alloc::{AllocError, Global};
use std::fmt::Debug;
use std::process::Abort;

// Two values are equal; `what` names them where they aren't.
pub(crate) fn assert_same<T: PartialEq + Debug + Drop>(
    rt: &impl Abort,
    what: &str,
    found: T,
    wanted: T,
) {
    assert_eq!(rt; found, wanted, "{what}");
}

// The form that a text writes.
pub(crate) fn form_of(rt: &impl Abort, alloc: Global, text: &str) -> Form {
    parse(alloc, text).expect(rt, "a schema")
}

// The line that explains why bytes are no archive of the form: empty where they are one.
pub(crate) fn line_of(alloc: Global, form: &Form, bytes: &[u8]) -> Result<String, AllocError> {
    match explain_with(alloc, form, bytes)? {
        Some(explanation) => format!(in alloc; "{explanation}"),
        None => Ok(String::new(alloc)),
    }
}
