//! How a check stops whose error is kept beside its result: an error is wide, and a call that
//! returns one costs each caller a place for it.

ghost use Rattle.std.specs.Prelude.{◌≡◌, None};

use crate::format::error::Error;

// Keeps why the check stops.
#[cold]
#[inline(never)]
pub(crate) fn keep(refusal: &mut Error, fault: Error)
    ensures { refusal.new ≡ fault }
{
    *refusal = fault;
}

/// Stops the check: `None`, and `refusal` is `fault`, whatever it was.
#[inline]
pub fn refuse<T>(refusal: &mut Error, fault: Error) -> Option<T>
    ensures none { result ≡ None }
    ensures fault { refusal.new ≡ fault }
{
    keep(refusal, fault);
    None
}
