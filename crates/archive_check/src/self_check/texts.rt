// Texts and strings.

ghost use Rattle.std.specs.Prelude.{◌≡◌, ◌≤◌, length, OnSome, IfNone, true};
ghost use Rattle.archive_check.specs.Shape.{text, str, boxed};
ghost use Rattle.archive_check.specs.Definitions.{no_definition};
ghost use Rattle.archive_check.specs.context.Pushes.{Spends};
ghost use Rattle.archive_check.specs.SelfCheck.Steps.{Went, Stopped, text_at};

use super::SelfCheck;
use crate::context::ArchiveContext;
use crate::context::refusals::refuse;
use crate::context::regions::{enter, leave};
use crate::format::bytes::{
    is_inline_text, is_out_of_line, is_text, read_coded_length, read_position, read_u32,
};
use crate::format::error::Error;

// Checks the region of a text of so many bytes at `position`.
#[inline(always)]
fn check_text<C: ArchiveContext>(
    bytes: &[u8],
    position: i128,
    count: usize,
    refusal: &mut Error,
    context: &mut C,
) -> Option<()>
    requires { (C.state context.old).end ≤ length bytes.now }
    ensures through { Went C.Context context no_definition (text_at bytes.now position count)
        result }
    ensures stops { Stopped C.Context context no_definition (text_at bytes.now position count)
        result refusal }
    ensures spends { Spends 4 (C.state context.old) (C.state context.new) }
    ensures positions { OnSome result (C.positions context.new ≡ C.positions context.old) }
{
    let region = enter(Some(count), 1, position, refusal, context)?;
    if !is_text(bytes, region.begin, region.size) {
        return refuse(refusal, Error::InvalidUtf8);
    }
    leave(region.outer_start, region.outer_end, refusal, context)
}

/// The check of a string: eight bytes, which hold a text or lead to one.
pub struct StringCheck;

impl SelfCheck for StringCheck {
    ghost shape = { str };

    ghost definitions = { no_definition };

    ghost span = { 8 };

    ghost direct = { true };

    ghost nameless = { true };

    fn is_direct() -> bool {
        true
    }

    fn is_nameless() -> bool {
        true
    }

    #[inline(always)]
    fn check_at<C: ArchiveContext>(
        bytes: &[u8],
        at: usize,
        refusal: &mut Error,
        context: &mut C,
    ) -> Option<()> {
        if is_out_of_line(bytes, at) {
            let length = read_coded_length(bytes, at);
            if length <= 8 {
                return refuse(refusal, Error::InvalidStringRepr);
            }
            let position = read_position(bytes, at, at + 4);
            return check_text(bytes, position, length, refusal, context);
        }
        if !is_inline_text(bytes, at) {
            return refuse(refusal, Error::InvalidUtf8);
        }
        Some(())
    }
}

/// The check of a box with a text: its offset and its length, of four bytes each, and the text that they lead to.
pub struct BoxStrCheck;

impl SelfCheck for BoxStrCheck {
    ghost shape = { boxed text };

    ghost definitions = { no_definition };

    ghost span = { 8 };

    ghost direct = { true };

    ghost nameless = { true };

    fn is_direct() -> bool {
        true
    }

    fn is_nameless() -> bool {
        true
    }

    #[inline(always)]
    fn check_at<C: ArchiveContext>(
        bytes: &[u8],
        at: usize,
        refusal: &mut Error,
        context: &mut C,
    ) -> Option<()> {
        let count = read_u32(bytes, at + 4) as usize;
        check_text(bytes, read_position(bytes, at, at), count, refusal, context)
    }
}
