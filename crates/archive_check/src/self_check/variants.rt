// Variants behind a tag.

ghost use Rattle.std.specs.Prelude.{Bool, ◌&&◌, ◌≡◌, ◌+◌, ◌<◌, ◌≤◌, ℕ, length, max, OnSome, IfSome, IfNone, None, true, false, IsTrue};
ghost use Rattle.archive_check.specs.Shape.{choice, Variants, no_variant, variant, variant_at};
ghost use Rattle.archive_check.specs.Definitions.{Definitions, both, no_definition};
ghost use Rattle.archive_check.specs.context.Pushes.{Spends};
ghost use Rattle.archive_check.specs.SelfCheck.Steps.{Went, StoppedIf as Stops, VariantWent, VariantStops, choice_at};

use super::parts::CheckedParts;
use crate::context::ArchiveContext;
use crate::context::refusals::refuse;
use crate::format::error::Error;

/// Variants that are checked by their tags: `()`, or `(P, V)` for the parts `P` with the tag 0 and then the variants of `V`.
pub trait CheckedVariants {
    // What they are.
    ghost variants: { Variants };

    // The definitions of the names in them.
    ghost definitions: { Definitions };

    // The greatest end of one.
    ghost end: { ℕ };

    // Whether each checks itself.
    ghost direct: { Bool };

    /// Whether each validates itself.
    fn are_direct() -> bool
        ensures { result ≡ direct };

    /// Checks the variant of this tag, of what begins at `base`, and returns whether there is one.
    /// `None` if the check stops, and `refusal` is why.
    fn check_variant<C: ArchiveContext>(
        bytes: &[u8],
        base: usize,
        tag: usize,
        refusal: &mut Error,
        context: &mut C,
    ) -> Option<bool>
        requires fits { base + end ≤ length bytes.now }
        requires below { (C.state context.old).end ≤ length bytes.now }
        ensures through { VariantWent C.Context context definitions bytes.now base variants tag
            result }
        ensures unknown { IfSome result (λ known. known ≡ false → variant_at variants tag ≡ None) }
        ensures stops { IsTrue direct → VariantStops C.Context context definitions bytes.now base
            variants tag result refusal }
        ensures spends { Spends end (C.state context.old) (C.state context.new) }
        ensures positions { OnSome result (C.positions context.new ≡ C.positions context.old) };
}

impl CheckedVariants for () {
    ghost variants = { no_variant };

    ghost definitions = { no_definition };

    ghost end = { 1 };

    ghost direct = { true };

    fn are_direct() -> bool {
        true
    }

    #[inline(always)]
    fn check_variant<C: ArchiveContext>(
        _bytes: &[u8],
        _base: usize,
        _tag: usize,
        _refusal: &mut Error,
        _context: &mut C,
    ) -> Option<bool> {
        Some(false)
    }
}

impl<P: CheckedParts, V: CheckedVariants> CheckedVariants for (P, V) {
    ghost variants = { variant P.parts V.variants };

    ghost definitions = { both P.definitions V.definitions };

    ghost end = { max (P.end 1) V.end };

    ghost direct = { P.direct && V.direct };

    fn are_direct() -> bool {
        P::are_direct() && V::are_direct()
    }

    #[inline(always)]
    fn check_variant<C: ArchiveContext>(
        bytes: &[u8],
        base: usize,
        tag: usize,
        refusal: &mut Error,
        context: &mut C,
    ) -> Option<bool> {
        if tag == 0 {
            P::check_parts(bytes, base, 1, refusal, context)?;
            return Some(true);
        }
        V::check_variant(bytes, base, tag - 1, refusal, context)
    }
}

/// Checks the choice of this name at `at`, in bytes from the first one: the tag, and then the
/// variant that it names. `None` if the check stops, and `refusal` is why: `InvalidDiscriminant` if
/// no variant has the tag. The caller must ensure that the tag and the longest variant lie in
/// `bytes`.
#[inline(always)]
pub fn check_choice<V: CheckedVariants, C: ArchiveContext>(
    name: &'static str,
    bytes: &[u8],
    at: usize,
    refusal: &mut Error,
    context: &mut C,
) -> Option<()>
    requires tag { at < length bytes.now }
    requires fits { at + V.end ≤ length bytes.now }
    requires below { (C.state context.old).end ≤ length bytes.now }
    ensures through { Went C.Context context V.definitions (choice_at bytes.now at name V.variants)
        result }
    ensures stops { Stops C.Context context V.direct V.definitions
        (choice_at bytes.now at name V.variants) result refusal }
    ensures spends { Spends V.end (C.state context.old) (C.state context.new) }
    ensures positions { OnSome result (C.positions context.new ≡ C.positions context.old) }
{
    let value = bytes[at];
    if !V::check_variant(bytes, at, value as usize, refusal, context)? {
        return refuse(refusal, Error::InvalidDiscriminant { name, value });
    }
    Some(())
}
