// The variants of a choice, nested pair by pair, and the choices that have them.

ghost use Rattle.std.specs.Prelude.{◌≡◌, ℕ, ◌+◌, ◌≤◌, max, min, OnOk, IfOk, IfErr};
ghost use Rattle.archive_check.specs.Shape.{Name, choice, no_variant, variant};
ghost use Rattle.archive_check.specs.Layout.{up};
ghost use Rattle.archive_check.specs.Expressions.{shape_of, variants_in, table_of};
ghost use Rattle.archive_check.specs.Definitions.{IsAlign, NoOthers, Extended, ExplainsConflict};
ghost use Rattle.archive_check.specs.Members.PartsLayout.{greater_align, one_align};
ghost use Rattle.archive_check.specs.Members.VariantsHeld.{HavePayloadSizes, no_payload_sized, no_payload_within, payload_sized, payload_within};
ghost use Rattle.archive_check.specs.Members.VariantsLayout.{VariantsLaidOut, IsChoice, joined_variants, first_variant_or, no_variant_laid_out, variant_laid_out, no_variants_reached, variant_reached};
ghost use Rattle.archive_check.specs.declared.format.error.Error.TheVariants.{OutOfMemory};

use super::Portable;
use super::parts::PortableParts;
use crate::format::error::Error;
use crate::format::expr::{Defs, Expr};
use crate::format::extents::multiple_of;
use crate::self_check::CheckedVariants;
use std::alloc::Global;

/// The variants of a choice, in the order of their tags: `()`, or `(P, V)` for one with the parts
/// `P` and then the variants of `V`. The layout and the definitions of every choice follow from it.
pub trait PortableVariants: CheckedVariants {
    // The greatest alignment.
    ghost greatest: { ℕ };

    // Where the part with an index begins, in the variant with a tag.
    ghost begin: { ℕ → ℕ → ℕ };

    // The size of the part with an index, in the variant with a tag: 0 where there is none.
    ghost size_at: { ℕ → ℕ → ℕ };

    /// The greatest alignment of all parts in bytes, 1 where there is none.
    fn align() -> usize
        ensures { result ≡ greatest };

    /// Where the longest variant ends, in bytes from the tag on, which is the first one: `usize::MAX` where it is that or more.
    fn longest_end() -> usize
        ensures { result ≡ min Self.end 18446744073709551615 };

    /// Where part `i` of the variant with this tag begins, in bytes from the tag on: `usize::MAX` where it is that or more. Where there is no such part, the
    /// variant's end; where there is no such variant, 1.
    fn payload_offset(tag: usize, i: usize) -> usize
        ensures { result ≡ min (begin tag i) 18446744073709551615 };

    /// Puts the expressions of the variants' parts behind those in `list`, a list for each variant.
    /// Memory comes from `alloc` and from that of the list. Fails with `OutOfMemory` if it is
    /// refused.
    fn push_variants(alloc: Global, list: &mut Vec<Vec<Expr>>) -> Result<(), Error>
        ensures pushed { OnOk result (variants_in list.new.items
            ≡ joined_variants (variants_in list.old.items) Self.variants) }
        ensures refused { IfErr result (λ e. e ≡ OutOfMemory) };

    /// Adds the definitions of the names that the parts reach, and no others. Fails as
    /// `Portable::define` does: `OutOfMemory` and `ShapeConflict`.
    fn define(alloc: Global, defs: &mut Defs) -> Result<(), Error>
        ensures added { OnOk result (Extended (table_of defs.old) Self.definitions
            (table_of defs.new)) }
        ensures refused { IfErr result (ExplainsConflict (table_of defs.old) Self.definitions) };

    ghost is_align: { IsAlign greatest };

    ghost laid_out: { VariantsLaidOut Self.definitions Self.variants greatest Self.end begin };

    ghost no_others: { (name : Name) → NoOthers Self.definitions (choice name Self.variants) };

    ghost sized: { HavePayloadSizes Self.definitions Self.variants size_at };

    ghost within: { (tag i : ℕ) → begin tag i + size_at tag i ≤ Self.end };
}

impl PortableVariants for () {
    ghost greatest = { 1 };

    ghost begin = { λ tag i. 1 };

    ghost size_at = { λ tag i. 0 };

    ghost is_align = { one_align };

    ghost laid_out = { no_variant_laid_out };

    ghost no_others = { no_variants_reached };

    ghost sized = { no_payload_sized };

    ghost within = { no_payload_within };

    fn align() -> usize {
        1
    }

    fn longest_end() -> usize {
        1
    }

    fn payload_offset(_tag: usize, _i: usize) -> usize {
        1
    }

    #[tactic(auto, using(crate::proofs::format::ChoiceVariants::joined_no_variant))]
    fn push_variants(_alloc: Global, _list: &mut Vec<Vec<Expr>>) -> Result<(), Error> {
        Ok(())
    }

    fn define(_alloc: Global, _defs: &mut Defs) -> Result<(), Error> {
        Ok(())
    }
}

impl<P: PortableParts, V: PortableVariants> PortableVariants for (P, V) {
    ghost greatest = { max P.greatest V.greatest };

    ghost begin = { first_variant_or (P.begin 1) V.begin };

    ghost size_at = { first_variant_or P.size_at V.size_at };

    ghost is_align = { greater_align P.greatest V.greatest P.is_align V.is_align };

    ghost laid_out = { variant_laid_out P.definitions V.definitions P.parts P.greatest P.end P.begin
        P.laid_out V.variants V.greatest V.end V.begin V.laid_out };

    ghost no_others = { variant_reached P.definitions V.definitions P.parts V.variants P.no_others
        V.no_others };

    ghost sized = { payload_sized P.definitions V.definitions P.parts P.size_at P.sized V.variants
        V.size_at V.sized };

    ghost within = { payload_within (P.begin 1) P.size_at (P.end 1) (P.within 1) V.begin V.size_at
        V.end V.within };

    #[inline(always)]
    fn align() -> usize {
        P::align().max(V::align())
    }

    #[inline(always)]
    fn longest_end() -> usize {
        P::end_from(1).max(V::longest_end())
    }

    #[inline(always)]
    fn payload_offset(tag: usize, i: usize) -> usize {
        if tag == 0 {
            return P::offset_from(1, i);
        }
        V::payload_offset(tag - 1, i)
    }

    #[tactic(auto, using(crate::proofs::format::ChoiceVariants::pushed_variant))]
    fn push_variants(alloc: Global, list: &mut Vec<Vec<Expr>>) -> Result<(), Error> {
        let mut parts = Vec::new(alloc);
        P::push_exprs(alloc, &mut parts)?;
        list.push(parts)?;
        V::push_variants(alloc, list)
    }

    #[tactic(auto, using(crate::proofs::format::AddedDefinitions::joining))]
    fn define(alloc: Global, defs: &mut Defs) -> Result<(), Error> {
        P::define(alloc, defs)?;
        V::define(alloc, defs)
    }
}

/// A choice: a tag of one byte, and behind it the parts of the variant that it names, as of an
/// enum.
pub trait Choice: Portable {
    /// Its variants.
    type Variants: PortableVariants;

    // Its name.
    ghost name: { Name };

    // It is they, or a name that stands for them.
    ghost has_variants: { IsChoice Self.definitions Self.shape name Self.Variants.definitions
        Self.Variants.variants };

    // It holds them.
    ghost holds: { Self.Variants.end ≤ Self.layout.size };

    /// Where part `i` of the variant with this tag begins, in bytes from the choice's first one, which is the tag: `usize::MAX` where it is that or more.
    final fn offset(tag: u8, i: usize) -> usize
        ensures { result ≡ min (Self.Variants.begin tag i) 18446744073709551615 }
    {
        <Self::Variants as PortableVariants>::payload_offset(tag as usize, i)
    }
}

/// The size of a choice in bytes, by its variants: `usize::MAX` where it is that or more.
pub fn size_of_choice<V: PortableVariants>() -> usize
    ensures { result ≡ min (up V.end V.greatest) 18446744073709551615 }
{
    multiple_of(V::longest_end(), V::align())
}

/// The alignment of a choice in bytes, by its variants.
pub fn align_of_choice<V: PortableVariants>() -> usize
    ensures { result ≡ V.greatest }
{
    V::align()
}

/// The expression of a choice of this name, by its variants. Memory comes from `alloc`. Fails with
/// `OutOfMemory` if it is refused.
#[tactic(auto, using(crate::proofs::format::Views::views))]
pub fn expr_of_choice<V: PortableVariants>(alloc: Global, name: &'static str) -> Result<Expr, Error>
    ensures shape { IfOk result (λ e. shape_of e ≡ choice name.now V.variants) }
    ensures refused { IfErr result (λ e. e ≡ OutOfMemory) }
{
    let mut list = Vec::new(alloc);
    V::push_variants(alloc, &mut list)?;
    Ok(Expr::Choice(name, list))
}
