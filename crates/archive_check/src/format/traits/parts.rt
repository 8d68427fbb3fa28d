// The parts of a record, nested pair by pair, and the records that have them.

ghost use Rattle.std.specs.Prelude.{◌≡◌, ℕ, ◌+◌, ◌≤◌, max, min, OnOk, IfOk, IfErr};
ghost use Rattle.archive_check.specs.Shape.{parts, no_part, part};
ghost use Rattle.archive_check.specs.Layout.{up};
ghost use Rattle.archive_check.specs.Expressions.{shape_of, shapes_in, table_of};
ghost use Rattle.archive_check.specs.Definitions.{IsAlign, NoOthers, Extended, ExplainsConflict};
ghost use Rattle.archive_check.specs.Members.NoOthers.{no_parts_reached, part_reached};
ghost use Rattle.archive_check.specs.Members.PartsLayout.{PartsLaidOut, HaveSizes, IsRecord, joined, first_or, no_part_laid_out, no_part_sized, part_laid_out, part_sized, greater_align, one_align, begins_at, begins_over, within_at, within_over};
ghost use Rattle.archive_check.specs.declared.format.error.Error.TheVariants.{OutOfMemory};

use super::Portable;
use crate::format::error::Error;
use crate::format::expr::{Defs, Expr};
use crate::format::extents::multiple_of;
use crate::self_check::CheckedParts;
use std::alloc::Global;

/// The parts of a record, laid out one after another: `()`, or `(A, R)` for an `A` and then the
/// parts of `R`, or four at once by `FourParts`. The layout and the definitions of every record,
/// tuple and variant follow from it.
pub trait PortableParts: CheckedParts {
    // The greatest alignment.
    ghost greatest: { ℕ };

    // Where the part with an index begins, where the first is laid out from an offset on.
    ghost begin: { ℕ → ℕ → ℕ };

    // The size of the part with an index, 0 where there is none.
    ghost size_at: { ℕ → ℕ };

    /// The greatest alignment of the parts in bytes, 1 where there is none.
    fn align() -> usize
        ensures { result ≡ greatest };

    /// Where they end, laid out from the offset `start` on, in bytes from the record's first one: `usize::MAX` where it is that or more.
    fn end_from(start: usize) -> usize
        ensures { result ≡ min (Self.end start) 18446744073709551615 };

    /// Where part `i` begins, laid out from the offset `start` on, in bytes from the record's first one: `usize::MAX` where it is that or more. Where
    /// there is no such part, the end of them all.
    fn offset_from(start: usize, i: usize) -> usize
        ensures { result ≡ min (begin start i) 18446744073709551615 };

    /// Puts the parts' expressions behind those in `list`. Memory comes from `alloc` and from that
    /// of the list. Fails with `OutOfMemory` if it is refused.
    fn push_exprs(alloc: Global, list: &mut Vec<Expr>) -> Result<(), Error>
        ensures pushed { OnOk result (shapes_in list.new.items
            ≡ joined (shapes_in list.old.items) Self.parts) }
        ensures refused { IfErr result (λ e. e ≡ OutOfMemory) };

    /// Adds the definitions of the names that the parts reach, and no others. Fails as
    /// `Portable::define` does: `OutOfMemory` and `ShapeConflict`.
    fn define(alloc: Global, defs: &mut Defs) -> Result<(), Error>
        ensures added { OnOk result (Extended (table_of defs.old) Self.definitions
            (table_of defs.new)) }
        ensures refused { IfErr result (ExplainsConflict (table_of defs.old) Self.definitions) };

    ghost is_align: { IsAlign greatest };

    ghost laid_out: { PartsLaidOut Self.definitions Self.parts greatest Self.end begin };

    ghost sized: { HaveSizes Self.definitions Self.parts size_at };

    ghost no_others: { NoOthers Self.definitions (parts Self.parts) };

    ghost begins: { (n i : ℕ) → n ≤ begin n i };

    ghost within: { (n i : ℕ) → begin n i + size_at i ≤ Self.end n };
}

impl PortableParts for () {
    ghost greatest = { 1 };

    ghost begin = { λ n i. n };

    ghost size_at = { λ i. 0 };

    ghost is_align = { one_align };

    ghost laid_out = { no_part_laid_out };

    ghost sized = { no_part_sized };

    ghost no_others = { no_parts_reached };

    ghost begins = { begins_at };

    ghost within = { within_at };

    fn align() -> usize {
        1
    }

    fn end_from(start: usize) -> usize {
        start
    }

    fn offset_from(start: usize, _i: usize) -> usize {
        start
    }

    #[tactic(auto, using(crate::proofs::format::RecordParts::joined_none))]
    fn push_exprs(_alloc: Global, _list: &mut Vec<Expr>) -> Result<(), Error> {
        Ok(())
    }

    fn define(_alloc: Global, _defs: &mut Defs) -> Result<(), Error> {
        Ok(())
    }
}

impl<A: Portable, R: PortableParts> PortableParts for (A, R) {
    ghost greatest = { max A.layout.align R.greatest };

    ghost begin = { λ n. first_or (up n A.layout.align)
        (R.begin (up n A.layout.align + A.layout.size)) };

    ghost size_at = { first_or A.layout.size R.size_at };

    ghost is_align = { greater_align A.layout.align R.greatest A.is_align R.is_align };

    ghost laid_out = { part_laid_out A.definitions R.definitions A.shape A.layout A.has_layout
        R.parts R.greatest R.end R.begin R.laid_out };

    ghost sized = { part_sized A.definitions R.definitions A.shape A.layout A.has_layout R.parts
        R.size_at R.sized };

    ghost no_others = { part_reached A.definitions R.definitions A.shape R.parts A.no_others
        R.no_others };

    ghost begins = { λ n i. begins_over n A.layout.align A.layout.size A.is_align R.begin R.begins
        i };

    ghost within = { λ n. within_over (up n A.layout.align) A.layout.size R.begin R.size_at R.end
        R.rises R.within };

    #[inline(always)]
    fn align() -> usize {
        A::align().max(R::align())
    }

    #[inline(always)]
    fn end_from(start: usize) -> usize {
        R::end_from(multiple_of(start, A::align()).saturating_add(A::size()))
    }

    #[inline(always)]
    fn offset_from(start: usize, i: usize) -> usize {
        let first = multiple_of(start, A::align());
        if i == 0 {
            return first;
        }
        R::offset_from(first.saturating_add(A::size()), i - 1)
    }

    #[tactic(auto, using(crate::proofs::format::RecordParts::pushed_part))]
    fn push_exprs(alloc: Global, list: &mut Vec<Expr>) -> Result<(), Error> {
        list.push(A::expr(alloc)?)?;
        R::push_exprs(alloc, list)
    }

    #[tactic(auto, using(crate::proofs::format::AddedDefinitions::joining))]
    fn define(alloc: Global, defs: &mut Defs) -> Result<(), Error> {
        A::define(alloc, defs)?;
        R::define(alloc, defs)
    }
}

/// A record: it has parts, which lie one after another, as the fields of a struct do.
pub trait Record: Portable {
    /// Its parts.
    type Parts: PortableParts;

    // It is they, or a name that stands for them.
    ghost has_parts: { IsRecord Self.definitions Self.shape Self.Parts.definitions
        Self.Parts.parts };

    // It holds them.
    ghost holds: { Self.Parts.end 0 ≤ Self.layout.size };

    /// Where part `i` begins, in bytes from the record's first one: `usize::MAX` where it is that or more.
    final fn offset(i: usize) -> usize
        ensures { result ≡ min (Self.Parts.begin 0 i) 18446744073709551615 }
    {
        <Self::Parts as PortableParts>::offset_from(0, i)
    }
}

/// The size of a record in bytes, by its parts: `usize::MAX` where it is that or more.
pub fn size_of_record<P: PortableParts>() -> usize
    ensures { result ≡ min (up (P.end 0) P.greatest) 18446744073709551615 }
{
    multiple_of(P::end_from(0), P::align())
}

/// The expression of a record, by its parts. Memory comes from `alloc`. Fails with `OutOfMemory` if
/// it is refused.
#[tactic(auto, using(crate::proofs::format::Views::views))]
pub fn expr_of_record<P: PortableParts>(alloc: Global) -> Result<Expr, Error>
    ensures shape { IfOk result (λ e. shape_of e ≡ parts P.parts) }
    ensures refused { IfErr result (λ e. e ≡ OutOfMemory) }
{
    let mut list = Vec::new(alloc);
    P::push_exprs(alloc, &mut list)?;
    Ok(Expr::Record(list))
}
