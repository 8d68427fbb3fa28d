//! What archived types, keys and entries say of themselves.

ghost use Rattle.std.specs.Prelude.{◌≡◌, ℕ, min, Bool, true, false, refl, IsTrue, Option, None, OnOk, IfOk, IfErr};
ghost use Rattle.archive_check.specs.Shape.{Shape, Pointee, one};
ghost use Rattle.archive_check.specs.Layout.{Layout as LayoutOf};
ghost use Rattle.archive_check.specs.Expressions.{shape_of, table_of};
ghost use Rattle.archive_check.specs.Definitions.{Definitions, HasLayout, IsAlign, NoOthers, Extended, ExplainsConflict};
ghost use Rattle.archive_check.specs.Entries.{NoEntries};
ghost use Rattle.archive_check.specs.Pooled.{Kept};
ghost use Rattle.archive_check.specs.SelfCheck.Laws.{IsCheckOf};
ghost use Rattle.archive_check.specs.WriterState.{WriterState, no_keys, only_keys, only_bytes};
ghost use Rattle.archive_check.specs.declared.format.error.Error.TheVariants.{OutOfMemory};

use crate::format::error::Error;
use crate::format::expr::{Defs, Expr};
use crate::self_check::SelfCheck;
use std::alloc::{Allocator, Global};

mod arrays;
mod four_parts;
mod layouts;
mod leaves;
mod map_keys;
mod parts;
mod phantom;
mod pointees;
mod variants;

pub use four_parts::FourParts;
pub use layouts::{LayoutRaw, layout_of_run};
pub use map_keys::MapKey;
pub use parts::{PortableParts, Record, expr_of_record, size_of_record};
pub use pointees::PortablePointee;
pub use variants::{Choice, PortableVariants, align_of_choice, expr_of_choice, size_of_choice};

/// What a pointer can lead to: an archived value, a slice (`ArchivedSlice`) or a text
/// (`ArchivedStr`). As in rkyv 0.8.18, with a length in place of a pointer's metadata.
pub trait ArchivePointee {
    /// What is in a pointer beside its offset: nothing for one value, else a length.
    type ArchivedMetadata;

    // What the pointee is.
    ghost pointee: { Pointee };

    // The definitions of the names in it.
    ghost definitions: { Definitions };

    // The length that the metadata is.
    ghost metadata_length: { Self.ArchivedMetadata → ℕ };

    /// The length that `metadata` is: 0 for one value, else the number of elements or bytes.
    fn pointer_metadata(metadata: &Self::ArchivedMetadata) -> usize
        ensures { result ≡ metadata_length metadata.now };
}

/// An archived type: its values lie in an archive as they are used. It gives its size, its
/// alignment and an expression of its form, from which bytes are validated.
///
/// Archived numbers, strings, options, boxes and so on implement it; for structs and enums
/// `tools/derive` writes it.
///
/// ```
/// let size = ArchivedString::size();            // 8
/// let align = ArchivedString::align();          // 4
/// let expr = ArchivedString::expr(alloc)?;      // Expr::Str
/// ```
///
/// In rkyv 0.8.18 the trait has no calls, since a type's layout is Rust's.
pub trait Portable: ArchivePointee {
    // What its bytes are read as.
    ghost shape: { Shape };

    // Its size and alignment.
    ghost layout: { LayoutOf };

    /// How its values are validated: by a check of its own, or `BySchema`, as for types that share
    /// values or are recursive.
    type Check: SelfCheck;

    /// The size in bytes, `usize::MAX` where it is that or more.
    fn size() -> usize
        ensures { result ≡ min layout.size 18446744073709551615 };

    /// The alignment in bytes: a power of two, at most 32.
    fn align() -> usize
        ensures { result ≡ layout.align };

    /// The type's expression. Fails with `OutOfMemory` if memory from `alloc` is refused.
    fn expr(alloc: Global) -> Result<Expr, Error>
        ensures shape { IfOk result (λ e. shape_of e ≡ shape) }
        ensures refused { IfErr result (λ e. e ≡ OutOfMemory) };

    /// Adds the definitions of the names that the type reaches, and no others.
    ///
    /// Errors:
    /// - `OutOfMemory`: memory from `alloc` or `defs` is refused.
    /// - `ShapeConflict`: a name has two definitions, or another one in `defs` already.
    fn define(alloc: Global, defs: &mut Defs) -> Result<(), Error>
        ensures added { OnOk result (Extended (table_of defs.old) Self.definitions
            (table_of defs.new)) }
        ensures refused { IfErr result (ExplainsConflict (table_of defs.old) Self.definitions) };

    ghost is_one: { Self.pointee ≡ one shape };

    ghost is_align: { IsAlign layout.align };

    ghost has_layout: { HasLayout Self.definitions shape layout };

    ghost no_others: { NoOthers Self.definitions shape };

    ghost checks: { IsTrue Self.Check.direct → IsCheckOf Self.definitions shape layout.size
        Self.Check.definitions Self.Check.shape Self.Check.span Self.Check.nameless };
}

/// What models a writer in contracts: its bytes, its room, its device's failures and the states of
/// its shared keys. It has no calls.
pub trait Keys {
    // The state.
    ghost state: { Self → WriterState };
}

/// What models a deserializer in contracts: the state of each position, whatever its type. It has
/// no calls.
pub trait Entries {
    // The state of a position: none where it is unknown, then pending, then finished with what is kept of it: its name, flavor, pointee and length,
    // what it holds, and what the names in that lead to.
    ghost entry_of: { Self → ℕ → Option (Option Kept) };

    // Whether pending positions are kept.
    ghost keeps: { Bool };

    // What doesn't keep them keeps nothing.
    ghost keeps_nothing: { (d : Self) → keeps ≡ false → NoEntries (entry_of d) };
}

impl Keys for () {
    ghost state = { λ _. only_keys no_keys };
}

impl<A: Allocator> Keys for Vec<u8, A> {
    ghost state = { λ v. only_bytes v.items };
}

impl Entries for () {
    ghost entry_of = { λ _ _. None };

    ghost keeps = { true };

    ghost keeps_nothing = { λ _ _ _. refl };
}

/// What is borrowed has the model of its owner.
impl<S: Keys> Keys for &mut S {
    ghost state = { λ r. S.state r.now };
}
