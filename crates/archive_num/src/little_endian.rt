//! The format of a number.

ghost use Rattle.std.specs.Prelude.{◌≡◌, refl, true};
ghost use Rattle.archive_check.specs.Shape.{leaf, one, leaf_key};
ghost use Rattle.archive_check.specs.Layout.{kind_size};
ghost use Rattle.archive_check.specs.Definitions.{no_definition};
ghost use Rattle.archive_check.specs.Members.LeafLayout.{leaf_layout, leaf_align, leaf_has_layout, no_definition_reached};
ghost use Rattle.archive_check.specs.SelfCheck.Laws.{leaf_check};

use crate::Native;
use archive_check::context::ArchiveContext;
use archive_check::format::error::Error;
use archive_check::format::expr::{Defs, Expr, Key};
use archive_check::format::traits::{ArchivePointee, MapKey, Portable};
use archive_check::self_check::{SelfCheck, check_first_leaves, check_leaf};
use std::alloc::{AllocError, Global};
use std::cmp::Ordering;
use std::fmt;
use std::hash::{Hash, Hasher};
use std::marker::Model;

/// A number as an archive holds it: its bytes, the lowest first. In a contract it is its number. In
/// its place rkyv 0.8.18 has the types of rend, one for each number.
#[derive(Clone, Copy, PartialEq, Eq, PartialOrd, Ord, Hash, Debug)]
pub struct LittleEndian<N> {
    number: N,
}

impl<N> Model for LittleEndian<N> {
    ghost Value = { N };

    ghost view = { λ l. l.number };

    ghost inverse = { λ n. record { number = n } };
}

impl<N: Native> LittleEndian<N> {
    /// The archived form of a number. It never fails.
    pub fn from_native(number: N) -> LittleEndian<N>
        ensures { result ≡ number }
    {
        LittleEndian { number }
    }

    /// The number.
    pub fn to_native(self) -> N
        ensures { result ≡ self }
    {
        self.number
    }
}

impl<N: Native + fmt::Display> fmt::Display for LittleEndian<N> {
    ghost output = { N.output };

    fn fmt<W: fmt::Write>(&self, f: &mut fmt::Formatter<W>) -> fmt::Result {
        self.number.fmt(f)
    }
}

impl<N: Native> ArchivePointee for LittleEndian<N> {
    type ArchivedMetadata = ();

    ghost pointee = { one (leaf N.kind) };

    ghost definitions = { no_definition };

    ghost metadata_length = { λ _. 0 };

    fn pointer_metadata(_metadata: &()) -> usize {
        0
    }
}

impl<N: Native> Portable for LittleEndian<N> {
    ghost shape = { leaf N.kind };

    ghost layout = { leaf_layout N.kind };

    type Check = LittleEndian<N>;

    ghost is_one = { refl };

    ghost is_align = { leaf_align N.kind };

    ghost has_layout = { leaf_has_layout N.kind };

    ghost no_others = { no_definition_reached (leaf N.kind) };

    ghost checks = { λ direct. leaf_check N.kind };

    fn size() -> usize {
        N::kind().size()
    }

    fn align() -> usize {
        N::kind().align()
    }

    fn expr(_alloc: Global) -> Result<Expr, Error> {
        Ok(Expr::Leaf(N::kind()))
    }

    fn define(_alloc: Global, _defs: &mut Defs) -> Result<(), Error> {
        Ok(())
    }
}

impl<N: Native> SelfCheck for LittleEndian<N> {
    ghost shape = { leaf N.kind };

    ghost definitions = { no_definition };

    ghost span = { kind_size N.kind };

    ghost direct = { true };

    ghost nameless = { true };

    fn is_direct() -> bool {
        true
    }

    fn is_nameless() -> bool {
        true
    }

    #[inline(always)]
    fn check_at<C: ArchiveContext>(
        bytes: &[u8],
        at: usize,
        refusal: &mut Error,
        context: &mut C,
    ) -> Option<()> {
        check_leaf(N::kind(), bytes, at, refusal, context)
    }

    #[inline(always)]
    fn check_first(bytes: &[u8], at: usize, step: usize, count: usize) -> usize {
        check_first_leaves(N::kind(), bytes, at, step, count)
    }
}

impl<N: Native> MapKey for LittleEndian<N> {
    ghost key = { leaf_key N.kind };

    ghost is_key = { refl };

    ghost key_laid = { refl };

    fn key() -> Key {
        Key::Leaf(N::kind())
    }
}
