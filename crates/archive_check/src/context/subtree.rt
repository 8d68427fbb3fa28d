//! Calls within a region of a check.

ghost use Rattle.std.specs.Fn.{FnOnceReturnsAtMut as Returns};
ghost use Rattle.archive_check.specs.context.InSubtree.{MayCall, MayCallAt, CalledIn, CalledAt};

use crate::context::ArchiveContext;
use crate::format::error::Error;
use crate::format::layout::Layout;
use crate::format::traits::LayoutRaw;

/// What is made of the calls of any `ArchiveContext`.
pub trait ArchiveContextExt: ArchiveContext {
    /// Enters the region of `layout` at `position`, calls `f`, and leaves it. Stops at the first
    /// error, which may be that of `f`. The caller must ensure that `f` may be called in each state
    /// that entering leaves. As in rkyv 0.8.18, with a position for an address.
    ///
    /// Errors, besides those of `f`:
    /// - `InvalidSubtreePointer`, `UnalignedPointer`, `ExceededMaximumSubtreeDepth`: of entering.
    /// - `RangePoppedOutOfOrder`, `RangePoppedTooManyTimes`: of leaving.
    final fn in_subtree_raw<
        R: Drop,
        E: From<Error> + Drop,
        F: FnOnce(&mut Self) -> Result<R, E> + Drop,
    >(&mut self, position: i128, layout: &Layout, f: F) -> Result<R, E>
        requires { MayCall Self.Context (λ inner. F.pre f inner) self position layout.now }
        ensures { CalledIn Self.Context (Returns F.FnOnce f) E.from_gives self position layout.now
            result }
    {
        self.check_subtree_ptr(position, layout)?;
        let root = position as usize;
        let outer = self.push_subtree_range(root, root + layout.size)?;
        let answer = f(self)?;
        self.pop_subtree_range(outer)?;
        Ok(answer)
    }

    /// As `in_subtree_raw`, within the region of a pointer to a `T` with this length: 0 for one
    /// value, else the number of elements or bytes. Fails with `LayoutTooLarge` as `layout_raw`
    /// does, and then nothing has changed. As in rkyv 0.8.18, with a position and a length for a
    /// pointer.
    final fn in_subtree<
        T: LayoutRaw,
        R: Drop,
        E: From<Error> + Drop,
        F: FnOnce(&mut Self) -> Result<R, E> + Drop,
    >(&mut self, position: i128, length: usize, f: F) -> Result<R, E>
        requires { MayCallAt Self.Context (λ inner. F.pre f inner) T.ArchivePointee self position
            length }
        ensures { CalledAt Self.Context (Returns F.FnOnce f) E.from_gives T.ArchivePointee self
            position length result }
    {
        let layout = T::layout_raw(length)?;
        self.in_subtree_raw(position, &layout, f)
    }
}

impl<C: ArchiveContext> ArchiveContextExt for C {}
