//! Pointers to what was checked before are passed over, and nothing is listed for them.

ghost use Rattle.std.specs.Prelude.{◌+◌, ◌*◌, ◌<◌, ◌≤◌, ℕ, length, IfSome, IsTrue};
ghost use Rattle.archive_schema.specs.check.Runs.{pointer_bytes, Takes};
ghost use Rattle.archive_schema.specs.plan.SoundPlans.{IsSound};
ghost use Rattle.archive_schema.specs.check.LoopInvariant.{ElementsFit, HasNumber, LeadsBack, LeadsBackOrIsNull, LeadsNowhere};

use crate::check::Checker;
use crate::plan::{NodeKind, PointeeKind};
use archive_check::context::SharedContext;
use archive_check::format::bytes::{read_i32, read_position};

impl Checker<'_> {
    // The number of a shared type, where a position was started with it.
    fn type_number<C: SharedContext>(&self, shared_type: usize, context: &C) -> Option<usize>
        requires { shared_type < length self.now.shared_types.now }
        ensures { IfSome result (λ n. HasNumber self.now (C.numbered context.now n) shared_type) }
    {
        let kind = &self.shared_types[shared_type];
        context.type_number(&kind.flavor, &kind.pointee)
    }

    // Whether the shared pointer at `at` leads to a position that is finished, met as one of this number's type and of the pointer's length.
    #[inline(always)]
    fn leads_back<C: SharedContext>(
        &self,
        number: usize,
        target: PointeeKind,
        at: usize,
        context: &C,
    ) -> bool
        requires { at + pointer_bytes target ≤ length self.now.bytes.now }
        ensures { (k : ℕ) → HasNumber self.now (C.numbered context.now number) k → IsTrue result
            → LeadsBack self.now (C.positions context.now) k target at }
    {
        let length = self.length(target, at);
        let position = read_position(self.bytes, at, at);
        context.is_finished_as(number, position, length)
    }

    // Whether the weak pointer at `at` is a null, or leads to such a position.
    #[inline(always)]
    fn leads_back_or_is_null<C: SharedContext>(
        &self,
        number: usize,
        target: PointeeKind,
        at: usize,
        context: &C,
    ) -> bool
        requires { at + pointer_bytes target ≤ length self.now.bytes.now }
        ensures { (k : ℕ) → HasNumber self.now (C.numbered context.now number) k → IsTrue result
            → LeadsBackOrIsNull self.now (C.positions context.now) k target at }
    {
        if read_i32(self.bytes, at) == 1 {
            return true;
        }
        self.leads_back(number, target, at, context)
    }

    // How many of the shared pointers at `at`, each of `size` bytes, come before the first that leads to what wasn't checked before.
    #[inline(never)]
    fn count_shared<C: SharedContext>(
        &self,
        node: usize,
        count: usize,
        at: usize,
        size: usize,
        context: &C,
    ) -> usize
        requires sound { IsSound self.now }
        requires fits { ElementsFit self.now node count at }
        requires size { Takes self.now node size }
        ensures below { result ≤ count }
        ensures passed { (k : ℕ) → k < result → LeadsNowhere self.now (C.positions context.now) node
            (at + k * size) }
    {
        let here = self.nodes[node];
        let NodeKind::Shared {
            shared_type,
            target,
            ..
        } = here.kind
        else {
            return 0;
        };
        let Some(number) = self.type_number(shared_type, context) else {
            return 0;
        };
        for index in 0..count {
            if !self.leads_back(number, target, at + index * size, context) {
                return index;
            }
        }
        count
    }

    // The same of weak pointers, of which a null leads nowhere.
    #[inline(never)]
    fn count_weak<C: SharedContext>(
        &self,
        node: usize,
        count: usize,
        at: usize,
        size: usize,
        context: &C,
    ) -> usize
        requires sound { IsSound self.now }
        requires fits { ElementsFit self.now node count at }
        requires size { Takes self.now node size }
        ensures below { result ≤ count }
        ensures passed { (k : ℕ) → k < result → LeadsNowhere self.now (C.positions context.now) node
            (at + k * size) }
    {
        let here = self.nodes[node];
        let NodeKind::Weak {
            shared_type,
            target,
            ..
        } = here.kind
        else {
            return 0;
        };
        let Some(number) = self.type_number(shared_type, context) else {
            return 0;
        };
        for index in 0..count {
            if !self.leads_back_or_is_null(number, target, at + index * size, context) {
                return index;
            }
        }
        count
    }

    /// How many of the elements at `at`, each of `size` bytes, come before the first that is to be opened; `count` where none is.
    pub fn count_passed<C: SharedContext>(
        &self,
        node: usize,
        count: usize,
        at: usize,
        size: usize,
        context: &C,
    ) -> usize
        requires sound { IsSound self.now }
        requires fits { ElementsFit self.now node count at }
        requires size { Takes self.now node size }
        ensures below { result ≤ count }
        ensures passed { (k : ℕ) → k < result → LeadsNowhere self.now (C.positions context.now) node
            (at + k * size) }
    {
        let here = self.nodes[node];
        match here.kind {
            NodeKind::Shared { .. } => self.count_shared(node, count, at, size, context),
            NodeKind::Weak { .. } => self.count_weak(node, count, at, size, context),
            NodeKind::Free | NodeKind::Leaf(_) => self.count_legal(node, count, at, size),
            _ => 0,
        }
    }
}
