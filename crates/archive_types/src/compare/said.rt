// Views compared by what they mean, and by what their archives say.

ghost use Rattle.std.specs.Prelude.{◌≡◌};
ghost use Rattle.archive_types.specs.MeantOrder.{OrdersMeant};
ghost use Rattle.archive_types.specs.SaidOrder.{OrdersSaid};
ghost use Rattle.archive_types.specs.Words.Seen.{shown};

use super::Ordered;
use crate::view::Ref;
use std::cmp::Ordering;

impl<'a, T: Ordered> Ref<'a, T> {
    /// The order of what two views show, as `cmp` returns it. If no flavor of what they show allows
    /// cycles, each means one value, and it is the order of these; if they share nothing, that of
    /// the values that their archives say.
    pub fn compare_said(self, other: Ref<'_, T>) -> Ordering
        ensures order { result ≡ T.order (shown self.entry) (shown other.entry) }
        ensures meant { OrdersMeant self.entry other.entry result }
        ensures said { OrdersSaid self.entry other.entry result }
    {
        T::compare(self.part(), other.part())
    }
}
