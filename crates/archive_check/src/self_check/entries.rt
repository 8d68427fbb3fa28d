// The entries of maps: each key, whether it comes behind the one before it, and then its value.

ghost use Rattle.std.specs.Prelude.{◌≡◌, ◌+◌, ◌*◌, ◌≤◌, ℕ, suc, length, OnSome, IfSome, IfNone, IsTrue, None};
ghost use Rattle.archive_check.specs.Shape.{Shape, sorted_map};
ghost use Rattle.archive_check.specs.Keys.{ComesBehind};
ghost use Rattle.archive_check.specs.SelfCheck.Lone.{tuple_direct};
ghost use Rattle.archive_check.specs.SelfCheck.Ways.{shape_way};
ghost use Rattle.archive_check.specs.SelfCheck.Regions.{entries_way};
ghost use Rattle.archive_check.specs.SelfCheck.Maps.{entry_size, entry_definitions, entry_each, entry_lone, entries_at};
ghost use Rattle.archive_check.specs.context.Pushes.{Spends};
ghost use Rattle.archive_check.specs.SelfCheck.Steps.{Went, WentOver, Stopped, StoppedIf};

use super::SelfCheck;
use super::parts::CheckedParts;
use super::tuples::TupleCheck;
use super::values::check_value;
use crate::context::ArchiveContext;
use crate::context::refusals::refuse;
use crate::context::regions::{enter, leave};
use crate::format::bytes::{read_position, read_u32};
use crate::format::error::Error;
use crate::format::extents::times;
use crate::format::traits::{MapKey, Portable, PortableParts, size_of_record};
use std::marker::PhantomData;

// Checks the key at `at`, and that it comes behind the one at `before`, if there is one.
#[inline(always)]
fn check_key<K: MapKey, C: ArchiveContext>(
    bytes: &[u8],
    before: Option<usize>,
    at: usize,
    refusal: &mut Error,
    context: &mut C,
) -> Option<()>
    requires fits { at + K.layout.size ≤ length bytes.now }
    requires earlier { IfSome before (λ p. p + K.layout.size ≤ length bytes.now) }
    requires below { (C.state context.old).end ≤ length bytes.now }
    ensures through { WentOver C.Context context K.Portable (shape_way bytes.now at) result }
    ensures behind { OnSome result (ComesBehind K.key bytes.now before at) }
    ensures stops { IsTrue K.Check.direct → (n : ℕ) (V : Shape)
        → Stopped C.Context context K.definitions (entries_way bytes.now before at (suc n) K.key V)
        result refusal }
    ensures spends { Spends K.layout.size (C.state context.old) (C.state context.new) }
    ensures positions { OnSome result (C.positions context.new ≡ C.positions context.old) }
{
    check_value::<K, C>(bytes, at, refusal, context)?;
    if !K::key().comes_behind(bytes, before, at) {
        return refuse(refusal, Error::UnsortedKeys);
    }
    Some(())
}

// Checks so many entries, of `size` bytes each, one behind another from `at` on.
#[inline(always)]
fn check_entries<K: MapKey, V: Portable, C: ArchiveContext>(
    bytes: &[u8],
    at: usize,
    count: usize,
    size: usize,
    refusal: &mut Error,
    context: &mut C,
) -> Option<()>
    requires sized { size ≡ entry_size K.layout V.layout }
    requires fits { at + count * size ≤ length bytes.now }
    requires below { (C.state context.old).end ≤ length bytes.now }
    ensures through { Went C.Context context (entry_definitions K.definitions V.definitions)
        (entries_way bytes.now None at count K.key V.shape) result }
    ensures stops { StoppedIf C.Context context (entry_each K.Check.direct V.Check.direct)
        (entry_definitions K.definitions V.definitions)
        (entries_way bytes.now None at count K.key V.shape) result refusal }
    ensures spends { Spends (count * size) (C.state context.old) (C.state context.new) }
    ensures positions { OnSome result (C.positions context.new ≡ C.positions context.old) }
{
    prove!(bytes.len() <= usize::MAX);
    let mut before = None;
    for index in 0..count {
        let next = at + index * size;
        check_key::<K, C>(bytes, before, next, refusal, context)?;
        <(V, ()) as CheckedParts>::check_parts(bytes, next, K::size(), refusal, context)?;
        before = Some(next);
    }
    Some(())
}

// Checks the region of so many entries at `position`.
#[inline(always)]
fn check_map<K: MapKey, V: Portable, C: ArchiveContext>(
    bytes: &[u8],
    position: i128,
    count: usize,
    refusal: &mut Error,
    context: &mut C,
) -> Option<()>
    requires below { (C.state context.old).end ≤ length bytes.now }
    ensures through { Went C.Context context (entry_definitions K.definitions V.definitions)
        (entries_at bytes.now position count K.key V.shape) result }
    ensures stops { StoppedIf C.Context context (tuple_direct
        (entry_each K.Check.direct V.Check.direct) (entry_lone K.Check.nameless V.Check.nameless)
        (entry_size K.layout V.layout)) (entry_definitions K.definitions V.definitions)
        (entries_at bytes.now position count K.key V.shape) result refusal }
    ensures spends { Spends 4 (C.state context.old) (C.state context.new) }
    ensures positions { OnSome result (C.positions context.new ≡ C.positions context.old) }
{
    if !<TupleCheck<(K, (V, ()))>>::is_direct() {
        return None;
    }
    let size = size_of_record::<(K, (V, ()))>();
    let align = <(K, (V, ())) as PortableParts>::align();
    let region = enter(times(Some(size), count), align, position, refusal, context)?;
    check_entries::<K, V, C>(bytes, region.begin, count, size, refusal, context)?;
    leave(region.outer_start, region.outer_end, refusal, context)
}

/// The check of a sorted map: its offset and its length, of four bytes each, and the entries that they lead to, whose keys ascend strictly.
pub struct MapCheck<K, V> {
    of: PhantomData<(K, V)>,
}

impl<K: MapKey, V: Portable> SelfCheck for MapCheck<K, V> {
    ghost shape = { sorted_map K.key V.shape };

    ghost definitions = { entry_definitions K.definitions V.definitions };

    ghost span = { 8 };

    ghost direct = { tuple_direct (entry_each K.Check.direct V.Check.direct)
        (entry_lone K.Check.nameless V.Check.nameless) (entry_size K.layout V.layout) };

    ghost nameless = { entry_each K.Check.nameless V.Check.nameless };

    fn is_direct() -> bool {
        <TupleCheck<(K, (V, ()))>>::is_direct()
    }

    fn is_nameless() -> bool {
        <TupleCheck<(K, (V, ()))>>::is_nameless()
    }

    #[inline(always)]
    fn check_at<C: ArchiveContext>(
        bytes: &[u8],
        at: usize,
        refusal: &mut Error,
        context: &mut C,
    ) -> Option<()> {
        let count = read_u32(bytes, at + 4) as usize;
        check_map::<K, V, C>(bytes, read_position(bytes, at, at), count, refusal, context)
    }
}
