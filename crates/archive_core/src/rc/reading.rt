// Shared values are read back by a pool.

ghost use Rattle.std.specs.Prelude.{◌≡◌, [], true, IfOk, IfErr, IfSome, length, string_bytes};
ghost use Rattle.std.specs.Rc.{rc_str_bytes, rc_slice_items};
ghost use Rattle.archive_check.specs.Definitions.{no_definition};
ghost use Rattle.archive_check.specs.Entries.{ReadsBack, RefusesReading};
ghost use Rattle.archive_check.specs.Shape.{one, run, shared, text, weak};
ghost use Rattle.archive_check.specs.Value.{list, shared_value, text_value};
ghost use Rattle.archive_check.specs.Viewed.{Viewed};
ghost use Rattle.archive_core.specs.Pooling.{kept_at};
ghost use Rattle.archive_types.specs.Runs.{each_keys, each_meaning};
ghost use Rattle.archive_types.specs.Words.Seen.{IsPartOf, RefusesPart};
ghost use Rattle.archive_types.specs.Members.Options.{option_keys};
ghost use Rattle.archive_types.specs.Members.SharedLaws.{flavor_as, weak_value};
ghost use Rattle.archive_types.specs.Members.SharedSources.{rc_keys};
ghost use Rattle.archive_types.specs.Words.ReadBack.{Read};
ghost use Rattle.archive_core.specs.SharedSeen.{HandsOutTarget, FinishesTarget};
ghost use Rattle.archive_core.specs.Spans.{one_spans, text_spans, slice_spans, cloned_kept};

use super::{Shared, SharedSlice, SharedStr, WeakShared};
use crate::pooling::{Pooled, Pooling, PoolingExt};
use archive_check::format::error::Error;
use archive_types::rc::{ArchivedRc, ArchivedRcWeak, Flavor};
use archive_types::slice::ArchivedSlice;
use archive_types::string::ArchivedStr;
use archive_types::traits::{Archive, ArchivePointee, Deserialize, DeserializeUnsized, Portable};
use archive_types::view::{RawView, Ref};
use std::alloc::{AllocError, Global};
use std::rc::{Rc, RcSlice, RcStr};

/// The same shared value.
impl<T: Drop> Clone for Shared<T> {
    ghost is_clone = { λ a b. (b.key ≡ a.key) × (b.value.value ≡ a.value.value) };

    fn clone(&self) -> Result<Shared<T>, AllocError> {
        Ok(Shared {
            key: self.key,
            value: self.value.clone()?,
        })
    }
}

/// The same shared slice.
impl<T: Drop> Clone for SharedSlice<T> {
    ghost is_clone = { λ a b. (b.key ≡ a.key) × (rc_slice_items b.value ≡ rc_slice_items a.value) };

    fn clone(&self) -> Result<SharedSlice<T>, AllocError> {
        Ok(SharedSlice {
            key: self.key,
            value: self.value.clone()?,
        })
    }
}

/// The same shared text.
impl Clone for SharedStr {
    ghost is_clone = { λ a b. (b.key ≡ a.key) × (rc_str_bytes b.value ≡ rc_str_bytes a.value) };

    fn clone(&self) -> Result<SharedStr, AllocError> {
        Ok(SharedStr {
            key: self.key,
            value: self.value.clone()?,
        })
    }
}

impl<T: Archive + Drop> Pooled for Shared<T> {
    type Value = T;

    type Archived = T::Archived;

    ghost kept = { λ s. kept_at s.key T.Archived.pointee 0 (T.meaning s.value.value)
        (T.keys s.value.value) };

    ghost count = { λ _. 0 };

    ghost clone_law = { λ a b h. cloned_kept T.Archived.pointee (λ _. 0) T.meaning T.keys a.key
        b.key a.value.value b.value.value h.0 h.1 };

    ghost spans = { λ v. one_spans T.Archived.definitions T.Archived.pointee T.Archived.shape
        T.Archived.is_one (T.meaning v) };

    fn from_value(alloc: Global, pos: usize, value: T) -> Result<Shared<T>, Error> {
        let value = Rc::new(alloc, value)?;
        Ok(Shared {
            key: pos as u64,
            value,
        })
    }
}

impl<T: Archive + Drop> Pooled for SharedSlice<T> {
    type Value = Vec<T>;

    type Archived = ArchivedSlice<T::Archived>;

    ghost kept = { λ s. kept_at s.key (run T.Archived.shape) (length (rc_slice_items s.value))
        (list (each_meaning T.meaning (rc_slice_items s.value)))
        (each_keys T.keys (rc_slice_items s.value)) };

    ghost count = { λ v. length v.items };

    ghost clone_law = { λ a b h. cloned_kept (run T.Archived.shape) (λ xs. length xs)
        (λ xs. list (each_meaning T.meaning xs)) (λ xs. each_keys T.keys xs) a.key b.key
        (rc_slice_items a.value) (rc_slice_items b.value) h.0 h.1 };

    ghost spans = { λ v. slice_spans T.Archived.definitions T.Archived.shape T.meaning v.items };

    fn from_value(_alloc: Global, pos: usize, value: Vec<T>) -> Result<SharedSlice<T>, Error> {
        let value = RcSlice::from_vec(value)?;
        Ok(SharedSlice {
            key: pos as u64,
            value,
        })
    }
}

impl Pooled for SharedStr {
    type Value = String;

    type Archived = ArchivedStr;

    ghost kept = { λ s. kept_at s.key text (length (rc_str_bytes s.value))
        (text_value (rc_str_bytes s.value)) [] };

    ghost count = { λ s. length (string_bytes s) };

    ghost clone_law = { λ a b h. cloned_kept text (λ xs. length xs) (λ xs. text_value xs) (λ xs. [])
        a.key b.key (rc_str_bytes a.value) (rc_str_bytes b.value) h.0 h.1 };

    ghost spans = { λ s. text_spans (string_bytes s) };

    fn from_value(_alloc: Global, pos: usize, value: String) -> Result<SharedStr, Error> {
        let value = RcStr::from_string(value)?;
        Ok(SharedStr {
            key: pos as u64,
            value,
        })
    }
}

/// The value, which the pool hands out at each pointer to it: of a position that is finished the kept one, and else the position is finished with it.
impl<
    T: Portable + Deserialize<U, D>,
    U: Archive<Archived = T> + Drop,
    F: Flavor,
    D: Pooling<Shared<U>>,
> Deserialize<Shared<U>, D> for ArchivedRc<T, F> {
    fn deserialize_part(
        alloc: Global,
        part: RawView<'_>,
        deserializer: &mut D,
    ) -> Result<Shared<U>, Error>
        requires { IsPartOf ⟦<Self as ArchivePointee>⟧ part }
        ensures read { IfOk result (Read ⟦<Self as ArchivePointee>⟧ part D.Entries deserializer
            ⟦<Shared<U> as Archive>⟧) }
        ensures handed_out { IfOk result (λ s. HandsOutTarget part D.Entries deserializer
            (⟦<Shared<U> as Pooled>⟧.kept s)) }
        ensures finished { D.keeps ≡ true → IfOk result
            (λ s. FinishesTarget part D.Entries deserializer (⟦<Shared<U> as Pooled>⟧.kept s)) }
        ensures refused { IfErr result (RefusesPart ⟦<Self as ArchivePointee>⟧ part D.Entries
            deserializer) }
    {
        let view: Ref<'_, ArchivedRc<T, F>> = Ref::at(part);
        PoolingExt::<Shared<U>>::deserialize_shared(deserializer, alloc, view.get())
    }
}

/// The elements, which the pool hands out at each pointer to them, as it does one value.
impl<
    T: Portable + Deserialize<U, D>,
    U: Archive<Archived = T> + Drop,
    F: Flavor,
    D: Pooling<SharedSlice<U>>,
> Deserialize<SharedSlice<U>, D> for ArchivedRc<ArchivedSlice<T>, F> {
    fn deserialize_part(
        alloc: Global,
        part: RawView<'_>,
        deserializer: &mut D,
    ) -> Result<SharedSlice<U>, Error>
        requires { IsPartOf ⟦<Self as ArchivePointee>⟧ part }
        ensures read { IfOk result (Read ⟦<Self as ArchivePointee>⟧ part D.Entries deserializer
            ⟦<SharedSlice<U> as Archive>⟧) }
        ensures handed_out { IfOk result (λ s. HandsOutTarget part D.Entries deserializer
            (⟦<SharedSlice<U> as Pooled>⟧.kept s)) }
        ensures finished { D.keeps ≡ true → IfOk result
            (λ s. FinishesTarget part D.Entries deserializer
            (⟦<SharedSlice<U> as Pooled>⟧.kept s)) }
        ensures refused { IfErr result (RefusesPart ⟦<Self as ArchivePointee>⟧ part D.Entries
            deserializer) }
    {
        let view: Ref<'_, ArchivedRc<ArchivedSlice<T>, F>> = Ref::at(part);
        PoolingExt::<SharedSlice<U>>::deserialize_shared(deserializer, alloc, view.get())
    }
}

/// The text, which the pool hands out at each pointer to it, as it does one value.
impl<F: Flavor, D: Pooling<SharedStr>> Deserialize<SharedStr, D> for ArchivedRc<ArchivedStr, F> {
    fn deserialize_part(
        alloc: Global,
        part: RawView<'_>,
        deserializer: &mut D,
    ) -> Result<SharedStr, Error>
        requires { IsPartOf ⟦<Self as ArchivePointee>⟧ part }
        ensures read { IfOk result (Read ⟦<Self as ArchivePointee>⟧ part D.Entries deserializer
            ⟦<SharedStr as Archive>⟧) }
        ensures handed_out { IfOk result (λ s. HandsOutTarget part D.Entries deserializer
            (⟦<SharedStr as Pooled>⟧.kept s)) }
        ensures finished { D.keeps ≡ true → IfOk result
            (λ s. FinishesTarget part D.Entries deserializer (⟦<SharedStr as Pooled>⟧.kept s)) }
        ensures refused { IfErr result (RefusesPart ⟦<Self as ArchivePointee>⟧ part D.Entries
            deserializer) }
    {
        let view: Ref<'_, ArchivedRc<ArchivedStr, F>> = Ref::at(part);
        PoolingExt::<SharedStr>::deserialize_shared(deserializer, alloc, view.get())
    }
}

/// The shared value, which the pool hands out at each pointer to it, weak or not; none for a null.
impl<
    T: Portable + Deserialize<U, D>,
    U: Archive<Archived = T> + Drop,
    F: Flavor,
    D: Pooling<Shared<U>>,
> Deserialize<WeakShared<U>, D> for ArchivedRcWeak<T, F> {
    fn deserialize_part(
        alloc: Global,
        part: RawView<'_>,
        deserializer: &mut D,
    ) -> Result<WeakShared<U>, Error>
        requires { IsPartOf ⟦<Self as ArchivePointee>⟧ part }
        ensures read { IfOk result (Read ⟦<Self as ArchivePointee>⟧ part D.Entries deserializer
            ⟦<WeakShared<U> as Archive>⟧) }
        ensures handed_out { IfOk result (λ w. IfSome w.value (λ s.
            HandsOutTarget part D.Entries deserializer (⟦<Shared<U> as Pooled>⟧.kept s))) }
        ensures finished { D.keeps ≡ true → IfOk result (λ w. IfSome w.value (λ s.
            FinishesTarget part D.Entries deserializer (⟦<Shared<U> as Pooled>⟧.kept s))) }
        ensures refused { IfErr result (RefusesPart ⟦<Self as ArchivePointee>⟧ part D.Entries
            deserializer) }
    {
        let view: Ref<'_, ArchivedRcWeak<T, F>> = Ref::at(part);
        let Some(value) = view.upgrade() else {
            return Ok(WeakShared { value: None });
        };
        match PoolingExt::<Shared<U>>::deserialize_shared(deserializer, alloc, value) {
            Ok(value) => Ok(WeakShared { value: Some(value) }),
            Err(error) => Err(error),
        }
    }
}
