// `Access`: what is made once for a type, to access many archives.

ghost use Rattle.std.specs.Prelude.{◌≡◌, ◌≤◌, length, IsTrue, IsOk, IfSome, IfNone, IfOk, OnOk, IfErr};
ghost use Rattle.std.proofs.Props.{props};
ghost use Rattle.archive_check.specs.Archives.{Answers, root_in, ExplainsNoSchema};
ghost use Rattle.archive_check.specs.Defined.{WellFormed};
ghost use Rattle.archive_check.specs.Definitions.{listed};
ghost use Rattle.archive_check.specs.Words.Faults.{IsOfCheck};
ghost use Rattle.archive_check.specs.context.FreshContexts.{HasLevels, KeepsLevels};
ghost use Rattle.archive_schema.specs.OneSchema.{IsSchemaOf-prop};
ghost use Rattle.archive_check.specs.context.Pushes.{FewPushed};
ghost use Rattle.archive_schema.specs.Schemas.{IsSchemaOf};
ghost use Rattle.archive_core.specs.WholeArchives.{ReadsArchive};
ghost use Rattle.archive_schema.specs.ContextAnswers.{AnswersIn};
ghost use Rattle.archive_inspect.specs.Explained.{ExplainsBuffer};
ghost use Rattle.archive_check.specs.declared.format.error.Error.TheVariants.{OutOfMemory};

use super::access_direct;
use archive_check::context::{ArchiveContext, HighValidator, SharedContext};
use archive_check::format::error::Error;
use archive_check::self_check::{SelfCheck, check_root};
use archive_inspect::explain::{Explanation, explain};
use archive_schema::shape::Schema;
use archive_types::traits::{Archive, Deserialize, Entries, Portable};
use archive_types::view::{RawView, Ref};
use std::alloc::Global;
use std::marker::PhantomData;

/// Accesses any number of archives of a `T`, with the work for the type done once. It keeps the
/// schema of `T`, or nothing if `T` validates itself. Each call promises what the call of that name
/// in `api` does.
///
/// ```
/// let messages: Access<ArchivedVec<ArchivedString>> = Access::new(alloc)?;
/// let view = messages.access(bytes.as_slice())?;
/// let next = messages.access(others.as_slice())?;
/// ```
#[derive(Drop)]
pub struct Access<T: Portable> {
    alloc: Global,
    // None where the type checks itself.
    schema: Option<Schema>,
    of: PhantomData<T>,
    ghost made: { IfSome schema (λ s. IsSchemaOf s T.shape T.definitions) } by { Prim.hlevel (IsSchemaOf-prop, props) },
    ghost needed: { IfNone schema (IsTrue T.Check.direct) } by { Prim.hlevel props },
}

impl<T: Portable> Access<T> {
    /// Does the work for the type. Memory comes from `alloc`, for the checks as well. Never fails
    /// if `T` validates itself.
    ///
    /// Errors:
    /// - `OutOfMemory`: memory is refused.
    /// - `ShapeConflict`, `RecursiveLayout`: the definitions of `T` have no meaning.
    pub fn new(alloc: Global) -> Result<Access<T>, Error>
        ensures meaning { OnOk result (WellFormed (listed T.definitions) T.shape) }
        ensures refused { IfErr result (λ e. ExplainsNoSchema T.shape T.definitions e) }
        ensures free { IsTrue T.Check.direct → IsOk result }
    {
        if T::Check::is_direct() {
            return Ok(Access {
                alloc,
                schema: None,
                of: PhantomData,
            });
        }
        let schema = Schema::of::<T>(alloc)?;
        Ok(Access {
            alloc,
            schema: Some(schema),
            of: PhantomData,
        })
    }

    /// Validates an archive with its root at `pos`. The caller must ensure that the context's range
    /// ends in the buffer; in a fresh context for these bytes the result is exact.
    ///
    /// Errors, as of `api::check_pos_with_context`:
    /// - `OutOfMemory`: memory is refused.
    /// - the first fault of the bytes, in the order that docs/FORMAT.md gives.
    pub fn check_pos_with_context<C: ArchiveContext + SharedContext>(
        &self,
        bytes: &[u8],
        pos: usize,
        context: &mut C,
    ) -> Result<(), Error>
        requires { (C.state context.old).end ≤ length bytes.now }
        ensures answer { AnswersIn T.definitions T.shape C.Context context bytes.now pos result }
        ensures of_check { IfErr result (λ e. HasLevels (C.state context.old).depth → IsOfCheck e) }
        ensures levels { OnOk result (KeepsLevels (C.state context.old) (C.state context.new)) }
        ensures few_subtrees { FewPushed (C.state context.old) (C.state context.new) }
    {
        prove!(bytes.len() <= usize::MAX);
        match &self.schema {
            None => check_root::<T, C>(bytes, pos, context),
            Some(schema) => schema.check(bytes, pos, context),
        }
    }

    /// Validates an archive with its root at `pos`, and returns the root's view.
    ///
    /// Errors:
    /// - `OutOfMemory`: memory is refused.
    /// - the first fault of the bytes, in the order that docs/FORMAT.md gives.
    #[inline(always)]
    pub fn access_pos<'a>(&self, bytes: &'a [u8], pos: usize) -> Result<Ref<'a, T>, Error>
        ensures answer { Answers T.definitions bytes.now None pos T.shape result }
        ensures buffer { IfOk result (λ r. r.bytes.now ≡ bytes.now) }
        ensures position { IfOk result (λ r. r.pos ≡ pos) }
        ensures whole { IfOk result (λ r. r.len ≡ 0) }
    {
        if T::Check::is_direct() {
            return access_direct(bytes, pos);
        }
        self.access_by_schema(bytes, pos)
    }

    // `access_pos` by the schema that is kept. It is a call, so that callers have little in line besides the check of a type that validates itself.
    #[inline(never)]
    fn access_by_schema<'a>(&self, bytes: &'a [u8], pos: usize) -> Result<Ref<'a, T>, Error>
        ensures answer { Answers T.definitions bytes.now None pos T.shape result }
        ensures buffer { IfOk result (λ r. r.bytes.now ≡ bytes.now) }
        ensures position { IfOk result (λ r. r.pos ≡ pos) }
        ensures whole { IfOk result (λ r. r.len ≡ 0) }
    {
        let mut context = HighValidator::new(self.alloc, bytes);
        if let Err(error) = self.check_pos_with_context(bytes, pos, &mut context) {
            return Err(error);
        }
        Ok(Ref::at(RawView { bytes, pos, len: 0 }))
    }

    /// Validates an archive with its root at the end, and returns the root's view. Fails as
    /// `access_pos` does.
    #[inline(always)]
    pub fn access<'a>(&self, bytes: &'a [u8]) -> Result<Ref<'a, T>, Error>
        ensures answer { Answers T.definitions bytes.now None (root_in bytes.now T.layout) T.shape
            result }
        ensures buffer { IfOk result (λ r. r.bytes.now ≡ bytes.now) }
        ensures position { IfOk result (λ r. r.pos ≡ root_in bytes.now T.layout) }
        ensures whole { IfOk result (λ r. r.len ≡ 0) }
    {
        self.access_pos(bytes, super::root_position::<T>(bytes.len()))
    }

    /// Validates an archive with its root at the end, and reads it back: the result is the value
    /// that the archive denotes, its shared values named by their positions. `deserializer` is `()`
    /// if nothing is shared, else one that knows no position yet.
    ///
    /// Errors, besides those of `access`:
    /// - `CyclicDeserialize`: only if a shared position is met that is still being read; so never
    ///   if the type shares nothing.
    #[inline(always)]
    pub fn from_bytes<U: Archive<Archived = T>, D: Entries>(
        &self,
        bytes: &[u8],
        deserializer: &mut D,
    ) -> Result<U, Error>
    where
        T: Deserialize<U, D>,
        ensures { ReadsArchive T.Portable bytes.now D.Entries deserializer U.Archive result }
    {
        let root = self.access(bytes)?;
        <T as Deserialize<U, D>>::deserialize(self.alloc, root, deserializer)
    }

    /// Why the bytes are no archive whose root lies at their end: `None` if they are one. The
    /// schema is compiled anew for it.
    ///
    /// Errors:
    /// - `OutOfMemory`: memory is refused.
    pub fn explain(&self, bytes: &[u8]) -> Result<Option<Explanation>, Error>
        ensures explained { IfOk result (ExplainsBuffer T.definitions bytes.now
            (root_in bytes.now T.layout) T.shape) }
        ensures refused { IfErr result (λ e. e ≡ OutOfMemory) }
    {
        explain::<T>(self.alloc, bytes)
    }
}
