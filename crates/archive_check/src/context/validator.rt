//! Contexts of a check that are made of one for the range and one for the shared positions.

ghost use Rattle.std.specs.Prelude.{◌≡◌, ◌≢◌, Some, None, OnOk, OnErr, IsSome};
ghost use Rattle.std.specs.Option.{ForSome};
ghost use Rattle.archive_check.specs.context.FreshContexts.{IsWhole, IsWholeIn};
ghost use Rattle.archive_check.specs.context.PositionStates.{IsStartAnswer, Starts, entry_as};

use crate::context::first::FirstPosition;
use crate::context::positions::SharedValidator;
use crate::context::{ArchiveContext, ArchiveValidator, Context, SharedContext, ValidationState};
use crate::format::error::Error;
use crate::format::expr::{FlavorInfo, Pointee};
use crate::format::layout::Layout;
use std::alloc::Global;
use std::ops::Range;

/// A context whose range is kept by `archive`, and whose shared positions by `shared`. As in rkyv
/// 0.8.18.
#[derive(Drop)]
pub struct Validator<A, S> {
    archive: A,
    shared: S,
}

impl<A: Context, S: Context> Validator<A, S> {
    /// The two as one.
    pub fn new(archive: A, shared: S) -> Validator<A, S>
        ensures state { ⟦<Validator<A, S> as Context>⟧.state result ≡ A.state archive }
        ensures positions { ⟦<Validator<A, S> as Context>⟧.positions result ≡ S.positions shared }
    {
        Validator { archive, shared }
    }
}

impl<'a, S: Context> Validator<ArchiveValidator<'a>, S> {
    /// How many regions were entered, `usize::MAX` where it is more.
    pub fn subtrees(&self) -> usize
        ensures { result ≡ (⟦<Validator<ArchiveValidator<'a>, S> as Context>⟧.state
            self.now).pushes }
    {
        self.archive.subtrees()
    }
}

impl<A: Context, S: Context> Context for Validator<A, S> {
    ghost use Rattle.archive_check.specs.context.Validators.{archive_of, shared_of};

    ghost state = { λ v. A.state (archive_of v) };

    ghost positions = { λ v. S.positions (shared_of v) };
}

impl<A: ArchiveContext, S: Context> ArchiveContext for Validator<A, S> {
    #[inline(always)]
    fn check_subtree_ptr(&mut self, position: i128, layout: &Layout) -> Result<(), Error> {
        self.archive.check_subtree_ptr(position, layout)
    }

    #[inline(always)]
    fn push_subtree_range(&mut self, root: usize, end: usize) -> Result<Range<usize>, Error> {
        self.archive.push_subtree_range(root, end)
    }

    #[inline(always)]
    fn pop_subtree_range(&mut self, range: Range<usize>) -> Result<(), Error> {
        self.archive.pop_subtree_range(range)
    }
}

impl<A: Context, S: SharedContext> SharedContext for Validator<A, S> {
    ghost use Rattle.archive_check.specs.context.Validators.{shared_of};

    ghost numbered = { λ v. S.numbered (shared_of v) };

    fn start_shared(
        &mut self,
        flavor: &FlavorInfo,
        pointee: &Pointee,
        position: i128,
        length: usize,
    ) -> Result<ValidationState, Error> {
        self.shared.start_shared(flavor, pointee, position, length)
    }

    fn type_number(&self, flavor: &FlavorInfo, pointee: &Pointee) -> Option<usize> {
        self.shared.type_number(flavor, pointee)
    }

    #[inline(always)]
    fn is_finished_as(&self, number: usize, position: i128, length: usize) -> bool {
        self.shared.is_finished_as(number, position, length)
    }

    fn finish_shared(
        &mut self,
        flavor: &FlavorInfo,
        pointee: &Pointee,
        position: i128,
    ) -> Result<(), Error> {
        self.shared.finish_shared(flavor, pointee, position)
    }
}

/// The range of one buffer and the shared positions in it. rkyv 0.8.18 has the name for a `Validator` of the two.
#[derive(Drop)]
pub struct HighValidator<'a> {
    range: ArchiveValidator<'a>,
    alloc: Global,
    // The first shared position is kept alone, and takes no memory but where its pointee does. Many archives have no other.
    first: Option<FirstPosition>,
    // Made at the second one.
    positions: Option<Box<SharedValidator>>,
}

impl<'a> HighValidator<'a> {
    ghost use Rattle.archive_check.specs.context.Validators.{positions_met};

    /// The whole of `bytes`, of which nothing was met yet, with no limit of depth. Memory comes from `alloc`, and none is taken yet.
    pub fn new(alloc: Global, bytes: &'a [u8]) -> HighValidator<'a>
        ensures whole { IsWholeIn ⟦<HighValidator<'a> as Context>⟧ result bytes.now }
        ensures unlimited { (⟦<HighValidator<'a> as Context>⟧.state result).depth ≡ None }
        ensures none_entered { (⟦<HighValidator<'a> as Context>⟧.state result).pushes ≡ 0 }
    {
        HighValidator::with_max_depth(alloc, bytes, None)
    }

    /// The whole of `bytes`, of which nothing was met yet; of `depth` levels the last lets no
    /// region be entered, so 2 lets one be, the root. The caller must ensure that `depth` isn't 0;
    /// None is no limit. Memory comes from `alloc`, and none is taken yet.
    pub fn with_max_depth(alloc: Global, bytes: &'a [u8], depth: Option<usize>) -> HighValidator<'a>
        requires { depth ≢ Some 0 }
        ensures whole { IsWholeIn ⟦<HighValidator<'a> as Context>⟧ result bytes.now }
        ensures limited { (⟦<HighValidator<'a> as Context>⟧.state result).depth ≡ depth }
        ensures none_entered { (⟦<HighValidator<'a> as Context>⟧.state result).pushes ≡ 0 }
    {
        prove!(depth.unwrap_or(0) <= usize::MAX);
        HighValidator {
            range: ArchiveValidator::with_max_depth(bytes, depth),
            alloc,
            first: None,
            positions: None,
        }
    }

    /// How many regions were entered, `usize::MAX` where it is more.
    pub fn subtrees(&self) -> usize
        ensures { result ≡ (⟦<HighValidator<'a> as Context>⟧.state self.now).pushes }
    {
        self.range.subtrees()
    }

    // Starts the first shared position. It stands apart, since it is called once.
    #[cold]
    #[inline(never)]
    fn start_first(
        &mut self,
        flavor: &FlavorInfo,
        pointee: &Pointee,
        position: i128,
        length: usize,
    ) -> Result<ValidationState, Error>
        requires none { self.old.positions ≡ None }
        requires no_first { self.old.first ≡ None }
        ensures answer { IsStartAnswer (positions_met self.old.first self.old.positions position)
            (entry_as flavor.now pointee.now length) result }
        ensures started { OnOk result (Starts (λ v. positions_met v.first v.positions) self position
            flavor pointee length) }
        ensures unchanged { OnErr result (positions_met self.new.first self.new.positions
            ≡ positions_met self.old.first self.old.positions) }
        ensures range { self.new.range ≡ self.old.range }
    {
        let first = FirstPosition::start(flavor, pointee, position, length)?;
        self.first = Some(first);
        Ok(ValidationState::Started)
    }

    // Starts a position other than the first one, which is listed with it.
    #[cold]
    #[inline(never)]
    fn start_second(
        &mut self,
        flavor: &FlavorInfo,
        pointee: &Pointee,
        position: i128,
        length: usize,
    ) -> Result<ValidationState, Error>
        requires none { self.old.positions ≡ None }
        requires first { IsSome self.old.first }
        requires elsewhere { ForSome self.old.first (λ f. f.position ≢ position) }
        ensures answer { IsStartAnswer (positions_met self.old.first self.old.positions position)
            (entry_as flavor.now pointee.now length) result }
        ensures started { OnOk result (Starts (λ v. positions_met v.first v.positions) self position
            flavor pointee length) }
        ensures unchanged { OnErr result (positions_met self.new.first self.new.positions
            ≡ positions_met self.old.first self.old.positions) }
        ensures range { self.new.range ≡ self.old.range }
    {
        let Some(first) = &self.first else {
            unreachable!();
        };
        let mut positions = first.to_list(self.alloc)?;
        let answer = positions.start_shared(flavor, pointee, position, length);
        self.positions = Some(positions);
        answer
    }
}

impl Context for HighValidator<'_> {
    ghost use Rattle.archive_check.specs.context.Validators.{positions_met};

    ghost state = { λ v. v.range };

    ghost positions = { λ v. positions_met v.first v.positions };
}

impl ArchiveContext for HighValidator<'_> {
    #[inline(always)]
    fn check_subtree_ptr(&mut self, position: i128, layout: &Layout) -> Result<(), Error> {
        self.range.check_subtree_ptr(position, layout)
    }

    #[inline(always)]
    fn push_subtree_range(&mut self, root: usize, end: usize) -> Result<Range<usize>, Error> {
        self.range.push_subtree_range(root, end)
    }

    #[inline(always)]
    fn pop_subtree_range(&mut self, range: Range<usize>) -> Result<(), Error> {
        self.range.pop_subtree_range(range)
    }
}

impl SharedContext for HighValidator<'_> {
    ghost use Rattle.archive_check.specs.context.Validators.{numbered_met};

    ghost numbered = { λ v. numbered_met v.first v.positions };

    fn start_shared(
        &mut self,
        flavor: &FlavorInfo,
        pointee: &Pointee,
        position: i128,
        length: usize,
    ) -> Result<ValidationState, Error> {
        if let Some(positions) = &mut self.positions {
            return positions.start_shared(flavor, pointee, position, length);
        }
        match &self.first {
            Some(first) if first.position == position => first.answer(flavor, pointee, length),
            Some(_) => self.start_second(flavor, pointee, position, length),
            None => self.start_first(flavor, pointee, position, length),
        }
    }

    fn type_number(&self, flavor: &FlavorInfo, pointee: &Pointee) -> Option<usize> {
        match (&self.positions, &self.first) {
            (Some(positions), _) => positions.type_number(flavor, pointee),
            (None, Some(first)) => first.type_number(flavor, pointee),
            (None, None) => None,
        }
    }

    #[inline(always)]
    fn is_finished_as(&self, number: usize, position: i128, length: usize) -> bool {
        match (&self.positions, &self.first) {
            (Some(positions), _) => positions.is_finished_as(number, position, length),
            (None, Some(first)) => first.is_finished_at(position, length),
            (None, None) => false,
        }
    }

    fn finish_shared(
        &mut self,
        flavor: &FlavorInfo,
        pointee: &Pointee,
        position: i128,
    ) -> Result<(), Error> {
        match (&mut self.positions, &mut self.first) {
            (Some(positions), _) => positions.finish_shared(flavor, pointee, position),
            (None, Some(first)) => first.finish(position),
            (None, None) => Err(Error::NotStarted),
        }
    }
}
