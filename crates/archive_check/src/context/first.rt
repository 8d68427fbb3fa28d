//! The shared position that a check came to first. It is kept with no list, since many archives have no other.

ghost use Rattle.std.specs.Prelude.{◌≡◌, OnOk, OnErr, IfOk, IfErr, IfSome, IfNone};
ghost use Rattle.archive_check.specs.declared.format.error.Error.TheVariants.{OutOfMemory};
ghost use Rattle.archive_check.specs.Expressions.{flavor_of, pointee_of};
ghost use Rattle.archive_check.specs.context.FirstPositions.{first_as, first_met, IsStartedFirst};
ghost use Rattle.archive_check.specs.context.SharedPositions.{IsType};
ghost use Rattle.archive_check.specs.context.PositionStates.{IsStartAnswer, IsFinishedAnswer, NoneFinishedAs, finish_answer, finished, entry_as};
ghost use Rattle.archive_check.specs.context.Validators.{positions_of};

use crate::context::positions::{SharedPosition, SharedType, SharedValidator, is_of};
use crate::context::{SharedContext, ValidationState};
use crate::format::error::Error;
use crate::format::expr::{FlavorInfo, Pointee};
use std::alloc::{AllocError, Global};

/// A shared position with its type, whose number is 0.
#[derive(Drop)]
pub(crate) struct FirstPosition {
    pub(crate) shared_type: SharedType,
    pub(crate) position: i128,
    pub(crate) length: usize,
    pub(crate) finished: bool,
}

impl FirstPosition {
    /// One that is started. Fails if memory for the pointee is refused.
    pub(crate) fn start(
        flavor: &FlavorInfo,
        pointee: &Pointee,
        position: i128,
        length: usize,
    ) -> Result<FirstPosition, AllocError>
        ensures { IfOk result (IsStartedFirst position (entry_as flavor.now pointee.now length)) }
    {
        Ok(FirstPosition {
            shared_type: SharedType {
                flavor: *flavor,
                pointee: pointee.clone()?,
            },
            position,
            length,
            finished: false,
        })
    }

    /// The result of starting this position again.
    pub(crate) fn answer(
        &self,
        flavor: &FlavorInfo,
        pointee: &Pointee,
        length: usize,
    ) -> Result<ValidationState, Error>
        ensures { IsStartAnswer (Some (first_as self.now)) (entry_as flavor.now pointee.now length)
            result }
    {
        let kept = SharedPosition {
            shared_type: 0,
            length: self.length,
            finished: self.finished,
        };
        kept.answer(&self.shared_type, flavor, pointee, length)
    }

    /// The number of a flavor and a pointee, where they are those of this position.
    pub(crate) fn type_number(&self, flavor: &FlavorInfo, pointee: &Pointee) -> Option<usize>
        ensures number { IfSome result (λ _. IsType self.now.shared_type (flavor_of flavor.now)
            (pointee_of pointee.now)) }
        ensures none { IfNone result (NoneFinishedAs (first_met self.now) flavor.now pointee.now) }
    {
        if is_of(&self.shared_type, flavor, pointee) {
            Some(0)
        } else {
            None
        }
    }

    /// Whether this is the position, with this length, and it is finished.
    #[inline(always)]
    pub(crate) fn is_finished_at(&self, position: i128, length: usize) -> bool
        ensures { IsFinishedAnswer (IsType self.now.shared_type) (first_met self.now position)
            length result }
    {
        self.finished && self.length == length && self.position == position
    }

    /// Finishes the position, if it is this one.
    pub(crate) fn finish(&mut self, position: i128) -> Result<(), Error>
        ensures answer { result ≡ finish_answer (λ met. met.finished)
            (first_met self.old position) }
        ensures finished { OnOk result (first_met self.new
            ≡ finished (first_met self.old) position) }
        ensures unchanged { OnErr result (first_met self.new ≡ first_met self.old) }
    {
        if self.position != position {
            return Err(Error::NotStarted);
        }
        if self.finished {
            return Err(Error::AlreadyFinished);
        }
        self.finished = true;
        Ok(())
    }

    /// A list of this position alone. Memory comes from `alloc`.
    pub(crate) fn to_list(&self, alloc: Global) -> Result<Box<SharedValidator>, Error>
        ensures same { IfOk result (λ v. positions_of v.value ≡ first_met self.now) }
        ensures refused { IfErr result (λ e. e ≡ OutOfMemory) }
    {
        let SharedType { flavor, pointee } = &self.shared_type;
        let mut list = Box::new(alloc, SharedValidator::new(alloc))?;
        list.start_shared(flavor, pointee, self.position, self.length)?;
        if self.finished {
            list.finish_shared(flavor, pointee, self.position)?;
            return Ok(list);
        }
        Ok(list)
    }
}
