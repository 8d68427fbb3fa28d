//! The shared positions that were met.

use crate::walk::Walker;
use crate::walk::faults::{Reason, Stop};
use archive_check::format::expr::{FlavorInfo, Pointee};

// What a shared position was met as.
#[derive(Clone, Copy)]
pub(super) struct Met<'a> {
    pub(super) flavor: FlavorInfo,
    pub(super) pointee: &'a Pointee,
    pub(super) length: usize,
    // Where the pointer lies by which it was met first.
    pub(super) pointer: i128,
    // Whether it is being checked still.
    pub(super) pending: bool,
}

// How a position is met.
#[derive(Clone, Copy)]
pub(super) enum Meeting {
    First,
    Again,
    Refused(Reason),
}

impl Met<'_> {
    // How its position is met again, as something.
    fn again(&self, other: &Met<'_>, position: i128) -> Meeting {
        if self.flavor != other.flavor || *self.pointee != *other.pointee {
            return Meeting::Refused(Reason::OtherType(position));
        }
        if self.length != other.length {
            return Meeting::Refused(Reason::OtherLength(position));
        }
        if self.pending && !other.flavor.cycles {
            return Meeting::Refused(Reason::Cycle(position));
        }
        Meeting::Again
    }
}

impl<'a> Walker<'a> {
    // How a position is met; from the first time on it is being checked.
    pub(super) fn meet(&mut self, position: i128, met: Met<'a>) -> Result<Meeting, Stop> {
        match self.met.get(&position) {
            Some(known) => Ok(known.again(&met, position)),
            None => {
                self.met.insert(position, met)?;
                Ok(Meeting::First)
            }
        }
    }

    // Whether a position was first met by the pointer that lies here.
    pub(super) fn is_first(&self, position: i128, pointer: i128) -> bool {
        match self.met.get(&position) {
            Some(met) => met.pointer == pointer,
            None => false,
        }
    }

    // What lies at a shared position was checked.
    pub(super) fn finish(&mut self, position: i128) {
        if let Some(met) = self.met.get_mut(&position) {
            met.pending = false;
        }
    }
}
