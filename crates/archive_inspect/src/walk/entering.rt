//! How a region is entered.

use crate::walk::bytes::bytes_at;
use crate::walk::faults::{FirstFault, Reason, Stop};
use crate::walk::frames::{Frame, Held, Inside, OpenElements, Place};
use crate::walk::{Count, Event, Next, Region, Visited, Walker, What};
use archive_check::format::expr::{Expr, Kind};

// Why a region may not be entered from this range, if so.
fn refusal_of(region: Region, start: i128, stop: i128) -> Option<Reason> {
    if region.bytes() > usize::MAX as i128 {
        return Some(Reason::TooLarge(region));
    }
    if region.position < start || region.end() > stop {
        return Some(Reason::Outside(region, start, stop));
    }
    match region.position.checked_rem(region.align) {
        Some(0) => None,
        _ => Some(Reason::Unaligned(region)),
    }
}

// Whether all bytes are legal for a value, and it leads nowhere.
fn is_free(expr: &Expr) -> bool {
    match expr {
        Expr::Leaf(Kind::Unit) | Expr::Leaf(Kind::Number(_)) | Expr::Leaf(Kind::RawRel(_)) => true,
        _ => false,
    }
}

impl<'a> Walker<'a> {
    // The root's region.
    pub(super) fn enter_root(&mut self) -> Result<(), Stop> {
        let form = self.form;
        let place = Place {
            expr: form.schema().root(),
            labels: Some(form.labels()),
            at: 0,
        };
        let layout = form.layout(place.expr);
        let position = (self.bytes.len() as i128)
            .saturating_sub(layout.size)
            .max(0);
        let region = Region {
            position,
            size: layout.size,
            align: layout.align,
            count: Count::Root,
        };
        let place = Place {
            expr: place.expr,
            labels: place.labels,
            at: position,
        };
        self.enter(region, Held::Root, None, (position, layout.size))?;
        self.begin_only(place);
        Ok(())
    }

    // The only value of the innermost region is looked at next.
    pub(super) fn begin_only(&mut self, place: Place<'a>) {
        if let Some(Frame::Region(inside)) = self.frames.last_mut() {
            inside.only = Some(place);
        }
        self.next = Next::Value(place);
    }

    // A region is entered: the range ends where it begins. The pointer's bytes are faulty where it
    // may not be: their position and number.
    pub(super) fn enter(
        &mut self,
        region: Region,
        held: Held<'a>,
        shared: Option<i128>,
        pointer: (i128, i128),
    ) -> Result<(), Stop> {
        if let Some(reason) = refusal_of(region, self.start, self.stop) {
            return Err(Stop::Fault(FirstFault {
                position: pointer.0,
                faulty: pointer.0,
                count: pointer.1,
                reason,
            }));
        }
        let inside = Inside {
            held,
            only: None,
            end: region.end(),
            stop: self.stop,
            shared,
        };
        self.frames.push(Frame::Region(inside))?;
        self.depth = self.depth.saturating_add(1);
        self.stop = region.position;
        Ok(())
    }

    // Elements that lie one behind another. Those that need not be looked at one by one are passed
    // at once.
    pub(super) fn elements(&self, place: Place<'a>, count: usize, size: i128) -> OpenElements<'a> {
        let quick = self.quick || (self.twice && !self.again);
        let passed = size == 0 || (quick && is_free(place.expr));
        OpenElements {
            expr: place.expr,
            labels: place.labels,
            count,
            begun: if passed { count } else { 0 },
            at: place.at,
            size,
        }
    }

    // The text that a pointer of a place leads to.
    pub(super) fn look_at_text(
        &mut self,
        place: Place<'a>,
        region: Region,
    ) -> Result<Option<Event<'a>>, Stop> {
        self.next = Next::Nothing;
        let bytes = self.bytes;
        let text = bytes_at(bytes, region.position, region.bytes()).unwrap_or(&[]);
        let text = text_in(text, region.position)?;
        Ok(Some(Event::Found(Visited {
            position: region.position,
            size: region.bytes(),
            expr: place.expr,
            labels: place.labels,
            what: What::Text(text),
        })))
    }
}

// The text in bytes that lie at a position.
pub(super) fn text_in(bytes: &[u8], position: i128) -> Result<&str, Stop> {
    match str::from_utf8(bytes) {
        Ok(text) => Ok(text),
        Err(error) => {
            let index = error.valid_up_to();
            let byte = bytes.get(index).copied().unwrap_or(0);
            Err(Stop::Fault(FirstFault {
                position,
                faulty: position.saturating_add(index as i128),
                count: 1,
                reason: Reason::Text(bytes.len(), index, byte),
            }))
        }
    }
}
