//! The keys of sorted maps, and their order.

use crate::form::layouts::layout_of_entry;
use crate::walk::bytes::start_of;
use crate::walk::faults::{FirstFault, Reason, Stop};
use crate::walk::frames::{Frame, Held, OpenEntries, Place};
use crate::walk::{Count, Event, Region, Walker, What};
use archive_check::format::expr::{Expr, Key};

// Whether the key at a position comes before the one at another.
fn ascends(bytes: &[u8], key: Key, before: i128, at: i128) -> bool {
    let size = key.size();
    match (start_of(bytes, before, size), start_of(bytes, at, size)) {
        (Some(first), Some(second)) => key.ascends(bytes, first, second),
        _ => false,
    }
}

impl<'a> Walker<'a> {
    // A key, in the place of its map.
    pub(super) fn look_at_key(
        &mut self,
        place: Place<'a>,
        key: Key,
    ) -> Result<Option<Event<'a>>, Stop> {
        match key {
            Key::Leaf(kind) => self.look_at_leaf(place, kind),
            Key::Str => self.look_at_string(place),
        }
    }

    // A key is greater than the one before it.
    pub(super) fn look_at_order(&self, key: Key, before: i128, at: i128) -> Result<(), Stop> {
        if ascends(self.bytes, key, before, at) {
            return Ok(());
        }
        Err(Stop::Fault(FirstFault {
            position: at,
            faulty: at,
            count: key.size() as i128,
            reason: Reason::Unsorted,
        }))
    }

    // The value of the entry is begun whose key was looked at.
    pub(super) fn begin_value(&mut self) {
        if let Some(Frame::Region(inside)) = self.frames.last_mut() {
            if let Held::Entries(entries) = &mut inside.held {
                entries.in_value = true;
            }
        }
    }

    // A sorted map: the region of its entries.
    pub(super) fn look_at_map(
        &mut self,
        place: Place<'a>,
        key: Key,
        value: &'a Expr,
    ) -> Result<Option<Event<'a>>, Stop> {
        let (target, count) = self.run_at(place)?;
        let (entry, offset) = layout_of_entry(key, self.form.layout(value));
        let region = Region {
            position: target,
            size: entry.size,
            align: entry.align,
            count: Count::Elements(count),
        };
        if self.again {
            return Walker::found(place, 8, What::Pointer(region));
        }
        let inner = self.within(place, value);
        let entries = OpenEntries {
            expr: place.expr,
            key,
            value,
            labels: inner.labels,
            count,
            begun: 0,
            in_value: false,
            at: target,
            size: entry.size,
            offset,
        };
        self.enter(region, Held::Entries(entries), None, (place.at, 8))?;
        Walker::found(place, 8, What::Pointer(region))
    }
}
