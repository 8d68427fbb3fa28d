//! How a value is looked at.

use crate::form::labels::{Labels, PartLabels};
use crate::walk::bytes::{
    byte_at, coded_length, inline_text, is_out_of_line, number_at, start_of, target_at,
    text_target_at,
};
use crate::walk::entering::text_in;
use crate::walk::faults::{FirstFault, Reason, Stop};
use crate::walk::frames::{Frame, Held, OpenParts, Place};
use crate::walk::leaves::{leaf_from, number_in};
use crate::walk::met::{Meeting, Met};
use crate::walk::{Count, Event, Next, Region, Visited, Walker, What};
use archive_check::format::expr::{Expr, FlavorInfo, Kind, Pointee};

// A pointer: where it lies, how many bytes it has, and what it leads to.
#[derive(Clone, Copy)]
struct Pointer<'a> {
    place: Place<'a>,
    size: i128,
    target: i128,
    length: usize,
}

// A fault in bytes at a position, so many of them.
fn fault_at(position: i128, count: i128, reason: Reason) -> Stop {
    Stop::Fault(FirstFault {
        position,
        faulty: position,
        count,
        reason,
    })
}

// What lies outside of the buffer: the regions that were entered keep it from being met.
fn nowhere(place: Place<'_>) -> Stop {
    let region = Region {
        position: place.at,
        size: 1,
        align: 1,
        count: Count::One,
    };
    fault_at(place.at, 1, Reason::Outside(region, 0, 0))
}

// Why the bytes are no leaf of the kind.
fn illegal(kind: Kind, bytes: &[u8]) -> Reason {
    let number = number_in(bytes);
    match kind {
        Kind::Bool => Reason::Bool(u8::try_from(number).unwrap_or(u8::MAX)),
        Kind::Char => Reason::Char(u32::try_from(number).unwrap_or(u32::MAX)),
        _ => Reason::Zero(kind),
    }
}

// The names of variants that need no form: those of options and results.
fn variant_name(choice: &str, tag: u8) -> &'static str {
    match (choice, tag) {
        ("ArchivedOption", 0) => "None",
        ("ArchivedOption", 1) => "Some",
        ("ArchivedResult", 0) => "Ok",
        ("ArchivedResult", 1) => "Err",
        _ => "",
    }
}

// A choice's name for people, if it is known, else that in archives.
fn own_name(labels: Option<&Labels>, name: &'static str) -> &'static str {
    let own = match labels {
        Some(labels) => labels.own(),
        None => "",
    };
    if own.is_empty() { name } else { own }
}

impl<'a> Walker<'a> {
    // What was found at a place, with so many bytes of its own.
    pub(super) fn found(
        place: Place<'a>,
        size: i128,
        what: What<'a>,
    ) -> Result<Option<Event<'a>>, Stop> {
        Ok(Some(Event::Found(Visited {
            position: place.at,
            size,
            expr: place.expr,
            labels: place.labels,
            what,
        })))
    }

    // A value.
    pub(super) fn look_at(&mut self, place: Place<'a>) -> Result<Option<Event<'a>>, Stop> {
        let form = self.form;
        let place = Place {
            expr: form.meant(place.expr),
            labels: form.known(place.labels),
            at: place.at,
        };
        match place.expr {
            Expr::Leaf(kind) => self.look_at_leaf(place, *kind),
            Expr::Record(parts) => self.look_at_record(place, parts),
            Expr::Choice(name, variants) => self.look_at_choice(place, *name, variants),
            Expr::Array(count, element) => self.look_at_array(place, *count, element),
            Expr::Str => self.look_at_string(place),
            Expr::Weak(_, pointee) if number_at(self.bytes, place.at) == Some(1) => {
                Walker::found(place, size_of(pointee), What::Null)
            }
            Expr::Box(pointee) => {
                let pointer = self.pointer(place, pointee)?;
                self.follow(pointer, pointee, None)
            }
            Expr::Shared(flavor, pointee) | Expr::Weak(flavor, pointee) => {
                let pointer = self.pointer(place, pointee)?;
                self.look_at_shared(pointer, *flavor, pointee)
            }
            Expr::Vec(element) => self.look_at_vector(place, element),
            Expr::Map(key, value) => self.look_at_map(place, *key, value),
            Expr::Named(_) => Err(nowhere(place)),
        }
    }

    pub(super) fn look_at_leaf(
        &mut self,
        place: Place<'a>,
        kind: Kind,
    ) -> Result<Option<Event<'a>>, Stop> {
        let bytes = self.bytes;
        let size = kind.size();
        let Some(start) = start_of(bytes, place.at, size) else {
            return Err(nowhere(place));
        };
        match leaf_from(kind, bytes, start) {
            Some(leaf) => Walker::found(place, size as i128, What::Leaf(leaf)),
            None => {
                let reason = illegal(kind, &bytes[start..start + size]);
                Err(fault_at(place.at, size as i128, reason))
            }
        }
    }

    // Parts are begun, those of a variant behind the tag.
    fn open(
        &mut self,
        place: Place<'a>,
        exprs: &'a [Expr],
        labels: &'a [PartLabels],
        variant: Option<(u8, &'static str)>,
    ) -> Result<(), Stop> {
        let parts = OpenParts {
            exprs,
            labels,
            variant,
            begun: 0,
            at: place.at,
            end: if variant.is_some() { 1 } else { 0 },
        };
        self.frames.push(Frame::Parts(parts))?;
        Ok(())
    }

    fn look_at_record(
        &mut self,
        place: Place<'a>,
        parts: &'a [Expr],
    ) -> Result<Option<Event<'a>>, Stop> {
        let labels = match place.labels {
            Some(labels) => labels.parts(),
            None => &[],
        };
        self.open(place, parts, labels, None)?;
        Walker::found(place, 0, What::Record(parts.len()))
    }

    fn look_at_choice(
        &mut self,
        place: Place<'a>,
        name: &'static str,
        variants: &'a [Vec<Expr>],
    ) -> Result<Option<Event<'a>>, Stop> {
        let Some(tag) = byte_at(self.bytes, place.at) else {
            return Err(nowhere(place));
        };
        let Some(parts) = variants.get(tag as usize) else {
            let reason = Reason::Tag(tag, variants.len(), name, own_name(place.labels, name));
            return Err(fault_at(place.at, 1, reason));
        };
        let (shown, labels) = self.variant(place, name, tag);
        self.open(place, parts, labels, Some((tag, shown)))?;
        Walker::found(place, 1, What::Variant(tag, shown, parts.len()))
    }

    // The name of a variant, and those of its parts.
    fn variant(&self, place: Place<'a>, choice: &str, tag: u8) -> (&'static str, &'a [PartLabels]) {
        let Some(labels) = place.labels else {
            return (variant_name(choice, tag), &[]);
        };
        match labels.variant(tag as usize) {
            Some(variant) => (variant.name, &variant.parts),
            None => (variant_name(choice, tag), &[]),
        }
    }

    fn look_at_array(
        &mut self,
        place: Place<'a>,
        count: usize,
        element: &'a Expr,
    ) -> Result<Option<Event<'a>>, Stop> {
        let first = self.within(place, element);
        let size = self.form.layout(element).size;
        let elements = self.elements(first, count, size);
        self.frames.push(Frame::Array(elements))?;
        Walker::found(place, 0, What::Array(count))
    }

    // An element or a pointee, at the same position.
    pub(super) fn within(&self, place: Place<'a>, expr: &'a Expr) -> Place<'a> {
        let labels = match place.labels {
            Some(labels) => labels.inner(),
            None => None,
        };
        Place {
            expr,
            labels,
            at: place.at,
        }
    }

    pub(super) fn look_at_string(&mut self, place: Place<'a>) -> Result<Option<Event<'a>>, Stop> {
        let bytes = self.bytes;
        if is_out_of_line(bytes, place.at) == Some(false) {
            let text = text_in(inline_text(bytes, place.at).unwrap_or(&[]), place.at)?;
            return Walker::found(place, 8, What::Text(text));
        }
        let (Some(target), Some(length)) = (
            text_target_at(bytes, place.at),
            coded_length(bytes, place.at),
        ) else {
            return Err(nowhere(place));
        };
        if length <= 8 {
            return Err(fault_at(place.at, 4, Reason::Coded(length)));
        }
        let pointer = Pointer {
            place,
            size: 8,
            target,
            length,
        };
        self.follow_text(pointer, None)
    }

    // The pointer at a place.
    fn pointer(&self, place: Place<'a>, pointee: &Pointee) -> Result<Pointer<'a>, Stop> {
        let size = size_of(pointee);
        let length = if size == 4 {
            Some(0)
        } else {
            number_at(self.bytes, place.at.saturating_add(4))
        };
        match (target_at(self.bytes, place.at), length) {
            (Some(target), Some(length)) => Ok(Pointer {
                place,
                size,
                target,
                length: length as usize,
            }),
            _ => Err(nowhere(place)),
        }
    }

    // Where the elements or entries lie that a pointer leads to, and how many there are.
    pub(super) fn run_at(&self, place: Place<'a>) -> Result<(i128, usize), Stop> {
        let length = number_at(self.bytes, place.at.saturating_add(4));
        match (target_at(self.bytes, place.at), length) {
            (Some(target), Some(length)) => Ok((target, length as usize)),
            _ => Err(nowhere(place)),
        }
    }

    fn look_at_vector(
        &mut self,
        place: Place<'a>,
        element: &'a Expr,
    ) -> Result<Option<Event<'a>>, Stop> {
        let (target, length) = self.run_at(place)?;
        let pointer = Pointer {
            place,
            size: 8,
            target,
            length,
        };
        self.follow_run(pointer, element, None)
    }

    // A shared pointer: its region is entered where its position is met first.
    fn look_at_shared(
        &mut self,
        pointer: Pointer<'a>,
        flavor: FlavorInfo,
        pointee: &'a Pointee,
    ) -> Result<Option<Event<'a>>, Stop> {
        if self.again {
            return self.look_again(pointer, pointee);
        }
        let met = Met {
            flavor,
            pointee,
            length: pointer.length,
            pointer: pointer.place.at,
            pending: true,
        };
        match self.meet(pointer.target, met)? {
            Meeting::First => self.follow(pointer, pointee, Some(pointer.target)),
            Meeting::Again => {
                let region = self.region_of(pointer, pointee);
                Walker::found(pointer.place, pointer.size, What::Again(region))
            }
            Meeting::Refused(reason) => Err(fault_at(pointer.place.at, pointer.size, reason)),
        }
    }

    // A shared pointer of a region that is gone through again.
    fn look_again(
        &self,
        pointer: Pointer<'a>,
        pointee: &Pointee,
    ) -> Result<Option<Event<'a>>, Stop> {
        let region = self.region_of(pointer, pointee);
        let what = if self.is_first(pointer.target, pointer.place.at) {
            What::Pointer(region)
        } else {
            What::Again(region)
        };
        Walker::found(pointer.place, pointer.size, what)
    }

    // The region that a pointer leads to.
    fn region_of(&self, pointer: Pointer<'a>, pointee: &Pointee) -> Region {
        let (size, align, count) = match pointee {
            Pointee::One(expr) => {
                let layout = self.form.layout(expr);
                (layout.size, layout.align, Count::One)
            }
            Pointee::Run(expr) => {
                let layout = self.form.layout(expr);
                (layout.size, layout.align, Count::Elements(pointer.length))
            }
            Pointee::Text => (1, 1, Count::Text(pointer.length)),
        };
        Region {
            position: pointer.target,
            size,
            align,
            count,
        }
    }

    // The region that a pointer leads to is entered.
    fn follow(
        &mut self,
        pointer: Pointer<'a>,
        pointee: &'a Pointee,
        shared: Option<i128>,
    ) -> Result<Option<Event<'a>>, Stop> {
        match pointee {
            Pointee::One(expr) => {
                let region = self.region_of(pointer, pointee);
                if self.again {
                    return Walker::found(pointer.place, pointer.size, What::Pointer(region));
                }
                self.enter(region, Held::One, shared, (pointer.place.at, pointer.size))?;
                let inner = self.within(pointer.place, expr);
                self.begin_only(Place {
                    expr: inner.expr,
                    labels: inner.labels,
                    at: region.position,
                });
                Walker::found(pointer.place, pointer.size, What::Pointer(region))
            }
            Pointee::Run(expr) => self.follow_run(pointer, expr, shared),
            Pointee::Text => self.follow_text(pointer, shared),
        }
    }

    // Elements.
    fn follow_run(
        &mut self,
        pointer: Pointer<'a>,
        element: &'a Expr,
        shared: Option<i128>,
    ) -> Result<Option<Event<'a>>, Stop> {
        let layout = self.form.layout(element);
        let region = Region {
            position: pointer.target,
            size: layout.size,
            align: layout.align,
            count: Count::Elements(pointer.length),
        };
        if self.again {
            return Walker::found(pointer.place, pointer.size, What::Pointer(region));
        }
        let inner = self.within(pointer.place, element);
        let first = Place {
            expr: inner.expr,
            labels: inner.labels,
            at: region.position,
        };
        let elements = self.elements(first, pointer.length, layout.size);
        self.enter(
            region,
            Held::Elements(elements),
            shared,
            (pointer.place.at, pointer.size),
        )?;
        Walker::found(pointer.place, pointer.size, What::Pointer(region))
    }

    // A text.
    fn follow_text(
        &mut self,
        pointer: Pointer<'a>,
        shared: Option<i128>,
    ) -> Result<Option<Event<'a>>, Stop> {
        let region = Region {
            position: pointer.target,
            size: 1,
            align: 1,
            count: Count::Text(pointer.length),
        };
        if self.again {
            return Walker::found(pointer.place, pointer.size, What::Pointer(region));
        }
        self.enter(region, Held::Text, shared, (pointer.place.at, pointer.size))?;
        self.next = Next::Text(pointer.place, region);
        // Once is enough: a text leads nowhere.
        self.again = self.twice;
        Walker::found(pointer.place, pointer.size, What::Pointer(region))
    }
}

// How many bytes a pointer has.
fn size_of(pointee: &Pointee) -> i128 {
    match pointee {
        Pointee::One(_) => 4,
        Pointee::Run(_) | Pointee::Text => 8,
    }
}
