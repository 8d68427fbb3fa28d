// A record that shares a line, and lists of such records, in which it is written once and read back once. An enum that shares a slice, a text and, by a weak
// pointer, a value.

ghost use Rattle.archive_core.specs.Definitions.{no_definition};
ghost use Rattle.archive_core.specs.Shape.{one};
ghost use Rattle.archive_core.specs.SealOutcomes.{IsSealOf};

use crate::assertions::{
    assert_bytes, assert_holds, assert_same, assert_written, sealed, value_of, viewed,
};
use crate::judgements::{assert_faults, outside, unaligned, unknown_tag};
use crate::spots::{assert_spot, line, rising};
use archive_core::error::Error;
use archive_core::pooling::{Pool, Unpool};
use archive_core::rc::{Shared, SharedSlice, SharedStr, WeakShared};
use archive_core::seal::Seal;
use archive_core::traits::{Archive, Deserialize, Portable};
use archive_core::view::Ref;
use derived_types::spot::{ArchivedLine, Line, LineSeal, LineView, SpotSeal, SpotView};
use derived_types::track::{
    ArchivedEither, ArchivedTrack, Either, EitherSeal, EitherView, Track, TrackSeal, TrackView,
    ViewOfEither,
};
use std::alloc::Global;
use std::process::Abort;
use std::rc::{Rc, RcSlice, RcStr};

// The line from 1, -2 to 3, 4, and that from 5, 6 to 7, 8. At 16 the pointer that leads 16 bytes back to the first one, the tag 1, and the box that points 16
// bytes back at the second one.
const TRACK: &[u8; 28] =
    b"\x01\0\xfe\xff\x03\0\x04\0\x05\0\x06\0\x07\0\x08\0\xf0\xff\xff\xff\x01\0\0\0\xf0\xff\xff\xff";

// The same lines. At 16 and at 28 two pointers to the first one, the one with a None behind it, and the other with the box that points 28 bytes back at the
// second line. At 40 the vector that points 24 bytes back at both.
const TRACKS: &[u8; 48] =
    b"\x01\0\xfe\xff\x03\0\x04\0\x05\0\x06\0\x07\0\x08\0\xf0\xff\xff\xff\0\0\0\0\0\0\0\0\xe4\xff\xff\xff\x01\0\0\0\xe4\xff\xff\xff\xe8\xff\xff\xff\x02\0\0\0";

// The tag 0 and the number 7, and bytes of no field.
const ALONE: &[u8; 24] = b"\0\x07\0\0\0\0\0\0\0\0\0\0\0\0\0\0\0\0\0\0\0\0\0\0";

// The line from 5, 6 to 7, 8, the text "hé" and a zero, and at 12 the line from 1, -2 to 3, 4. At 20 the tag 1, the pointer that leads 24 bytes back to one line,
// the one that leads 24 bytes back to three bytes, and the weak one that leads 28 bytes back to the other line.
const TOGETHER: &[u8; 44] =
    b"\x05\0\x06\0\x07\0\x08\0h\xc3\xa9\0\x01\0\xfe\xff\x03\0\x04\0\x01\0\0\0\xe8\xff\xff\xff\x01\0\0\0\xe8\xff\xff\xff\x03\0\0\0\xe4\xff\xff\xff";

// The same line and text. At 12 the tag 1, the pointers that lead 16 bytes back each, and a null, whose offset is 1.
const NULL: &[u8; 36] =
    b"\x05\0\x06\0\x07\0\x08\0h\xc3\xa9\0\x01\0\0\0\xf0\xff\xff\xff\x01\0\0\0\xf0\xff\xff\xff\x03\0\0\0\x01\0\0\0";

// The line from 1, -2 to 3, 4, with a key.
fn shared_line(rt: &impl Abort, alloc: Global, key: u64) -> Shared<Line> {
    let value = Rc::new(alloc, line()).expect(rt, "memory for a line");
    Shared { key, value }
}

// Another line, in a box.
fn boxed(rt: &impl Abort, alloc: Global, line: Line) -> Box<Line> {
    Box::new(alloc, line).expect(rt, "memory for another line")
}

// Two tracks along one line.
fn tracks(rt: &impl Abort, alloc: Global) -> Vec<Track> {
    let line = shared_line(rt, alloc, 1);
    let same = line.clone().expect(rt, "another pointer");
    let first = Track { line, other: None };
    let second = Track {
        line: same,
        other: Some(boxed(rt, alloc, rising(5))),
    };
    let tracks = vec![in alloc; first, second];
    tracks.expect(rt, "memory for tracks")
}

#[test]
fn a_line_of_two_tracks_is_written_once(rt: HostRuntime) {
    let tracks = tracks(&rt, rt.alloc());
    assert_written(&rt, rt.alloc(), &tracks, 8, TRACKS);
}

// What is read back of an archive, with a pool of lines.
fn read<T: Archive>(rt: &impl Abort, alloc: Global, archive: &[u8]) -> T
where
    T::Archived: Deserialize<T, Pool<Shared<Line>>>,
{
    let mut pool: Pool<Shared<Line>> = Pool::new(alloc);
    value_of(rt, alloc, archive, &mut pool)
}

#[test]
fn a_line_of_two_tracks_is_read_back_once(rt: HostRuntime) {
    let back: Vec<Track> = read(&rt, rt.alloc(), TRACKS);
    let [first, second] = back.as_slice() else {
        panic!(&rt; "not two")
    };
    let same = Rc::ptr_eq(&first.line.value, &second.line.value);
    assert_holds(&rt, "one line", same);
    assert_same(&rt, "the line", &*first.line.value, &line());
    let others = (first.other.is_some(), second.other.is_some());
    assert_same(&rt, "the other lines", others, (false, true));
}

// A view shows the line from 1, -2 to 3, 4.
fn assert_line(rt: &impl Abort, view: Ref<'_, ArchivedLine>) {
    assert_spot(rt, view.from(), 1, -2);
    assert_spot(rt, view.to(), 3, 4);
}

#[test]
fn a_track_is_viewed(rt: HostRuntime) {
    let view = viewed::<ArchivedTrack>(&rt, rt.alloc(), TRACK);
    assert_line(&rt, view.line().get());
    let Some(other) = view.other().as_ref() else {
        panic!(&rt; "no other line")
    };
    assert_spot(&rt, other.get().from(), 5, 6);
}

// Writes over the shared line, and over the other one.
fn write_track(rt: &impl Abort, alloc: Global, bytes: &mut [u8]) {
    let line = sealed::<ArchivedTrack>(rt, alloc, bytes).line_mut();
    line.get_seal().from_mut().right_mut().write(9);
    let other = sealed::<ArchivedTrack>(rt, alloc, bytes).other_mut();
    if let Some(other) = other.as_seal() {
        other.get_seal().to_mut().up_mut().write(-1);
    }
}

#[test]
fn a_track_is_edited(rt: HostRuntime) {
    let mut bytes = *TRACK;
    write_track(&rt, rt.alloc(), &mut bytes);
    let wanted =
        b"\x09\0\xfe\xff\x03\0\x04\0\x05\0\x06\0\x07\0\xff\xff\xf0\xff\xff\xff\x01\0\0\0\xf0\xff\xff\xff";
    assert_bytes(&rt, "the edited track", &bytes, wanted);
}

#[test]
fn faults_of_tracks_are_found(rt: HostRuntime) {
    let rows = [
        (16, 0xf1, unaligned(1, 2)),
        (16, 0xf8, outside(8, 8, 16, 16)),
        (20, 2, unknown_tag("ArchivedOption", 2)),
        (24, 0xe8, outside(0, 8, 8, 16)),
    ];
    assert_faults::<ArchivedTrack>(&rt, rt.alloc(), TRACK, &rows);
}

// What shares lines, a text, and perhaps another line.
fn together(rt: &impl Abort, alloc: Global, weak: Option<Shared<Line>>) -> Either {
    let lines = vec![in alloc; rising(5)].expect(rt, "memory for lines");
    let lines = RcSlice::from_vec(lines).expect(rt, "memory for a slice");
    let text = RcStr::from_str(alloc, "hé").expect(rt, "memory for a text");
    Either::Together {
        lines: SharedSlice {
            key: 1,
            value: lines,
        },
        text: SharedStr {
            key: 2,
            value: text,
        },
        weak: WeakShared { value: weak },
    }
}

#[test]
fn either_is_written(rt: HostRuntime) {
    let alloc = rt.alloc();
    let line = shared_line(&rt, alloc, 3);
    let rows = [
        (Either::Alone(7), ALONE.as_slice()),
        (together(&rt, alloc, Some(line)), TOGETHER.as_slice()),
        (together(&rt, alloc, None), NULL.as_slice()),
    ];
    for (either, archive) in rows {
        assert_written(&rt, alloc, &either, 24, archive);
    }
}

// What is read back without a pool shares a line, a text, and perhaps another line; or it is the number 7.
fn assert_either(rt: &impl Abort, alloc: Global, archive: &[u8], wanted: Option<&Line>) {
    match value_of(rt, alloc, archive, &mut Unpool) {
        Either::Alone(number) => assert_same(rt, "the number", number, 7),
        Either::Together { lines, text, weak } => {
            let line = [rising(5)];
            assert_same(rt, "the lines", lines.value.as_slice(), line.as_slice());
            assert_same(rt, "the text", text.value.as_str(), "hé");
            let found = match &weak.value {
                None => None,
                Some(shared) => Some(&*shared.value),
            };
            assert_same(rt, "the other line", found, wanted);
        }
    }
}

#[test]
fn either_is_read_back(rt: HostRuntime) {
    let line = line();
    for (archive, weak) in [
        (ALONE.as_slice(), None),
        (TOGETHER.as_slice(), Some(&line)),
        (NULL.as_slice(), None),
    ] {
        assert_either(&rt, rt.alloc(), archive, weak);
    }
}

// A view shows a number, or what is shared.
fn assert_shown(rt: &impl Abort, view: Ref<'_, ArchivedEither>) {
    match view.variant() {
        ViewOfEither::Alone(number) => assert_same(rt, "the number", number.get(), 7),
        ViewOfEither::Together { lines, text, weak } => {
            let (Some(first), Some(other)) = (lines.get().get(0), weak.upgrade()) else {
                panic!(rt; "no line")
            };
            assert_same(rt, "the line", first.to().up().get(), 8);
            assert_same(rt, "the text", text.get().as_str(), "hé");
            assert_line(rt, other);
        }
    }
}

#[test]
fn either_is_viewed(rt: HostRuntime) {
    for (archive, tag) in [(ALONE.as_slice(), 0), (TOGETHER.as_slice(), 1)] {
        let view = viewed::<ArchivedEither>(&rt, rt.alloc(), archive);
        assert_same(&rt, "the tag", view.tag(), tag);
        assert_shown(&rt, view);
    }
}

// Writes over the number, or over the first line of the slice.
fn write_first(either: Seal<'_, ArchivedEither>)
    requires { IsSealOf no_definition (one ⟦<ArchivedEither as Portable>⟧.shape) either }
{
    match either.as_ref().tag() {
        0 => either.alone_0_mut().write(8),
        1 => {
            let lines = either.together_lines_mut().get_seal();
            if lines.len() > 0 {
                lines.index(0).from_mut().up_mut().write(9);
            }
        }
        _ => {}
    }
}

// And over the text, and over the line that the weak pointer leads to, if there are such.
fn write_shared(either: Seal<'_, ArchivedEither>)
    requires { IsSealOf no_definition (one ⟦<ArchivedEither as Portable>⟧.shape) either }
{
    if either.as_ref().tag() == 1 {
        let text = either.together_text_mut().get_seal();
        if text.as_ref().len() == 3 {
            text.write_str("abc");
        }
    }
}

fn write_weak(either: Seal<'_, ArchivedEither>)
    requires { IsSealOf no_definition (one ⟦<ArchivedEither as Portable>⟧.shape) either }
{
    if either.as_ref().tag() == 1 {
        if let Some(line) = either.together_weak_mut().upgrade_seal() {
            line.to_mut().right_mut().write(258);
        }
    }
}

// Writes over all of these bytes that are shown.
fn write_either(rt: &impl Abort, alloc: Global, bytes: &mut [u8]) {
    write_first(sealed(rt, alloc, bytes));
    write_shared(sealed(rt, alloc, bytes));
    write_weak(sealed(rt, alloc, bytes));
}

#[test]
fn either_is_edited(rt: HostRuntime) {
    let mut alone = *ALONE;
    write_either(&rt, rt.alloc(), &mut alone);
    let mut wanted = *ALONE;
    wanted[1] = 8;
    assert_bytes(&rt, "alone", &alone, &wanted);
    let mut together = *TOGETHER;
    write_either(&rt, rt.alloc(), &mut together);
    let wanted =
        b"\x05\0\x09\0\x07\0\x08\0abc\0\x01\0\xfe\xff\x02\x01\x04\0\x01\0\0\0\xe8\xff\xff\xff\x01\0\0\0\xe8\xff\xff\xff\x03\0\0\0\xe4\xff\xff\xff";
    assert_bytes(&rt, "together", &together, wanted);
    let mut null = *NULL;
    write_either(&rt, rt.alloc(), &mut null);
    let wanted =
        b"\x05\0\x09\0\x07\0\x08\0abc\0\x01\0\0\0\xf0\xff\xff\xff\x01\0\0\0\xf0\xff\xff\xff\x03\0\0\0\x01\0\0\0";
    assert_bytes(&rt, "a null", &null, wanted);
}

#[test]
fn faults_of_either_are_found(rt: HostRuntime) {
    let rows = [
        (8, 0xff, Error::InvalidUtf8),
        (20, 2, unknown_tag("ArchivedEither", 2)),
        (24, 0xe9, unaligned(1, 2)),
        (28, 2, outside(8, 3, 16, 20)),
        (32, 0xe0, Error::TypeMismatch),
        (40, 0xd8, Error::TypeMismatch),
        (40, 1, outside(-215, 8, 11, 20)),
    ];
    assert_faults::<ArchivedEither>(&rt, rt.alloc(), TOGETHER, &rows);
}
