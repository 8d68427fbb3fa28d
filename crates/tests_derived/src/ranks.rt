// What is ordered and hashed: views are compared as the values that they show, wherever these lie. Its fields and variants have names that mean something
// elsewhere.

ghost use Rattle.archive_core.specs.Definitions.{no_definition};
ghost use Rattle.archive_core.specs.Shape.{one};
ghost use Rattle.archive_core.specs.SealOutcomes.{IsSealOf};

use crate::assertions::{assert_archived, assert_bytes, assert_same, sealed, text, viewed};
use archive_core::compare::Ordered;
use archive_core::primitive::NonZero;
use archive_core::seal::Seal;
use archive_core::traits::Portable;
use archive_core::view::Ref;
use derived_plain::ranked::{
    ArchivedLabel, ArchivedScores, Label, LabelSeal, LabelView, Scores, ScoresSeal, ScoresView,
    ViewOfLabel,
};
use std::alloc::{AllocError, Global};
use std::collections::BTreeMap;
use std::hash::{DefaultHasher, Hash, Hasher};
use std::process::Abort;

// No label; the numbers 1 and 256; the names a, -1 and 0, and b, -2: by their tags, numbers by their values, and texts before what is behind them.
const LABELS: [&[u8]; 6] = [
    b"\0\0\0\0\0\0\0\0\0\0\0\0\0\0\0\0",
    b"\x01\0\x01\0\0\0\0\0\0\0\0\0\0\0\0\0",
    b"\x01\0\0\x01\0\0\0\0\0\0\0\0\0\0\0\0",
    b"\x02\0\0\0a\xff\xff\xff\xff\xff\xff\xff\xff\0\0\0",
    b"\x02\0\0\0a\xff\xff\xff\xff\xff\xff\xff\0\0\0\0",
    b"\x02\0\0\0b\xff\xff\xff\xff\xff\xff\xff\xfe\0\0\0",
];

// What a value feeds a hasher comes to.
fn hash_of<T: Hash>(value: &T) -> u64 {
    let mut state = DefaultHasher::new();
    value.hash(&mut state);
    state.finish()
}

// Two views are ordered as these numbers are, and feed a hasher alike where they are equal.
fn assert_ordered<T: Ordered>(
    rt: &impl Abort,
    one: Ref<'_, T>,
    other: Ref<'_, T>,
    numbers: (usize, usize),
) {
    assert_same(rt, "the order", one.cmp(&other), numbers.0.cmp(&numbers.1));
    assert_same(rt, "equal", one == other, numbers.0 == numbers.1);
    let alike = hash_of(&one) == hash_of(&other);
    assert_same(rt, "hashed alike", alike, numbers.0 == numbers.1);
}

// The views of these archives ascend.
pub(crate) fn assert_ascending<T: Portable + Ordered>(
    rt: &impl Abort,
    alloc: Global,
    archives: &[&[u8]],
) {
    for (i, archive) in archives.iter().enumerate() {
        for (j, other) in archives.iter().enumerate() {
            let one = viewed::<T>(rt, alloc, archive);
            assert_ordered(rt, one, viewed::<T>(rt, alloc, other), (i, j));
        }
    }
}

// A name.
fn name(rt: &impl Abort, alloc: Global, name: &str, which: i8) -> Label {
    Label::Ok {
        name: text(rt, alloc, name),
        which,
    }
}

#[test]
fn labels_are_written_and_read_back(rt: HostRuntime) {
    let alloc = rt.alloc();
    let rows = [
        (Label::None, LABELS[0]),
        (Label::Some(256), LABELS[2]),
        (name(&rt, alloc, "a", -1), LABELS[3]),
        (name(&rt, alloc, "b", -2), LABELS[5]),
    ];
    for (label, archive) in rows {
        assert_archived(&rt, alloc, &label, 16, archive);
    }
}

// The number of a label that a view shows; 0 where it has none.
fn number_of(rt: &impl Abort, view: Ref<'_, ArchivedLabel>) -> i32 {
    match view.variant() {
        ViewOfLabel::None => 0,
        ViewOfLabel::Some(number) => number.get() as i32,
        ViewOfLabel::Ok { name, which } => {
            assert_same(rt, "the name", name.as_str(), "b");
            which.get() as i32
        }
    }
}

#[test]
fn labels_are_viewed(rt: HostRuntime) {
    for (archive, number) in [(LABELS[0], 0), (LABELS[2], 256), (LABELS[5], -2)] {
        let view = viewed::<ArchivedLabel>(&rt, rt.alloc(), archive);
        assert_same(&rt, "the number", number_of(&rt, view), number);
    }
}

#[test]
fn views_of_labels_are_ordered(rt: HostRuntime) {
    assert_ascending::<ArchivedLabel>(&rt, rt.alloc(), &LABELS);
}

// The number that the box at 12 points at, the entry at 4 that it is in, at 16 a label of 16 bytes, and at 32 the scores: the letter, or whether there is one, at
// 34 the pair, and at 36 and 44 what points at the entry and at the label. They differ in the letter, in the label, in the boxed number and in the pair.
const SCORES: [&[u8; 56]; 5] = [
    b"\xfe\0\0\0a\xff\xff\xff\xff\xff\xff\xff\xf4\xff\xff\xff\x01\0\x07\0\0\0\0\0\0\0\0\0\0\0\0\0\0b\x02\xfd\xe0\xff\xff\xff\x01\0\0\0\x01\0\0\0\xe0\xff\xff\xff\x01\0\0\0",
    b"\xfe\0\0\0a\xff\xff\xff\xff\xff\xff\xff\xf4\xff\xff\xff\x01\0\x07\0\0\0\0\0\0\0\0\0\0\0\0\0\x01\x01\x02\xfd\xe0\xff\xff\xff\x01\0\0\0\x01\0\0\0\xe0\xff\xff\xff\x01\0\0\0",
    b"\xfe\0\0\0a\xff\xff\xff\xff\xff\xff\xff\xf4\xff\xff\xff\x01\0\x08\0\0\0\0\0\0\0\0\0\0\0\0\0\x01\x01\x02\xfd\xe0\xff\xff\xff\x01\0\0\0\x01\0\0\0\xe0\xff\xff\xff\x01\0\0\0",
    b"\xff\0\0\0a\xff\xff\xff\xff\xff\xff\xff\xf4\xff\xff\xff\x01\0\x07\0\0\0\0\0\0\0\0\0\0\0\0\0\x01\x01\x02\xfd\xe0\xff\xff\xff\x01\0\0\0\x01\0\0\0\xe0\xff\xff\xff\x01\0\0\0",
    b"\xfe\0\0\0a\xff\xff\xff\xff\xff\xff\xff\xf4\xff\xff\xff\x01\0\x07\0\0\0\0\0\0\0\0\0\0\0\0\0\x01\x01\x02\xfe\xe0\xff\xff\xff\x01\0\0\0\x01\0\0\0\xe0\xff\xff\xff\x01\0\0\0",
];

// The scores that the second one is the archive of, of these entries and labels.
fn scores(by_name: BTreeMap<String, Box<i8>>, labels: Vec<Label>) -> Scores {
    Scores {
        data: Err(true),
        result: (NonZero::from_native(2), NonZero::from_native(-3)),
        pos: by_name,
        len: Some(labels),
    }
}

// One entry: a name, and -2.
fn entry(alloc: Global, name: String) -> Result<BTreeMap<String, Box<i8>>, AllocError> {
    let mut by_name = BTreeMap::new(alloc);
    by_name.insert(name, Box::new(alloc, -2)?)?;
    Ok(by_name)
}

#[test]
fn scores_are_written_and_read_back(rt: HostRuntime) {
    let alloc = rt.alloc();
    let by_name = entry(alloc, text(&rt, alloc, "a")).expect(&rt, "memory for an entry");
    let labels = vec![in alloc; Label::Some(7)].expect(&rt, "memory for a label");
    assert_archived(&rt, alloc, &scores(by_name, labels), 24, SCORES[1]);
}

#[test]
fn views_of_scores_are_ordered(rt: HostRuntime) {
    let archives = [
        SCORES[0].as_slice(),
        SCORES[1].as_slice(),
        SCORES[2].as_slice(),
        SCORES[3].as_slice(),
        SCORES[4].as_slice(),
    ];
    assert_ascending::<ArchivedScores>(&rt, rt.alloc(), &archives);
}

// The field `pos` is shown by `pos_field`, since each view has a position.
#[test]
fn scores_are_viewed(rt: HostRuntime) {
    let view = viewed::<ArchivedScores>(&rt, rt.alloc(), SCORES[1]);
    assert_same(&rt, "no letter", view.data().as_ref().is_err(), true);
    assert_same(&rt, "the pair's place", view.result().pos(), 34);
    assert_same(&rt, "entries", view.pos_field().len(), 1);
    let labels = view.len().as_ref().map(|labels| labels.len());
    assert_same(&rt, "labels", labels, Some(1));
}

// Writes over the number of a label, or over which of its name it is.
fn write_label(label: Seal<'_, ArchivedLabel>)
    requires { IsSealOf no_definition (one ⟦<ArchivedLabel as Portable>⟧.shape) label }
{
    match label.as_ref().tag() {
        1 => label.some_0_mut().write(8),
        2 => label.ok_which_mut().write(0),
        _ => {}
    }
}

// Writes over the first label of scores, and over nothing else.
fn write_scores(rt: &impl Abort, alloc: Global, bytes: &mut [u8]) {
    let pair = sealed::<ArchivedScores>(rt, alloc, bytes).result_mut();
    assert_same(rt, "the pair's place", pair.pos(), 34);
    let entries = sealed::<ArchivedScores>(rt, alloc, bytes).pos_field_mut();
    assert_same(rt, "the place of the entries", entries.pos(), 36);
    let labels = sealed::<ArchivedScores>(rt, alloc, bytes).len_mut();
    if let Some(labels) = labels.as_seal() {
        let labels = labels.as_slice_seal();
        if labels.len() > 0 {
            write_label(labels.index(0));
        }
    }
}

// And over whether there is a letter.
fn write_data(rt: &impl Abort, alloc: Global, bytes: &mut [u8]) {
    let data = sealed::<ArchivedScores>(rt, alloc, bytes).data_mut();
    if let Err(is_there) = data.as_seal() {
        is_there.write(false);
    }
}

#[test]
fn labels_and_scores_are_edited(rt: HostRuntime) {
    let mut bytes = *b"\x02\0\0\0a\xff\xff\xff\xff\xff\xff\xff\xff\0\0\0";
    write_label(sealed(&rt, rt.alloc(), &mut bytes));
    assert_bytes(&rt, "the edited label", &bytes, LABELS[4]);
    let mut bytes = *SCORES[1];
    write_scores(&rt, rt.alloc(), &mut bytes);
    assert_bytes(&rt, "another label", &bytes, SCORES[2]);
    write_data(&rt, rt.alloc(), &mut bytes);
    assert_same(&rt, "whether there is a letter", bytes[33], 0);
}
