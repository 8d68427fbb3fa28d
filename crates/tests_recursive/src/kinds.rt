// Recursive values behind vectors of boxes and of options and in boxed slices, byte for byte, as docs/FORMAT.md has them: written, validated, viewed and read
// back; and damaged ones.

use crate::assertions::{
    assert_changed, assert_holds, assert_read, assert_same, assert_written, value_of, viewed,
};
use archive_core::boxed::{BoxSlice, BoxStr};
use archive_core::core_impls::OwnedArray;
use archive_core::error::Error;
use recursive_kinds::bush::{ArchivedBush, Bush};
use recursive_kinds::rule::{ArchivedRule, Rule, RuleView};
use std::alloc::{AllocError, Global};
use std::process::Abort;

fn bush(alloc: Global, id: u32) -> Bush {
    Bush {
        id,
        sides: Vec::new(alloc),
        next: Vec::new(alloc),
    }
}

fn bushes(alloc: Global) -> Result<Bush, AllocError> {
    let two = Box::new(alloc, bush(alloc, 2))?;
    let three = Box::new(alloc, bush(alloc, 3))?;
    Ok(Bush {
        id: 1,
        sides: vec![in alloc; None, Some(two)]?,
        next: vec![in alloc; three]?,
    })
}

// Bush 2 at 0; the two options at 20, each a tag and a box; bush 3 at 36, and the box of it at 56; and bush 1 at 60. A bush is its number, and twice an offset
// and a length.
const BUSHES: &[u8] =
    b"\x02\0\0\0\xfc\xff\xff\xff\0\0\0\0\xf4\xff\xff\xff\0\0\0\0\0\0\0\0\0\0\0\0\x01\0\0\0\xe0\xff\xff\xff\x03\0\0\0\xfc\xff\xff\xff\0\0\0\0\xf4\xff\xff\xff\0\0\0\0\xec\xff\xff\xff\x01\0\0\0\xd4\xff\xff\xff\x02\0\0\0\xf0\xff\xff\xff\x01\0\0\0";

#[test]
fn boxes_and_options_in_vectors(rt: HostRuntime) {
    let bushes = bushes(rt.alloc()).expect(&rt, "a bush");
    assert_written(&rt, rt.alloc(), &bushes, BUSHES);
    assert_read(&rt, rt.alloc(), BUSHES, &bushes);
}

// The box of bush 3 leads into itself. The options were left before, so bushes may lie behind them.
#[test]
fn a_box_that_leads_into_itself(rt: HostRuntime) {
    let outside = Error::InvalidSubtreePointer {
        position: 52,
        size: 20,
        start: 36,
        end: 56,
    };
    assert_changed::<ArchivedBush>(&rt, rt.alloc(), BUSHES, 56, 0xfc, outside);
}

// An array of these bytes; they are four.
fn version(alloc: Global, bytes: [u8; 4]) -> Result<OwnedArray<u8, 4>, AllocError> {
    let bytes = Vec::from_array(alloc, bytes)?;
    let Some(version) = OwnedArray::from_vec(bytes) else {
        return Err(AllocError);
    };
    Ok(version)
}

fn rule(
    alloc: Global,
    words: &str,
    version: OwnedArray<u8, 4>,
    pages: Vec<u16>,
    lines: usize,
    parts: Vec<Rule>,
) -> Result<Rule, AllocError> {
    let text = String::from_str(alloc, words)?;
    Ok(Rule {
        words: BoxStr { text },
        version,
        pages: BoxSlice { items: pages },
        lines,
        parts: BoxSlice { items: parts },
    })
}

fn rules(alloc: Global) -> Result<Rule, AllocError> {
    let one = version(alloc, [1, 0, 0, 2])?;
    let first = rule(alloc, "be", one, Vec::new(alloc), 3, Vec::new(alloc))?;
    let two = version(alloc, [1, 0, 0, 3])?;
    let second = rule(alloc, "or", two, Vec::new(alloc), 4, Vec::new(alloc))?;
    let all = version(alloc, [2, 0, 0, 1])?;
    let parts = vec![in alloc; first, second]?;
    rule(alloc, "all", all, vec![in alloc; 7, 300]?, 9, parts)
}

// The words of the rule at 0, its pages at 4; the words of its first part at 8 and its pages, which are none, at 10, those of its second part at 12 and at 14;
// its parts at 16 and 48, and itself at 80. Of the 32 bytes of a rule its words are the first, its version lies at 8, its pages at 12, its lines at 20, and its
// parts at 24.
const RULES: &[u8] =
    b"all\0\x07\0,\x01be\0\0or\0\0\xf8\xff\xff\xff\x02\0\0\0\x01\0\0\x02\xee\xff\xff\xff\0\0\0\0\x03\0\0\0\xe4\xff\xff\xff\0\0\0\0\xdc\xff\xff\xff\x02\0\0\0\x01\0\0\x03\xd2\xff\xff\xff\0\0\0\0\x04\0\0\0\xc8\xff\xff\xff\0\0\0\0\xb0\xff\xff\xff\x03\0\0\0\x02\0\0\x01\xa8\xff\xff\xff\x02\0\0\0\x09\0\0\0\xa8\xff\xff\xff\x02\0\0\0";

#[test]
fn fields_of_many_kinds(rt: HostRuntime) {
    let rules = rules(rt.alloc()).expect(&rt, "rules");
    assert_written(&rt, rt.alloc(), &rules, RULES);
    let back: Rule = value_of(&rt, rt.alloc(), RULES);
    assert_written(&rt, rt.alloc(), &back, RULES);
}

#[test]
fn boxed_slices_as_they_lie(rt: HostRuntime) {
    let parts = viewed::<ArchivedRule>(&rt, rt.alloc(), RULES).parts().get();
    assert_same(&rt, "how many parts", parts.len(), 2);
    let Some(last) = parts.get(1) else {
        assert_holds(&rt, "a last one", false);
        return;
    };
    assert_same(&rt, "the lines of the last", last.lines().get(), 4);
    assert_same(&rt, "its parts", last.parts().get().len(), 0);
}

// The boxed slice of a rule leads to the rule itself.
#[test]
fn a_boxed_slice_within_itself(rt: HostRuntime) {
    let outside = Error::InvalidSubtreePointer {
        position: 80,
        size: 64,
        start: 8,
        end: 80,
    };
    assert_changed::<ArchivedRule>(&rt, rt.alloc(), RULES, 104, 0xe8, outside);
}
