// A family of which one type is in the other behind no pointer, and types that hold it behind none, byte for byte: written, validated, viewed and read back; and
// damaged ones.

use crate::assertions::{
    assert_changed, assert_holds, assert_read, assert_same, assert_written, tag_of_none, viewed,
};
use archive_core::error::Error;
use archive_core::option::ArchivedOption;
use archive_core::view::Ref;
use recursive_fields::json::{
    ArchivedJson, ArchivedMessage, Json, JsonView, Member, MemberView, Message, MessageView,
    Number, NumberView, ViewOfJson, ViewOfMessage,
};
use recursive_fields::page::{ArchivedPage, Page, PageView};
use std::alloc::{AllocError, Global};
use std::process::Abort;

fn number(thousandths: i64) -> Json {
    Json::Number(Number { thousandths })
}

fn page(alloc: Global) -> Result<Page, AllocError> {
    let replaced = Json::Text(String::from_str(alloc, "xy")?);
    let sent = Message::Sent(number(7), Some(replaced));
    let listed = Message::Listed {
        others: 30,
        documents: vec![in alloc; number(-1)]?,
    };
    Ok(Page {
        subject: Json::List(vec![in alloc; Json::Null]?),
        messages: vec![in alloc; Message::Nothing, sent, listed]?,
    })
}

// The value of the subject's list at 0, the document that is listed at 16, the three messages at 32, 80 and 128, and the page at 176. A page is its subject, and
// at 16 where its messages are. A value is its tag, at 8 a number, or at 4 a text or an offset and a length. A message is a tag, with a document at 8 and an
// option of one at 24, or with a number at 1 and where its documents are at 4.
const PAGE: &[u8] = b"\0\0\0\0\0\0\0\0\0\0\0\0\0\0\0\0\
    \x01\0\0\0\0\0\0\0\xff\xff\xff\xff\xff\xff\xff\xff\
    \0\0\0\0\0\0\0\0\0\0\0\0\0\0\0\0\0\0\0\0\0\0\0\0\0\0\0\0\0\0\0\0\0\0\0\0\0\0\0\0\0\0\0\0\0\0\0\0\
    \x01\0\0\0\0\0\0\0\x01\0\0\0\0\0\0\0\x07\0\0\0\0\0\0\0\x01\0\0\0\0\0\0\0\x02\0\0\0xy\xff\xff\xff\xff\xff\xff\0\0\0\0\
    \x02\x1e\0\0\x8c\xff\xff\xff\x01\0\0\0\0\0\0\0\0\0\0\0\0\0\0\0\0\0\0\0\0\0\0\0\0\0\0\0\0\0\0\0\0\0\0\0\0\0\0\0\
    \x03\0\0\0L\xff\xff\xff\x01\0\0\0\0\0\0\0\x60\xff\xff\xff\x03\0\0\0";

#[test]
fn what_holds_a_recursive_type_is_held(rt: HostRuntime) {
    let page = page(rt.alloc()).expect(&rt, "a page");
    assert_written(&rt, rt.alloc(), &page, PAGE);
    assert_read(&rt, rt.alloc(), PAGE, &page);
}

// The number that a value is; 0 of another.
fn number_of(value: Ref<'_, ArchivedJson>) -> i64 {
    match value.variant() {
        ViewOfJson::Number(number) => number.thousandths().get(),
        _ => 0,
    }
}

// The length of the text that a document was, if one was replaced.
fn replaced(document: Ref<'_, ArchivedOption<ArchivedJson>>) -> usize {
    match document.as_ref() {
        Some(document) => match document.variant() {
            ViewOfJson::Text(text) => text.as_str().len(),
            _ => 0,
        },
        None => 0,
    }
}

// The message of this number.
fn message_of<'a>(
    rt: &impl Abort,
    alloc: Global,
    bytes: &'a [u8],
    number: usize,
) -> Ref<'a, ArchivedMessage> {
    let messages = viewed::<ArchivedPage>(rt, alloc, bytes).messages();
    messages.as_slice().get(number).expect(rt, "a message")
}

fn assert_sent(rt: &impl Abort, alloc: Global) {
    match message_of(rt, alloc, PAGE, 1).variant() {
        ViewOfMessage::Sent(document, other) => {
            assert_same(rt, "document", number_of(document), 7);
            assert_same(rt, "replaced", replaced(other), 2);
        }
        _ => assert_holds(rt, "a document is sent", false),
    }
}

fn assert_listed(rt: &impl Abort, alloc: Global) {
    match message_of(rt, alloc, PAGE, 2).variant() {
        ViewOfMessage::Listed { others, documents } => {
            assert_same(rt, "others", others.get(), 30);
            assert_same(rt, "documents", documents.len(), 1);
        }
        _ => assert_holds(rt, "documents are listed", false),
    }
}

#[test]
fn views_of_what_holds_a_recursive_type(rt: HostRuntime) {
    let subject = viewed::<ArchivedPage>(&rt, rt.alloc(), PAGE).subject();
    assert_same(&rt, "the tag of the subject", subject.tag(), 3);
    assert_sent(&rt, rt.alloc());
    assert_listed(&rt, rt.alloc());
}

fn assert_damaged(rt: &impl Abort, alloc: Global, at: usize, byte: u8, refusal: Error) {
    assert_changed::<ArchivedPage>(rt, alloc, PAGE, at, byte, refusal);
}

// Tags of the second message, of the option in it, of the third message and of the document that it lists, and a text.
#[test]
fn damaged_pages(rt: HostRuntime) {
    let alloc = rt.alloc();
    assert_damaged(&rt, alloc, 80, 3, tag_of_none("ArchivedMessage", 3));
    assert_damaged(&rt, alloc, 104, 2, tag_of_none("ArchivedOption", 2));
    assert_damaged(&rt, alloc, 128, 9, tag_of_none("ArchivedMessage", 9));
    assert_damaged(&rt, alloc, 16, 5, tag_of_none("ArchivedJson", 5));
    assert_damaged(&rt, alloc, 116, 0xc0, Error::InvalidUtf8);
}

fn named(alloc: Global, name: &str, value: Json) -> Result<Member, AllocError> {
    Ok(Member {
        name: String::from_str(alloc, name)?,
        value,
    })
}

fn document(alloc: Global) -> Result<Json, AllocError> {
    let text = Json::Text(String::from_str(alloc, "x")?);
    let list = vec![in alloc; Json::Null, text]?;
    let number = named(alloc, "a", number(-1))?;
    let values = named(alloc, "list", Json::List(list))?;
    Ok(Json::Object(vec![in alloc; number, values]?))
}

// The two values of the list at 0, the two members at 32, and the object at 80. A member is its name, and at 8 its value.
const DOCUMENT: &[u8] =
    b"\0\0\0\0\0\0\0\0\0\0\0\0\0\0\0\0\x02\0\0\0x\xff\xff\xff\xff\xff\xff\xff\0\0\0\0a\xff\xff\xff\xff\xff\xff\xff\x01\0\0\0\0\0\0\0\xff\xff\xff\xff\xff\xff\xff\xfflist\xff\xff\xff\xff\x03\0\0\0\xbc\xff\xff\xff\x02\0\0\0\0\0\0\0\x04\0\0\0\xcc\xff\xff\xff\x02\0\0\0\0\0\0\0";

#[test]
fn a_type_of_its_family_behind_no_pointer(rt: HostRuntime) {
    let document = document(rt.alloc()).expect(&rt, "a document");
    assert_written(&rt, rt.alloc(), &document, DOCUMENT);
    assert_read(&rt, rt.alloc(), DOCUMENT, &document);
}

fn assert_members(rt: &impl Abort, alloc: Global) {
    match viewed::<ArchivedJson>(rt, alloc, DOCUMENT).variant() {
        ViewOfJson::Object(members) => {
            let Some(first) = members.as_slice().get(0) else {
                assert_holds(rt, "there is a member", false);
                return;
            };
            assert_same(rt, "name", first.name().as_str(), "a");
            assert_same(rt, "value", number_of(first.value()), -1);
        }
        _ => assert_holds(rt, "an object", false),
    }
}

#[test]
fn views_of_a_family(rt: HostRuntime) {
    assert_members(&rt, rt.alloc());
}

fn assert_document(rt: &impl Abort, alloc: Global, at: usize, byte: u8, refusal: Error) {
    assert_changed::<ArchivedJson>(rt, alloc, DOCUMENT, at, byte, refusal);
}

// Tags of the second member's value, of the first one and of a value of the list; and the list where its own members lie.
#[test]
fn damaged_documents(rt: HostRuntime) {
    let alloc = rt.alloc();
    assert_document(&rt, alloc, 64, 5, tag_of_none("ArchivedJson", 5));
    assert_document(&rt, alloc, 40, 9, tag_of_none("ArchivedJson", 9));
    assert_document(&rt, alloc, 16, 7, tag_of_none("ArchivedJson", 7));
    let outside = Error::InvalidSubtreePointer {
        position: 24,
        size: 32,
        start: 0,
        end: 32,
    };
    assert_document(&rt, alloc, 68, 0xd4, outside);
}
