//! The formats that the program knows.

use crate::all_values::ArchivedAllValues;
use crate::shared::{
    ArchivedRcWeakPair, ArchivedTwoRc, ArchivedTwoRcBytes, ArchivedTwoRcUnit, TwoRc, two_rc,
};
use archive_core::api::{HighSerializer, access, to_bytes};
use archive_core::boxed::{ArchivedBox, BoxSlice};
use archive_core::error::Error;
use archive_core::map::{ArchivedSortedMap, SortedEntries, SortedKey};
use archive_core::option::ArchivedOption;
use archive_core::primitive::ArchivedU32;
use archive_core::slice::ArchivedSlice;
use archive_core::string::ArchivedString;
use archive_core::traits::{MapKey, Portable, PortablePointee, Serialize};
use archive_core::vec::ArchivedVec;
use hex::FromHexError;
use own_types::node::{ArchivedNode, Node, node_of};
use own_types::test_record::{ArchivedTest, Test};
use std::alloc::Global;
use std::num::ParseIntError;
use std::str::FromStr;

/// A format, as the second word of a command names it.
#[derive(Clone, Copy, Debug, PartialEq, Eq)]
pub enum Format {
    /// `u32`, written as digits.
    U32,
    /// `string`, written as it stands.
    String,
    /// `opt-u32`, which is checked alone.
    OptU32,
    /// `opt-box-bytes`, an option of a boxed slice of bytes, written as `none`, or as `some:` and the bytes in hexadecimal.
    OptBoxBytes,
    /// `two-box-bytes`, an array of two boxed slices of bytes, which is checked alone.
    TwoBoxBytes,
    /// `vec-u32`, written as digits between commas; no word at all is an empty list.
    VecU32,
    /// `map-u32`, a sorted map of numbers to numbers, written as pairs between commas, each a key, `=` and its value; no word at all is an empty map.
    MapU32,
    /// `map-string`, a sorted map of texts to numbers, written likewise; a pair is split at its last `=`.
    MapString,
    /// `two-rc`, two shared numbers, written as `a`, two pointers to one, or as `a,b`, a pointer to each.
    TwoRc,
    /// `two-rc-unit`, two shared units, which is checked alone.
    TwoRcUnit,
    /// `two-rc-bytes`, two shared slices of bytes, which is checked alone.
    TwoRcBytes,
    /// `rc-weak`, a shared number and a weak pointer to one, which is checked alone.
    RcWeak,
    /// `node`, written as how many boxes there are, at most 1,000.
    Node,
    /// `all-values`, a shared value of its own type, which is checked alone.
    AllValues,
    /// `test`, a record of a number, a text and perhaps a list, written with semicolons between them; the list as `none`, or as numbers between commas.
    Test,
}

/// A value that a command gives.
#[derive(Drop)]
pub enum Value<'a> {
    /// A number.
    U32(u32),
    /// A text.
    String(&'a String),
    /// Bytes, or none.
    OptBoxBytes(Option<BoxSlice<u8>>),
    /// Numbers.
    VecU32(Vec<u32>),
    /// Numbers with their values, in the order in which they are given.
    MapU32(Vec<(u32, u32)>),
    /// Texts with their values, likewise.
    MapString(Vec<(String, u32)>),
    /// Two shared numbers.
    TwoRc(TwoRc),
    /// A list of boxes in boxes.
    Node(Node),
    /// A record.
    Test(Test),
}

impl Format {
    /// The format of a name.
    pub fn named(name: &str) -> Option<Format> {
        match name {
            "u32" => Some(Format::U32),
            "string" => Some(Format::String),
            "opt-u32" => Some(Format::OptU32),
            "opt-box-bytes" => Some(Format::OptBoxBytes),
            "two-box-bytes" => Some(Format::TwoBoxBytes),
            "vec-u32" => Some(Format::VecU32),
            "map-u32" => Some(Format::MapU32),
            "map-string" => Some(Format::MapString),
            "two-rc" => Some(Format::TwoRc),
            "two-rc-unit" => Some(Format::TwoRcUnit),
            "two-rc-bytes" => Some(Format::TwoRcBytes),
            "rc-weak" => Some(Format::RcWeak),
            "node" => Some(Format::Node),
            "all-values" => Some(Format::AllValues),
            "test" => Some(Format::Test),
            _ => None,
        }
    }

    /// The value that a word stands for: none where it stands for none, or the format is checked alone. Fails with `OutOfMemory` if
    /// memory from `alloc` is refused.
    pub fn value(self, alloc: Global, word: &String) -> Result<Option<Value<'_>>, Error> {
        match self {
            Format::U32 => match u32::read(word.as_str()) {
                Some(number) => Ok(Some(Value::U32(number))),
                None => Ok(None),
            },
            Format::String => Ok(Some(Value::String(word))),
            Format::OptU32
            | Format::TwoBoxBytes
            | Format::TwoRcUnit
            | Format::TwoRcBytes
            | Format::RcWeak
            | Format::AllValues => Ok(None),
            Format::OptBoxBytes => match optional_bytes(alloc, word.as_str())? {
                Some(bytes) => Ok(Some(Value::OptBoxBytes(bytes))),
                None => Ok(None),
            },
            Format::VecU32 => match numbers(alloc, word.as_str())? {
                Some(numbers) => Ok(Some(Value::VecU32(numbers))),
                None => Ok(None),
            },
            Format::MapU32 => match entries(alloc, word.as_str())? {
                Some(entries) => Ok(Some(Value::MapU32(entries))),
                None => Ok(None),
            },
            Format::MapString => match entries(alloc, word.as_str())? {
                Some(entries) => Ok(Some(Value::MapString(entries))),
                None => Ok(None),
            },
            Format::TwoRc => match one_or_two(word.as_str()) {
                Some((first, second)) => Ok(Some(Value::TwoRc(two_rc(alloc, first, second)?))),
                None => Ok(None),
            },
            Format::Node => match u32::read(word.as_str()) {
                Some(count) if count <= 1000 => {
                    Ok(Some(Value::Node(node_of(alloc, count as usize)?)))
                }
                _ => Ok(None),
            },
            Format::Test => match test_record(alloc, word.as_str())? {
                Some(record) => Ok(Some(Value::Test(record))),
                None => Ok(None),
            },
        }
    }

    /// Whether the bytes are an archive of the format. Memory comes from `alloc`. Fails as `access` does.
    pub fn check(self, alloc: Global, bytes: &[u8]) -> Result<(), Error> {
        match self {
            Format::U32 => check_as::<ArchivedU32>(alloc, bytes),
            Format::String => check_as::<ArchivedString>(alloc, bytes),
            Format::OptU32 => check_option::<ArchivedU32>(alloc, bytes),
            Format::OptBoxBytes => check_option::<ArchivedBox<ArchivedSlice<u8>>>(alloc, bytes),
            Format::TwoBoxBytes => check_two_boxes::<ArchivedSlice<u8>>(alloc, bytes),
            Format::VecU32 => check_as::<ArchivedVec<ArchivedU32>>(alloc, bytes),
            Format::MapU32 => check_map::<ArchivedU32>(alloc, bytes),
            Format::MapString => check_map::<ArchivedString>(alloc, bytes),
            Format::TwoRc => check_as::<ArchivedTwoRc>(alloc, bytes),
            Format::TwoRcUnit => check_as::<ArchivedTwoRcUnit>(alloc, bytes),
            Format::TwoRcBytes => check_as::<ArchivedTwoRcBytes>(alloc, bytes),
            Format::RcWeak => check_as::<ArchivedRcWeakPair>(alloc, bytes),
            Format::Node => check_as::<ArchivedNode>(alloc, bytes),
            Format::AllValues => check_as::<ArchivedAllValues>(alloc, bytes),
            Format::Test => check_as::<ArchivedTest>(alloc, bytes),
        }
    }
}

impl Value<'_> {
    /// The archive of the value. Memory comes from `alloc`. Fails as `to_bytes` does.
    pub fn write(&self, alloc: Global) -> Result<Vec<u8>, Error> {
        match self {
            Value::U32(number) => to_bytes(alloc, number),
            Value::String(text) => to_bytes(alloc, *text),
            Value::OptBoxBytes(bytes) => to_bytes(alloc, bytes),
            Value::VecU32(numbers) => to_bytes(alloc, numbers),
            Value::MapU32(entries) => write_entries(alloc, entries.as_slice()),
            Value::MapString(entries) => write_entries(alloc, entries.as_slice()),
            Value::TwoRc(pair) => to_bytes(alloc, pair),
            Value::Node(node) => to_bytes(alloc, node),
            Value::Test(record) => to_bytes(alloc, record),
        }
    }
}

// Whether the bytes are an archive of the type.
fn check_as<T: Portable>(alloc: Global, bytes: &[u8]) -> Result<(), Error> {
    access::<T>(alloc, bytes)?;
    Ok(())
}

// Whether they are an archive of an option of the type.
fn check_option<T: Portable>(alloc: Global, bytes: &[u8]) -> Result<(), Error> {
    access::<ArchivedOption<T>>(alloc, bytes)?;
    Ok(())
}

// Whether they are an archive of an array of two boxes that lead to such.
fn check_two_boxes<T: PortablePointee>(alloc: Global, bytes: &[u8]) -> Result<(), Error> {
    access::<[ArchivedBox<T>; 2]>(alloc, bytes)?;
    Ok(())
}

// Whether they are an archive of a map of such keys to numbers.
fn check_map<K: MapKey>(alloc: Global, bytes: &[u8]) -> Result<(), Error> {
    access::<ArchivedSortedMap<K, ArchivedU32>>(alloc, bytes)?;
    Ok(())
}

// The archive of a map of these entries.
fn write_entries<K: SortedKey + Serialize<HighSerializer<Vec<u8>, Global>>>(
    alloc: Global,
    entries: &[(K, u32)],
) -> Result<Vec<u8>, Error>
where
    K::Archived: MapKey,
{
    to_bytes(alloc, &SortedEntries { entries })
}

// A number that a word may stand for.
trait Digits: FromStr<Err = ParseIntError> {
    // What of the word must be digits: all of it, or what stands behind a `-` where the number may be negative.
    fn digits(word: &str) -> &str {
        word
    }

    // The number of one or more digits.
    final fn read(word: &str) -> Option<Self> {
        if are_digits(Self::digits(word)) {
            word.parse().ok()
        } else {
            None
        }
    }
}

impl Digits for u8 {}

impl Digits for u32 {}

impl Digits for i32 {
    fn digits(word: &str) -> &str {
        word.strip_prefix('-').unwrap_or(word)
    }
}

fn are_digits(word: &str) -> bool {
    word.bytes().all(|byte| byte.is_ascii_digit())
}

// The number, or the two with a comma between them.
fn one_or_two(word: &str) -> Option<(u32, Option<u32>)> {
    match word.split_once(',') {
        None => Some((u32::read(word)?, None)),
        Some((first, second)) => Some((u32::read(first)?, Some(u32::read(second)?))),
    }
}

// Bytes in hexadecimal behind `some:`, or `none`. No answer where the word is neither.
fn optional_bytes(alloc: Global, word: &str) -> Result<Option<Option<BoxSlice<u8>>>, Error> {
    if word == "none" {
        return Ok(Some(None));
    }
    let Some(digits) = word.strip_prefix("some:") else {
        return Ok(None);
    };
    match hex::decode(alloc, digits) {
        Ok(items) => Ok(Some(Some(BoxSlice { items }))),
        Err(FromHexError::OutOfMemory) => Err(Error::OutOfMemory),
        Err(_) => Ok(None),
    }
}

// The numbers that stand between commas.
fn numbers<N: Digits + Drop>(alloc: Global, word: &str) -> Result<Option<Vec<N>>, Error> {
    let mut all = Vec::new(alloc);
    if word.is_empty() {
        return Ok(Some(all));
    }
    for digits in word.split(',') {
        let Some(number) = N::read(digits) else {
            return Ok(None);
        };
        all.push(number)?;
    }
    Ok(Some(all))
}

// What a word may stand for as a map's key.
trait KeyWord: Drop {
    fn key(alloc: Global, word: &str) -> Result<Option<Self>, Error>;
}

impl KeyWord for u32 {
    fn key(_alloc: Global, word: &str) -> Result<Option<Self>, Error> {
        Ok(u32::read(word))
    }
}

impl KeyWord for String {
    fn key(alloc: Global, word: &str) -> Result<Option<Self>, Error> {
        Ok(Some(String::from_str(alloc, word)?))
    }
}

// A key and its value, with the last `=` of the word between them.
fn entry<K: KeyWord>(alloc: Global, word: &str) -> Result<Option<(K, u32)>, Error> {
    let Some((key, value)) = word.rsplit_once('=') else {
        return Ok(None);
    };
    let Some(value) = u32::read(value) else {
        return Ok(None);
    };
    match K::key(alloc, key)? {
        Some(key) => Ok(Some((key, value))),
        None => Ok(None),
    }
}

// The entries that stand between commas, in their order.
fn entries<K: KeyWord>(alloc: Global, word: &str) -> Result<Option<Vec<(K, u32)>>, Error> {
    let mut all = Vec::new(alloc);
    if word.is_empty() {
        return Ok(Some(all));
    }
    for pair in word.split(',') {
        let Some(entry) = entry(alloc, pair)? else {
            return Ok(None);
        };
        all.push(entry)?;
    }
    Ok(Some(all))
}

// A number, a text and a list, with semicolons between them: the first and the last one of the word.
fn test_record(alloc: Global, word: &str) -> Result<Option<Test>, Error> {
    let Some((first, rest)) = word.split_once(';') else {
        return Ok(None);
    };
    let Some((text, last)) = rest.rsplit_once(';') else {
        return Ok(None);
    };
    let Some(number) = u8::read(first) else {
        return Ok(None);
    };
    let list = if last == "none" {
        None
    } else {
        match numbers(alloc, last)? {
            Some(list) => Some(list),
            None => return Ok(None),
        }
    };
    let text = String::from_str(alloc, text)?;
    Ok(Some(Test { number, text, list }))
}
