// Commands of `arc` with what they print and the status that they end with. The words of a command stand between bars.

use crate::assertions::{assert_bytes, assert_same};
use arc_commands::run;
use std::alloc::{AllocError, Global};
use std::io;
use std::process::Abort;

// The words of a command.
fn words_of(alloc: Global, command: &str) -> Result<Vec<String>, AllocError> {
    let mut words = Vec::new(alloc);
    for word in command.split('|') {
        words.push(String::from_str(alloc, word)?)?;
    }
    Ok(words)
}

// A command ends with this status, and prints this.
fn assert_said(rt: &impl Abort, alloc: Global, command: &str, status: u8, line: &str) {
    let words = words_of(alloc, command).expect(rt, "memory for words");
    let mut out = Vec::new(alloc);
    let ended = run(alloc, words.as_slice(), &mut out);
    assert_same(rt, command, ended, status);
    assert_bytes(rt, command, out.as_slice(), line.as_bytes());
}

// Values, and their archives: where elements and what they own come first, and the keys of maps ascend.
const WRITTEN: [(&str, u8, &str); 30] = [
    ("write|u32|42", 0, "2a000000\n"),
    ("write|u32|0042", 0, "2a000000\n"),
    ("write|u32|4294967295", 0, "ffffffff\n"),
    ("write|vec-u32|1,2", 0, "0100000002000000f8ffffff02000000\n"),
    ("write|vec-u32|", 0, "0000000000000000\n"),
    (
        "write|string|hello world",
        0,
        "68656c6c6f20776f726c64008b000000f4ffffff\n",
    ),
    ("write|string|hi", 0, "6869ffffffffffff\n"),
    ("write|string|", 0, "ffffffffffffffff\n"),
    ("write|string|12345678", 0, "3132333435363738\n"),
    (
        "write|string|123456789",
        0,
        "31323334353637383900000089000000f4ffffff\n",
    ),
    ("write|opt-box-bytes|none", 0, "000000000000000000000000\n"),
    (
        "write|opt-box-bytes|some:48656c6c6f20776f726c64",
        0,
        "48656c6c6f20776f726c640001000000f0ffffff0b000000\n",
    ),
    (
        "write|test|42;hello world;1,2,3,4",
        0,
        "68656c6c6f20776f726c6400010000000200000003000000040000002a0000008b000000e0ffffff01000000e0ffffff04000000\n",
    ),
    (
        "write|test|1;a;b;none",
        0,
        "01000000613b62ffffffffff000000000000000000000000\n",
    ),
    (
        "write|test|0;;",
        0,
        "00000000ffffffffffffffff01000000f0ffffff00000000\n",
    ),
    (
        "write|test|255;;-1",
        0,
        "ffffffffff000000ffffffffffffffff01000000ecffffff01000000\n",
    ),
    (
        "write|map-u32|1=10,2=20",
        0,
        "010000000a0000000200000014000000f0ffffff02000000\n",
    ),
    ("write|map-u32|", 0, "0000000000000000\n"),
    ("write|map-u32|2=1,1=1", 1, "refused: 32 UnsortedKeys\n"),
    ("write|map-u32|1=1,1=2", 1, "refused: 32 UnsortedKeys\n"),
    (
        "write|map-string|a=1,hello world=2",
        0,
        "68656c6c6f20776f726c640061ffffffffffffff010000008b000000e8ffffff02000000e8ffffff02000000\n",
    ),
    ("write|map-string|", 0, "0000000000000000\n"),
    (
        "write|map-string|=0,a=b=1",
        0,
        "ffffffffffffffff00000000613d62ffffffffff01000000e8ffffff02000000\n",
    ),
    (
        "write|map-string|hello world=2,a=1",
        1,
        "refused: 32 UnsortedKeys\n",
    ),
    ("write|node|0", 0, "0000000000000000\n"),
    ("write|node|1", 0, "000000000000000001000000f4ffffff\n"),
    (
        "write|node|2",
        0,
        "000000000000000001000000f4ffffff01000000f4ffffff\n",
    ),
    ("write|two-rc|10", 0, "0a000000fcfffffff8ffffff\n"),
    (
        "write|two-rc|10,20",
        0,
        "0a00000014000000f8fffffff8ffffff\n",
    ),
    (
        "write|two-rc|10,10",
        0,
        "0a0000000a000000f8fffffff8ffffff\n",
    ),
];

#[test]
fn values_are_written(rt: HostRuntime) {
    for (command, status, line) in WRITTEN {
        assert_said(&rt, rt.alloc(), command, status, line);
    }
}

// Archives, and bytes that are none.
const CHECKED: [(&str, u8, &str); 42] = [
    ("check|u32|2a000000", 0, "accepted\n"),
    ("check|u32|2A000000", 0, "accepted\n"),
    ("check|u32|2a0000", 1, "refused: 16 InvalidSubtreePointer\n"),
    (
        "check|vec-u32|0100000002000000f8ffffff02000000",
        0,
        "accepted\n",
    ),
    ("check|vec-u32|0000000000000000", 0, "accepted\n"),
    (
        "check|string|68656c6c6f20776f726c64008b000000f4ffffff",
        0,
        "accepted\n",
    ),
    ("check|string|6869ffffffffffff", 0, "accepted\n"),
    (
        "check|string|81000000ffffffff",
        1,
        "refused: 29 InvalidStringRepr\n",
    ),
    (
        "check|string|c080ffffffffffff",
        1,
        "refused: 28 InvalidUtf8\n",
    ),
    ("check|string|", 1, "refused: 16 InvalidSubtreePointer\n"),
    (
        "check|string|656c6c6f20776f726c64008b000000f4ffffff",
        1,
        "refused: 17 UnalignedPointer\n",
    ),
    (
        "check|opt-box-bytes|48656c6c6f20776f726c640001000000f0ffffff0b000000",
        0,
        "accepted\n",
    ),
    (
        "check|opt-box-bytes|48656c6c6f20776f726c640002000000f0ffffff0b000000",
        1,
        "refused: 24 InvalidDiscriminant\n",
    ),
    ("check|opt-u32|00aabbcc01020304", 0, "accepted\n"),
    ("check|opt-u32|010000002a000000", 0, "accepted\n"),
    (
        "check|opt-u32|0200000001020304",
        1,
        "refused: 24 InvalidDiscriminant\n",
    ),
    (
        "check|two-box-bytes|68690000fcffffff01000000f5ffffff01000000",
        0,
        "accepted\n",
    ),
    (
        "check|two-box-bytes|48656c6c6f20776f726c6400f0ffffff0b000000e8ffffff0b000000",
        1,
        "refused: 16 InvalidSubtreePointer\n",
    ),
    (
        "check|test|68656c6c6f20776f726c6400010000000200000003000000040000002a0000008b000000e0ffffff01000000e0ffffff04000000",
        0,
        "accepted\n",
    ),
    (
        "check|test|01000000613b62ffffffffff02000000f0ffffff00000000",
        1,
        "refused: 24 InvalidDiscriminant\n",
    ),
    (
        "check|map-u32|010000000a0000000200000014000000f0ffffff02000000",
        0,
        "accepted\n",
    ),
    (
        "check|map-u32|010000000a0000000100000014000000f0ffffff02000000",
        1,
        "refused: 32 UnsortedKeys\n",
    ),
    (
        "check|map-u32|ffffffff050000000100000006000000f0ffffff02000000",
        1,
        "refused: 32 UnsortedKeys\n",
    ),
    (
        "check|map-u32|010000000a0000000200000014000000f1ffffff02000000",
        1,
        "refused: 16 InvalidSubtreePointer\n",
    ),
    ("check|map-u32|0000000000000000", 0, "accepted\n"),
    (
        "check|map-string|68656c6c6f20776f726c640061ffffffffffffff010000008b000000e8ffffff02000000e8ffffff02000000",
        0,
        "accepted\n",
    ),
    (
        "check|map-string|62ffffffffffffff0100000061ffffffffffffff02000000e8ffffff02000000",
        1,
        "refused: 32 UnsortedKeys\n",
    ),
    (
        "check|map-string|c0ffffffffffffff01000000f4ffffff01000000",
        1,
        "refused: 28 InvalidUtf8\n",
    ),
    (
        "check|map-string|61ffffffffffffff01000000f4ffffff02000000",
        1,
        "refused: 16 InvalidSubtreePointer\n",
    ),
    (
        "check|node|000000000000000001000000f4ffffff",
        0,
        "accepted\n",
    ),
    (
        "check|node|010000000400000001000000f4ffffff",
        1,
        "refused: 16 InvalidSubtreePointer\n",
    ),
    (
        "check|node|0200000000000000",
        1,
        "refused: 24 InvalidDiscriminant\n",
    ),
    ("check|two-rc|0a000000fcfffffff8ffffff", 0, "accepted\n"),
    (
        "check|two-rc|0a00000014000000f8fffffff8ffffff",
        0,
        "accepted\n",
    ),
    (
        "check|two-rc|0a0000000b000000fcfffffff4ffffff",
        1,
        "refused: 16 InvalidSubtreePointer\n",
    ),
    (
        "check|two-rc-unit|00000000fcfffffff8ffffff",
        0,
        "accepted\n",
    ),
    (
        "check|two-rc-bytes|01020304fcffffff04000000f4ffffff02000000",
        1,
        "refused: 22 MetadataMismatch\n",
    ),
    (
        "check|two-rc-bytes|01020304fcffffff04000000f4ffffff04000000",
        0,
        "accepted\n",
    ),
    ("check|rc-weak|0a000000fcffffff01000000", 0, "accepted\n"),
    ("check|rc-weak|0a000000fcfffffff8ffffff", 0, "accepted\n"),
    (
        "check|all-values|000000fffcffffff0000f6fff4ffffff",
        1,
        "refused: 12 CyclicValidate\n",
    ),
    (
        "check|all-values|",
        1,
        "refused: 16 InvalidSubtreePointer\n",
    ),
];

#[test]
fn archives_are_checked(rt: HostRuntime) {
    for (command, status, line) in CHECKED {
        assert_said(&rt, rt.alloc(), command, status, line);
    }
}

// Words that are no command, or give no value or no bytes of their format.
const BAD_ARGUMENTS: [&str; 58] = [
    "",
    "write",
    "write|u32",
    "write|u32|1|2",
    "read|u32|1",
    "Write|u32|1",
    "write|u64|1",
    "write|vec-u64|1",
    "write|vec-u32|1,,2",
    "write|vec-u32|1,",
    "write|vec-u32|1 ,2",
    "check|list|00",
    "write|u32|",
    "write|u32|+1",
    "write|u32|-1",
    "write|u32| 1",
    "write|u32|1 ",
    "write|u32|1x",
    "write|u32|4294967296",
    "write|opt-u32|1",
    "write|opt-u32|none",
    "write|two-box-bytes|none",
    "write|test|42",
    "write|test|42;hello",
    "write|test|256;;none",
    "write|test|;;none",
    "write|test|-1;;none",
    "write|test|1;;1,",
    "write|test|1;;-",
    "write|test|1;;2147483648",
    "write|test|1;;None",
    "write|opt-box-bytes|",
    "write|opt-box-bytes|some",
    "write|opt-box-bytes|some:6",
    "check|string|6",
    "check|string|6g",
    "check|string|0x00",
    "check|string|68 69",
    "write|map-u32|1",
    "write|map-u32|1=",
    "write|map-u32|=1",
    "write|map-u32|1=1,",
    "write|map-u32|1=-1",
    "write|map-u32|a=1",
    "write|map-string|a",
    "write|map-string|a=1,,b=2",
    "write|map-string|a=4294967296",
    "check|map|0000000000000000",
    "write|node|1001",
    "write|node|nil",
    "write|two-rc|",
    "write|two-rc|10,",
    "write|two-rc|10,20,30",
    "write|two-rc|10 20",
    "write|two-rc-unit|",
    "write|two-rc-bytes|01",
    "write|rc-weak|10",
    "write|all-values|0",
];

#[test]
fn other_words_are_bad_arguments(rt: HostRuntime) {
    for command in BAD_ARGUMENTS {
        assert_said(&rt, rt.alloc(), command, 2, "bad arguments\n");
    }
    let mut out = Vec::new(rt.alloc());
    let status = run(rt.alloc(), &[], &mut out);
    assert_same(&rt, "without a word", status, 2);
    assert_bytes(&rt, "what it prints", out.as_slice(), b"bad arguments\n");
}

// An output that fails once it was given so many pieces.
#[derive(Drop)]
struct FailsAfter {
    pieces: usize,
}

impl io::Write for FailsAfter {
    fn write(&mut self, buf: &[u8]) -> io::Result<usize> {
        if self.pieces == 0 {
            return Err(io::Error::from(io::ErrorKind::BrokenPipe));
        }
        self.pieces -= 1;
        Ok(buf.len())
    }

    fn flush(&mut self) -> io::Result<()> {
        if self.pieces == 0 {
            return Err(io::Error::from(io::ErrorKind::BrokenPipe));
        }
        Ok(())
    }
}

// A command that ends with this status ends with 1 where its output fails, after whatever it has printed.
fn assert_fails(rt: &impl Abort, alloc: Global, command: &str, status: u8) {
    let words = words_of(alloc, command).expect(rt, "memory for words");
    for pieces in 0..=20 {
        let ended = run(alloc, words.as_slice(), &mut FailsAfter { pieces });
        let either = match pieces {
            0 => ended == 1,
            20 => ended == status,
            _ => ended == 1 || ended == status,
        };
        assert_same(rt, command, (pieces, either), (pieces, true));
    }
}

#[test]
fn a_failing_output_is_status_1(rt: HostRuntime) {
    assert_fails(&rt, rt.alloc(), "write|u32|42", 0);
    assert_fails(&rt, rt.alloc(), "check|u32|2a000000", 0);
    assert_fails(&rt, rt.alloc(), "write|u32|-", 2);
}
