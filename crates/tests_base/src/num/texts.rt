// The length of a text that lies elsewhere, as its string says it in four bytes.

ghost use Rattle.std.specs.Prelude.{◌≡◌, [], ◌∷◌};
ghost use Rattle.std.specs.Int.{w32, to_le_bytes};
ghost use Rattle.archive_num.specs.StringBytes.{coded_length};

use crate::assertions::assert_same;
use archive_num::repr::try_emplace_out_of_line;

// 63 bytes.
const LONG: &str = "0123456789012345678901234567890123456789012345678901234567890123";

// The length 63 is the last that its lowest byte says alone.
#[test]
fn a_length_of_63_is_coded(rt: HostRuntime) {
    let mut bytes = [0; 8];
    let text = &LONG[..63];
    try_emplace_out_of_line(text, 64, 0, &mut bytes).expect(&rt, "a text elsewhere");
    assert_same(&rt, "the bytes", bytes, *b"\xbf\0\0\0\xc0\xff\xff\xff");
}

// The greatest length: its four bytes have all bits but one. A text of so many bytes isn't made.
fn greatest_length_is_coded()
    ensures { to_le_bytes w32 (coded_length 1073741823) ≡ 191 ∷ 255 ∷ 255 ∷ 255 ∷ [] }
{}

#[test]
fn the_greatest_length_is_coded(_rt: HostRuntime) {
    greatest_length_is_coded();
}
