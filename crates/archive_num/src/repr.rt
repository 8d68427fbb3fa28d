//! The eight bytes of a string, as rkyv 0.8.18 has them.

ghost use Rattle.std.specs.Prelude.{◌≡◌, ◌++◌, ◌<◌, ◌≤◌, MatchResult, FitsSigned, length, drop};
ghost use Rattle.std.specs.Int.{w32};
ghost use Rattle.archive_num.specs.Offsets.{distance, IsTooFar};
ghost use Rattle.archive_num.specs.StringBytes.{inline_bytes, out_of_line_bytes, coded_length, OutOfLineWritten};

use crate::offset::offset_to;
use archive_check::format::error::Error;

/// The greatest length of a text, in bytes, that lies in the string itself. As in rkyv 0.8.18.
pub const INLINE_CAPACITY: usize = 8;

/// A string's text of more bytes than these can't be archived. As in rkyv 0.8.18.
pub const OUT_OF_LINE_CAPACITY: usize = 1_073_741_823;

// Writes at most eight bytes over the first ones of eight. No call of the C library is made for so few: its first and its last four are copied, or two, which
// may overlap.
#[inline(always)]
fn copy_short(text: &[u8], out: &mut [u8])
    requires short { length text.now ≤ 8 }
    requires sized { length out.old ≡ 8 }
    ensures { out.new ≡ text.now ++ drop (length text.now) out.old }
{
    let len = text.len();
    if len >= 4 {
        out[..4].copy_from_slice(&text[..4]);
        out[len - 4..len].copy_from_slice(&text[len - 4..]);
        return;
    }
    if len >= 2 {
        out[..2].copy_from_slice(&text[..2]);
        out[len - 2..len].copy_from_slice(&text[len - 2..]);
        return;
    }
    if len == 1 {
        out[0] = text[0];
    }
}

/// Writes a short text over the string's bytes, and 0xff over those that it leaves. Requires a text
/// of at most `INLINE_CAPACITY` bytes and the eight bytes of the string; it never fails.
#[inline(always)]
pub fn emplace_inline(value: &str, out: &mut [u8])
    requires short { length value.now ≤ 8 }
    requires sized { length out.old ≡ 8 }
    ensures { out.new ≡ inline_bytes value.now }
{
    out.copy_from_slice(&[0xff; 8]);
    copy_short(value.as_bytes(), out);
}

// The first four bytes of a string whose text stands elsewhere, as a number.
#[tactic(auto, using(crate::proofs::Coded::coded_bits))]
#[inline(always)]
fn coded(len: usize) -> u32
    requires { len ≤ 1073741823 }
    ensures { result ≡ coded_length len }
{
    ((len & 0x3f) | 0x80 | ((len & !0x3f) << 2)) as u32
}

/// Writes over the eight bytes of the string at `pos` that its text lies at `target`. The caller
/// must ensure that the text has more than `INLINE_CAPACITY` and at most `OUT_OF_LINE_CAPACITY`
/// bytes. Fails with `IsizeOverflow` exactly if the offset doesn't fit `isize`, else with
/// `OffsetOverflow` exactly if it doesn't fit 32 bits; the bytes are then unchanged, where rkyv
/// 0.8.18 has written the length.
#[inline(always)]
pub fn try_emplace_out_of_line(
    value: &str,
    pos: usize,
    target: usize,
    out: &mut [u8],
) -> Result<(), Error>
    requires long { 8 < length value.now }
    requires held { length value.now ≤ 1073741823 }
    requires sized { length out.old ≡ 8 }
    ensures { OutOfLineWritten (length value.now) (distance pos target) out.old out.new result }
{
    let offset = offset_to(pos, target)?;
    let (length, behind) = out.split_at_mut(4);
    length.copy_from_slice(&coded(value.len()).to_le_bytes());
    behind.copy_from_slice(&offset.to_le_bytes());
    Ok(())
}
