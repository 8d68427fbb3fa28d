// Views of strings and texts.

ghost use Rattle.std.specs.Prelude.{◌≡◌, ◌+◌, ◌<◌, ◌≤◌, ◌↔◌, IfSome, IsTrue, false, length};
ghost use Rattle.archive_check.specs.Shape.{str as str_shape, one, text};
ghost use Rattle.archive_check.specs.Reads.{bytes_at, u32_at, i32_at, IsOutOfLine, decoded_length};
ghost use Rattle.archive_check.specs.Readable.{string_text};
ghost use Rattle.archive_check.specs.Value.{text_value};
ghost use Rattle.archive_check.specs.Viewed.{Says};
ghost use Rattle.archive_types.specs.Words.Seen.{ShowsValue};

use super::{ArchivedStr, ArchivedString};
use crate::view::{RawView, Ref};
use archive_check::format::bytes::{
    inline_length, is_out_of_line, read_coded_length, read_i32, read_position, read_text, read_u32,
};

impl<'a> Ref<'a, ArchivedStr> {
    /// The text.
    pub fn as_str(self) -> &'a str
        ensures text { result.now ≡ bytes_at self.entry.bytes.now self.entry.pos self.entry.len }
        ensures says { ShowsValue self.entry (text_value result.now) }
    {
        let RawView { bytes, pos, len } = self.part();
        read_text(bytes, pos, len)
    }

    /// The text's bytes.
    pub fn as_bytes(self) -> &'a [u8]
        ensures { result.now ≡ bytes_at self.entry.bytes.now self.entry.pos self.entry.len }
    {
        self.as_str().as_bytes()
    }

    /// How many bytes the text has.
    pub fn len(self) -> usize
        ensures { result ≡ self.entry.len }
    {
        self.part().len
    }

    /// Whether it has none.
    pub fn is_empty(self) -> bool
        ensures { IsTrue result ↔ (self.entry.len ≡ 0) }
    {
        self.len() == 0
    }
}

// Whether the length that this number codes is sixteen or more.
#[tactic(auto, unfolding(archive_check::specs::Reads::decoded_length))]
#[inline(always)]
fn codes_sixteen(code: u32) -> bool
    ensures { IsTrue result ↔ (16 ≤ decoded_length code) }
{
    code % 64 >= 16 || code >= 256
}

impl<'a> Ref<'a, ArchivedString> {
    /// The text, wherever it lies.
    pub fn as_str(self) -> &'a str
        ensures text { result.now ≡ string_text self.entry.bytes.now self.entry.pos }
        ensures says { ShowsValue self.entry (text_value result.now) }
    {
        let RawView { bytes, pos, .. } = self.part();
        if is_out_of_line(bytes, pos) {
            return self.text_elsewhere();
        }
        read_text(bytes, pos, inline_length(bytes, pos))
    }

    // The text of a string that says that it stands elsewhere.
    #[inline(always)]
    fn text_elsewhere(self) -> &'a str
        requires { IsOutOfLine self.bytes.now self.pos }
        ensures text { result.now ≡ string_text self.entry.bytes.now self.entry.pos }
        ensures length { length result.now ≡ decoded_length
            (u32_at self.entry.bytes.now self.entry.pos) }
        ensures says { ShowsValue self.entry (text_value result.now) }
    {
        let RawView { bytes, pos, .. } = self.part();
        let target = read_position(bytes, pos, pos + 4) as usize;
        read_text(bytes, target, read_coded_length(bytes, pos))
    }

    // The text, where it stands elsewhere and has sixteen bytes or more: no length is decoded to tell this.
    #[inline(always)]
    pub(crate) fn long_text(self) -> Option<&'a str>
        ensures long { IfSome result (λ t. 16 ≤ length t.now) }
        ensures text { IfSome result (λ t. t.now ≡ string_text self.entry.bytes.now
            self.entry.pos) }
    {
        let RawView { bytes, pos, .. } = self.part();
        if is_out_of_line(bytes, pos) && codes_sixteen(read_u32(bytes, pos)) {
            return Some(self.text_elsewhere());
        }
        None
    }

    /// How many bytes the text has.
    pub fn len(self) -> usize
        ensures { result ≡ length (string_text self.entry.bytes.now self.entry.pos) }
    {
        self.as_str().len()
    }

    /// Whether it has none.
    pub fn is_empty(self) -> bool
        ensures { IsTrue result ↔ (length (string_text self.entry.bytes.now self.entry.pos) ≡ 0) }
    {
        self.len() == 0
    }

    /// The text's bytes, wherever they lie. As in rkyv 0.8.18.
    pub fn as_bytes(self) -> &'a [u8]
        ensures { result.now ≡ string_text self.entry.bytes.now self.entry.pos }
    {
        self.as_str().as_bytes()
    }

    /// Whether the text lies in the string's eight bytes. As in rkyv 0.8.18.
    pub fn is_inline(self) -> bool
        ensures here { IsTrue result → ¬ IsOutOfLine self.entry.bytes.now self.entry.pos }
        ensures elsewhere { result ≡ false → IsOutOfLine self.entry.bytes.now self.entry.pos }
    {
        let RawView { bytes, pos, .. } = self.part();
        !is_out_of_line(bytes, pos)
    }

    /// How far it is to the text, in bytes from the string's first one. The caller must ensure that
    /// the text is elsewhere, as where `is_inline` returns false. As in rkyv 0.8.18.
    pub fn out_of_line_offset(self) -> isize
        requires { IsOutOfLine self.bytes.now self.pos }
        ensures { result ≡ i32_at self.entry.bytes.now (self.entry.pos + 4) }
    {
        let RawView { bytes, pos, .. } = self.part();
        read_i32(bytes, pos + 4) as isize
    }
}
