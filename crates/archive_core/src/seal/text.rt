// Texts that are written over, in place or in a region of their own.

ghost use Rattle.std.specs.Prelude.{◌≡◌, ◌+◌, ◌≤◌, length};
ghost use Rattle.archive_check.specs.ComesTo.{IsComeTo};
ghost use Rattle.archive_check.specs.Definitions.{no_definition};
ghost use Rattle.archive_check.specs.Leaves.{edit};
ghost use Rattle.archive_check.specs.Readable.{string_text};
ghost use Rattle.archive_check.specs.Reads.{bytes_at};
ghost use Rattle.archive_check.specs.Shape.{str as str_shape, one, text};
ghost use Rattle.archive_check.specs.Viewed.{Viewed};
ghost use Rattle.archive_core.specs.SealsKept.{ComesWith};
ghost use Rattle.archive_core.specs.SealOutcomes.{IsSealOf, SealsPart, WritesText, WritesString, string_edit};
ghost use Rattle.archive_types.specs.Sealed.{text_begin};
ghost use Rattle.archive_types.specs.Standing.{view};

use super::{Seal, Spot};
use archive_check::format::bytes::{inline_length, is_out_of_line, read_coded_length, read_target};
use archive_check::format::traits::ArchivePointee;
use archive_check::laws::leaf_written;
use archive_types::string::{ArchivedStr, ArchivedString};
use archive_types::view::{RawView, Ref};

// Writes a text over the bytes at `pos`.
fn write_text(value: &str, bytes: &mut [u8], pos: usize)
    requires { pos + length value.now ≤ length bytes.old }
    ensures { bytes.new ≡ edit bytes.old pos value.now }
{
    let end = pos + value.len();
    bytes[pos..end].copy_from_slice(value.as_bytes());
}

// Writes a text over another one, which changes in every archive in which it stands.
fn write_text_over(value: &str, bytes: &mut [u8], spot: Spot<ArchivedStr>)
    requires come_to { IsComeTo no_definition bytes.old spot.pos text spot.len }
    requires same_length { length value.now ≡ spot.len }
    ensures edited { bytes.new ≡ edit bytes.old spot.pos value.now }
    ensures written { WritesText spot.pos spot.len value.now bytes.old bytes.new }
{
    write_text(value, bytes, spot.pos);
    leaf_written();
}

// Where the text of a string stands.
fn text_spot(string: Ref<'_, ArchivedString>) -> Spot<ArchivedStr>
    ensures position { result.pos ≡ text_begin string.entry.bytes.now string.entry.pos }
    ensures text { bytes_at string.entry.bytes.now result.pos result.len
        ≡ string_text string.entry.bytes.now string.entry.pos }
    ensures viewed { Viewed no_definition string.entry.bytes.now result.pos text result.len }
    ensures beside { ComesWith no_definition string.entry.bytes.now
        (view string.entry.pos (one str_shape) string.entry.len) (view result.pos text result.len) }
{
    let RawView { bytes, pos, .. } = string.part();
    if is_out_of_line(bytes, pos) {
        return Spot::at(
            read_target(bytes, pos, pos + 4),
            read_coded_length(bytes, pos),
        );
    }
    Spot::at(pos, inline_length(bytes, pos))
}

// Writes a text over that of a string, wherever it stands, which changes in every archive in which it stands.
fn write_string_over(value: &str, bytes: &mut [u8], string: Spot<ArchivedString>)
    requires come_to { IsComeTo no_definition bytes.old string.pos (one str_shape) string.len }
    requires same_length { length value.now ≡ length (string_text bytes.old string.pos) }
    ensures edited { bytes.new ≡ string_edit bytes.old string.pos value.now }
    ensures written { WritesString string.pos string.len value.now bytes.old bytes.new }
{
    let text = text_spot(string.view(&*bytes));
    write_text(value, bytes, text.pos);
    leaf_written();
}

impl<'a> Seal<'a, ArchivedStr> {
    /// Writes a text over the one that it shows. The caller must ensure that seals reach what it
    /// shows, as when it was made, and that both texts have the same number of bytes. Every other
    /// byte stays, and in every archive that has the text, it alone changes. In rkyv 0.8.18 unsafe
    /// code alone writes a sealed `str`.
    pub fn write_str(self, value: &str)
        requires come_to { IsSealOf no_definition text self }
        requires same_length { length value.now ≡ self.len }
        ensures edited { self.exit.0.now ≡ edit self.entry.bytes.now self.entry.pos value.now }
        ensures written { WritesText self.entry.pos self.entry.len value.now self.entry.bytes.now
            self.exit.0.now }
    {
        let Seal {
            bytes,
            pos,
            len,
            ..
        } = self;
        write_text_over(value, bytes, Spot::at(pos, len));
    }
}

impl<'a> Seal<'a, ArchivedString> {
    /// A seal of its text, wherever it lies. The caller must ensure that seals reach what it shows,
    /// as when it was made. No byte changes. As in rkyv 0.8.18.
    pub fn as_str_seal(self) -> Seal<'a, ArchivedStr>
        requires { IsSealOf no_definition (one str_shape) self }
        ensures { SealsPart no_definition (one str_shape) no_definition text
            (text_begin self.entry.bytes.now self.entry.pos)
            (length (string_text self.entry.bytes.now self.entry.pos)) self.entry result }
    {
        let spot = text_spot(self.as_ref());
        let Seal { bytes, .. } = self;
        spot.seal(bytes)
    }

    /// Writes a text over that of the string, wherever it lies. The caller must ensure that seals
    /// reach what it shows, as when it was made, and that both texts have the same number of bytes.
    /// Every other byte stays, and in every archive that has the text, it alone changes.
    pub fn write_str(self, value: &str)
        requires come_to { IsSealOf no_definition (one str_shape) self }
        requires same_length { length value.now ≡ length (string_text self.bytes.now self.pos) }
        ensures edited { self.exit.0.now ≡ string_edit self.entry.bytes.now self.entry.pos
            value.now }
        ensures written { WritesString self.entry.pos self.entry.len value.now self.entry.bytes.now
            self.exit.0.now }
    {
        let Seal {
            bytes,
            pos,
            len,
            ..
        } = self;
        write_string_over(value, bytes, Spot::at(pos, len));
    }
}

impl<'a, T: ArchivePointee> Seal<'a, T> {
    /// Writes a text over a boxed or shared one elsewhere in the same buffer. The caller must
    /// ensure that seals reach the text at the spot, and that both texts have the same number of
    /// bytes. Every other byte stays, in every archive that has the text, it alone changes, and the
    /// seal shows what it showed.
    pub fn write_str_at(&mut self, spot: Spot<ArchivedStr>, value: &str)
        requires come_to { IsComeTo no_definition self.old.bytes.now spot.pos text spot.len }
        requires same_length { length value.now ≡ spot.len }
        ensures same_reference { self.new.bytes.ghost_name ≡ self.old.bytes.ghost_name }
        ensures position { self.new.pos ≡ self.old.pos }
        ensures length { self.new.len ≡ self.old.len }
        ensures edited { self.new.bytes.now ≡ edit self.old.bytes.now spot.pos value.now }
        ensures written { WritesText spot.pos spot.len value.now self.old.bytes.now
            self.new.bytes.now }
    {
        write_text_over(value, self.bytes, spot);
    }

    /// Writes a text over that of a string elsewhere in the same buffer, as `write_str_at` does.
    /// The caller must ensure that seals reach the string at the spot, and that both texts have
    /// the same number of bytes.
    pub fn write_string_at(&mut self, spot: Spot<ArchivedString>, value: &str)
        requires come_to { IsComeTo no_definition self.old.bytes.now spot.pos (one str_shape)
            spot.len }
        requires same_length { length value.now ≡ length (string_text self.old.bytes.now spot.pos) }
        ensures same_reference { self.new.bytes.ghost_name ≡ self.old.bytes.ghost_name }
        ensures position { self.new.pos ≡ self.old.pos }
        ensures length { self.new.len ≡ self.old.len }
        ensures edited { self.new.bytes.now ≡ string_edit self.old.bytes.now spot.pos value.now }
        ensures written { WritesString spot.pos spot.len value.now self.old.bytes.now
            self.new.bytes.now }
    {
        write_string_over(value, self.bytes, spot);
    }
}
