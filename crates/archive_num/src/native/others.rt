// Nothing, a bool and a char as archives hold them.

ghost use Rattle.std.specs.Prelude.{◌<◌, ◌==◌, [], ◌∷◌, length, ⊤, pos, slice_index, refl};
ghost use Rattle.std.specs.Char.{IsScalar};
ghost use Rattle.archive_check.specs.Shape.{unit, bool, char};
ghost use Rattle.archive_check.specs.LittleEndian.{little_bytes, little_number};
ghost use Rattle.archive_num.specs.Digits.{bool_byte};
ghost use Rattle.archive_check.proofs.LittleEndian.{length-little_bytes, AreBytes-little_bytes};
ghost use Rattle.archive_num.specs.NumberLaws.{unit-bytes, unit-leaf, unit-reads, unit-value, bool-bytes, bool-kind, bool-legal, bool-leaf, bool-number, bool-reads, bool-value, bool-order, char-kind, char-legal, char-leaf, char-number, char-reads, char-value, unsigned-order};

use crate::Native;
use archive_check::format::expr::Kind;

impl Native for () {
    ghost kind = { unit };

    ghost byte_count = { 0 };

    ghost bytes_of = { λ x. [] };

    ghost number_of = { λ bs. tt };

    ghost value_of = { λ x. pos 0 };

    ghost fits = { λ x. ⊤ };

    ghost are_legal = { λ bs. ⊤ };

    ghost size_law = { refl };

    ghost length_law = { λ x. refl };

    ghost bytes_law = { λ x. unit-bytes };

    ghost kind_law = { λ bs h. tt };

    ghost legal_law = { λ x h. tt };

    ghost leaf_law = { λ x h. unit-leaf };

    ghost number_law = { λ x h. refl };

    ghost reads_law = { λ bs e h _. unit-reads bs e };

    ghost value_law = { λ bs h. unit-value bs };

    ghost order_law = { λ x y. refl };

    fn kind() -> Kind {
        Kind::Unit
    }

    fn byte_count() -> usize {
        0
    }

    fn write_to(self, _out: &mut [u8]) {}

    fn read_from(_bytes: &[u8]) {}
}

impl Native for bool {
    ghost kind = { bool };

    ghost byte_count = { 1 };

    ghost bytes_of = { λ x. bool_byte x ∷ [] };

    ghost number_of = { λ bs. slice_index bs 0 == 1 };

    ghost value_of = { λ x. pos (bool_byte x) };

    ghost fits = { λ x. ⊤ };

    ghost are_legal = { λ bs. slice_index bs 0 < 2 };

    ghost size_law = { refl };

    ghost length_law = { λ x. refl };

    ghost bytes_law = { bool-bytes };

    ghost kind_law = { λ bs h. bool-kind bs h };

    ghost legal_law = { λ x h. bool-legal x };

    ghost leaf_law = { λ x h. bool-leaf x };

    ghost number_law = { λ x h. bool-number x };

    ghost reads_law = { λ bs e h l. bool-reads bs e l };

    ghost value_law = { λ bs h. bool-value bs h };

    ghost order_law = { bool-order };

    fn kind() -> Kind {
        Kind::Bool
    }

    fn byte_count() -> usize {
        1
    }

    fn write_to(self, out: &mut [u8]) {
        out[0] = u8::from(self);
    }

    fn read_from(bytes: &[u8]) -> bool {
        bytes[0] == 1
    }
}

#[tactic(auto, using(archive_check::proofs::LittleEndian::std_bytes))]
impl Native for char {
    ghost kind = { char };

    ghost byte_count = { 4 };

    ghost bytes_of = { λ x. little_bytes 4 x };

    ghost number_of = { λ bs. little_number bs };

    ghost value_of = { λ x. pos x };

    ghost fits = { IsScalar };

    ghost are_legal = { λ bs. IsScalar (little_number bs) };

    ghost size_law = { refl };

    ghost length_law = { λ x. length-little_bytes 4 x };

    ghost bytes_law = { λ x. AreBytes-little_bytes 4 x };

    ghost kind_law = { λ bs h. char-kind bs h };

    ghost legal_law = { λ x h. char-legal x h };

    ghost leaf_law = { λ x h. char-leaf x h };

    ghost number_law = { λ x h. char-number x h };

    ghost reads_law = { λ bs e h _. char-reads bs e h };

    ghost value_law = { λ bs h. char-value bs h };

    ghost order_law = { unsigned-order };

    fn kind() -> Kind {
        Kind::Char
    }

    fn byte_count() -> usize {
        4
    }

    fn write_to(self, out: &mut [u8]) {
        (self as u32).write_to(out);
    }

    fn read_from(bytes: &[u8]) -> char {
        // SAFETY: the contract asks for the bytes of a scalar value.
        unsafe { char::from_u32_unchecked(u32::read_from(bytes)) }
    }
}
