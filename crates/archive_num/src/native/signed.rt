// Numbers with a sign as archives hold them, the lowest byte first, in two's complement.

ghost use Rattle.std.specs.Prelude.{length, ⊤, refl};
ghost use Rattle.std.specs.Int.{w8, w16, w32, w64, w128, cast_signed, cast_unsigned};
ghost use Rattle.std.specs.Int.RustNames.{FitsSigned};
ghost use Rattle.archive_check.specs.Shape.{number, signed};
ghost use Rattle.archive_check.specs.LittleEndian.{little_bytes, little_number};
ghost use Rattle.archive_check.proofs.LittleEndian.{length-little_bytes, AreBytes-little_bytes};
ghost use Rattle.archive_num.specs.NumberLaws.{number-leaf, signed-number, signed-reads, signed-value};

use crate::{Integer, Native};
use archive_check::format::expr::{IntegerKind, Kind};

#[tactic(auto, using(archive_check::proofs::LittleEndian::std_bytes))]
impl Native for i8 {
    ghost kind = { number signed w8 };

    ghost byte_count = { 1 };

    ghost bytes_of = { λ x. little_bytes 1 (cast_unsigned w8 x) };

    ghost number_of = { λ bs. cast_signed w8 (little_number bs) };

    ghost value_of = { λ x. x };

    ghost fits = { FitsSigned w8 };

    ghost are_legal = { λ bs. ⊤ };

    ghost size_law = { refl };

    ghost length_law = { λ x. length-little_bytes 1 (cast_unsigned w8 x) };

    ghost bytes_law = { λ x. AreBytes-little_bytes 1 (cast_unsigned w8 x) };

    ghost kind_law = { λ bs h. tt };

    ghost legal_law = { λ x h. tt };

    ghost leaf_law = { λ x h. number-leaf signed w8 (little_bytes 1 (cast_unsigned w8 x))
        (length-little_bytes 1 (cast_unsigned w8 x)) };

    ghost number_law = { λ x h. signed-number w8 x h };

    ghost reads_law = { λ bs e h _. signed-reads w8 bs e h };

    ghost value_law = { λ bs h. signed-value w8 bs h };

    ghost order_law = { λ x y. refl };

    fn kind() -> Kind {
        Kind::Number(i8::integer_kind())
    }

    fn byte_count() -> usize {
        1
    }

    fn write_to(self, out: &mut [u8]) {
        out.copy_from_slice(&i8::to_le_bytes(self));
    }

    fn read_from(bytes: &[u8]) -> i8 {
        let mut raw = [0; 1];
        raw.copy_from_slice(bytes);
        i8::from_le_bytes(raw)
    }
}

impl Integer for i8 {
    ghost sign = { signed };

    ghost width = { w8 };

    ghost integer_law = { refl };

    fn integer_kind() -> IntegerKind {
        IntegerKind::I8
    }

    fn is_zero(self) -> bool {
        self == 0
    }
}

#[tactic(auto, using(archive_check::proofs::LittleEndian::std_bytes))]
impl Native for i16 {
    ghost kind = { number signed w16 };

    ghost byte_count = { 2 };

    ghost bytes_of = { λ x. little_bytes 2 (cast_unsigned w16 x) };

    ghost number_of = { λ bs. cast_signed w16 (little_number bs) };

    ghost value_of = { λ x. x };

    ghost fits = { FitsSigned w16 };

    ghost are_legal = { λ bs. ⊤ };

    ghost size_law = { refl };

    ghost length_law = { λ x. length-little_bytes 2 (cast_unsigned w16 x) };

    ghost bytes_law = { λ x. AreBytes-little_bytes 2 (cast_unsigned w16 x) };

    ghost kind_law = { λ bs h. tt };

    ghost legal_law = { λ x h. tt };

    ghost leaf_law = { λ x h. number-leaf signed w16 (little_bytes 2 (cast_unsigned w16 x))
        (length-little_bytes 2 (cast_unsigned w16 x)) };

    ghost number_law = { λ x h. signed-number w16 x h };

    ghost reads_law = { λ bs e h _. signed-reads w16 bs e h };

    ghost value_law = { λ bs h. signed-value w16 bs h };

    ghost order_law = { λ x y. refl };

    fn kind() -> Kind {
        Kind::Number(i16::integer_kind())
    }

    fn byte_count() -> usize {
        2
    }

    fn write_to(self, out: &mut [u8]) {
        out.copy_from_slice(&i16::to_le_bytes(self));
    }

    fn read_from(bytes: &[u8]) -> i16 {
        let mut raw = [0; 2];
        raw.copy_from_slice(bytes);
        i16::from_le_bytes(raw)
    }
}

impl Integer for i16 {
    ghost sign = { signed };

    ghost width = { w16 };

    ghost integer_law = { refl };

    fn integer_kind() -> IntegerKind {
        IntegerKind::I16
    }

    fn is_zero(self) -> bool {
        self == 0
    }
}

#[tactic(auto, using(archive_check::proofs::LittleEndian::std_bytes))]
impl Native for i32 {
    ghost kind = { number signed w32 };

    ghost byte_count = { 4 };

    ghost bytes_of = { λ x. little_bytes 4 (cast_unsigned w32 x) };

    ghost number_of = { λ bs. cast_signed w32 (little_number bs) };

    ghost value_of = { λ x. x };

    ghost fits = { FitsSigned w32 };

    ghost are_legal = { λ bs. ⊤ };

    ghost size_law = { refl };

    ghost length_law = { λ x. length-little_bytes 4 (cast_unsigned w32 x) };

    ghost bytes_law = { λ x. AreBytes-little_bytes 4 (cast_unsigned w32 x) };

    ghost kind_law = { λ bs h. tt };

    ghost legal_law = { λ x h. tt };

    ghost leaf_law = { λ x h. number-leaf signed w32 (little_bytes 4 (cast_unsigned w32 x))
        (length-little_bytes 4 (cast_unsigned w32 x)) };

    ghost number_law = { λ x h. signed-number w32 x h };

    ghost reads_law = { λ bs e h _. signed-reads w32 bs e h };

    ghost value_law = { λ bs h. signed-value w32 bs h };

    ghost order_law = { λ x y. refl };

    fn kind() -> Kind {
        Kind::Number(i32::integer_kind())
    }

    fn byte_count() -> usize {
        4
    }

    fn write_to(self, out: &mut [u8]) {
        out.copy_from_slice(&i32::to_le_bytes(self));
    }

    fn read_from(bytes: &[u8]) -> i32 {
        let mut raw = [0; 4];
        raw.copy_from_slice(bytes);
        i32::from_le_bytes(raw)
    }
}

impl Integer for i32 {
    ghost sign = { signed };

    ghost width = { w32 };

    ghost integer_law = { refl };

    fn integer_kind() -> IntegerKind {
        IntegerKind::I32
    }

    fn is_zero(self) -> bool {
        self == 0
    }
}

#[tactic(auto, using(archive_check::proofs::LittleEndian::std_bytes))]
impl Native for i64 {
    ghost kind = { number signed w64 };

    ghost byte_count = { 8 };

    ghost bytes_of = { λ x. little_bytes 8 (cast_unsigned w64 x) };

    ghost number_of = { λ bs. cast_signed w64 (little_number bs) };

    ghost value_of = { λ x. x };

    ghost fits = { FitsSigned w64 };

    ghost are_legal = { λ bs. ⊤ };

    ghost size_law = { refl };

    ghost length_law = { λ x. length-little_bytes 8 (cast_unsigned w64 x) };

    ghost bytes_law = { λ x. AreBytes-little_bytes 8 (cast_unsigned w64 x) };

    ghost kind_law = { λ bs h. tt };

    ghost legal_law = { λ x h. tt };

    ghost leaf_law = { λ x h. number-leaf signed w64 (little_bytes 8 (cast_unsigned w64 x))
        (length-little_bytes 8 (cast_unsigned w64 x)) };

    ghost number_law = { λ x h. signed-number w64 x h };

    ghost reads_law = { λ bs e h _. signed-reads w64 bs e h };

    ghost value_law = { λ bs h. signed-value w64 bs h };

    ghost order_law = { λ x y. refl };

    fn kind() -> Kind {
        Kind::Number(i64::integer_kind())
    }

    fn byte_count() -> usize {
        8
    }

    fn write_to(self, out: &mut [u8]) {
        out.copy_from_slice(&i64::to_le_bytes(self));
    }

    fn read_from(bytes: &[u8]) -> i64 {
        let mut raw = [0; 8];
        raw.copy_from_slice(bytes);
        i64::from_le_bytes(raw)
    }
}

impl Integer for i64 {
    ghost sign = { signed };

    ghost width = { w64 };

    ghost integer_law = { refl };

    fn integer_kind() -> IntegerKind {
        IntegerKind::I64
    }

    fn is_zero(self) -> bool {
        self == 0
    }
}

#[tactic(auto, using(archive_check::proofs::LittleEndian::std_bytes))]
impl Native for i128 {
    ghost kind = { number signed w128 };

    ghost byte_count = { 16 };

    ghost bytes_of = { λ x. little_bytes 16 (cast_unsigned w128 x) };

    ghost number_of = { λ bs. cast_signed w128 (little_number bs) };

    ghost value_of = { λ x. x };

    ghost fits = { FitsSigned w128 };

    ghost are_legal = { λ bs. ⊤ };

    ghost size_law = { refl };

    ghost length_law = { λ x. length-little_bytes 16 (cast_unsigned w128 x) };

    ghost bytes_law = { λ x. AreBytes-little_bytes 16 (cast_unsigned w128 x) };

    ghost kind_law = { λ bs h. tt };

    ghost legal_law = { λ x h. tt };

    ghost leaf_law = { λ x h. number-leaf signed w128 (little_bytes 16 (cast_unsigned w128 x))
        (length-little_bytes 16 (cast_unsigned w128 x)) };

    ghost number_law = { λ x h. signed-number w128 x h };

    ghost reads_law = { λ bs e h _. signed-reads w128 bs e h };

    ghost value_law = { λ bs h. signed-value w128 bs h };

    ghost order_law = { λ x y. refl };

    fn kind() -> Kind {
        Kind::Number(i128::integer_kind())
    }

    fn byte_count() -> usize {
        16
    }

    fn write_to(self, out: &mut [u8]) {
        out.copy_from_slice(&i128::to_le_bytes(self));
    }

    fn read_from(bytes: &[u8]) -> i128 {
        let mut raw = [0; 16];
        raw.copy_from_slice(bytes);
        i128::from_le_bytes(raw)
    }
}

impl Integer for i128 {
    ghost sign = { signed };

    ghost width = { w128 };

    ghost integer_law = { refl };

    fn integer_kind() -> IntegerKind {
        IntegerKind::I128
    }

    fn is_zero(self) -> bool {
        self == 0
    }
}
