// Numbers without a sign as archives hold them, the lowest byte first.

ghost use Rattle.std.specs.Prelude.{◌^◌, ◌<◌, length, ⊤, pos, refl};
ghost use Rattle.std.specs.Int.{w8, w16, w32, w64, w128};
ghost use Rattle.archive_check.specs.Shape.{number, unsigned};
ghost use Rattle.archive_check.specs.LittleEndian.{little_bytes, little_number};
ghost use Rattle.archive_check.proofs.LittleEndian.{length-little_bytes, AreBytes-little_bytes};
ghost use Rattle.archive_num.specs.NumberLaws.{number-leaf, unsigned-number, unsigned-reads, unsigned-value, unsigned-order};

use crate::{Integer, Native};
use archive_check::format::expr::{IntegerKind, Kind};

#[tactic(auto, using(archive_check::proofs::LittleEndian::std_bytes))]
impl Native for u8 {
    ghost kind = { number unsigned w8 };

    ghost byte_count = { 1 };

    ghost bytes_of = { λ x. little_bytes 1 x };

    ghost number_of = { λ bs. little_number bs };

    ghost value_of = { λ x. pos x };

    ghost fits = { λ x. x < 2 ^ 8 };

    ghost are_legal = { λ bs. ⊤ };

    ghost size_law = { refl };

    ghost length_law = { λ x. length-little_bytes 1 x };

    ghost bytes_law = { λ x. AreBytes-little_bytes 1 x };

    ghost kind_law = { λ bs h. tt };

    ghost legal_law = { λ x h. tt };

    ghost leaf_law = { λ x h. number-leaf unsigned w8 (little_bytes 1 x)
        (length-little_bytes 1 x) };

    ghost number_law = { λ x h. unsigned-number w8 x h };

    ghost reads_law = { λ bs e h _. unsigned-reads w8 bs e h };

    ghost value_law = { λ bs h. unsigned-value w8 bs h };

    ghost order_law = { unsigned-order };

    fn kind() -> Kind {
        Kind::Number(u8::integer_kind())
    }

    fn byte_count() -> usize {
        1
    }

    fn write_to(self, out: &mut [u8]) {
        out.copy_from_slice(&u8::to_le_bytes(self));
    }

    fn read_from(bytes: &[u8]) -> u8 {
        let mut raw = [0; 1];
        raw.copy_from_slice(bytes);
        u8::from_le_bytes(raw)
    }
}

impl Integer for u8 {
    ghost sign = { unsigned };

    ghost width = { w8 };

    ghost integer_law = { refl };

    fn integer_kind() -> IntegerKind {
        IntegerKind::U8
    }

    fn is_zero(self) -> bool {
        self == 0
    }
}

#[tactic(auto, using(archive_check::proofs::LittleEndian::std_bytes))]
impl Native for u16 {
    ghost kind = { number unsigned w16 };

    ghost byte_count = { 2 };

    ghost bytes_of = { λ x. little_bytes 2 x };

    ghost number_of = { λ bs. little_number bs };

    ghost value_of = { λ x. pos x };

    ghost fits = { λ x. x < 2 ^ 16 };

    ghost are_legal = { λ bs. ⊤ };

    ghost size_law = { refl };

    ghost length_law = { λ x. length-little_bytes 2 x };

    ghost bytes_law = { λ x. AreBytes-little_bytes 2 x };

    ghost kind_law = { λ bs h. tt };

    ghost legal_law = { λ x h. tt };

    ghost leaf_law = { λ x h. number-leaf unsigned w16 (little_bytes 2 x)
        (length-little_bytes 2 x) };

    ghost number_law = { λ x h. unsigned-number w16 x h };

    ghost reads_law = { λ bs e h _. unsigned-reads w16 bs e h };

    ghost value_law = { λ bs h. unsigned-value w16 bs h };

    ghost order_law = { unsigned-order };

    fn kind() -> Kind {
        Kind::Number(u16::integer_kind())
    }

    fn byte_count() -> usize {
        2
    }

    fn write_to(self, out: &mut [u8]) {
        out.copy_from_slice(&u16::to_le_bytes(self));
    }

    fn read_from(bytes: &[u8]) -> u16 {
        let mut raw = [0; 2];
        raw.copy_from_slice(bytes);
        u16::from_le_bytes(raw)
    }
}

impl Integer for u16 {
    ghost sign = { unsigned };

    ghost width = { w16 };

    ghost integer_law = { refl };

    fn integer_kind() -> IntegerKind {
        IntegerKind::U16
    }

    fn is_zero(self) -> bool {
        self == 0
    }
}

#[tactic(auto, using(archive_check::proofs::LittleEndian::std_bytes))]
impl Native for u32 {
    ghost kind = { number unsigned w32 };

    ghost byte_count = { 4 };

    ghost bytes_of = { λ x. little_bytes 4 x };

    ghost number_of = { λ bs. little_number bs };

    ghost value_of = { λ x. pos x };

    ghost fits = { λ x. x < 2 ^ 32 };

    ghost are_legal = { λ bs. ⊤ };

    ghost size_law = { refl };

    ghost length_law = { λ x. length-little_bytes 4 x };

    ghost bytes_law = { λ x. AreBytes-little_bytes 4 x };

    ghost kind_law = { λ bs h. tt };

    ghost legal_law = { λ x h. tt };

    ghost leaf_law = { λ x h. number-leaf unsigned w32 (little_bytes 4 x)
        (length-little_bytes 4 x) };

    ghost number_law = { λ x h. unsigned-number w32 x h };

    ghost reads_law = { λ bs e h _. unsigned-reads w32 bs e h };

    ghost value_law = { λ bs h. unsigned-value w32 bs h };

    ghost order_law = { unsigned-order };

    fn kind() -> Kind {
        Kind::Number(u32::integer_kind())
    }

    fn byte_count() -> usize {
        4
    }

    fn write_to(self, out: &mut [u8]) {
        out.copy_from_slice(&u32::to_le_bytes(self));
    }

    fn read_from(bytes: &[u8]) -> u32 {
        let mut raw = [0; 4];
        raw.copy_from_slice(bytes);
        u32::from_le_bytes(raw)
    }
}

impl Integer for u32 {
    ghost sign = { unsigned };

    ghost width = { w32 };

    ghost integer_law = { refl };

    fn integer_kind() -> IntegerKind {
        IntegerKind::U32
    }

    fn is_zero(self) -> bool {
        self == 0
    }
}

#[tactic(auto, using(archive_check::proofs::LittleEndian::std_bytes))]
impl Native for u64 {
    ghost kind = { number unsigned w64 };

    ghost byte_count = { 8 };

    ghost bytes_of = { λ x. little_bytes 8 x };

    ghost number_of = { λ bs. little_number bs };

    ghost value_of = { λ x. pos x };

    ghost fits = { λ x. x < 2 ^ 64 };

    ghost are_legal = { λ bs. ⊤ };

    ghost size_law = { refl };

    ghost length_law = { λ x. length-little_bytes 8 x };

    ghost bytes_law = { λ x. AreBytes-little_bytes 8 x };

    ghost kind_law = { λ bs h. tt };

    ghost legal_law = { λ x h. tt };

    ghost leaf_law = { λ x h. number-leaf unsigned w64 (little_bytes 8 x)
        (length-little_bytes 8 x) };

    ghost number_law = { λ x h. unsigned-number w64 x h };

    ghost reads_law = { λ bs e h _. unsigned-reads w64 bs e h };

    ghost value_law = { λ bs h. unsigned-value w64 bs h };

    ghost order_law = { unsigned-order };

    fn kind() -> Kind {
        Kind::Number(u64::integer_kind())
    }

    fn byte_count() -> usize {
        8
    }

    fn write_to(self, out: &mut [u8]) {
        out.copy_from_slice(&u64::to_le_bytes(self));
    }

    fn read_from(bytes: &[u8]) -> u64 {
        let mut raw = [0; 8];
        raw.copy_from_slice(bytes);
        u64::from_le_bytes(raw)
    }
}

impl Integer for u64 {
    ghost sign = { unsigned };

    ghost width = { w64 };

    ghost integer_law = { refl };

    fn integer_kind() -> IntegerKind {
        IntegerKind::U64
    }

    fn is_zero(self) -> bool {
        self == 0
    }
}

#[tactic(auto, using(archive_check::proofs::LittleEndian::std_bytes))]
impl Native for u128 {
    ghost kind = { number unsigned w128 };

    ghost byte_count = { 16 };

    ghost bytes_of = { λ x. little_bytes 16 x };

    ghost number_of = { λ bs. little_number bs };

    ghost value_of = { λ x. pos x };

    ghost fits = { λ x. x < 2 ^ 128 };

    ghost are_legal = { λ bs. ⊤ };

    ghost size_law = { refl };

    ghost length_law = { λ x. length-little_bytes 16 x };

    ghost bytes_law = { λ x. AreBytes-little_bytes 16 x };

    ghost kind_law = { λ bs h. tt };

    ghost legal_law = { λ x h. tt };

    ghost leaf_law = { λ x h. number-leaf unsigned w128 (little_bytes 16 x)
        (length-little_bytes 16 x) };

    ghost number_law = { λ x h. unsigned-number w128 x h };

    ghost reads_law = { λ bs e h _. unsigned-reads w128 bs e h };

    ghost value_law = { λ bs h. unsigned-value w128 bs h };

    ghost order_law = { unsigned-order };

    fn kind() -> Kind {
        Kind::Number(u128::integer_kind())
    }

    fn byte_count() -> usize {
        16
    }

    fn write_to(self, out: &mut [u8]) {
        out.copy_from_slice(&u128::to_le_bytes(self));
    }

    fn read_from(bytes: &[u8]) -> u128 {
        let mut raw = [0; 16];
        raw.copy_from_slice(bytes);
        u128::from_le_bytes(raw)
    }
}

impl Integer for u128 {
    ghost sign = { unsigned };

    ghost width = { w128 };

    ghost integer_law = { refl };

    fn integer_kind() -> IntegerKind {
        IntegerKind::U128
    }

    fn is_zero(self) -> bool {
        self == 0
    }
}
