// The sources that are archived as the bytes that stand for them.

ghost use Rattle.std.specs.Prelude.{refl};

use super::{Plain, Source};
use archive_num::{
    ArchivedChar, ArchivedI16, ArchivedI32, ArchivedI64, ArchivedI128, ArchivedU16, ArchivedU32,
    ArchivedU64, ArchivedU128,
};

impl Source for u16 {
    type Format = ArchivedU16;

    ghost same_size = { refl };

    fn metadata() {}

    ghost same_shape = { refl };
}

impl Source for u32 {
    type Format = ArchivedU32;

    ghost same_size = { refl };

    fn metadata() {}

    ghost same_shape = { refl };
}

impl Source for u64 {
    type Format = ArchivedU64;

    ghost same_size = { refl };

    fn metadata() {}

    ghost same_shape = { refl };
}

impl Source for u128 {
    type Format = ArchivedU128;

    ghost same_size = { refl };

    fn metadata() {}

    ghost same_shape = { refl };
}

impl Source for i16 {
    type Format = ArchivedI16;

    ghost same_size = { refl };

    fn metadata() {}

    ghost same_shape = { refl };
}

impl Source for i32 {
    type Format = ArchivedI32;

    ghost same_size = { refl };

    fn metadata() {}

    ghost same_shape = { refl };
}

impl Source for i64 {
    type Format = ArchivedI64;

    ghost same_size = { refl };

    fn metadata() {}

    ghost same_shape = { refl };
}

impl Source for i128 {
    type Format = ArchivedI128;

    ghost same_size = { refl };

    fn metadata() {}

    ghost same_shape = { refl };
}

impl Source for char {
    type Format = ArchivedChar;

    ghost same_size = { refl };

    fn metadata() {}

    ghost same_shape = { refl };
}

impl Source for () {
    type Format = ();

    ghost same_size = { refl };

    fn metadata() {}

    ghost same_shape = { refl };
}

impl Plain for () {
    ghost same_pointee = { refl };
}

impl Source for bool {
    type Format = bool;

    ghost same_size = { refl };

    fn metadata() {}

    ghost same_shape = { refl };
}

impl Plain for bool {
    ghost same_pointee = { refl };
}

impl Source for u8 {
    type Format = u8;

    ghost same_size = { refl };

    fn metadata() {}

    ghost same_shape = { refl };
}

impl Plain for u8 {
    ghost same_pointee = { refl };
}

impl Source for i8 {
    type Format = i8;

    ghost same_size = { refl };

    fn metadata() {}

    ghost same_shape = { refl };
}

impl Plain for i8 {
    ghost same_pointee = { refl };
}
