//! Fields of structs as parts, and recursive formats by hand. rkyv 0.8.18 derives an archived type
//! for each struct and enum; `tools/derive` writes it here.

ghost use Rattle.std.specs.Prelude.{◌≡◌};

mod recursive;

pub use crate::recursive::choice_of;
pub use archive_types::parts::FromParts;
use archive_types::parts::PartOf;
use archive_types::traits::Archive;
pub use recursive::{ArchivedRecursive, NamedRecursive};
use std::marker::PhantomData;

/// Finds the field with the index `I`, a `U`, of a value whose fields are passed as parts.
pub trait HasField<const I: usize, U> {
    // The field of a value.
    ghost field: { Self → U };

    /// The field.
    fn field(&self) -> &U
        ensures { result.now ≡ field self.now };
}

/// The field with the index `I`, a `U`, as a part: `(Field<0, A>, (Field<1, B>, ()))` are those of
/// a record of two.
pub struct Field<const I: usize, U> {
    of: PhantomData<U>,
}

impl<const I: usize, U: Archive, T: HasField<I, U>> PartOf<T> for Field<I, U> {
    type Source = U;

    ghost part = { T.field };

    fn part_of(whole: &T) -> &U {
        whole.field()
    }
}
