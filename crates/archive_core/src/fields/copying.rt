// The first of several fields that are copied, and none.

ghost use Rattle.std.specs.Prelude.{◌≡◌, ◌≤◌, [], length, take};
ghost use Rattle.archive_check.specs.Definitions.{no_definition};
ghost use Rattle.archive_check.specs.Shape.{no_part};
ghost use Rattle.archive_check.specs.Value.{no_value};
ghost use Rattle.archive_core.specs.fields.CloseFields.{ReadClose};
ghost use Rattle.archive_types.specs.Copies.{IsCopied};

use archive_types::traits::Copied;

// Writes the bytes of the first of several fields over the first of `bytes`, and answers how many these are.
#[inline(always)]
pub(super) fn copy_front<A: Copied>(a: &A, bytes: &mut [u8]) -> usize
    requires room { A.CopiedAs.layout.size ≤ length bytes.old }
    ensures end { result ≡ A.CopiedAs.layout.size }
    ensures copied { take result bytes.new ≡ A.copied_bytes a.now }
    ensures read { IsCopied A.CopiedAs.definitions A.CopiedAs.shape A.CopiedAs.layout.size
        (A.copied_meaning a.now) (A.copied_bytes a.now) }
    ensures same_length { length bytes.new ≡ length bytes.old }
{
    let end = A::copied_size();
    a.copy_one(&mut bytes[..end]);
    end
}

/// Writes no byte where there is no field.
#[tactic(auto, using(crate::proofs::fields::CloseFields::none_close))]
#[inline(always)]
pub fn copy_0(bytes: &mut [u8])
    requires sized { length bytes.old ≡ 0 }
    ensures copied { bytes.new ≡ [] }
    ensures read { ReadClose no_definition [] no_part no_value [] }
{
    let _none = bytes;
}
