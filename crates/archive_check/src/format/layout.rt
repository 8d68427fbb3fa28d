//! Sizes and alignments.

ghost use Rattle.std.specs.Prelude.{◌<◌};

/// What a value takes: its size and its alignment, both in bytes. In its place rkyv 0.8.18 has
/// `core::alloc::Layout`; an alignment need not be a power of two.
#[derive(Clone, Copy)]
pub struct Layout {
    /// How many bytes it has.
    pub size: usize,
    /// Its position is a multiple of this, which isn't 0.
    pub align: usize,
    pub ghost positive: { 0 < align },
}
