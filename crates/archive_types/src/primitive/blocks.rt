// Numbers that stand one after another are read a block at a time. A block is an array of its own,
// which nothing else reaches, so that its reading and its moving into a list become one copy of
// memory.

ghost use Rattle.std.specs.Prelude.{◌≡◌, ◌<◌, ◌≤◌, ◌+◌, ◌^◌, length, []};
ghost use Rattle.std.specs.Vec.{vec_len, vec_capacity};
ghost use Rattle.archive_types.specs.FirstRead.{AreLeaves, AreLeavesSaid};

use crate::slice::element_at;
use crate::view::{RawView, Ref};
use archive_num::{LittleEndian, Native};
use std::alloc::Global;
use std::mem::replace;

// As many numbers as are read at once.
const BLOCK: usize = 1024;

// The numbers of a block, which begins at the index `from`.
#[inline(always)]
fn block_at<N: Native>(bytes: &[u8], pos: usize, from: usize) -> [N; BLOCK]
    requires viewed { AreLeaves N.kind bytes.now pos (from + 1024) }
    requires ends { from + 1024 < 2 ^ 64 }
    ensures whole { length result ≡ 1024 }
    ensures said { AreLeavesSaid N.kind N.value_of bytes.now pos from 1024 result }
{
    let part = RawView { bytes, pos, len: 0 };
    let first: Ref<'_, LittleEndian<N>> = element_at(part, from);
    let mut block = [first.get(); BLOCK];
    for index in 0..BLOCK {
        let element: Ref<'_, LittleEndian<N>> = element_at(part, from + index);
        block[index] = element.get();
    }
    block
}

// `items`, and behind them the numbers of the next block.
#[inline(always)]
fn with_block<N: Native>(bytes: &[u8], pos: usize, mut items: Vec<N>) -> Vec<N>
    requires viewed { AreLeaves N.kind bytes.now pos (vec_len items + 1024) }
    requires said { AreLeavesSaid N.kind N.value_of bytes.now pos 0 (vec_len items) items.items }
    requires room { vec_len items + 1024 ≤ vec_capacity items }
    ensures more { vec_len result ≡ vec_len items + 1024 }
    ensures room { vec_capacity result ≡ vec_capacity items }
    ensures said { AreLeavesSaid N.kind N.value_of bytes.now pos 0 (vec_len result) result.items }
{
    let block = block_at(bytes, pos, items.len());
    for index in 0..BLOCK {
        items.push_reserved(block[index]);
    }
    items
}

// Reads the next block. The list is taken out of its place meanwhile, so that no number can overwrite its length.
#[inline(never)]
fn read_block<N: Native>(alloc: Global, bytes: &[u8], pos: usize, items: &mut Vec<N>)
    requires viewed { AreLeaves N.kind bytes.now pos (vec_len items.old + 1024) }
    requires said { AreLeavesSaid N.kind N.value_of bytes.now pos 0 (vec_len items.old)
        items.old.items }
    requires room { vec_len items.old + 1024 ≤ vec_capacity items.old }
    ensures more { vec_len items.new ≡ vec_len items.old + 1024 }
    ensures room { vec_capacity items.new ≡ vec_capacity items.old }
    ensures said { AreLeavesSaid N.kind N.value_of bytes.now pos 0 (vec_len items.new)
        items.new.items }
{
    let taken = replace(items, Vec::new(alloc));
    *items = with_block(bytes, pos, taken);
}

// Reads all whole blocks.
#[inline(always)]
pub(super) fn read_blocks<N: Native>(
    alloc: Global,
    bytes: &[u8],
    pos: usize,
    count: usize,
    items: &mut Vec<N>,
)
    requires viewed { AreLeaves N.kind bytes.now pos count }
    requires nothing { items.old.items ≡ [] }
    requires room { count ≤ vec_capacity items.old }
    ensures few { vec_len items.new ≤ count }
    ensures room { count ≤ vec_capacity items.new }
    ensures said { AreLeavesSaid N.kind N.value_of bytes.now pos 0 (vec_len items.new)
        items.new.items }
{
    while BLOCK <= count - items.len() {
        read_block(alloc, bytes, pos, items);
    }
}
