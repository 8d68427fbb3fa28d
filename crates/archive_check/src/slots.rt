//! What is kept of keys, in slots: a key is found there with no hash and no search, and so before a map is asked.

ghost use Rattle.std.specs.Prelude.{◌≡◌, ◌↔◌, IsTrue, IfSome, IfOk, length};
ghost use Rattle.archive_check.specs.Slots.{IsFreeSlot, AreFreeSlots, SlotsSay, SlotsSayNothing, SlotsSayNoMore, SlotsSayBesides};

use std::alloc::{AllocError, Allocator, Global};

// The key of a slot that is free.
const NO_KEY: u64 = u64::MAX;

// The least number of slots that are made.
const LEAST: usize = 16;

/// A key and what is kept of it. A slot whose key is `u64::MAX` is free, and says nothing.
#[derive(Clone, Copy)]
pub struct Slot<V> {
    key: u64,
    value: V,
}

/// What is kept of keys, each in one of two slots, and no other is searched: a key that finds both
/// taken drives another out. What has all keys must be kept besides; a slot says what was added.
///
/// ```
/// let mut slots: Slots<usize> = Slots::new(alloc);    // no slot, and no memory is taken yet
/// slots.make_room(100)?;
/// slots.add(7, 40);                                   // takes no memory
/// let position = slots.get(7);                        // `Some(&40)`, unless key 7 was driven out
/// ```
#[derive(Drop)]
pub struct Slots<V: Copy, A: Allocator = Global> {
    slots: Vec<Slot<V>, A>,
    // How many of a product's bits are left out for the index of a slot.
    shift: u32,
}

// The first of the two slots in which a key may stand. Keys at one distance from each other seldom meet so.
#[inline(always)]
fn slot_index(key: u64, shift: u32) -> usize {
    key.wrapping_mul(0x9e37_79b9_7f4a_7c15).wrapping_shr(shift) as usize
}

impl<V: Copy + Default> Slot<V> {
    // One that says nothing.
    fn free() -> Slot<V>
        ensures { IsFreeSlot result }
    {
        Slot {
            key: NO_KEY,
            value: V::default(),
        }
    }
}

// Whether a key may be put into a slot with no other lost.
fn is_free_at<V: Copy>(slots: &[Slot<V>], index: usize) -> bool {
    match slots.get(index) {
        Some(slot) => slot.key == NO_KEY,
        None => false,
    }
}

// So many slots that say nothing.
fn free_slots<V: Copy + Default, A: Allocator>(
    alloc: A,
    count: usize,
) -> Result<Vec<Slot<V>, A>, AllocError>
    ensures { IfOk result (λ slots. AreFreeSlots slots.items) }
{
    let mut slots = Vec::new(alloc);
    slots.resize(count, Slot::free())?;
    Ok(slots)
}

impl<V: Copy + Default, A: Allocator + Clone> Slots<V, A> {
    /// No slot. Memory comes from `alloc`, and none is taken yet.
    pub fn new(alloc: A) -> Slots<V, A>
        ensures { SlotsSayNothing result }
    {
        Slots {
            slots: Vec::new(alloc),
            shift: 0,
        }
    }

    /// Whether there is no slot.
    #[inline(always)]
    pub fn is_empty(&self) -> bool
        ensures { IsTrue result ↔ (length self.now.slots.items ≡ 0) }
    {
        self.slots.is_empty()
    }

    /// What is kept of `key`, where a slot has it.
    #[inline(always)]
    pub fn get(&self, key: u64) -> Option<&V>
        ensures { IfSome result (λ value. SlotsSay self.now key value.now) }
    {
        let first = slot_index(key, self.shift);
        if key == NO_KEY || first >= self.slots.len() {
            return None;
        }
        if self.slots[first].key == key {
            return Some(&self.slots[first].value);
        }
        match self.slots.get(first ^ 1) {
            Some(slot) if slot.key == key => Some(&slot.value),
            _ => None,
        }
    }

    // Puts a key into one of its two slots, the first if neither is free.
    fn put(&mut self, slot: Slot<V>)
        ensures { SlotsSayBesides self.old self.new slot.key slot.value }
    {
        let first = slot_index(slot.key, self.shift);
        let second = first ^ 1;
        let is_second = is_free_at(&self.slots, second) && !is_free_at(&self.slots, first);
        let index = if is_second { second } else { first };
        if index < self.slots.len() {
            self.slots[index] = slot;
        }
    }

    // Puts each key of other slots into these.
    fn put_all(&mut self, others: &Slots<V, A>)
        ensures { SlotsSayNothing self.old → SlotsSayNoMore others.now self.new }
    {
        for slot in &others.slots {
            if slot.key != NO_KEY {
                self.put(*slot);
            }
        }
    }

    /// Makes at least two slots for each of `count` keys, where there are fewer, and puts the keys
    /// of the old ones into these: some may be driven out. Fails if memory is refused, and then
    /// nothing changes.
    #[inline(always)]
    pub fn make_room(&mut self, count: usize) -> Result<(), AllocError>
        ensures { SlotsSayNoMore self.old self.new }
    {
        if self.slots.len() / 2 >= count {
            return Ok(());
        }
        self.make_slots(count)
    }

    // At least two slots for each of `count` keys, in place of these. It stands apart, since there
    // are enough nearly always.
    #[cold]
    #[inline(never)]
    fn make_slots(&mut self, count: usize) -> Result<(), AllocError>
        ensures { SlotsSayNoMore self.old self.new }
    {
        let least = count.saturating_mul(2).min(1 << 63).max(LEAST);
        let size = least.next_power_of_two();
        let mut more = Slots {
            slots: free_slots(self.slots.allocator().clone()?, size)?,
            shift: size.leading_zeros() + 1,
        };
        more.put_all(self);
        *self = more;
        Ok(())
    }

    /// Adds a key with what is kept of it. Takes no memory, and does nothing where there is no slot
    /// or `key` is `u64::MAX`.
    pub fn add(&mut self, key: u64, value: V)
        ensures { SlotsSayBesides self.old self.new key value }
    {
        self.put(Slot { key, value });
    }

    /// Frees each slot. Takes no memory, and keeps what it has.
    pub fn clear(&mut self)
        ensures { SlotsSayNothing self.new }
    {
        for index in 0..self.slots.len() {
            self.slots[index] = Slot::free();
        }
    }
}
