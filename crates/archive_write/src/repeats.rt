//! Slots for keys that are found again and again in a map. They are made once keys were found often
//! enough to be worth it, so that keys which are found once or never cost no more than the map.

ghost use Rattle.std.specs.Prelude.{IfSome};
ghost use Rattle.archive_check.specs.Slots.{SlotsSay, SlotsSayNothing, SlotsSayNoMore, SlotsSayBesides};

use archive_check::slots::Slots;
use std::alloc::Allocator;

// With fewer finds no slots are made.
const FEW: usize = 14;

/// Slots that are made once finds in a map are twice as many as its keys, and once more after as
/// many finds again.
///
/// ```
/// let mut repeats: Repeats<usize> = Repeats::new(alloc);    // no slot, and no memory is taken yet
/// repeats.add_found(7, 40, 1);                              // key 7 was found in a map of one key
/// let position = repeats.get(7);                            // `None`, or `Some(&40)`
/// ```
#[derive(Drop)]
pub(crate) struct Repeats<V: Copy, A: Allocator> {
    slots: Slots<V, A>,
    // The finds since slots were made, by the time none is left to be counted.
    finds: usize,
    // How many of them are left until it is seen whether slots are worth it.
    left: usize,
}

impl<V: Copy + Default, A: Allocator + Clone> Repeats<V, A> {
    /// No slot. Memory comes from `alloc`, and none is taken yet.
    pub(crate) fn new(alloc: A) -> Repeats<V, A>
        ensures { SlotsSayNothing result.slots }
    {
        Repeats {
            slots: Slots::new(alloc),
            finds: FEW,
            left: FEW,
        }
    }

    /// What was added of `key`, where a slot has it.
    #[inline(always)]
    pub(crate) fn get(&self, key: u64) -> Option<&V>
        ensures { IfSome result (λ value. SlotsSay self.now.slots key value.now) }
    {
        if self.slots.is_empty() {
            return None;
        }
        self.slots.get(key)
    }

    /// Adds a key that was found with this value in a map of `count` keys. Takes memory only for
    /// slots, and does without them if it is refused.
    #[inline(always)]
    pub(crate) fn add_found(&mut self, key: u64, value: V, count: usize)
        ensures { SlotsSayBesides self.old.slots self.new.slots key value }
    {
        self.left = self.left.wrapping_sub(1);
        if self.left == 0 {
            self.make_slots(count);
        }
        if !self.slots.is_empty() {
            self.slots.add(key, value);
        }
    }

    // Makes slots for so many keys, where they are worth it.
    #[cold]
    #[inline(never)]
    fn make_slots(&mut self, count: usize)
        ensures { SlotsSayNoMore self.old.slots self.new.slots }
    {
        let enough = count.saturating_mul(2);
        if self.finds >= enough {
            let _ = self.slots.make_room(count);
            self.finds = 0;
        }
        self.left = enough.saturating_sub(self.finds).max(FEW);
        self.finds = self.finds.saturating_add(self.left);
    }

    /// Frees each slot, and counts anew. Takes no memory, and keeps what it has.
    pub(crate) fn clear(&mut self)
        ensures { SlotsSayNothing self.new.slots }
    {
        self.slots.clear();
        self.finds = FEW;
        self.left = FEW;
    }
}
