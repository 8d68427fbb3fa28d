//! What is left to check.

ghost use Rattle.std.specs.Prelude.{◌≡◌, ◌≢◌, ◌≤◌, ◌∷◌, [], ℕ, List, None, OnSome, IfSome, IfNone};
ghost use Rattle.archive_schema.specs.check.Lists.{list_of, left_first, CanLeaveMore, PutsMore};

use archive_check::context::refusals::refuse;
use archive_check::format::error::Error;
use archive_check::format::expr::Key;
use std::alloc::Global;

/// One thing that is left to check. Places are in bytes from the buffer's first one.
#[derive(Clone, Copy)]
pub enum Work {
    /// The node here.
    Part {
        node: usize,
        at: usize,
    },
    /// The parts from `first` up to `last`, of what begins at `base`.
    Parts {
        first: usize,
        last: usize,
        base: usize,
    },
    /// So many elements, the next of them here.
    Elements {
        node: usize,
        left: usize,
        at: usize,
    },
    /// Entries of a key and a value, the next of them here, and whether there is one before it.
    Entries {
        key: Key,
        value: usize,
        left: usize,
        at: usize,
        later: bool,
    },
    /// A region is left, and before it the `inner` regions in it that end with it: the range is
    /// this one again.
    Leave {
        start: usize,
        end: usize,
        inner: usize,
    },
    /// What lies at a shared position is checked to its end.
    Finish {
        shared_type: usize,
        at: usize,
    },
}

/// What is checked next.
#[derive(Clone, Copy)]
pub enum Next {
    /// The node here, which isn't listed.
    Here { node: usize, at: usize },
    /// What is on top of the list.
    Listed,
}

/// Elements that are checked next, and aren't listed.
#[derive(Clone, Copy)]
pub struct Row {
    /// How many.
    pub left: usize,
    /// Where the first begins.
    pub at: usize,
}

/// A region that is left, and before it the `inner` regions in it that end with it: the range is
/// the one from `start` to `end` again.
#[derive(Clone, Copy)]
pub struct Outer {
    /// Where the range begins.
    pub start: usize,
    /// Where it ends.
    pub end: usize,
    /// How many regions.
    pub inner: usize,
}

/// What is left to check, the next on top, and the error of a check that stopped. The calls that
/// stop a check return `None` alone, since an error is wide.
#[derive(Drop)]
pub struct Worklist {
    entries: Vec<Work>,
    /// Why the check stopped.
    pub fault: Error,
}

impl Worklist {
    /// Nothing is left. Memory comes from `alloc`, and none is taken yet.
    pub fn new(alloc: Global) -> Worklist
        ensures { list_of result ≡ [] }
    {
        Worklist {
            entries: Vec::new(alloc),
            fault: Error::OutOfMemory,
        }
    }

    /// The next entry, which is left no more.
    pub fn pop(&mut self) -> Option<Work>
        ensures next { IfSome result (λ entry. list_of self.old ≡ entry ∷ list_of self.new) }
        ensures over { IfNone result (list_of self.old ≡ []) }
    {
        self.entries.pop()
    }

    /// The next entry, if that is a region to be left: it is left no more.
    #[inline(always)]
    pub fn pop_leave(&mut self) -> Option<Outer>
        ensures some { IfSome result (λ outer. list_of self.old ≡ Work.Leave outer.start outer.end
            outer.inner ∷ list_of self.new) }
        ensures none { IfNone result (list_of self.new ≡ list_of self.old) }
        ensures other { IfNone result ((start end inner : ℕ) → (work : List Work) →
            list_of self.old ≢ Work.Leave start end inner ∷ work) }
    {
        let Some(last) = self.entries.len().checked_sub(1) else {
            return None;
        };
        match self.entries[last] {
            Work::Leave { start, end, inner } => {
                self.entries.pop();
                Some(Outer { start, end, inner })
            }
            _ => None,
        }
    }

    /// The next entry, if that is elements of this node: it is left no more.
    #[inline(always)]
    pub fn pop_row(&mut self, node: usize) -> Option<Row>
        ensures some { IfSome result (λ row. list_of self.old ≡ Work.Elements node row.left row.at ∷
            list_of self.new) }
        ensures none { IfNone result (list_of self.new ≡ list_of self.old) }
        ensures other { IfNone result ((left at : ℕ) → (work : List Work) →
            list_of self.old ≢ Work.Elements node left at ∷ work) }
    {
        let Some(last) = self.entries.len().checked_sub(1) else {
            return None;
        };
        match self.entries[last] {
            Work::Elements {
                node: other,
                left,
                at,
            } => {
                if other != node {
                    return None;
                }
                self.entries.pop();
                Some(Row { left, at })
            }
            _ => None,
        }
    }

    /// Why the check stopped.
    pub fn fault(&self) -> Error
        ensures { result ≡ self.now.fault }
    {
        self.fault
    }

    /// Stops the check.
    #[inline]
    pub fn refuse<T>(&mut self, fault: Error) -> Option<T>
        ensures none { result ≡ None }
        ensures fault { self.new.fault ≡ fault }
        ensures list { list_of self.new ≡ list_of self.old }
    {
        refuse(&mut self.fault, fault)
    }

    /// One entry more. Fails with `OutOfMemory` if memory is refused.
    #[inline(always)]
    fn push(&mut self, entry: Work) -> Option<()>
        ensures some { OnSome result (list_of self.new ≡ entry ∷ list_of self.old) }
        ensures none { IfNone result (self.new.fault ≡ Error.OutOfMemory) }
        ensures kept { IfNone result (list_of self.new ≡ list_of self.old) }
    {
        if self.entries.reserve(1).is_err() {
            return self.refuse(Error::OutOfMemory);
        }
        self.entries.push_reserved(entry);
        Some(())
    }

    /// The node at `at` is left. Fails with `OutOfMemory` if memory is refused, as are the next
    /// ones.
    #[inline(always)]
    pub fn part(&mut self, node: usize, at: usize) -> Option<()>
        ensures some { OnSome result (list_of self.new ≡ Work.Part node at ∷ list_of self.old) }
        ensures none { IfNone result (self.new.fault ≡ Error.OutOfMemory) }
        ensures kept { IfNone result (list_of self.new ≡ list_of self.old) }
    {
        self.push(Work::Part { node, at })
    }

    /// The parts from `first` up to `last` are left, of what begins at `base`.
    pub fn parts(&mut self, first: usize, last: usize, base: usize) -> Option<()>
        ensures some { OnSome result (list_of self.new ≡ Work.Parts first last base ∷ list_of
            self.old) }
        ensures none { IfNone result (self.new.fault ≡ Error.OutOfMemory) }
        ensures kept { IfNone result (list_of self.new ≡ list_of self.old) }
    {
        self.push(Work::Parts { first, last, base })
    }

    /// So many elements are left, the next of them at `at`.
    #[inline(always)]
    pub fn elements(&mut self, node: usize, left: usize, at: usize) -> Option<()>
        ensures some { OnSome result (list_of self.new ≡ Work.Elements node left at ∷ list_of
            self.old) }
        ensures none { IfNone result (self.new.fault ≡ Error.OutOfMemory) }
        ensures kept { IfNone result (list_of self.new ≡ list_of self.old) }
    {
        self.push(Work::Elements { node, left, at })
    }

    /// So many entries are left, the next of them at `at`.
    pub fn entries(
        &mut self,
        key: Key,
        value: usize,
        left: usize,
        at: usize,
        later: bool,
    ) -> Option<()>
        ensures some { OnSome result (list_of self.new ≡ Work.Entries key value left at later ∷
            list_of self.old) }
        ensures none { IfNone result (self.new.fault ≡ Error.OutOfMemory) }
        ensures kept { IfNone result (list_of self.new ≡ list_of self.old) }
    {
        self.push(Work::Entries {
            key,
            value,
            left,
            at,
            later,
        })
    }

    /// What `parts` leaves, where there are any.
    pub fn more_parts(&mut self, first: usize, last: usize, base: usize) -> Option<()>
        ensures some { OnSome result (PutsMore (Work.Parts first last base) (last ≤ first) self) }
        ensures none { IfNone result (self.new.fault ≡ Error.OutOfMemory) }
        ensures kept { IfNone result (list_of self.new ≡ list_of self.old) }
    {
        if first < last {
            self.parts(first, last, base)?;
        }
        Some(())
    }

    /// What `elements` leaves, where there are any.
    #[inline(always)]
    pub fn more_elements(&mut self, node: usize, left: usize, at: usize) -> Option<()>
        ensures some { OnSome result (PutsMore (Work.Elements node left at) (left ≡ 0) self) }
        ensures none { IfNone result (self.new.fault ≡ Error.OutOfMemory) }
        ensures kept { IfNone result (list_of self.new ≡ list_of self.old) }
    {
        if left > 0 {
            self.elements(node, left, at)?;
        }
        Some(())
    }

    /// What `entries` leaves, where there are any.
    pub fn more_entries(
        &mut self,
        key: Key,
        value: usize,
        left: usize,
        at: usize,
        later: bool,
    ) -> Option<()>
        ensures some { OnSome result (PutsMore (Work.Entries key value left at later) (left ≡ 0)
            self) }
        ensures none { IfNone result (self.new.fault ≡ Error.OutOfMemory) }
        ensures kept { IfNone result (list_of self.new ≡ list_of self.old) }
    {
        if left > 0 {
            self.entries(key, value, left, at, later)?;
        }
        Some(())
    }

    // A region is left alone.
    #[inline(always)]
    fn push_leave(&mut self, start: usize, end: usize) -> Option<()>
        ensures some { OnSome result (list_of self.new ≡ Work.Leave start end 0 ∷ list_of
            self.old) }
        ensures none { IfNone result (self.new.fault ≡ Error.OutOfMemory) }
        ensures kept { IfNone result (list_of self.new ≡ list_of self.old) }
    {
        self.push(Work::Leave {
            start,
            end,
            inner: 0,
        })
    }

    /// A region is to be left, and the range will be this one. If the region around it is left
    /// next, it is left with that one, whose range counts.
    #[inline(always)]
    pub fn leave(&mut self, start: usize, end: usize) -> Option<()>
        requires { CanLeaveMore (list_of self.old) }
        ensures some { OnSome result (list_of self.new ≡ left_first start end (list_of self.old)) }
        ensures none { IfNone result (self.new.fault ≡ Error.OutOfMemory) }
        ensures kept { IfNone result (list_of self.new ≡ list_of self.old) }
    {
        let Some(last) = self.entries.len().checked_sub(1) else {
            return self.push_leave(start, end);
        };
        match self.entries[last] {
            Work::Leave {
                start: outer_start,
                end: outer_end,
                inner,
            } => {
                self.entries[last] = Work::Leave {
                    start: outer_start,
                    end: outer_end,
                    inner: inner + 1,
                };
                Some(())
            }
            _ => self.push_leave(start, end),
        }
    }

    /// The shared position `at` is to be finished.
    pub fn finish(&mut self, shared_type: usize, at: usize) -> Option<()>
        ensures some { OnSome result (list_of self.new ≡ Work.Finish shared_type at ∷ list_of
            self.old) }
        ensures none { IfNone result (self.new.fault ≡ Error.OutOfMemory) }
        ensures kept { IfNone result (list_of self.new ≡ list_of self.old) }
    {
        self.push(Work::Finish { shared_type, at })
    }
}
