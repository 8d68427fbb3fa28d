// The iterator over one item or none.

ghost use Rattle.std.specs.Prelude.{◌≡◌, Some};
ghost use Rattle.std.specs.Option.{option_len};
ghost use Rattle.std.specs.Iterator.{at_most};
ghost use Rattle.archive_enum.specs.Items.{GivesWhatIsLeft, YieldsItsItem};

use std::iter::FusedIterator;
use std::marker::Model;

/// An iterator over one item or none, which comes once, from either end. In a contract it is the option of what is left. From rkyv 0.8.18.
#[derive(Drop)]
pub struct Iter<P> {
    item: Option<P>,
}

impl<P> Model for Iter<P> {
    ghost use Rattle.std.specs.Prelude.{Option};

    ghost Value = { Option P };

    ghost view = { λ it. it.item };
}

impl<P> Iter<P> {
    /// An iterator over what `inner` holds.
    #[tactic(auto, using(crate::proofs::Items::yields_its_item))]
    pub fn new(inner: Option<P>) -> Iter<P>
        ensures item { result ≡ inner }
        ensures runs { YieldsItsItem P }
    {
        Iter { item: inner }
    }
}

impl<P: Drop> Iterator for Iter<P> {
    type Item = P;

    ghost next_gives = { GivesWhatIsLeft };

    ghost remaining = { λ it. at_most (option_len it) };

    fn next(&mut self) -> Option<P> {
        self.item.take()
    }

    fn size_hint(&self) -> (usize, Option<usize>)
        ensures lower { result.0 ≡ option_len self.now }
        ensures upper { result.1 ≡ Some (option_len self.now) }
    {
        let left = self.len();
        (left, Some(left))
    }
}

impl<P: Drop> DoubleEndedIterator for Iter<P> {
    ghost next_back_gives = { GivesWhatIsLeft };

    fn next_back(&mut self) -> Option<P> {
        self.next()
    }
}

impl<P: Drop> ExactSizeIterator for Iter<P> {
    fn len(&self) -> usize {
        if self.item.is_some() { 1 } else { 0 }
    }
}

impl<P: Drop> FusedIterator for Iter<P> {}
