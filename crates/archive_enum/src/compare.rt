//! Comparisons and hashes of options and results as archives hold them: those of the `Option` and the `Result` that they stand for. From rkyv 0.8.18.

ghost use Rattle.std.specs.Cmp.{on_per, on_equiv, on_po, on_total};
ghost use Rattle.std.specs.Cmp.Lexicographic.{options_equiv, options_total};
ghost use Rattle.std.specs.Hash as fed;
ghost use Rattle.std.specs.Option.{option_eq, option_cmp, option_partial_cmp};
ghost use Rattle.std.specs.Ordering.{on};
ghost use Rattle.std.specs.Result.{result_eq, result_cmp, result_partial_cmp};
ghost use Rattle.archive_enum.specs.Orders.{options_per, options_po, options_agree, options_tie, options_fed, results_per, results_equiv, results_po, results_total, results_agree, results_tie, results_fed};
ghost use Rattle.archive_enum.specs.StandsFor.{option_of, result_of};

use crate::option::ArchivedOption;
use crate::result::ArchivedResult;
use std::cmp::Ordering;
use std::hash::{Hash, Hasher};

/// Whether both are `None`, or both have equal values.
impl<T: PartialEq> PartialEq for ArchivedOption<T> {
    ghost eq = { on option_of (option_eq T.eq) };

    ghost laws = { on_per option_of (options_per T.laws) };

    #[tactic(auto, using(crate::proofs::Compared::options_equal))]
    fn eq(&self, other: &ArchivedOption<T>) -> bool {
        self.as_ref() == other.as_ref()
    }
}

impl<T: Eq> Eq for ArchivedOption<T> {
    ghost laws = { on_equiv option_of (options_equiv T.Eq.laws) };
}

/// `None` is less than `Some`, and two values are compared as values.
impl<T: PartialOrd> PartialOrd for ArchivedOption<T> {
    ghost partial_cmp = { on option_of (option_partial_cmp T.partial_cmp) };

    ghost laws = { on_po option_of (options_po T.PartialOrd.laws) };

    #[tactic(auto, using(crate::proofs::Compared::options_partly_ordered))]
    fn partial_cmp(&self, other: &ArchivedOption<T>) -> Option<Ordering> {
        self.as_ref().partial_cmp(&other.as_ref())
    }
}

impl<T: Ord> Ord for ArchivedOption<T> {
    ghost cmp = { on option_of (option_cmp T.cmp) };

    ghost total = { on_total option_of (options_total T.total) };

    ghost matches_partial_cmp = { λ x y. options_agree T.matches_partial_cmp (option_of x)
        (option_of y) };

    ghost matches_eq = { λ x y. options_tie T.cmp T.matches_eq (option_of x) (option_of y) };

    #[tactic(auto, using(crate::proofs::Compared::options_ordered))]
    fn cmp(&self, other: &ArchivedOption<T>) -> Ordering {
        self.as_ref().cmp(&other.as_ref())
    }
}

/// As an `Option`.
impl<T: Hash> Hash for ArchivedOption<T> {
    ghost hash_input = { λ x. fed.option T.hash_input (option_of x) };

    ghost respects_eq = { λ x y e. options_fed T.hash_input T.respects_eq (option_of x)
        (option_of y) e };

    #[tactic(auto, using(crate::proofs::Compared::option_fed))]
    fn hash<H: Hasher>(&self, state: &mut H) {
        self.as_ref().hash(state);
    }
}

/// Whether both are `Ok` or both `Err`, with equal values.
impl<T: PartialEq, E: PartialEq> PartialEq for ArchivedResult<T, E> {
    ghost eq = { on result_of (result_eq T.eq E.eq) };

    ghost laws = { on_per result_of (results_per T.laws E.laws) };

    #[tactic(auto, using(crate::proofs::Compared::results_equal))]
    fn eq(&self, other: &ArchivedResult<T, E>) -> bool {
        self.as_ref() == other.as_ref()
    }
}

impl<T: Eq, E: Eq> Eq for ArchivedResult<T, E> {
    ghost laws = { on_equiv result_of (results_equiv T.Eq.laws E.Eq.laws) };
}

/// `Ok` is less than `Err`, and two values or two errors are compared as such.
impl<T: PartialOrd, E: PartialOrd> PartialOrd for ArchivedResult<T, E> {
    ghost partial_cmp = { on result_of (result_partial_cmp T.partial_cmp E.partial_cmp) };

    ghost laws = { on_po result_of (results_po T.PartialOrd.laws E.PartialOrd.laws) };

    #[tactic(auto, using(crate::proofs::Compared::results_partly_ordered))]
    fn partial_cmp(&self, other: &ArchivedResult<T, E>) -> Option<Ordering> {
        self.as_ref().partial_cmp(&other.as_ref())
    }
}

impl<T: Ord, E: Ord> Ord for ArchivedResult<T, E> {
    ghost cmp = { on result_of (result_cmp T.cmp E.cmp) };

    ghost total = { on_total result_of (results_total T.total E.total) };

    ghost matches_partial_cmp = { λ x y. results_agree T.matches_partial_cmp E.matches_partial_cmp
        (result_of x) (result_of y) };

    ghost matches_eq = { λ x y. results_tie T.cmp E.cmp T.matches_eq E.matches_eq (result_of x)
        (result_of y) };

    #[tactic(auto, using(crate::proofs::Compared::results_ordered))]
    fn cmp(&self, other: &ArchivedResult<T, E>) -> Ordering {
        self.as_ref().cmp(&other.as_ref())
    }
}

/// As a `Result`.
impl<T: Hash, E: Hash> Hash for ArchivedResult<T, E> {
    ghost hash_input = { λ x. fed.result T.hash_input E.hash_input (result_of x) };

    ghost respects_eq = { λ x y e. results_fed T.hash_input E.hash_input T.respects_eq E.respects_eq
        (result_of x) (result_of y) e };

    #[tactic(auto, using(crate::proofs::Compared::result_fed))]
    fn hash<H: Hasher>(&self, state: &mut H) {
        self.as_ref().hash(state);
    }
}
