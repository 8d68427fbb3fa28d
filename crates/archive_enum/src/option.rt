//! An option that lies in an archive.

ghost use Rattle.std.specs.Borrow.{sem};
ghost use Rattle.std.specs.Prelude.{◌≡◌, not, is_some, IsSome, MatchOption, Some as OfSome};
ghost use Rattle.std.specs.Option.{ok_or, unwrap_or, option_copied, option_copied_mut, ForNone};
ghost use Rattle.archive_enum.specs.StandsFor.{option_of};
ghost use Rattle.archive_enum.specs.Items.{YieldsItsValue, YieldsItsValueMut};
ghost use Rattle.archive_enum.specs.Lending.{LendsValue, LendsValueIfAny};

pub use crate::iter::Iter;

/// An option, as an archive holds it. It stands for the `Option` of the same variant and value. From rkyv 0.8.18.
#[derive(Clone, Copy, Debug, Drop)]
pub enum ArchivedOption<T> {
    /// No value.
    None,
    /// A value.
    Some(T),
}

impl<T> ArchivedOption<T> {
    /// The value as `Ok`, or else `err` as `Err`; as `Option::ok_or`.
    pub fn ok_or<E>(self, err: E) -> Result<T, E>
    where
        E: Drop,
        ensures { result ≡ ok_or (option_of self) err }
    {
        match self {
            ArchivedOption::None => Err(err),
            ArchivedOption::Some(value) => Ok(value),
        }
    }

    /// The value. The caller must ensure that there is one, where rkyv 0.8.18 panics; as
    /// `Option::unwrap`.
    pub fn unwrap(self) -> T
        requires { IsSome (option_of self) }
        ensures { option_of self ≡ OfSome result }
    {
        match self {
            ArchivedOption::None => unreachable!(),
            ArchivedOption::Some(value) => value,
        }
    }

    /// The value, or else `default`; as `Option::unwrap_or`.
    pub fn unwrap_or(self, default: T) -> T
    where
        T: Drop,
        ensures { result ≡ unwrap_or (option_of self) default }
    {
        match self {
            ArchivedOption::None => default,
            ArchivedOption::Some(value) => value,
        }
    }

    /// The value, or else what `f` returns, which is called in that case alone; as
    /// `Option::unwrap_or_else`.
    pub fn unwrap_or_else<F: FnOnce() -> T>(self, f: F) -> T
        requires { ForNone (option_of self) (F.pre f) }
        ensures { MatchOption (option_of self) (F.post f result) (λ x. result ≡ x) }
    {
        match self {
            ArchivedOption::None => f(),
            ArchivedOption::Some(value) => value,
        }
    }

    /// Whether there is no value; as `Option::is_none`.
    pub fn is_none(&self) -> bool
        ensures { result ≡ not (is_some (option_of self.now)) }
    {
        !self.is_some()
    }

    /// Whether there is a value; as `Option::is_some`.
    pub fn is_some(&self) -> bool
        ensures { result ≡ is_some (option_of self.now) }
    {
        matches!(self, ArchivedOption::Some(_))
    }

    /// A reference to the value, if there is one; as `Option::as_ref`.
    pub fn as_ref(&self) -> Option<&T>
        ensures { option_copied result ≡ option_of self.now }
    {
        match self {
            ArchivedOption::None => None,
            ArchivedOption::Some(value) => Some(value),
        }
    }

    /// A mutable reference to the value, if there is one; as `Option::as_mut`.
    pub fn as_mut(&mut self) -> Option<&mut T>
        ensures* writes_back { sem 𝓛 (LendsValueIfAny T.row self.entry result) }
        ensures value { option_copied_mut result ≡ option_of self.old }
    {
        match self {
            ArchivedOption::None => None,
            ArchivedOption::Some(value) => Some(value),
        }
    }

    /// An iterator over a reference to the value; as `Option::iter`.
    #[tactic(auto, using(crate::proofs::Items::yields_its_value))]
    pub fn iter(&self) -> Iter<&T>
        ensures item { option_copied result ≡ option_of self.now }
        ensures runs { YieldsItsValue T }
    {
        Iter::new(self.as_ref())
    }

    /// An iterator over a mutable reference to the value; as `Option::iter_mut`.
    #[tactic(auto, using(crate::proofs::Items::yields_its_value_mut))]
    pub fn iter_mut(&mut self) -> Iter<&mut T>
        ensures item { option_copied_mut result ≡ option_of self.old }
        ensures runs { YieldsItsValueMut T }
    {
        Iter::new(self.as_mut())
    }

    /// A mutable reference to the value. If there was none it is `value` from now on; as
    /// `Option::get_or_insert`.
    pub fn get_or_insert(&mut self, value: T) -> &mut T
    where
        T: Drop,
        ensures* writes_back { sem 𝓛 (LendsValue T.row self.entry result) }
        ensures value { result.now ≡ unwrap_or (option_of self.old) value }
    {
        self.get_or_insert_with(|| value)
    }

    /// A mutable reference to the value. If there was none it is what `f` returns, which is called
    /// in that case alone; as `Option::get_or_insert_with`.
    pub fn get_or_insert_with<F: FnOnce() -> T>(&mut self, f: F) -> &mut T
    where
        T: Drop,
        requires { ForNone (option_of self.old) (F.pre f) }
        ensures* writes_back { sem 𝓛 (LendsValue T.row self.entry result) }
        ensures value { MatchOption (option_of self.old) (F.post f result.now)
            (λ x. result.now ≡ x) }
    {
        if self.is_none() {
            *self = ArchivedOption::Some(f());
        }
        match self {
            ArchivedOption::None => unreachable!(),
            ArchivedOption::Some(value) => value,
        }
    }
}

/// A value, as `Some`; as for `Option`.
impl<T> From<T> for ArchivedOption<T> {
    ghost from_gives = { λ x o. option_of o ≡ OfSome x };

    fn from(value: T) -> ArchivedOption<T> {
        ArchivedOption::Some(value)
    }
}

/// Iterates as `iter` does.
impl<'a, T> IntoIterator for &'a ArchivedOption<T> {
    type Item = &'a T;

    type IntoIter = Iter<&'a T>;

    ghost into_iter_gives = { λ s it. (option_copied it ≡ option_of s.now) × YieldsItsValue T };

    fn into_iter(self) -> Iter<&'a T> {
        self.iter()
    }
}

/// Iterates as `iter_mut` does.
impl<'a, T> IntoIterator for &'a mut ArchivedOption<T> {
    type Item = &'a mut T;

    type IntoIter = Iter<&'a mut T>;

    ghost into_iter_gives = { λ s it. (option_copied_mut it ≡ option_of s.now)
        × YieldsItsValueMut T };

    fn into_iter(self) -> Iter<&'a mut T> {
        self.iter_mut()
    }
}
