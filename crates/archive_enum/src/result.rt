//! A result that lies in an archive.

ghost use Rattle.std.specs.Borrow.{sem};
ghost use Rattle.std.specs.Prelude.{◌≡◌, is_ok, is_err, IsOk, MatchResult, Ok as OfOk};
ghost use Rattle.std.specs.Option.{option_copied, option_copied_mut};
ghost use Rattle.std.specs.Result.{result_ok, result_err, result_copied, result_copied_mut, ForErr};
ghost use Rattle.archive_enum.specs.LendingResults.{LendsOkIfAny, LendsErrIfAny};
ghost use Rattle.archive_enum.specs.StandsFor.{result_of};
ghost use Rattle.archive_enum.specs.Items.{YieldsItsValue, YieldsItsValueMut};

/// An iterator over the value of an `Ok`. From rkyv 0.8.18.
pub type Iter<P> = crate::iter::Iter<P>;

/// A result, as an archive holds it. It stands for the `Result` of the same variant and value. From rkyv 0.8.18.
#[derive(Debug, Drop)]
pub enum ArchivedResult<T, E> {
    /// A value.
    Ok(T),
    /// An error.
    Err(E),
}

impl<T, E> ArchivedResult<T, E> {
    /// The value, if there is one; as `Result::ok`.
    pub fn ok(self) -> Option<T>
    where
        E: Drop,
        ensures { result ≡ result_ok (result_of self) }
    {
        match self {
            ArchivedResult::Ok(value) => Some(value),
            ArchivedResult::Err(_) => None,
        }
    }

    /// The value. The caller must ensure that it is an `Ok`, where rkyv 0.8.18 panics; as
    /// `Result::unwrap`.
    pub fn unwrap(self) -> T
        requires { IsOk (result_of self) }
        ensures { result_of self ≡ OfOk result }
    {
        match self {
            ArchivedResult::Ok(value) => value,
            ArchivedResult::Err(_) => unreachable!(),
        }
    }

    /// The value, or else what `op` makes of the error, which is called in that case alone; as
    /// `Result::unwrap_or_else`.
    pub fn unwrap_or_else<F: FnOnce(E) -> T>(self, op: F) -> T
        requires { ForErr (result_of self) (F.pre op) }
        ensures { MatchResult (result_of self) (λ x. result ≡ x) (λ e. F.post op e result) }
    {
        match self {
            ArchivedResult::Ok(value) => value,
            ArchivedResult::Err(error) => op(error),
        }
    }

    /// Whether it is an `Ok`; as `Result::is_ok`.
    pub fn is_ok(&self) -> bool
        ensures { result ≡ is_ok (result_of self.now) }
    {
        matches!(self, ArchivedResult::Ok(_))
    }

    /// Whether it is an `Err`; as `Result::is_err`.
    pub fn is_err(&self) -> bool
        ensures { result ≡ is_err (result_of self.now) }
    {
        matches!(self, ArchivedResult::Err(_))
    }

    /// A reference to the value or the error; as `Result::as_ref`.
    pub fn as_ref(&self) -> Result<&T, &E>
        ensures { result_copied result ≡ result_of self.now }
    {
        match self {
            ArchivedResult::Ok(value) => Ok(value),
            ArchivedResult::Err(error) => Err(error),
        }
    }

    /// A mutable reference to the value or the error; as `Result::as_mut`.
    pub fn as_mut(&mut self) -> Result<&mut T, &mut E>
        ensures { result_copied_mut result ≡ result_of self.old }
    {
        match self {
            ArchivedResult::Ok(value) => Ok(value),
            ArchivedResult::Err(error) => Err(error),
        }
    }

    /// A mutable reference to the value, if it is an `Ok`. Unlike `as_mut`'s, its contract says
    /// what the result is afterwards.
    pub fn ok_mut(&mut self) -> Option<&mut T>
        ensures* writes_back { sem 𝓛 (LendsOkIfAny T.row E.row self.entry result) }
        ensures value { option_copied_mut result ≡ result_ok (result_of self.old) }
    {
        match self {
            ArchivedResult::Ok(value) => Some(value),
            ArchivedResult::Err(_) => None,
        }
    }

    /// A mutable reference to the error, if it is an `Err`. Unlike `as_mut`'s, its contract says
    /// what the result is afterwards.
    pub fn err_mut(&mut self) -> Option<&mut E>
        ensures* writes_back { sem 𝓛 (LendsErrIfAny T.row E.row self.entry result) }
        ensures error { option_copied_mut result ≡ result_err (result_of self.old) }
    {
        match self {
            ArchivedResult::Ok(_) => None,
            ArchivedResult::Err(error) => Some(error),
        }
    }

    /// An iterator over a reference to the value, if it is an `Ok`; as `Result::iter`.
    #[tactic(auto, using(crate::proofs::Items::yields_its_value))]
    pub fn iter(&self) -> Iter<&T>
        ensures item { option_copied result ≡ result_ok (result_of self.now) }
        ensures runs { YieldsItsValue T }
    {
        Iter::new(self.as_ref().ok())
    }

    /// An iterator over a mutable reference to the value, if it is an `Ok`; as `Result::iter_mut`.
    #[tactic(auto, using(crate::proofs::Items::yields_its_value_mut))]
    pub fn iter_mut(&mut self) -> Iter<&mut T>
        ensures item { option_copied_mut result ≡ result_ok (result_of self.old) }
        ensures runs { YieldsItsValueMut T }
    {
        Iter::new(self.ok_mut())
    }
}

/// Iterates as `iter` does.
impl<'a, T, E> IntoIterator for &'a ArchivedResult<T, E> {
    type Item = &'a T;

    type IntoIter = Iter<&'a T>;

    ghost into_iter_gives = { λ s it. (option_copied it ≡ result_ok (result_of s.now))
        × YieldsItsValue T };

    fn into_iter(self) -> Iter<&'a T> {
        self.iter()
    }
}

/// Iterates as `iter_mut` does.
impl<'a, T, E> IntoIterator for &'a mut ArchivedResult<T, E> {
    type Item = &'a mut T;

    type IntoIter = Iter<&'a mut T>;

    ghost into_iter_gives = { λ s it. (option_copied_mut it ≡ result_ok (result_of s.now))
        × YieldsItsValueMut T };

    fn into_iter(self) -> Iter<&'a mut T> {
        self.iter_mut()
    }
}
