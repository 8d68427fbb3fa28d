//! The shared positions of a check, kept in a map.

ghost use Rattle.std.specs.Prelude.{◌≡◌, ◌⊎◌, ◌↔◌, ◌≤◌, IsTrue, Some, None, IfSome, IfNone, IfOk, IfErr, OnOk, OnErr};
ghost use Rattle.std.specs.HashMap.{get};
ghost use Rattle.std.specs.Ordering.{int_eq};
ghost use Rattle.archive_check.specs.context.SharedPositions.{met_as, finished_as, AreKnown, AreDistinct, HasType, IsAbsent, IsGrown, IsType};
ghost use Rattle.archive_check.specs.context.RecalledPositions.{AreRecalled};
ghost use Rattle.archive_check.specs.Expressions.{flavor_of, pointee_of};
ghost use Rattle.archive_check.specs.context.Ranges.{whole};
ghost use Rattle.archive_check.specs.context.PositionStates.{nothing_met, IsStartAnswer, Starts, entry_as};
ghost use Rattle.archive_check.specs.declared.format.error.Error.TheVariants.{OutOfMemory};

use crate::context::recalled::FinishedPositions;
use crate::context::{Context, SharedContext, ValidationState};
use crate::format::error::Error;
use crate::format::expr::{Expr, FlavorInfo, Pointee};
use std::alloc::{AllocError, Allocator, Global};
use std::collections::HashMap;
use std::hash::{BuildHasherDefault, FoldHasher};

/// What makes two shared pointers of one type: their flavor, and their pointee as it is written.
#[derive(Drop)]
pub struct SharedType {
    /// The flavor.
    pub flavor: FlavorInfo,
    /// The pointee.
    pub pointee: Pointee,
}

/// What is kept of a shared position: its type, by its index in the list of types, its length, and whether it is finished.
#[derive(Clone, Copy)]
pub(crate) struct SharedPosition {
    pub(crate) shared_type: usize,
    pub(crate) length: usize,
    pub(crate) finished: bool,
}

// Whether two pointees are written alike. Of strings and texts, to which most shared pointers lead, no call is needed to tell.
#[inline(always)]
#[tactic(auto, using(crate::proofs::format::Views::views))]
fn is_same_pointee(kept: &Pointee, pointee: &Pointee) -> bool
    ensures { IsTrue result ↔ pointee_of kept.now ≡ pointee_of pointee.now }
{
    match (kept, pointee) {
        (Pointee::One(Expr::Str), Pointee::One(Expr::Str)) => true,
        (Pointee::Text, Pointee::Text) => true,
        _ => *kept == *pointee,
    }
}

// Whether two flavors are one.
#[inline(always)]
#[tactic(auto, using(crate::proofs::context::SharedPositions::same_type))]
fn is_same_flavor(kept: &FlavorInfo, flavor: &FlavorInfo) -> bool
    ensures { IsTrue result ↔ flavor_of kept.now ≡ flavor_of flavor.now }
{
    kept.name == flavor.name && kept.cycles == flavor.cycles
}

// Whether a type is this one, as written.
#[inline(always)]
#[tactic(auto, using(crate::proofs::context::SharedPositions::same_type))]
pub(crate) fn is_of(shared_type: &SharedType, flavor: &FlavorInfo, pointee: &Pointee) -> bool
    ensures { IsTrue result ↔ IsType shared_type.now (flavor_of flavor.now)
        (pointee_of pointee.now) }
{
    is_same_pointee(&shared_type.pointee, pointee) && is_same_flavor(&shared_type.flavor, flavor)
}

impl SharedPosition {
    // What is answered where this position, whose type is `shared_type`, is started again.
    pub(crate) fn answer(
        &self,
        shared_type: &SharedType,
        flavor: &FlavorInfo,
        pointee: &Pointee,
        length: usize,
    ) -> Result<ValidationState, Error>
        ensures { IsStartAnswer (Some (met_as self.now shared_type.now))
            (entry_as flavor.now pointee.now length) result }
    {
        if !is_of(shared_type, flavor, pointee) {
            return Err(Error::TypeMismatch);
        }
        if self.length != length {
            return Err(Error::MetadataMismatch);
        }
        Ok(if self.finished {
            ValidationState::Finished
        } else {
            ValidationState::Pending
        })
    }

    // Whether this position is finished, as one of this type's index and of this length.
    #[inline(always)]
    fn is_as(&self, shared_type: usize, length: usize) -> bool
        ensures { IsTrue result ↔ self.now ≡ finished_as shared_type length }
    {
        self.finished && self.length == length && self.shared_type == shared_type
    }
}

type Positions<A> = HashMap<i128, SharedPosition, BuildHasherDefault<FoldHasher>, A>;

/// The shared positions that a check came to. Each type is kept once, and a position keeps its type's index. rkyv 0.8.18 keeps a type's number, and
/// what is known of a position by its address.
#[derive(Drop)]
pub struct SharedValidator<A: Allocator = Global> {
    shared_types: Vec<SharedType, A>,
    positions: Positions<A>,
    // Most pointers lead to a finished position, which is looked for here first.
    recalled: FinishedPositions<A>,
    ghost known: { AreKnown shared_types.items (get int_eq positions) },
    ghost distinct: { AreDistinct shared_types.items },
    ghost recalls: { AreRecalled recalled.slots (get int_eq positions) },
}

impl<A: Allocator + Copy> SharedValidator<A> {
    ghost use Rattle.archive_check.specs.context.Validators.{positions_of, room_of};

    /// No position. Memory comes from `alloc`, and none is taken yet.
    pub fn new(alloc: A) -> SharedValidator<A>
        ensures { positions_of result ≡ nothing_met }
    {
        SharedValidator {
            shared_types: Vec::new(alloc),
            positions: HashMap::new(alloc),
            recalled: FinishedPositions::new(alloc),
        }
    }

    /// No position, and room for `capacity` of them. Memory comes from `alloc`. Fails with
    /// `OutOfMemory` if it is refused.
    pub fn with_capacity(alloc: A, capacity: usize) -> Result<SharedValidator<A>, Error>
        ensures nothing { IfOk result (λ v. positions_of v ≡ nothing_met) }
        ensures room { IfOk result (λ v. capacity ≤ room_of v) }
        ensures refused { IfErr result (λ e. e ≡ OutOfMemory) }
    {
        let mut recalled = FinishedPositions::new(alloc);
        recalled.make_room(capacity)?;
        Ok(SharedValidator {
            shared_types: Vec::new(alloc),
            positions: HashMap::with_capacity(alloc, capacity)?,
            recalled,
        })
    }

    // What is kept of a position.
    #[inline(always)]
    fn find(&self, position: i128) -> Option<SharedPosition>
        ensures value { result ≡ get int_eq self.now.positions position }
    {
        match self.recalled.get(position) {
            None => self.search(position),
            kept => kept,
        }
    }

    // The same, by the map. It stands apart, since most positions are recalled.
    #[inline(never)]
    fn search(&self, position: i128) -> Option<SharedPosition>
        ensures value { result ≡ get int_eq self.now.positions position }
    {
        self.positions.get(&position).copied()
    }

    // Whether a position that isn't recalled is finished, as one of this type's index and of this length. It stands apart, for a position that is recalled
    // needs none of the map.
    #[inline(never)]
    fn search_as(&self, shared_type: usize, position: i128, length: usize) -> bool
        ensures { IsTrue result ↔ get int_eq self.now.positions position
            ≡ Some (finished_as shared_type length) }
    {
        match self.positions.get(&position) {
            Some(kept) => kept.is_as(shared_type, length),
            None => false,
        }
    }

    // Starts a position that wasn't met. It stands apart, since most pointers lead to one that was.
    #[cold]
    #[inline(never)]
    #[tactic(auto, using(crate::proofs::context::SharedPositions::kept))]
    fn start_new(
        &mut self,
        flavor: &FlavorInfo,
        pointee: &Pointee,
        position: i128,
        length: usize,
    ) -> Result<ValidationState, Error>
        requires new { get int_eq self.old.positions position ≡ None }
        ensures answer { IsStartAnswer (positions_of self.old position)
            (entry_as flavor.now pointee.now length) result }
        ensures started { OnOk result (Starts positions_of self position flavor pointee length) }
        ensures unchanged { OnErr result (positions_of self.new ≡ positions_of self.old) }
    {
        let shared_type = type_index(&mut self.shared_types, flavor, pointee)?;
        // Here, since to finish a position takes no memory.
        let count = self.positions.len().saturating_add(1);
        self.recalled.make_room(count)?;
        let kept = SharedPosition {
            shared_type,
            length,
            finished: false,
        };
        let _ = self.positions.insert(position, kept)?;
        Ok(ValidationState::Started)
    }
}

impl<A: Allocator + Copy> Context for SharedValidator<A> {
    ghost use Rattle.archive_check.specs.context.Validators.{positions_of};

    ghost state = { λ v. whole 0 None };

    ghost positions = { positions_of };
}

impl<A: Allocator + Copy> SharedContext for SharedValidator<A> {
    ghost use Rattle.archive_check.specs.context.Validators.{numbered_of};

    ghost numbered = { numbered_of };

    #[tactic(auto, using(crate::proofs::context::SharedPositions::kept))]
    fn start_shared(
        &mut self,
        flavor: &FlavorInfo,
        pointee: &Pointee,
        position: i128,
        length: usize,
    ) -> Result<ValidationState, Error> {
        if let Some(kept) = self.find(position) {
            return kept.answer(
                &self.shared_types[kept.shared_type],
                flavor,
                pointee,
                length,
            );
        }
        self.start_new(flavor, pointee, position, length)
    }

    fn type_number(&self, flavor: &FlavorInfo, pointee: &Pointee) -> Option<usize> {
        find_type(&self.shared_types, flavor, pointee)
    }

    #[inline(always)]
    fn is_finished_as(&self, number: usize, position: i128, length: usize) -> bool {
        match self.recalled.get(position) {
            Some(kept) => kept.is_as(number, length),
            None => self.search_as(number, position, length),
        }
    }

    #[tactic(auto, using(crate::proofs::context::SharedPositions::kept))]
    fn finish_shared(
        &mut self,
        _flavor: &FlavorInfo,
        _pointee: &Pointee,
        position: i128,
    ) -> Result<(), Error> {
        match self.positions.get_mut(&position) {
            None => Err(Error::NotStarted),
            Some(kept) => {
                if kept.finished {
                    return Err(Error::AlreadyFinished);
                }
                kept.finished = true;
                let now = *kept;
                self.recalled.add(position, now);
                Ok(())
            }
        }
    }
}

// The index of a type in a list; none where it isn't there.
#[tactic(auto, using(crate::proofs::context::SharedPositions::same_type))]
fn find_type(shared_types: &[SharedType], flavor: &FlavorInfo, pointee: &Pointee) -> Option<usize>
    ensures found { IfSome result (λ k. HasType shared_types.now k (flavor_of flavor.now)
        (pointee_of pointee.now)) }
    ensures absent { IfNone result (IsAbsent shared_types.now (flavor_of flavor.now)
        (pointee_of pointee.now)) }
{
    for (index, shared_type) in shared_types.iter().enumerate() {
        if is_of(shared_type, flavor, pointee) {
            return Some(index);
        }
    }
    None
}

// The index of a type in a list, at whose end it is put where it isn't there.
#[tactic(auto, using(crate::proofs::context::SharedPositions::same_type))]
fn type_index<A: Allocator>(
    shared_types: &mut Vec<SharedType, A>,
    flavor: &FlavorInfo,
    pointee: &Pointee,
) -> Result<usize, AllocError>
    ensures found { IfOk result (λ k. HasType shared_types.new.items k (flavor_of flavor.now)
        (pointee_of pointee.now)) }
    ensures kept { IsGrown shared_types.old.items shared_types.new.items }
    ensures distinct { AreDistinct shared_types.old.items → AreDistinct shared_types.new.items }
{
    if let Some(index) = find_type(shared_types, flavor, pointee) {
        return Ok(index);
    }
    let index = shared_types.len();
    shared_types.push(SharedType {
        flavor: *flavor,
        pointee: pointee.clone()?,
    })?;
    Ok(index)
}
