//! The laws of archives. Each is the contract of a function that does nothing, so that the check of
//! this crate proves it. `specs/Laws.antt` states them.

ghost use Rattle.archive_check.specs.LittleEndian.{AreBytes};
ghost use Rattle.archive_check.specs.Laws.{MeaningExists, MeaningUnique, AcceptedWhereWalked, FaultyNotWalked, RegionsDisjoint, LeavesInRegions, LeafWritten, ComeToFree, PartsReached, ReachedUnique, RootReached, PointersReached, WithinReached, ElementsReached, EncodingUnique, PartsInside, LayoutsExist, LayoutUnique, ReadingUnique, TourUnique, FaultWithoutLimit, FaultUnique, SameReflexive, SameSymmetric, SameTransitive, PartsReachedMeaning, ReachedMeaningUnique, NamesKnown, RootReachedMeaning, SaidReached, UniqueBefore, KnownWhereWellFormed, NeverCyclic, SharedKnown, TidyUnique, OneList};

/// An accepted buffer has a meaning.
pub fn meaning_exists()
    ensures { MeaningExists }
{}

/// An accepted buffer has no two meanings.
pub fn meaning_unique()
    ensures { MeaningUnique }
{}

/// A check's walk succeeds exactly if the buffer is accepted and no region is too deep.
pub fn accepted_where_walked()
    ensures { AcceptedWhereWalked }
{}

/// A check that finds a fault finds no walk.
pub fn faulty_not_walked()
    ensures { FaultyNotWalked }
{}

/// The regions of an accepted buffer, the root's with them, lie apart.
pub fn regions_disjoint()
    ensures { RegionsDisjoint }
{}

/// Each leaf of a byte or more lies wholly in one region.
pub fn leaves_in_regions()
    ensures { LeavesInRegions }
{}

/// A leaf that is in no key may be written over: every archive that has it stays one, with the same
/// tour, and changes in that leaf alone.
pub fn leaf_written()
    ensures { LeafWritten }
{}

/// What seals reach has no byte of a key, nor of a key's text: a leaf that lies there is free to be written over.
pub fn come_to_free()
    ensures { ComeToFree }
{}

/// Each part of an archive says something.
pub fn parts_reached()
    ensures { PartsReached }
{}

/// A part of an archive says one thing.
pub fn reached_unique()
    ensures { ReachedUnique }
{}

/// The root says what the archive means.
pub fn root_reached()
    ensures { RootReached }
{}

/// A pointer that is followed from a part of an archive leads to a part of it.
pub fn pointers_reached()
    ensures { PointersReached }
{}

/// What lies in a reached value is reached.
pub fn within_reached()
    ensures { WithinReached }
{}

/// The elements of a reached run are reached.
pub fn elements_reached()
    ensures { ElementsReached }
{}

/// Different legal bytes of a leaf have different values.
pub fn encoding_unique()
    ensures { EncodingUnique }
{}

/// What lies within a value lies within its bytes.
pub fn parts_inside()
    ensures { PartsInside }
{}

/// The names that a well-formed shape reaches have layouts, no alignment being 0.
pub fn layouts_exist()
    ensures { LayoutsExist }
{}

/// The names that a well-formed shape reaches have no two layouts, nor has the shape.
pub fn layout_unique()
    ensures { LayoutUnique }
{}

/// The bytes at a position say one thing.
pub fn reading_unique()
    ensures { ReadingUnique }
{}

/// Pointers are followed on one tour.
pub fn tour_unique()
    ensures { TourUnique }
{}

/// A fault other than depth, found under a limit, is found without one: the buffer is no archive at all.
pub fn fault_without_limit()
    ensures { FaultWithoutLimit }
{}

/// A check finds one fault.
pub fn fault_unique()
    ensures { FaultUnique }
{}

/// Each meaning is the same as itself.
pub fn same_reflexive()
    ensures { SameReflexive }
{}

/// Sameness of meanings goes both ways.
pub fn same_symmetric()
    ensures { SameSymmetric }
{}

/// Sameness of meanings goes on from one to the next.
pub fn same_transitive()
    ensures { SameTransitive }
{}

/// Each part of an archive says something, a map included.
pub fn parts_reached_meaning()
    ensures { PartsReachedMeaning }
{}

/// A part of an archive says one thing, a map included.
pub fn reached_meaning_unique()
    ensures { ReachedMeaningUnique }
{}

/// Each name that what an archive means leads to is known to it.
pub fn names_known()
    ensures { NamesKnown }
{}

/// The root says what the archive means, its map included: it knows no other names than those that it leads to.
pub fn root_reached_meaning()
    ensures { RootReachedMeaning }
{}

/// What is said of a part, where a view shows it, is what is reached there.
pub fn said_reached()
    ensures { SaidReached }
{}

/// What a unique pointer leads to ends by its owner's position.
pub fn unique_before()
    ensures { UniqueBefore }
{}

/// If a shape is well formed, each schema with its definitions and their layouts knows them.
pub fn known_where_well_formed()
    ensures { KnownWhereWellFormed }
{}

/// Reading an archive meets no open position, if nothing is shared, or no flavor allows cycles and
/// nothing is pending.
pub fn never_cyclic()
    ensures { NeverCyclic }
{}

/// The target of a shared pointer in an archive is known to its map, with the pointer's flavor,
/// pointee and length.
pub fn shared_known()
    ensures { SharedKnown }
{}

/// Behind given bytes, at most one list of tight and clean bytes has a given meaning, whatever its
/// names.
pub fn tidy_unique()
    ensures { TidyUnique }
{}

/// Behind given bytes, at most one list of tight and clean bytes denotes a given value of a shape in which
/// nothing is shared.
pub fn one_list()
    ensures { OneList }
{}

/// Each number in a slice of bytes is below 256, as these laws require of what they compare. In proofs a list may have any numbers. A caller of `one_list`
/// shows it by this call of what `to_bytes` returns. When the program runs this does nothing.
pub fn bytes_are_small(_bytes: &[u8])
    ensures { AreBytes _bytes.now }
{}
