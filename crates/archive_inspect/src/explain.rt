//! Why bytes are no archive of a form, and where.

ghost use Rattle.std.specs.Prelude.{◌≡◌, ◌≢◌, ◌-◌, pos, None, IsTrue, IfSome, IfOk, IfErr};
ghost use Rattle.archive_check.specs.declared.format.error.Error.TheVariants.{OutOfMemory};
ghost use Rattle.archive_check.specs.Archives.{Answers, ExplainsNoSchema, root_in};
ghost use Rattle.archive_inspect.specs.Explained.{IsExplained, ExplainsBuffer, ExplainsWhole, IsPlaceOf};
ghost use Rattle.archive_schema.specs.Schemas.{IsSchemaOf, definitions_in, root_of};

use crate::form::Form;
use crate::route::{Route, route_of};
use crate::text::parse;
use crate::walk::Walker;
use crate::walk::faults::{FirstFault, Stop};
use crate::ways::faults::is_refused_by;
use archive_check::context::HighValidator;
use archive_check::format::error::Error;
use archive_check::format::traits::Portable;
use std::alloc::{AllocError, Global};
use std::fmt;

/// Why bytes are no archive of a form, and where: the first test of the check that is false.
#[derive(Drop)]
pub struct Explanation {
    /// The error, as the check returns it.
    pub refusal: Error,
    /// Where the fault is: none if the search for it ended elsewhere than the check.
    pub place: Option<FaultPlace>,
}

/// A fault, and the way to it.
#[derive(Drop)]
pub struct FaultPlace {
    /// The way from the root to what was looked at.
    pub way: Route,
    /// What was found, with its position.
    pub fault: FirstFault,
}

/// One line: `at .events[17].Text, byte 412: the text isn't UTF-8 (byte 3 of 11 is 0xc0)`. Bytes
/// are counted from 0.
impl fmt::Display for Explanation {
    fn fmt<W: fmt::Write>(&self, f: &mut fmt::Formatter<W>) -> fmt::Result {
        let Some(place) = &self.place else {
            let refusal = self.refusal;
            return write!(f, "{refusal}");
        };
        let way = &place.way;
        let position = place.fault.position;
        let reason = place.fault.reason;
        write!(f, "at {way}, byte {position}: {reason}")
    }
}

/// Why the bytes are no archive of a `T` whose root lies at their end: `None` if they are one. The
/// error is that of `access`. Takes memory for each level, and for each shared position. Parts and
/// variants have numbers for names in the way: `explain_by` has their names.
///
/// ```
/// if let Some(explanation) = explain::<ArchivedVec<ArchivedBool>>(alloc, bytes.as_slice())? {
///     println!(rt; "{explanation}")?;     // at [1], byte 1: the bool is 0x07, neither 0 nor 1
/// }
/// ```
///
/// Errors:
/// - `OutOfMemory`: memory from `alloc` is refused.
/// - `ShapeConflict`, `RecursiveLayout`: the definitions of `T` have no meaning.
pub fn explain<T: Portable>(alloc: Global, bytes: &[u8]) -> Result<Option<Explanation>, Error>
    ensures explained { IfOk result (ExplainsBuffer T.definitions bytes.now
        (root_in bytes.now T.layout) T.shape) }
    ensures refused { IfErr result (λ e. ExplainsNoSchema T.shape T.definitions e) }
{
    let form = Form::of::<T>(alloc)?;
    explained_as::<T>(alloc, form, bytes)
}

/// The same with the names of a text, such as `tools/derive` writes of a file by `// text: NAME`.
/// The text's root, which is its last type if it names no other, must be `T`, else the way has
/// numbers.
///
/// Errors: as `explain` has them.
pub fn explain_by<T: Portable>(
    alloc: Global,
    text: &str,
    bytes: &[u8],
) -> Result<Option<Explanation>, Error>
    ensures explained { IfOk result (ExplainsBuffer T.definitions bytes.now
        (root_in bytes.now T.layout) T.shape) }
    ensures refused { IfErr result (λ e. ExplainsNoSchema T.shape T.definitions e) }
{
    let form = Form::of::<T>(alloc)?;
    match parse(alloc, text) {
        Ok(written) => explained_as::<T>(alloc, form.with_names_of(written), bytes),
        Err(error) if error.is_out_of_memory() => Err(Error::OutOfMemory),
        Err(_) => explained_as::<T>(alloc, form, bytes),
    }
}

/// The same of the form, with its names. Fails if memory from `alloc` is refused.
pub fn explain_with(
    alloc: Global,
    form: &Form,
    bytes: &[u8],
) -> Result<Option<Explanation>, AllocError>
    ensures { IfOk result (ExplainsWhole form.now bytes.now) }
{
    let answer = form.schema().check_archive(alloc, bytes);
    let root = form.schema().root_position(bytes.len());
    explained(alloc, form, bytes, root, answer)
}

// What is explained by a form of `T`.
fn explained_as<T: Portable>(
    alloc: Global,
    form: Form,
    bytes: &[u8],
) -> Result<Option<Explanation>, Error>
    requires { IsSchemaOf form.schema T.shape T.definitions }
    ensures explained { IfOk result (ExplainsBuffer T.definitions bytes.now
        (root_in bytes.now T.layout) T.shape) }
    ensures refused { IfErr result (λ e. ExplainsNoSchema T.shape T.definitions e) }
{
    let answer = check_as::<T>(alloc, &form, bytes);
    let root = root_position::<T>(bytes.len());
    let explanation = explained(alloc, &form, bytes, root, answer)?;
    Ok(explanation)
}

// The position of a root in so many bytes.
fn root_position<T: Portable>(len: usize) -> usize
    ensures { result ≡ len - T.layout.size }
{
    len.saturating_sub(T::size())
}

// What the check answers of a whole buffer whose root is a `T`.
fn check_as<T: Portable>(alloc: Global, form: &Form, bytes: &[u8]) -> Result<(), Error>
    requires { IsSchemaOf form.now.schema T.shape T.definitions }
    ensures { Answers T.definitions bytes.now None (root_in bytes.now T.layout) T.shape result }
{
    prove!(bytes.len() <= usize::MAX);
    let mut context = HighValidator::new(alloc, bytes);
    let root = root_position::<T>(bytes.len());
    form.schema().check(bytes, root, &mut context)
}

// What is explained where the check answered so of a root. Fails if memory is refused, as the answer
// may say.
fn explained(
    alloc: Global,
    form: &Form,
    bytes: &[u8],
    root: usize,
    answer: Result<(), Error>,
) -> Result<Option<Explanation>, AllocError>
    ensures { IfOk result (IsExplained form.now.schema bytes.now root answer) }
{
    match answer {
        Ok(()) => Ok(None),
        Err(refusal) => {
            let explanation = located(alloc, form, bytes, root, refusal)?;
            Ok(Some(explanation))
        }
    }
}

// A refusal with its place. Fails if memory is refused, also where the refusal says so.
fn located(
    alloc: Global,
    form: &Form,
    bytes: &[u8],
    root: usize,
    refusal: Error,
) -> Result<Explanation, AllocError>
    ensures same { IfOk result (λ x. x.refusal ≡ refusal) }
    ensures other { IfOk result (λ _. refusal ≢ OutOfMemory) }
    ensures placed { IfOk result (λ x. IfSome x.place (IsPlaceOf (definitions_in form.now.schema)
        bytes.now root (root_of form.now.schema) refusal)) }
{
    match refusal {
        Error::OutOfMemory => Err(AllocError),
        _ => {
            let place = place_of(alloc, form, bytes, root, refusal)?;
            Ok(Explanation { refusal, place })
        }
    }
}

// Where a walk stops, if it is for the refusal.
fn stopped_at(walk: &mut Walker<'_>, refusal: Error) -> Result<Option<FirstFault>, AllocError> {
    for _ in 0..u64::MAX {
        match walk.step() {
            Ok(Some(_)) => {}
            Ok(None) => break,
            Err(Stop::OutOfMemory) => return Err(AllocError),
            Err(Stop::Fault(fault)) => {
                if fault.reason.refusal() != refusal {
                    break;
                }
                return Ok(Some(fault));
            }
        }
    }
    Ok(None)
}

// The position of a fault, if it isn't before the buffer.
fn position_of(fault: &FirstFault) -> Option<usize>
    ensures { IfSome result (λ n. fault.now.position ≡ pos n) }
{
    usize::try_from(fault.position).ok()
}

// Whether the whole way to a place leads to what was refused.
fn is_place(form: &Form, bytes: &[u8], root: usize, place: &FaultPlace, refusal: Error) -> bool
    ensures { IsTrue result → IsPlaceOf (definitions_in form.now.schema) bytes.now root
        (root_of form.now.schema) refusal place.now }
{
    if place.way.left_out != 0 {
        return false;
    }
    match position_of(&place.fault) {
        Some(position) => { is_refused_by(form, bytes, root, &place.way.steps, position, refusal) }
        None => false,
    }
}

// The place of the first fault: what the walk finds, if the way to it leads to what was refused.
fn place_of(
    alloc: Global,
    form: &Form,
    bytes: &[u8],
    root: usize,
    refusal: Error,
) -> Result<Option<FaultPlace>, AllocError>
    ensures { IfOk result (λ place. IfSome place (IsPlaceOf (definitions_in form.now.schema)
        bytes.now root (root_of form.now.schema) refusal)) }
{
    let mut walk = Walker::quick(alloc, form, bytes);
    let Some(fault) = stopped_at(&mut walk, refusal)? else {
        return Ok(None);
    };
    let way = route_of(alloc, walk.frames(), usize::MAX)?;
    let place = FaultPlace { way, fault };
    if is_place(form, bytes, root, &place, refusal) {
        return Ok(Some(place));
    }
    Ok(None)
}
