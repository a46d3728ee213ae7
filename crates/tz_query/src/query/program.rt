//! The program over arguments, a file reader, an input and outputs that are passed in.

ghost use Rattle.std.specs.Prelude.{◌≡◌, ◌≤◌, ◌⊎◌, ℤ, IfSome, IfNone, IfOk, IfErr, FitsSigned};
ghost use Rattle.tz_query.specs.Failures.{AreArguments, HasEnded, IsFailure, IsRefusal, LacksMemory, NamesUnreadFile, line_of};
ghost use Rattle.tz_query.specs.Streams.{WritesFront};
ghost use Rattle.std.specs.Fn.{FnReturnsAt};
ghost use Rattle.std.specs.Int.{w32};
ghost use Rattle.tz_query.specs.Numbers.{IsNumber};
ghost use Rattle.tz_query.specs.Program.{texts_of, NamesZone, NamesRefusedZone, AnswersInput, BeginsAnswers};
ghost use Rattle.tz_base.specs.declared.error.TzError.{TzError};
ghost use Rattle.tz_zone.specs.Table.{Zone};
ghost use Rattle.tz_zone.specs.ZoneRef.{own_zone_of};

use super::read_query::read_number;
use crate::query::streams::{RunFault, run, write_front};
use arrayvec::ArrayString;
use std::alloc::Allocator;
use std::fmt::Write as _;
use std::io::{Read, Write};
use tz::error::ReadFault;
use tz::{TimeZone, TzError};

/// Why the arguments name no zone.
#[derive(Drop)]
enum Fault {
    /// They are not an option and its value.
    Arguments,
    /// A file cannot be read.
    File,
    /// Memory is out.
    Memory,
    /// The value makes no zone.
    Zone(TzError),
}

impl From<TzError> for Fault {
    ghost use Rattle.std.specs.Prelude.{◌≡◌, ◌≢◌, ◌⊎◌, alloc_error};
    ghost use Rattle.tz_base.specs.declared.error.TzError.TheVariants as refusals;
    ghost use Rattle.tz_query.specs.declared.query.program.Fault.TheVariants as faults;

    ghost from_gives = { λ error fault.
        ((fault ≡ faults.Zone error) × (error ≢ refusals.Memory alloc_error))
        ⊎ (fault ≡ faults.Memory) };

    fn from(error: TzError) -> Self {
        match error {
            TzError::Memory(_) => Fault::Memory,
            error => Fault::Zone(error),
        }
    }
}

/// The offset that an argument has, if it is a number of 32 bits.
fn read_offset(value: &str) -> Option<i32>
    ensures some { IfSome result (λ offset. IsNumber value.now offset × FitsSigned w32 offset) }
    ensures none { IfNone result ((offset : ℤ) → FitsSigned w32 offset
        → ¬ IsNumber value.now offset) }
{
    match read_number(value.as_bytes())? {
        (number, []) => i32::try_from(number).ok(),
        _ => None,
    }
}

/// The zone that the arguments name.
fn zone_of_arguments<A: Allocator + Copy, F: Fn(&str) -> Result<Vec<u8>, ReadFault> + Drop>(
    alloc: A,
    arguments: &[&str],
    reader: F,
) -> Result<TimeZone<A>, Fault>
    requires { F.IsAlwaysCallable reader }
    ensures ok { IfOk result (λ zone. NamesZone (FnReturnsAt F.Fn reader) (texts_of arguments.now)
        (own_zone_of zone)) }
    ensures bad { IfErr result (λ fault. fault ≡ Fault.Arguments
        → ¬ AreArguments (texts_of arguments.now)) }
    ensures unread { IfErr result (λ fault. fault ≡ Fault.File
        → NamesUnreadFile (FnReturnsAt F.Fn reader) (texts_of arguments.now)) }
    ensures starved { IfErr result (λ fault. fault ≡ Fault.Memory
        → LacksMemory (FnReturnsAt F.Fn reader) (texts_of arguments.now)) }
    ensures refused { IfErr result (λ fault. (e : TzError) → fault ≡ Fault.Zone e
        → NamesRefusedZone (FnReturnsAt F.Fn reader) (texts_of arguments.now)) }
{
    match arguments {
        ["-o", number] => {
            let ut_offset = read_offset(number).ok_or(Fault::Arguments)?;
            Ok(TimeZone::fixed(alloc, ut_offset)?)
        }
        ["-f", path] => match reader(path) {
            Ok(bytes) => Ok(TimeZone::from_tz_data(alloc, &bytes)?),
            Err(ReadFault::Memory(_)) => Err(Fault::Memory),
            Err(ReadFault::Failed(_)) => Err(Fault::File),
        },
        ["-z", text] => match TimeZone::from_posix_tz(alloc, reader, text) {
            Ok(zone) => Ok(zone),
            Err(tz::Error::Io(_)) => Err(Fault::File),
            Err(tz::Error::Tz(error)) => Err(Fault::from(error)),
        },
        _ => Err(Fault::Arguments),
    }
}

/// Prints the line of a failure, as far as it can be written, and returns its status.
fn fail<E: Write>(err: &mut E, line: &str) -> u8
    ensures status { result ≡ 1 }
    ensures line { WritesFront line.now (E.contents err.old) (E.contents err.new) }
{
    // An error of the error output has nowhere to be told.
    let _ = write_front(err, line.as_bytes());
    1
}

/// The most bytes of an error's text.
const LONGEST: usize = 128;

/// Prints the line of a refused zone, as far as it can be written.
fn refuse<E: Write>(err: &mut E, error: &TzError)
    ensures { IsRefusal (E.contents err.old) (E.contents err.new) }
{
    let mut text = ArrayString::<LONGEST>::new();
    if !write_front(err, b"tzq: zone refused: ") || write!(text, "{error}").is_err() {
        return;
    }
    if write_front(err, text.as_str().as_bytes()) {
        let _ = write_front(err, b"\n");
    }
}

/// The line of a run that ends without all answers.
fn line_of(fault: RunFault) -> &'static str
    ensures { result.now ≡ line_of fault }
{
    match fault {
        RunFault::Read => "tzq: cannot read queries\n",
        RunFault::Memory => "tzq: no memory\n",
        RunFault::Write => "tzq: cannot write answers\n",
    }
}

/// Runs the program and returns its status.
///
/// `arguments` are an option and its value, which name a zone: `-o` that of an offset from UTC in
/// seconds, `-f` that of the TZif file which the reader finds at a path, `-z` that of a string, as
/// [`TimeZone::from_posix_tz`] returns it. The zone is made first, then the input is read to its
/// end, and then the answers of its lines are written. An error prints one line to `err`, if that
/// can be written, and the status is 1, or 2 if the zone is invalid. Whatever the status, what was
/// appended to `out` is empty or a prefix of the answers.
pub fn tool<A, F, R, W, E>(
    alloc: A,
    arguments: &[&str],
    reader: F,
    input: &mut R,
    out: &mut W,
    err: &mut E,
) -> u8
where
    A: Allocator + Copy,
    F: Fn(&str) -> Result<Vec<u8>, ReadFault> + Drop,
    R: Read,
    W: Write,
    E: Write,
    requires { F.IsAlwaysCallable reader }
    ensures status { result ≤ 2 }
    ensures quiet { result ≡ 0 → err.new ≡ err.old }
    ensures refused { result ≡ 2
        → NamesRefusedZone (FnReturnsAt F.Fn reader) (texts_of arguments.now) }
    ensures refusal { result ≡ 2 → IsRefusal (E.contents err.old) (E.contents err.new) }
    ensures failed { result ≡ 1 → IsFailure (FnReturnsAt F.Fn reader) (texts_of arguments.now)
        ((input.new ≡ input.old) × (out.new ≡ out.old))
        (HasEnded W.contents (R.remaining input.old) (R.remaining input.new) out.old out.new)
        (E.contents err.old) (E.contents err.new) }
    ensures unread { (result ≡ 2) ⊎ ((zone : Zone)
        → ¬ NamesZone (FnReturnsAt F.Fn reader) (texts_of arguments.now) zone)
        → (input.new ≡ input.old) × (out.new ≡ out.old) }
    ensures answered { result ≡ 0 → AnswersInput (FnReturnsAt F.Fn reader) (texts_of arguments.now)
        (R.remaining input.old) (R.remaining input.new) (W.contents out.old)
        (W.contents out.new) }
    ensures written { (out.new ≡ out.old)
        ⊎ BeginsAnswers (FnReturnsAt F.Fn reader) (texts_of arguments.now) (R.remaining input.old)
        (R.remaining input.new) (W.contents out.old) (W.contents out.new) }
{
    match zone_of_arguments(alloc, arguments, reader) {
        Ok(zone) => match run(alloc, zone.as_ref(), input, out) {
            Ok(()) => 0,
            Err(fault) => fail(err, line_of(fault)),
        },
        Err(Fault::Arguments) => fail(err, "tzq: bad arguments\n"),
        Err(Fault::File) => fail(err, "tzq: cannot read file\n"),
        Err(Fault::Memory) => fail(err, "tzq: no memory\n"),
        Err(Fault::Zone(error)) => {
            refuse(err, &error);
            2
        }
    }
}
