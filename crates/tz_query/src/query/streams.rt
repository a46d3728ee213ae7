//! The program's streams: queries are read to their end, and answers are written.

ghost use Rattle.std.specs.Prelude.{◌≡◌, ◌≢◌, IfErr, MatchBool, OnOk};
ghost use Rattle.std.specs.Io.KnownBytes.{Appends};
ghost use Rattle.tz_query.specs.Streams.{WritesAnswers, WritesFront, WritesFrontOfAnswers};
ghost use Rattle.tz_zone.specs.ZoneRef.{zone_of};

use super::answers::answer;
use std::alloc::Allocator;
use std::io::{Read, Write};
use thiserror::Error;
use tz::TimeZoneRef;
use tz::error::ReadFault;
use tz::inner::read_to_end;

/// Why a run ends without all answers.
#[derive(Debug, Drop, Error)]
pub enum RunFault {
    /// A read of the queries failed.
    #[error("cannot read queries")]
    Read,
    /// The queries or their answers ran out of memory.
    #[error("no memory")]
    Memory,
    /// A write of the answers failed, or accepted no byte.
    #[error("cannot write answers")]
    Write,
}

/// Writes the bytes as far as can be, and returns whether all are written.
pub(super) fn write_front<W: Write>(out: &mut W, bytes: &[u8]) -> bool
    ensures { MatchBool result (Appends (W.contents out.old) (W.contents out.new) bytes.now)
        (WritesFront bytes.now (W.contents out.old) (W.contents out.new)) }
{
    let mut rest = bytes;
    while !rest.is_empty() {
        let Ok(count @ 1..) = out.write(rest) else {
            return false;
        };
        rest = &rest[count..];
    }
    true
}

/// The initial capacity for input. Memory that is not written to costs little.
const FIRST_ROOM: usize = 262_144;

/// Reads the input to its end, and then writes the answers of its lines over a zone, as [`answer`]
/// makes them.
///
/// # Errors
///
/// The first of these:
///
/// - [`RunFault::Read`] if a read of the queries fails;
/// - [`RunFault::Memory`] if an allocation for the queries or their answers fails;
/// - [`RunFault::Write`] if a write of the answers fails, or accepts no byte.
///
/// After the first two the writer is as it was; after the last a prefix of the answers may have
/// been written.
pub fn run<A: Allocator + Copy, R: Read, W: Write>(
    alloc: A,
    zone: TimeZoneRef<'_>,
    input: &mut R,
    out: &mut W,
) -> Result<(), RunFault>
    ensures ok { OnOk result (WritesAnswers (zone_of zone.entry) (R.remaining input.old)
        (R.remaining input.new) (W.contents out.old) (W.contents out.new)) }
    ensures untouched { IfErr result (λ e. e ≢ RunFault.Write → out.new ≡ out.old) }
    ensures begun { IfErr result (λ e. e ≡ RunFault.Write
        → WritesFrontOfAnswers (zone_of zone.entry) (R.remaining input.old) (R.remaining input.new)
        (W.contents out.old) (W.contents out.new)) }
{
    let queries = read_to_end(alloc, input, FIRST_ROOM).map_err(|fault| match fault {
        ReadFault::Memory(_) => RunFault::Memory,
        ReadFault::Failed(_) => RunFault::Read,
    })?;
    let answers = answer(alloc, zone, &queries).map_err(|_| RunFault::Memory)?;
    if write_front(out, &answers) {
        Ok(())
    } else {
        Err(RunFault::Write)
    }
}
