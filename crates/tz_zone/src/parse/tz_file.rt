//! TZif files: numbers, whose most significant byte comes first, and headers; the frame, which is
//! one unit or two, and the footer; the tables of a unit; the footer's rule; and the zone that they
//! make, `TimeZone::from_tz_data`. (RFC 8536)

ghost use Rattle.tz_base.specs.declared.error.TzFileError.TheVariants as file;
ghost use Rattle.std.specs.Prelude.{◌≡◌, ◌+◌, ◌≤◌, length, take, drop, ◌*◌, MatchBool, ◌<◌, ◌^◌};
ghost use Rattle.std.specs.Prelude.{MatchResult, IfOk, OnOk, IfErr, option_copied, ℕ, ◌⊎◌, ◌==◌};
ghost use Rattle.std.specs.Prelude.{alloc_error, MatchOption, slice_index, ◌≢◌, ◌-◌, [], Some};
ghost use Rattle.std.specs.Prelude.{Contains, slice_get, true, ◌<ℤ◌};
ghost use Rattle.std.specs.Int.{w32, w64, byte_len};
ghost use Rattle.std.specs.List.{position_from};
ghost use Rattle.tz_zone.specs.FileSizes.{AreSizesOf};
ghost use Rattle.tz_zone.specs.Table.{Zone};
ghost use Rattle.tz_zone.specs.TzFile as Spec;
ghost use Rattle.tz_zone.specs.TzFileFault.{HeaderFails, UnitFails, FrameFails, TypeFails};
ghost use Rattle.tz_zone.specs.TzFileFault.{FirstTypeFails, IndicatorsFail, ContentFails};
ghost use Rattle.tz_zone.specs.TzFileFault.{FooterFails, ExtraRuleFails, IsReadFault};
ghost use Rattle.tz_zone.specs.TzParts.{width_of, unit_view, counts_view, block_view, HasSizes};
ghost use Rattle.tz_zone.specs.TzParts.{IsSized, HasTables};
ghost use Rattle.tz_zone.specs.ValidZone.{AreSound, RisesAtIndex};
ghost use Rattle.tz_zone.specs.ZoneRef.{own_zone_of};

use super::tz_string::parse_posix_tz;
use crate::leap::LeapSecond;
use crate::leap::table_checks::is_plain_table;
use crate::table::Transition;
use crate::timezone::TimeZone;
use std::alloc::{AllocError, Allocator, Global};
use std::str;
use tz_base::error::{ParseDataError, TimeZoneError, TzError, TzFileError};
use tz_rule::timezone::{LocalTimeType, TransitionRule};

/// The four bytes at a position.
fn four_at(bytes: &[u8], at: usize) -> [u8; 4]
    requires { at + 4 ≤ length bytes.now }
    ensures { result ≡ take 4 (drop at bytes.now) }
{
    let four = &bytes[at..at + 4];
    [four[0], four[1], four[2], four[3]]
}

/// The eight bytes at a position.
fn eight_at(bytes: &[u8], at: usize) -> [u8; 8]
    requires { at + 8 ≤ length bytes.now }
    ensures { result ≡ take 8 (drop at bytes.now) }
{
    // One slice, so that the bounds are checked once.
    let eight = &bytes[at..at + 8];
    [
        eight[0], eight[1], eight[2], eight[3], eight[4], eight[5], eight[6], eight[7],
    ]
}

/// The count at a position.
#[tactic(auto, unfolding(crate::specs::TzFile::number_at))]
fn count_at(bytes: &[u8], at: usize) -> u32
    requires { at + 4 ≤ length bytes.now }
    ensures { result ≡ Spec.number_at w32 bytes.now at }
{
    u32::from_be_bytes(four_at(bytes, at))
}

/// The signed number of four bytes at a position.
#[tactic(auto, unfolding(crate::specs::TzFile::number_at, crate::specs::TzFile::signed_at))]
fn signed_at(bytes: &[u8], at: usize) -> i32
    requires { at + 4 ≤ length bytes.now }
    ensures { result ≡ Spec.signed_at w32 bytes.now at }
{
    i32::from_be_bytes(four_at(bytes, at))
}

/// The signed number of eight bytes at a position.
#[tactic(auto, unfolding(crate::specs::TzFile::number_at, crate::specs::TzFile::signed_at))]
fn long_signed_at(bytes: &[u8], at: usize) -> i64
    requires { at + 8 ≤ length bytes.now }
    ensures { result ≡ Spec.signed_at w64 bytes.now at }
{
    i64::from_be_bytes(eight_at(bytes, at))
}

/// The time at a position.
fn time_at(size: TimeSize, bytes: &[u8], at: usize) -> i64
    requires { at + byte_len (width_of size) ≤ length bytes.now }
    ensures { result ≡ Spec.signed_at (width_of size) bytes.now at }
{
    match size {
        TimeSize::Four => i64::from(signed_at(bytes, at)),
        TimeSize::Eight => long_signed_at(bytes, at),
    }
}

/// How many bytes a time of a block has.
#[derive(Clone, Copy)]
enum TimeSize {
    /// Four bytes, in the first block, which is all that version 1 has.
    Four,
    /// Eight bytes, in the second block, which later versions add.
    Eight,
}

impl TimeSize {
    /// How many bytes one time has.
    const fn len(self) -> usize
        ensures value { result ≡ byte_len (width_of self) }
        ensures small { result ≤ 8 }
    {
        match self {
            TimeSize::Four => 4,
            TimeSize::Eight => 8,
        }
    }

    /// How many bytes a number of times has.
    fn times_len(self, count: u32) -> u64
        ensures value { result ≡ count * byte_len (width_of self) }
        ensures small { result ≤ 8 * count }
    {
        match self {
            TimeSize::Four => u64::from(count) * 4,
            TimeSize::Eight => u64::from(count) * 8,
        }
    }

    /// How many bytes a number of leap seconds has, each a time and a correction of four bytes.
    fn leaps_len(self, count: u32) -> u64
        ensures value { result ≡ count * (byte_len (width_of self) + 4) }
        ensures small { result ≤ 12 * count }
    {
        match self {
            TimeSize::Four => u64::from(count) * 8,
            TimeSize::Eight => u64::from(count) * 12,
        }
    }
}

/// Whether the byte is that of a version that is read. The byte of version 1 is 0.
fn is_version(byte: u8) -> bool
    ensures { MatchBool result (Spec.IsVersion byte) (¬ Spec.IsVersion byte) }
{
    matches!(byte, 0 | b'2' | b'3' | b'4')
}

/// Whether the version of a unit allows an extended TZ string after it. (RFC 8536, section 3.3.1)
fn is_extended(unit: &Unit<'_>) -> bool
    ensures { result ≡ Spec.is_extended (unit_view unit.now) }
{
    unit.version == b'3' || unit.version == b'4'
}

/// Whether a block of this version may hold these leap seconds: before version 4 their table
/// neither has a truncated start nor expires.
fn may_hold(version: u8, leap_seconds: &[LeapSecond]) -> bool
    ensures { MatchBool result (Spec.MayHold version leap_seconds.now)
        (¬ Spec.MayHold version leap_seconds.now) }
{
    version == b'4' || is_plain_table(leap_seconds)
}

/// How many bytes a header has.
const HEADER_LEN: usize = 44;

/// The six counts of a header: how many indicators of both kinds, leap seconds, transitions, types
/// and name bytes the block has.
#[derive(Clone, Copy)]
struct Counts {
    ut_local: u32,
    std_wall: u32,
    leap: u32,
    transition: u32,
    local_type: u32,
    char: u32,
}

/// Whether a header with this number of types may have this number of indicators.
fn is_indicator_count(count: u32, local_types: u32) -> bool
    ensures { MatchBool result (Spec.IsIndicatorCount count local_types)
        (¬ Spec.IsIndicatorCount count local_types) }
{
    count == 0 || count == local_types
}

impl Counts {
    /// The counts of a header.
    #[tactic(auto, unfolding(crate::specs::TzFile::counts_of))]
    fn read(bytes: &[u8]) -> Self
        requires { Spec.header_len ≤ length bytes.now }
        ensures { counts_view result ≡ Spec.counts_of bytes.now }
    {
        Counts {
            ut_local: count_at(bytes, 20),
            std_wall: count_at(bytes, 24),
            leap: count_at(bytes, 28),
            transition: count_at(bytes, 32),
            local_type: count_at(bytes, 36),
            char: count_at(bytes, 40),
        }
    }

    /// Whether the counts fit together.
    fn are_counts(self) -> bool
        ensures { MatchBool result (Spec.AreCounts (counts_view self)) (¬ Spec.AreCounts
            (counts_view self)) }
    {
        self.local_type != 0
            && self.char != 0
            && is_indicator_count(self.ut_local, self.local_type)
            && is_indicator_count(self.std_wall, self.local_type)
    }
}

/// Whether the first bytes are those of a TZif file.
fn has_magic(bytes: &[u8]) -> bool
    requires { 4 ≤ length bytes.now }
    ensures { MatchBool result (Spec.HasMagic bytes.now) (¬ Spec.HasMagic bytes.now) }
{
    bytes.starts_with(b"TZif")
}

/// Reads the header at the front.
fn read_header(bytes: &[u8]) -> Result<Counts, TzFileError>
    ensures value { IfOk result (λ counts. counts_view counts ≡ Spec.counts_of bytes.now) }
    ensures ok { OnOk result (Spec.IsHeader bytes.now) }
    ensures err { IfErr result (HeaderFails bytes.now) }
{
    if bytes.len() < 4 {
        return Err(TzFileError::ParseData(ParseDataError::UnexpectedEof));
    }
    if !has_magic(bytes) {
        return Err(TzFileError::InvalidMagicNumber);
    }
    if bytes.len() < 5 {
        return Err(TzFileError::ParseData(ParseDataError::UnexpectedEof));
    }
    if !is_version(bytes[4]) {
        return Err(TzFileError::UnsupportedTzFileVersion);
    }
    if bytes.len() < HEADER_LEN {
        return Err(TzFileError::ParseData(ParseDataError::UnexpectedEof));
    }
    let counts = Counts::read(bytes);
    if !counts.are_counts() {
        return Err(TzFileError::InvalidHeader);
    }
    Ok(counts)
}

/// Positions in a unit, from the first byte of its header: where each part of the block begins, and
/// where the block ends. The counts determine them, so they may be past the end of the file, and
/// past what a `usize` holds on a machine of 32 bits.
#[derive(Clone, Copy)]
struct Layout {
    indexes: u64,
    types: u64,
    names: u64,
    leaps: u64,
    std_walls: u64,
    ut_locals: u64,
    end: u64,
}

impl Layout {
    /// The layout of a block with these counts.
    fn new(size: TimeSize, counts: Counts) -> Self
        ensures { result ≡ record {
          indexes = Spec.indexes_at (width_of size) (counts_view counts);
          types = Spec.types_at (width_of size) (counts_view counts);
          names = Spec.names_at (width_of size) (counts_view counts);
          leaps = Spec.leaps_at (width_of size) (counts_view counts);
          std_walls = Spec.std_walls_at (width_of size) (counts_view counts);
          ut_locals = Spec.ut_locals_at (width_of size) (counts_view counts);
          end = Spec.end_at (width_of size) (counts_view counts);
        } }
    {
        let indexes = HEADER_LEN as u64 + size.times_len(counts.transition);
        let types = indexes + u64::from(counts.transition);
        let names = types + u64::from(counts.local_type) * 6;
        let leaps = names + u64::from(counts.char);
        let std_walls = leaps + size.leaps_len(counts.leap);
        let ut_locals = std_walls + u64::from(counts.std_wall);
        let end = ut_locals + u64::from(counts.ut_local);
        Layout {
            indexes,
            types,
            names,
            leaps,
            std_walls,
            ut_locals,
            end,
        }
    }
}

/// The parts of a block.
#[derive(Clone, Copy)]
struct Block<'a> {
    times: &'a [u8],
    indexes: &'a [u8],
    types: &'a [u8],
    names: &'a [u8],
    leaps: &'a [u8],
    std_walls: &'a [u8],
    ut_locals: &'a [u8],
}

/// A unit: the version and the counts of its header, its block, and the bytes after the unit.
#[derive(Clone, Copy)]
struct Unit<'a> {
    size: TimeSize,
    version: u8,
    counts: Counts,
    block: Block<'a>,
    after: &'a [u8],
}

/// Cuts the block after the header into its parts.
#[inline(always)]
#[tactic(auto, unfolding(crate::specs::TzFile::block_with))]
fn cut_block(size: TimeSize, counts: Counts, bytes: &[u8]) -> Block<'_>
    requires { Spec.end_at (width_of size) (counts_view counts) ≤ length bytes.now }
    ensures value { block_view result ≡ Spec.block_with (width_of size)
        (counts_view counts) bytes.now }
    ensures sizes { HasSizes (width_of size) (counts_view counts) (block_view result) }
{
    let layout = Layout::new(size, counts);
    Block {
        times: &bytes[HEADER_LEN..layout.indexes as usize],
        indexes: &bytes[layout.indexes as usize..layout.types as usize],
        types: &bytes[layout.types as usize..layout.names as usize],
        names: &bytes[layout.names as usize..layout.leaps as usize],
        leaps: &bytes[layout.leaps as usize..layout.std_walls as usize],
        std_walls: &bytes[layout.std_walls as usize..layout.ut_locals as usize],
        ut_locals: &bytes[layout.ut_locals as usize..layout.end as usize],
    }
}

/// Reads the header at the front, and cuts its block.
#[inline(always)]
#[tactic(auto, unfolding(crate::specs::TzFile::after))]
fn read_unit(size: TimeSize, bytes: &[u8]) -> Result<Unit<'_>, TzFileError>
    ensures value { IfOk result (λ unit. unit_view unit ≡ Spec.part_with
        (width_of size) bytes.now) }
    ensures sizes { IfOk result IsSized }
    ensures ok { OnOk result (Spec.IsUnit (width_of size) bytes.now) }
    ensures err { IfErr result (UnitFails (width_of size) bytes.now) }
{
    let counts = read_header(bytes)?;
    let end = Layout::new(size, counts).end;
    if (bytes.len() as u64) < end {
        return Err(TzFileError::ParseData(ParseDataError::UnexpectedEof));
    }
    Ok(Unit {
        size,
        // The fifth byte of a header is its version.
        version: bytes[4],
        counts,
        block: cut_block(size, counts, bytes),
        after: &bytes[end as usize..],
    })
}

/// The parts of a file that are read: the unit whose tables are read, which is the first in version
/// 1 and otherwise the second, and the footer after the second. The version in this unit's own
/// header counts; the two headers are not compared.
#[derive(Clone, Copy)]
struct Frame<'a> {
    unit: Unit<'a>,
    footer: Option<&'a [u8]>,
}

/// Cuts a file into the parts that are read.
#[inline(always)]
fn read_frame(bytes: &[u8]) -> Result<Frame<'_>, TzFileError>
    ensures unit { IfOk result (λ frame. unit_view frame.unit ≡ Spec.part_of bytes.now) }
    ensures footer { IfOk result (λ frame. option_copied frame.footer ≡ Spec.footer_of bytes.now) }
    ensures sizes { IfOk result (λ frame. IsSized frame.unit) }
    ensures ok { OnOk result (Spec.IsFramed bytes.now) }
    ensures err { IfErr result (FrameFails bytes.now) }
{
    // In later versions the first unit is for readers of version 1: of its block only the length is
    // used.
    let first = read_unit(TimeSize::Four, bytes)?;
    // Version 1, whose byte is 0.
    if first.version == 0 {
        if !first.after.is_empty() {
            return Err(TzFileError::RemainingDataV1);
        }
        return Ok(Frame {
            unit: first,
            footer: None,
        });
    }
    let second = read_unit(TimeSize::Eight, first.after)?;
    Ok(Frame {
        unit: second,
        footer: Some(second.after),
    })
}

/// How many entries each table of a file has, and how many bytes its footer has, in C's layout.
#[repr(C)]
#[derive(Clone, Copy)]
pub struct FileSizes {
    transitions: usize,
    local_time_types: usize,
    leap_seconds: usize,
    footer: usize,
}

/// The sizes of a file whose headers and blocks are whole. Its tables are not looked at.
pub fn file_sizes(bytes: &[u8]) -> Result<FileSizes, TzFileError>
    ensures sizes { IfOk result (AreSizesOf bytes.now) }
    ensures ok { OnOk result (Spec.IsFramed bytes.now) }
    ensures err { IfErr result (FrameFails bytes.now) }
{
    let frame = read_frame(bytes)?;
    let counts = frame.unit.counts;
    let footer = match frame.footer {
        Some(footer) => footer.len(),
        None => 0,
    };
    Ok(FileSizes {
        transitions: counts.transition as usize,
        local_time_types: counts.local_type as usize,
        leap_seconds: counts.leap as usize,
        footer,
    })
}

/// The transitions, in their order, with times of four bytes.
fn read_short_transitions<A: Allocator + Copy>(
    alloc: A,
    unit: &Unit<'_>,
) -> Result<Vec<Transition, A>, AllocError>
    requires size { width_of unit.now.size ≡ w32 }
    requires sized { IsSized unit.now }
    ensures { IfOk result (λ v. v.items ≡ Spec.transitions_of
        (width_of unit.now.size) (block_view unit.now.block) unit.now.counts.transition) }
{
    let mut transitions = Vec::with_capacity(alloc, unit.counts.transition as usize)?;
    let times = unit.block.times.chunks_exact(4);
    transitions.extend(
        times.zip(unit.block.indexes).map(|(time, index)| {
            Transition::new(i64::from(signed_at(time, 0)), usize::from(*index))
        }),
    )?;
    Ok(transitions)
}

/// The transitions, in their order, with times of eight bytes.
fn read_long_transitions<A: Allocator + Copy>(
    alloc: A,
    unit: &Unit<'_>,
) -> Result<Vec<Transition, A>, AllocError>
    requires size { width_of unit.now.size ≡ w64 }
    requires sized { IsSized unit.now }
    ensures { IfOk result (λ v. v.items ≡ Spec.transitions_of
        (width_of unit.now.size) (block_view unit.now.block) unit.now.counts.transition) }
{
    let mut transitions = Vec::with_capacity(alloc, unit.counts.transition as usize)?;
    let times = unit.block.times.chunks_exact(8);
    transitions.extend(
        times.zip(unit.block.indexes).map(|(time, index)| {
            Transition::new(long_signed_at(time, 0), usize::from(*index))
        }),
    )?;
    Ok(transitions)
}

/// The transitions, in their order. Each size of times has a loop of its own, which does not test
/// the size.
fn read_transitions<A: Allocator + Copy>(
    alloc: A,
    unit: &Unit<'_>,
) -> Result<Vec<Transition, A>, AllocError>
    requires { IsSized unit.now }
    ensures { IfOk result (λ v. v.items ≡ Spec.transitions_of
        (width_of unit.now.size) (block_view unit.now.block) unit.now.counts.transition) }
{
    match unit.size {
        TimeSize::Four => read_short_transitions(alloc, unit),
        TimeSize::Eight => read_long_transitions(alloc, unit),
    }
}

/// The daylight flag of a type.
fn read_daylight_flag(byte: u8) -> Result<bool, TzFileError>
    ensures ok { IfOk result (λ daylight. (daylight ≡ (byte == 1)) × Spec.IsFlag byte) }
    ensures err { IfErr result (λ e. (e ≡ file.InvalidDstIndicator) × ¬ Spec.IsFlag byte) }
{
    match byte {
        0 => Ok(false),
        1 => Ok(true),
        _ => Err(TzFileError::InvalidDstIndicator),
    }
}

/// Where the first zero byte stands.
fn first_zero(bytes: &[u8]) -> Option<usize>
    ensures { result ≡ position_from (λ byte. byte == 0) 0 bytes.now }
{
    bytes.iter().position(|byte| *byte == 0)
}

/// The name at an index of the name bytes, if a zero byte ends it.
fn name_at(names: &[u8], index: usize) -> Option<&[u8]>
    ensures { MatchOption result (¬ Spec.HasName names.now index)
        (λ name. Spec.HasName names.now index
        × (name.now ≡ Spec.name_at names.now index)) }
{
    if names.len() < index {
        return None;
    }
    let (_, rest) = names.split_at(index);
    match first_zero(rest) {
        Some(len) => Some(&rest[..len]),
        None => None,
    }
}

/// The name, unless it is empty.
#[tactic(auto, unfolding(crate::specs::TzFile::designation_of))]
fn non_empty(name: &[u8]) -> Option<&[u8]>
    ensures { option_copied result ≡ Spec.designation_of name.now }
{
    if name.is_empty() { None } else { Some(name) }
}

/// The type of a record.
#[tactic(auto, unfolding(crate::specs::TzFile::type_at))]
fn read_type(unit: &Unit<'_>, index: u32) -> Result<LocalTimeType, TzError>
    requires sized { IsSized unit.now }
    requires within { index < unit.now.counts.local_type }
    ensures value { IfOk result (λ t. t ≡ Spec.type_at (block_view unit.now.block) index) }
    ensures ok { OnOk result (Spec.IsTypeRecord (block_view unit.now.block) index) }
    ensures err { IfErr result (TypeFails (block_view unit.now.block) index) }
{
    let at = index as usize * 6;
    let ut_offset = signed_at(unit.block.types, at);
    let is_dst = read_daylight_flag(unit.block.types[at + 4])?;
    let Some(name) = name_at(unit.block.names, usize::from(unit.block.types[at + 5])) else {
        return Err(TzError::TzFile(TzFileError::InvalidTimeZoneDesignationCharIndex));
    };
    let local_time_type = LocalTimeType::new(ut_offset, is_dst, non_empty(name))?;
    Ok(local_time_type)
}

/// The types, in their order.
#[tactic(auto, using(crate::proofs::TzTables::tables))]
fn read_types<A: Allocator + Copy>(
    alloc: A,
    unit: &Unit<'_>,
) -> Result<Vec<LocalTimeType, A>, TzError>
    requires { IsSized unit.now }
    ensures value { IfOk result
        (λ v. v.items ≡ Spec.types_of (block_view unit.now.block) unit.now.counts.local_type) }
    ensures ok { OnOk result ((i : ℕ) → i < unit.now.counts.local_type
        → Spec.IsTypeRecord (block_view unit.now.block) i) }
    ensures err { IfErr result (λ e. (e ≡ TzError.Memory alloc_error)
        ⊎ FirstTypeFails (block_view unit.now.block) unit.now.counts.local_type e) }
{
    let mut local_time_types = Vec::with_capacity(alloc, unit.counts.local_type as usize)?;
    for i in 0..unit.counts.local_type {
        local_time_types.push(read_type(unit, i)?)?;
    }
    Ok(local_time_types)
}

/// The leap second of a record.
#[tactic(auto, unfolding(crate::specs::TzFile::leap_at))]
fn leap_second_at(unit: &Unit<'_>, index: u32) -> LeapSecond
    requires sized { IsSized unit.now }
    requires within { index < unit.now.counts.leap }
    ensures { result ≡ Spec.leap_at (width_of unit.now.size) (block_view unit.now.block) index }
{
    let at = unit.size.leaps_len(index) as usize;
    let unix_leap_time = time_at(unit.size, unit.block.leaps, at);
    let correction = signed_at(unit.block.leaps, at + unit.size.len());
    LeapSecond::new(unix_leap_time, correction)
}

/// The leap seconds, in their order.
#[tactic(auto, using(crate::proofs::TzTables::tables))]
fn read_leap_seconds<A: Allocator + Copy>(
    alloc: A,
    unit: &Unit<'_>,
) -> Result<Vec<LeapSecond, A>, AllocError>
    requires { IsSized unit.now }
    ensures { IfOk result (λ v. v.items ≡ Spec.leaps_of (width_of unit.now.size)
        (block_view unit.now.block)
        unit.now.counts.leap) }
{
    let mut leap_seconds = Vec::with_capacity(alloc, unit.counts.leap as usize)?;
    for i in 0..unit.counts.leap {
        leap_seconds.push(leap_second_at(unit, i))?;
    }
    Ok(leap_seconds)
}

/// The indicator of a type, which is 0 where none is given.
fn indicator_at(indicators: &[u8], index: u32) -> u8
    ensures { result ≡ slice_index indicators.now index }
{
    indicators.get(index as usize).copied().unwrap_or(0)
}

/// Whether a type may have these two indicators: UT only with standard time.
fn is_pair(std_wall: u8, ut_local: u8) -> bool
    ensures { MatchBool result (Spec.IsIndicatorPair std_wall ut_local)
        (¬ Spec.IsIndicatorPair std_wall ut_local) }
{
    matches!((std_wall, ut_local), (0, 0) | (1, 0) | (1, 1))
}

/// Whether the indicators of a type go together.
fn has_indicators(unit: &Unit<'_>, index: u32) -> bool
    ensures { MatchBool result (Spec.HasIndicators (block_view unit.now.block) index)
        (¬ Spec.HasIndicators (block_view unit.now.block) index) }
{
    let std_wall = indicator_at(unit.block.std_walls, index);
    let ut_local = indicator_at(unit.block.ut_locals, index);
    is_pair(std_wall, ut_local)
}

/// Checks the indicators of all types.
fn check_indicators(unit: &Unit<'_>) -> Result<(), TzFileError>
    ensures ok { OnOk result ((i : ℕ) → i < unit.now.counts.local_type
        → Spec.HasIndicators (block_view unit.now.block) i) }
    ensures err { IfErr result (λ e. (e ≡ file.InvalidStdWallUtLocal)
        × IndicatorsFail (block_view unit.now.block) unit.now.counts.local_type) }
{
    for i in 0..unit.counts.local_type {
        if !has_indicators(unit, i) {
            return Err(TzFileError::InvalidStdWallUtLocal);
        }
    }
    Ok(())
}

/// Whether all bytes are below a number. The loop has no branch, so it can be vectorized.
fn are_below(bytes: &[u8], bound: usize) -> bool
    ensures { result ≡ true → (i : ℕ) → i < length bytes.now → slice_index bytes.now i < bound }
{
    let mut greatest = 0;
    for byte in bytes {
        greatest = greatest.max(*byte);
    }
    usize::from(greatest) < bound
}

/// Whether a transition has an earlier leap time than another one.
const fn is_earlier(change: Transition, next: Transition) -> bool
    ensures { MatchBool result (change.unix_leap_time <ℤ next.unix_leap_time)
        (¬ (change.unix_leap_time <ℤ next.unix_leap_time)) }
{
    change.unix_leap_time() < next.unix_leap_time()
}

/// Whether each transition comes before the next one. The loop has no branch on the times, and
/// reads each of them once.
fn all_rise(transitions: &[Transition]) -> bool
    ensures { result ≡ true → (i : ℕ) → RisesAtIndex transitions.now i }
{
    let Some((first, rest)) = transitions.split_first() else {
        return true;
    };
    let mut rise = true;
    let mut last = *first;
    for next in rest {
        rise &= is_earlier(last, *next);
        last = *next;
    }
    rise
}

/// Whether the transitions of a unit rise and name one of so many types. If not,
/// `check_transitions` finds the first fault.
fn are_sound(unit: &Unit<'_>, transitions: &[Transition], types: usize) -> bool
    requires sized { IsSized unit.now }
    requires read { transitions.now ≡ Spec.transitions_of (width_of unit.now.size)
        (block_view unit.now.block) unit.now.counts.transition }
    ensures { result ≡ true → AreSound transitions.now types }
{
    are_below(unit.block.indexes, types) && all_rise(transitions)
}

/// The tables of a file.
#[derive(Drop)]
struct Tables<A: Allocator + Copy = Global> {
    transitions: Vec<Transition, A>,
    local_time_types: Vec<LocalTimeType, A>,
    leap_seconds: Vec<LeapSecond, A>,
}

/// Reads the tables.
#[inline(always)]
fn read_tables<A: Allocator + Copy>(alloc: A, unit: &Unit<'_>) -> Result<Tables<A>, TzError>
    requires { IsSized unit.now }
    ensures value { IfOk result (HasTables (unit_view unit.now)) }
    ensures ok { OnOk result (Spec.IsContent
        (block_view unit.now.block) unit.now.counts.local_type) }
    ensures err { IfErr result (λ e. (e ≡ TzError.Memory alloc_error)
        ⊎ ContentFails (block_view unit.now.block) unit.now.counts.local_type e) }
{
    let transitions = read_transitions(alloc, unit)?;
    let local_time_types = read_types(alloc, unit)?;
    let leap_seconds = read_leap_seconds(alloc, unit)?;
    check_indicators(unit)?;
    Ok(Tables {
        transitions,
        local_time_types,
        leap_seconds,
    })
}

/// Whether the first and the last byte are line feeds. A single line feed is both, and is a footer
/// without a text.
fn is_between_line_feeds(footer: &[u8]) -> bool
    ensures { MatchBool result (Spec.IsBetweenLineFeeds footer.now)
        (¬ Spec.IsBetweenLineFeeds footer.now) }
{
    footer.first() == Some(&b'\n') && footer.last() == Some(&b'\n')
}

/// Whether a zero byte is among the bytes.
fn has_zero(bytes: &[u8]) -> bool
    ensures { MatchBool result (Contains bytes.now 0) (¬ Contains bytes.now 0) }
{
    bytes.contains(&0)
}

/// Whether a text may stand in a footer: it does not begin with a colon, and has no zero byte.
fn may_be_text(text: &[u8]) -> bool
    ensures { MatchBool result (Spec.MayBeText text.now) (¬ Spec.MayBeText text.now) }
{
    text.first() != Some(&b':') && !has_zero(text)
}

/// The bytes without white space at their ends.
fn trim(bytes: &[u8]) -> &[u8]
    ensures { result.now ≡ Spec.trimmed bytes.now }
{
    bytes.trim_ascii()
}

/// The text of a footer.
fn footer_text(footer: &[u8]) -> Result<&[u8], TzFileError>
    ensures value { IfOk result (λ text. text.now ≡ Spec.trimmed footer.now) }
    ensures ok { OnOk result (Spec.IsFooter footer.now) }
    ensures err { IfErr result (FooterFails footer.now) }
{
    str::from_utf8(footer)?;
    let text = trim(footer);
    if !is_between_line_feeds(footer) || !may_be_text(text) {
        return Err(TzFileError::InvalidFooter);
    }
    Ok(text)
}

/// The rule of a footer, if its text is not empty.
#[inline(always)]
fn read_footer(footer: &[u8], extended: bool) -> Result<Option<TransitionRule>, TzError>
    ensures ok { IfOk result (Spec.IsExtraRule extended (Some footer.now)) }
    ensures err { IfErr result (ExtraRuleFails extended (Some footer.now)) }
{
    let text = footer_text(footer)?;
    if text.is_empty() {
        return Ok(None);
    }
    match parse_posix_tz(text, extended) {
        Ok(rule) => Ok(Some(rule)),
        Err(error) => Err(error),
    }
}

/// The rule of the footer's text. There is none in version 1, or if the text is empty.
#[inline(always)]
fn read_extra_rule(footer: Option<&[u8]>, extended: bool) -> Result<Option<TransitionRule>, TzError>
    ensures ok { IfOk result (Spec.IsExtraRule extended (option_copied footer.entry)) }
    ensures err { IfErr result (ExtraRuleFails extended (option_copied footer.entry)) }
{
    match footer {
        Some(footer) => read_footer(footer, extended),
        None => Ok(None),
    }
}

impl<A: Allocator + Copy> TimeZone<A> {
    /// The zone that the bytes of a TZif file denote. (RFC 8536)
    ///
    /// All parts of the file are located before anything is allocated, so a count that exceeds the
    /// file allocates nothing.
    ///
    /// What clocks show at a Unix time in the zone of a file whose bytes were read:
    ///
    /// ```rust
    /// pub fn local_time(alloc: Global, file: &[u8], unix_time: i64) -> Result<DateTime, TzError> {
    ///     let zone = TimeZone::from_tz_data(alloc, file)?;
    ///     DateTime::from_timespec(unix_time, 0, zone.as_ref())
    /// }
    /// ```
    ///
    /// # Errors
    ///
    /// - [`TzError::TzFile`] if the bytes are not a file of version 1 to 4. Headers and the lengths
    ///   of blocks are checked first, then types, then indicators, then the footer;
    /// - [`TzError::LocalTimeType`] if a record does not make a local time type;
    /// - [`TzError::TzString`], [`TzError::LocalTimeType`] or [`TzError::TransitionRule`] if the
    ///   text of the footer is not a TZ string, or does not make a rule;
    /// - [`TzError::TimeZone`] with `InvalidLeapSecond` if the version does not allow the
    ///   leap-second table, and otherwise the errors of [`TimeZone::new`], once all else is valid;
    /// - [`TzError::Memory`] if an allocation fails.
    pub fn from_tz_data(alloc: A, bytes: &[u8]) -> Result<Self, TzError>
        ensures ok { IfOk result (λ zone. Spec.IsTzFile bytes.now (own_zone_of zone)) }
        ensures only { (zone : Zone) → Spec.IsTzFile bytes.now zone
            → MatchResult result (λ made. own_zone_of made ≡ zone)
            (λ e. e ≡ TzError.Memory alloc_error) }
        ensures err { IfErr result (IsReadFault bytes.now) }
    {
        parse_tz_file(alloc, bytes)
    }
}

/// Reads a zone from the bytes of a file.
#[inline(always)]
fn parse_tz_file<A: Allocator + Copy>(alloc: A, bytes: &[u8]) -> Result<TimeZone<A>, TzError>
    ensures ok { IfOk result (λ zone. Spec.IsTzFile bytes.now (own_zone_of zone)) }
    ensures err { IfErr result (IsReadFault bytes.now) }
{
    let frame = read_frame(bytes)?;
    let tables = read_tables(alloc, &frame.unit)?;
    let extra_rule = read_extra_rule(frame.footer, is_extended(&frame.unit))?;
    if !may_hold(frame.unit.version, &tables.leap_seconds) {
        return Err(TzError::TimeZone(TimeZoneError::InvalidLeapSecond));
    }
    let types = tables.local_time_types.len();
    let are_sound = are_sound(&frame.unit, &tables.transitions, types);
    TimeZone::with_transitions(
        are_sound,
        tables.transitions,
        tables.local_time_types,
        tables.leap_seconds,
        extra_rule,
    )
}
