//! The parts of UTC's zone, in statics.
//!
//! A static holds no type with a model. So the statics are of plain types whose fields lie as those
//! of the types with a model do, and are lent as these.

ghost use Rattle.std.specs.Prelude.{◌≡◌, [], ◌∷◌, false, pos};
ghost use Rattle.tz_rule.specs.KeptDesignation.{kept};
ghost use Rattle.tz_rule.specs.LocalTimeType.{plain_type};

use super::local_time_type::Designation;
use super::year_table::YearTable;
use super::{LocalTimeType, TransitionRule};
use std::slice;

/// The fields of a local time type.
#[repr(C)]
struct TypeFields {
    ut_offset: i32,
    is_dst: bool,
    time_zone_designation: Designation,
}

static UTC_TYPE: TypeFields = TypeFields {
    ut_offset: 0,
    is_dst: false,
    time_zone_designation: Designation {
        bytes: [0; 7],
        len: 0,
    },
};

/// The list that has UTC's type alone.
pub fn utc_types() -> &'static [LocalTimeType]
    ensures { result.now ≡ plain_type (pos 0) ∷ [] }
{
    slice::from_ref(utc_type(&UTC_TYPE))
}

/// UTC's type, from its fields.
fn utc_type(fields: &TypeFields) -> &LocalTimeType
    requires { fields.now ≡ record {
      ut_offset = pos 0;
      is_dst = false;
      time_zone_designation =
          kept None;
    } }
    ensures { result.now ≡ plain_type (pos 0) }
{
    unsafe { &*(fields as *const TypeFields as *const LocalTimeType) }
}

/// The fields of a rule day's number.
struct NumberFields(u16);

/// The fields of a week day of a month.
struct MonthWeekDayFields {
    month: u8,
    week: u8,
    week_day: u8,
}

/// The fields of a rule day.
enum RuleDayFields {
    Julian1WithoutLeap(NumberFields),
    Julian0WithLeap(NumberFields),
    MonthWeekDay(MonthWeekDayFields),
}

/// The fields of a rule day's numbers.
#[repr(C)]
struct DayDataFields {
    number: u16,
    kind: u8,
    month: u8,
    week: u8,
    week_day: u8,
}

/// The fields of an alternate rule's parts.
#[repr(C)]
struct PartsFields {
    std: TypeFields,
    dst: TypeFields,
    dst_start: DayDataFields,
    dst_start_time: i32,
    dst_end: DayDataFields,
    dst_end_time: i32,
}

/// The fields of the data of an alternate rule.
#[repr(C)]
struct AlternateDataFields {
    parts: PartsFields,
    ends_next_year: bool,
    has_inner_switches: bool,
    starts: YearTable,
    ends: YearTable,
}

/// The fields of an alternate rule.
struct AlternateFields {
    rule: AlternateDataFields,
    dst_start: RuleDayFields,
    dst_end: RuleDayFields,
}

/// The fields of a rule.
enum RuleFields {
    Fixed(TypeFields),
    Alternate(AlternateFields),
}

static NO_RULE: Option<RuleFields> = None;

/// No extra rule.
pub fn no_rule() -> &'static Option<TransitionRule>
    ensures { result.now ≡ None }
{
    no_rule_of(&NO_RULE)
}

/// No extra rule, from its fields.
fn no_rule_of(fields: &Option<RuleFields>) -> &Option<TransitionRule>
    requires { fields.now ≡ None }
    ensures { result.now ≡ None }
{
    unsafe { &*(fields as *const Option<RuleFields> as *const Option<TransitionRule>) }
}
