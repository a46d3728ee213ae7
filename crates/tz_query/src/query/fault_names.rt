//! The names of errors in answers.

ghost use Rattle.std.specs.Prelude.{◌≡◌, ◌≤◌, ℕ, List, length};
ghost use Rattle.tz_query.specs.Answers.{IsFaultText, field_fault_text};

use tz::TzError;
use tz::error::datetime::DateTimeError;

/// The name of an error in fields.
pub(super) fn field_fault_name(fault: &DateTimeError) -> &'static str
    ensures text { result.now ≡ field_fault_text fault.now }
    ensures len { length result.now ≤ 24 }
{
    match fault {
        DateTimeError::InvalidMonth => "InvalidMonth",
        DateTimeError::InvalidMonthDay => "InvalidMonthDay",
        DateTimeError::InvalidHour => "InvalidHour",
        DateTimeError::InvalidMinute => "InvalidMinute",
        DateTimeError::InvalidSecond => "InvalidSecond",
        DateTimeError::InvalidNanoseconds => "InvalidNanoseconds",
    }
}

/// The name of an error, as in an answer.
pub(super) fn fault_name(error: &TzError) -> &'static str
    requires { (text : List ℕ) × IsFaultText error.now text }
    ensures text { IsFaultText error.now result.now }
    ensures len { length result.now ≤ 24 }
{
    match error {
        TzError::DateTime(fault) => field_fault_name(fault),
        TzError::OutOfRange => "OutOfRange",
        TzError::NoAvailableLocalTimeType => "NoAvailableLocalTimeType",
        _ => unreachable!(),
    }
}
