//! Rules: which are refused, and what is printed.

mod consistency;

use crate::expect::expect_eq;
use std::alloc::{AllocError, Global};
use std::fmt::Debug;
use std::process::Abort;
use std::test::Fail;
use tz_rule::timezone::{LocalTimeType, MonthWeekDay, RuleDay, TransitionRule};
use tz_samples::rules::Day::{Julian0 as Z, Julian1 as J};
use tz_samples::rules::{RuleRow, rule_of};

/// The value is shown to programmers as the text.
fn expect_debug(
    rt: &impl Abort,
    alloc: Global,
    value: &impl Debug,
    text: &str,
) -> Result<(), AllocError> {
    let printed = format!(in alloc; "{value:?}")?;
    expect_eq(rt, &printed.as_str(), &text);
    Ok(())
}

/// What is printed for the rule of a test.
const PRINTED: &str = "AlternateTime { \
    std: LocalTimeType { ut_offset: 0, is_dst: false, time_zone_designation: None }, \
    dst: LocalTimeType { ut_offset: 3600, is_dst: true, time_zone_designation: Some(\"BST\") }, \
    dst_start: Julian1WithoutLeap(Julian1WithoutLeap(59)), dst_start_time: -1, \
    dst_end: Julian0WithLeap(Julian0WithLeap(0)), dst_end_time: 7200 }";

#[test]
fn values_print_their_parts(rt: HostRuntime) -> Result<(), Fail> {
    static SHOWN: RuleRow = (
        (0, false, None),
        (3600, true, Some(b"BST")),
        (J(59), -1),
        (Z(0), 7200),
    );
    let alloc = rt.alloc();
    let made = rule_of(&SHOWN)?;
    expect_debug(&rt, alloc, &made, PRINTED)?;
    let text = format!(in alloc; "Alternate({PRINTED})")?;
    expect_debug(&rt, alloc, &TransitionRule::Alternate(made), &text)?;
    let fixed = TransitionRule::Fixed(LocalTimeType::utc());
    let text = "Fixed(LocalTimeType { ut_offset: 0, is_dst: false, time_zone_designation: None })";
    expect_debug(&rt, alloc, &fixed, text)?;
    let day = RuleDay::MonthWeekDay(MonthWeekDay::new(3, 5, 0)?);
    let text = "MonthWeekDay(MonthWeekDay { month: 3, week: 5, week_day: 0 })";
    Ok(expect_debug(&rt, alloc, &day, text)?)
}
