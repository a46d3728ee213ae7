//! Answers query lines about date times: `tzq -o OFFSET` over the zone with this offset from UTC in
//! seconds, `tzq -f FILE` over that of a TZif file, `tzq -z STRING` over that of a TZ string.
#![tactic(auto)]

use std::env;
use std::process::ExitCode;
use tz::timezone;
use tz_query::query;

/// The arguments after the program's name, or none where they cannot be had.
fn arguments_of(rt: &HostRuntime) -> Vec<String> {
    match env::args(rt) {
        Ok(args) => args
            .skip(1)
            .collect(rt.alloc())
            .unwrap_or(Vec::new(rt.alloc())),
        Err(_) => Vec::new(rt.alloc()),
    }
}

fn main(rt: HostRuntime) -> ExitCode {
    let arguments = arguments_of(&rt);
    let texts: Vec<&str> = arguments
        .iter()
        .map(|argument| argument.as_str())
        .collect(rt.alloc())
        .unwrap_or(Vec::new(rt.alloc()));
    let reader = |path: &str| timezone::read_file(&rt, rt.alloc(), path);
    let (mut input, mut out, mut err) = (rt.stdin(), rt.stdout(), rt.stderr());
    let status = query::tool(rt.alloc(), &texts, reader, &mut input, &mut out, &mut err);
    ExitCode::from(status)
}
