//! Answers the lines of `stdin` over the zone of a TZ string, that of Lord Howe, as `tzq -z` does.
#![tactic(auto)]

use std::process::ExitCode;
use tz::timezone;
use tz_query::query;

fn main(rt: HostRuntime) -> ExitCode {
    let arguments = ["-z", "<+1030>-10:30<+11>-11,M10.1.0,M4.1.0"];
    let reader = |path: &str| timezone::read_file(&rt, rt.alloc(), path);
    let (mut input, mut out, mut err) = (rt.stdin(), rt.stdout(), rt.stderr());
    let status = query::tool(
        rt.alloc(),
        &arguments,
        reader,
        &mut input,
        &mut out,
        &mut err,
    );
    ExitCode::from(status)
}
