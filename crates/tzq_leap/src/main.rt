//! Answers the lines of `stdin` over the zone of a file with leap seconds, as `tzq -f` does.
#![tactic(auto)]

use std::process::ExitCode;
use tz::timezone;
use tz_query::query;

fn main(rt: HostRuntime) -> ExitCode {
    let arguments = ["-f", "leap"];
    let reader = |path: &str| timezone::read_file(&rt, rt.alloc(), path);
    let (mut input, mut out, mut err) = (rt.stdin(), rt.stdout(), rt.stderr());
    let status = query::tool(
        rt.alloc(),
        &arguments,
        reader,
        &mut input,
        &mut out,
        &mut err,
    );
    ExitCode::from(status)
}
