//! Answers the lines of standard input on standard output.
#![tactic(auto)]

use borsh::io::{StdReader, StdWriter};
use borsh_check_lines::{finish, run};
use std::process::ExitCode;

/// How often each standard stream may be interrupted.
const INTERRUPTIONS: u32 = 1000;

fn main(rt: HostRuntime) -> ExitCode {
    let mut reader = StdReader::new(rt.stdin(), INTERRUPTIONS);
    let mut writer = StdWriter::new(rt.stdout(), INTERRUPTIONS);
    let outcome = run(rt.alloc(), &mut reader, &mut writer);
    let mut errors = StdWriter::new(rt.stderr(), INTERRUPTIONS);
    ExitCode::from(finish(&outcome, &mut errors))
}
