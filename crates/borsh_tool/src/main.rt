//! The command-line tool `borsh`: what a schema container says, and what bytes mean by it.
#![tactic(auto)]

mod words;

use borsh_tool_commands::run;
use std::io::IsTerminal;
use std::process::ExitCode;
use words::words_of;

fn main(rt: HostRuntime) -> ExitCode {
    let words = match words_of(&rt) {
        Ok(Some(words)) => words,
        Ok(None) => return ExitCode::from(2),
        Err(error) => {
            let _told = rt.eprintln(format_args!("borsh: {error}"));
            return ExitCode::from(2);
        }
    };
    let is_terminal = rt.stdout().is_terminal();
    let is_watched = rt.stderr().is_terminal();
    ExitCode::from(run(&rt, words.as_slice(), is_terminal, is_watched, rt.stdout()))
}
