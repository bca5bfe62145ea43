//! `jobcard [FILE]`: works the script in FILE, or on standard input.
#![tactic(auto)]

use session::run::work;
use std::process::ExitCode;
use std::{env, fs};

/// Works the script that the words of the call name.
fn work_call(rt: &HostRuntime) -> anyhow::Result<ExitCode> {
    let mut args = env::args(rt)?;
    let _program = args.next();
    let Some(path) = args.next() else {
        return Ok(work(rt, "jobcard", rt.stdin())?);
    };
    if args.next().is_some() {
        eprintln!(rt; "jobcard: too many words: write jobcard or jobcard FILE")?;
        return Ok(ExitCode::FAILURE);
    }
    match fs::open(rt, path.as_str()) {
        Ok(file) => Ok(work(rt, "jobcard", file)?),
        Err(error) => {
            eprintln!(rt;
                "jobcard: cannot read the script {path}: {error}: name a file that can be read"
            )?;
            Ok(ExitCode::FAILURE)
        }
    }
}

fn main(rt: HostRuntime) -> ExitCode {
    match work_call(&rt) {
        Ok(status) => status,
        Err(error) => {
            let _told = eprintln!(rt; "jobcard: {error}");
            ExitCode::FAILURE
        }
    }
}
