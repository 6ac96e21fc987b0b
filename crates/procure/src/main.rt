//! `procure`: a public procurement office on the command line.
#![tactic(auto)]

use procure_config::fault::ProgramFault;
use procure_config::job::job_of;
use procure_config::telling::tell;
use procure_programs::faults::no_memory;
use procure_programs::jobs::run_job;
use std::env;
use std::io::ErrorKind;
use std::process::ExitCode;

// The product's version: that of the newest entry of CHANGELOG.md. A package has a launcher that prints the commit too (debian/launcher.in).
const VERSION: &str = "0.5.1";

// The words of the command line. Words that aren't UTF-8 name no job.
fn words_of(rt: &HostRuntime) -> Result<Vec<String>, ProgramFault> {
    match env::args(rt) {
        Ok(args) => {
            let mut words = Vec::new(rt.alloc());
            for word in args {
                if words.push(word).is_err() {
                    return Err(no_memory());
                }
            }
            Ok(words)
        }
        Err(error) => match error.kind() {
            ErrorKind::OutOfMemory => Err(no_memory()),
            _ => Ok(Vec::new(rt.alloc())),
        },
    }
}

// The words are read first. Then the job is done for which they ask.
fn work(rt: &HostRuntime) -> Result<(), ProgramFault> {
    let words = words_of(rt)?;
    let job = job_of(rt.alloc(), VERSION, words.as_slice())?;
    run_job(rt, &job)
}

fn main(rt: HostRuntime) -> ExitCode {
    match work(&rt) {
        Ok(()) => ExitCode::SUCCESS,
        Err(fault) => {
            // If the standard error is closed, only the status reports the fault.
            let (status, _is_told) = tell(&mut rt.stderr(), &fault);
            ExitCode::from(status)
        }
    }
}
