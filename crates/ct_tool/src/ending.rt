//! How commands end.

use ct_streams::{Fault, Status, unless_broken};
use std::fmt::Display;
use std::process::ExitCode;

// Prints the line, and ends with the status. Where standard error fails too, the status alone tells of a fault.
pub(crate) fn close<D: Display + Drop>(rt: &HostRuntime, line: D, status: u8) -> ExitCode {
    let _ = eprintln!(rt; "{line}");
    ExitCode::from(status)
}

// Ends with the fault's line and status.
pub(crate) fn refuse<F: Fault + Display + Drop>(rt: &HostRuntime, fault: F) -> ExitCode {
    let status = fault.status();
    close(rt, fault, status)
}

// What was asked for; else the program ends with the fault.
pub(crate) fn done<T, F: Fault + Display + Drop>(
    rt: &HostRuntime,
    ended: Result<T, F>,
) -> Result<T, ExitCode> {
    match ended {
        Ok(done) => Ok(done),
        Err(fault) => Err(refuse(rt, fault)),
    }
}

// The same of a command that wrote; None where nobody reads any more what it wrote, so where the write that failed was one into a pipe
// without a reader.
pub(crate) fn written<T, F: Fault + Display + Drop>(
    rt: &HostRuntime,
    ended: Result<T, F>,
    is_broken: bool,
) -> Result<Option<T>, ExitCode> {
    done(rt, unless_broken(ended, is_broken))
}

// The same of a search; `starts` is whether the run without steps shows what it was for.
pub(crate) fn searched<T, F: Fault + Display + Drop>(
    rt: &HostRuntime,
    ended: Result<T, F>,
    is_broken: bool,
    starts: bool,
) -> Result<Option<T>, ExitCode> {
    match unless_broken(ended, is_broken) {
        Ok(found) => Ok(found),
        Err(fault) => Err(miss(rt, fault, starts)),
    }
}

// Ends with the fault's line and status. Where nothing was found, though the run without steps shows it, that is told behind it.
pub(crate) fn miss<F: Fault + Display + Drop>(
    rt: &HostRuntime,
    fault: F,
    starts: bool,
) -> ExitCode {
    let is_missed = fault.status() == Status::Refused.code();
    let code = refuse(rt, fault);
    if is_missed && starts {
        let _ = eprintln!(rt; "the run without steps shows it");
    }
    code
}
