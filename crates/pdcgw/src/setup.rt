//! Setup files, checked for a person.

use pg_admin::{Bound, not_bound, not_read};
use pg_log::system_words;
use pg_operator::{BoundBy, line_of_key};
use pg_run::Failure;
use pg_setup::{Checked, Trouble, check_setup};
use pg_wire::Refusal;
use std::alloc::{AllocError, Global};
use std::fs;
use std::io::ErrorKind;
use std::rt::Files;

/// What would run by a setup file, or why it can't. Nothing is bound or called.
pub fn check<R: Files + Alloc<A = Global>>(rt: &R, file: &str) -> Result<Checked, Trouble> {
    let alloc = rt.alloc();
    let bytes = match fs::read(rt, file) {
        Ok(bytes) => bytes,
        Err(error) => {
            let told = not_read(alloc, file, system_words(error.kind()));
            return Err(unfit(alloc, Refusal::ReadFault, told));
        }
    };
    match str::from_utf8(bytes.as_slice()) {
        Ok(text) => check_setup(alloc, file, text),
        Err(_) => {
            let told = format!(in alloc; "{file}: is no text; a setup file is TOML in UTF-8\n");
            Err(unfit(alloc, Refusal::BadSetup, told))
        }
    }
}

/// By this refusal nothing runs, for the reason that is printed.
pub fn unfit(alloc: Global, refusal: Refusal, told: Result<String, AllocError>) -> Trouble {
    match told {
        Ok(told) => Trouble { refusal, told },
        Err(_) => Trouble {
            refusal: Refusal::NoMemory,
            told: String::new(alloc),
        },
    }
}

/// Why nothing runs by this setup file, in words. Where the service says no more than a reason, the file is looked at again.
pub fn why<R: Files + Alloc<A = Global>>(rt: &R, file: &str, failure: Failure) -> Trouble {
    let alloc = rt.alloc();
    let refusal = failure.refusal();
    let told = match &failure {
        Failure::Refused(_) => match check(rt, file) {
            // Nothing is wrong with the file itself.
            Ok(_) => Ok(String::new(alloc)),
            Err(trouble) => Ok(trouble.told),
        },
        Failure::Unfit(trouble) => String::from_str(alloc, trouble.told.as_str()),
        Failure::NotBound { by, address, kind } => {
            let line = line_in(rt, file, *by);
            let why = match (by, kind) {
                // The socket itself is made; what is not there is where.
                (BoundBy::Control, ErrorKind::NotFound) => "its folder does not exist",
                (BoundBy::Record, ErrorKind::NotFound) => "there is no such folder",
                _ => system_words(*kind),
            };
            not_bound(alloc, file, line, bound(*by), *address, why)
        }
    };
    unfit(alloc, refusal, told)
}

/// Which key of the setup it is.
fn bound(by: BoundBy) -> Bound {
    match by {
        BoundBy::Port(sub) => Bound::Port(sub.get()),
        BoundBy::Status => Bound::Status,
        BoundBy::Control => Bound::Control,
        BoundBy::Record => Bound::Record,
    }
}

/// The line of the key that can't be bound, if it can be found.
fn line_in<R: Files + Alloc<A = Global>>(rt: &R, file: &str, by: BoundBy) -> Option<usize> {
    let bytes = fs::read(rt, file).ok()?;
    match str::from_utf8(bytes.as_slice()) {
        Ok(text) => line_of_key(rt.alloc(), text, by),
        Err(_) => None,
    }
}
