//! The words of a program.

ghost use Rattle.std.specs.Prelude.{IfErr};
ghost use Rattle.pp_programs.specs.Printed.{IsRefusal};

use pp_devices::{Way, tell};
use pp_outside::Sink;
use std::alloc::AllocGlobal;
use std::env::{self, Env};
use std::io;

/// The words after the program's name.
///
/// # Errors
///
/// The exit status of a program whose words can't be taken: there is no memory for them, or one isn't UTF-8. Its line is told.
pub fn words<R: Env + AllocGlobal, E: Sink>(rt: &R, errs: &mut E) -> Result<Vec<String>, u8>
    ensures { IfErr result (IsRefusal E.written E.faults E.Writes errs.old errs.new) }
{
    match take(rt) {
        Ok(words) => Ok(words),
        Err(error) => {
            let way = way_without_words(error.kind());
            tell(errs, way);
            Err(way.status())
        }
    }
}

fn take<R: Env + AllocGlobal>(rt: &R) -> io::Result<Vec<String>> {
    let mut words = Vec::new(rt.alloc());
    for word in env::args(rt)?.skip(1) {
        if words.push(word).is_err() {
            return Err(io::Error::from(io::ErrorKind::OutOfMemory));
        }
    }
    Ok(words)
}

fn way_without_words(kind: io::ErrorKind) -> Way {
    if kind == io::ErrorKind::OutOfMemory {
        Way::NoMemory
    } else {
        Way::BadWords
    }
}
