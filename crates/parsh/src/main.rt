//! `parsh [--pages N]` answers each line of the script on the standard input.
//!
//! This file is only the edge to the system: it hands the words and the standard streams to the library `par_shell`,
//! whose contract says what the answers are, and ends with the status that it gets.

#![tactic(auto)]

use par_io::{StdSink, StdSource};
use par_shell::{NO_MEMORY, parsh};
use std::io::ErrorKind;
use std::process::ExitCode;
use std::{env, io};

/// The words after the program's name. If one is not UTF-8 there is one empty word, which is none that the program
/// takes.
fn words(rt: &HostRuntime) -> io::Result<Vec<String>> {
    let mut words = Vec::new(rt.alloc());
    match env::args(rt) {
        Ok(args) => {
            for word in args.skip(1) {
                words.push(word)?;
            }
        }
        Err(e) if e.kind() == ErrorKind::InvalidData => words.push(String::new(rt.alloc()))?,
        Err(e) => return Err(e),
    }
    Ok(words)
}

fn main(rt: HostRuntime) -> ExitCode {
    let Ok(words) = words(&rt) else {
        let _ = eprintln!(rt; "parsh: out of memory");
        return ExitCode::from(NO_MEMORY);
    };
    let status = parsh(
        &rt,
        rt.alloc(),
        words.as_slice(),
        &mut StdSource::new(rt.stdin()),
        &mut StdSink::new(rt.stdout()),
        &mut StdSink::new(rt.stderr()),
        &mut None,
    );
    ExitCode::from(status)
}
