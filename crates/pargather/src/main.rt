//! `pargather [--group COLUMNS] --agg ITEMS ..` answers a query over the comma-separated bytes of the standard input.
//!
//! This file is only the edge to the system: it hands the words, the standard streams and an open gate to the library
//! `par_gather`, whose contract says what the answer is, and ends with the status that it gets.

#![tactic(auto)]

use par_gather::{NO_MEMORY, answer, say_usage};
use par_io::{StdSink, StdSource};
use std::env::Env;
use std::io::ErrorKind;
use std::process::ExitCode;
use std::{env, io};

/// The longest of the first words that name a form.
const LONGEST_NAME: usize = 5;

/// The words after the program's name; none of them if one is not UTF-8.
fn words(rt: &HostRuntime) -> io::Result<Option<Vec<String>>> {
    let mut words = Vec::new(rt.alloc());
    match env::args(rt) {
        Ok(args) => {
            for word in args.skip(1) {
                words.push(word)?;
            }
            Ok(Some(words))
        }
        Err(e) if e.kind() == ErrorKind::InvalidData => Ok(None),
        Err(e) => Err(e),
    }
}

/// Only the first word, if it is as short as the name of a form.
fn first_word(rt: &HostRuntime) -> io::Result<Vec<String>> {
    let mut bytes = [0; LONGEST_NAME];
    let mut words = Vec::new(rt.alloc());
    if let Ok(len) = rt.arg(1, &mut bytes) {
        if let Ok(word) = str::from_utf8(&bytes[..len]) {
            words.push(String::from_str(rt.alloc(), word)?)?;
        }
    }
    Ok(words)
}

/// Says that there was no memory.
fn no_memory(rt: &HostRuntime) -> ExitCode {
    let _ = eprintln!(rt; "pargather: out of memory");
    ExitCode::from(NO_MEMORY)
}

fn main(rt: HostRuntime) -> ExitCode {
    let Ok(words) = words(&rt) else {
        return no_memory(&rt);
    };
    let Some(words) = words else {
        let Ok(words) = first_word(&rt) else {
            return no_memory(&rt);
        };
        let status = say_usage(words.as_slice(), &mut StdSink::new(rt.stderr()));
        return ExitCode::from(status);
    };
    let status = answer(
        &rt,
        rt.alloc(),
        words.as_slice(),
        &mut StdSource::new(rt.stdin()),
        &mut StdSink::new(rt.stdout()),
        &mut StdSink::new(rt.stderr()),
    );
    ExitCode::from(status)
}
