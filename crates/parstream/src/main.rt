//! `parstream [--group COLUMNS] --agg ITEMS ..` answers a query over the comma-separated bytes of the standard input,
//! whatever their length; `--help`, `-h` and `--version` are answered on the standard output. A word that is not
//! understood, and an input that is compressed or no text, are named by a line on the standard error. `parstream combine`
//! and `parstream finalize` put files of partial states together, which `parstream partial` makes.
//!
//! This file is only the edge to the system: it hands the words and the standard streams to the libraries `input_hints`,
//! `shown_stream`, `state_partial` and `state_forms`, whose contracts say what the answer is, and ends with the status
//! that it gets.

#![tactic(auto)]

mod progress;

use input_hints::{Peeked, asked_of, refuse_input, refuse_words, tell};
use par_io::{StdSink, StdSource};
use par_stream::{NO_MEMORY, Separated, WINDOW_BYTES, say_usage};
use progress::ProgressLine;
use shown_stream::{refuse_options, shown_good, shown_input, shown_table, skip_of, take_options};
use state_forms::{form_of, run_form};
use state_partial::{part_words, partial_states};
use std::env::Env;
use std::io::ErrorKind;
use std::process::ExitCode;
use std::{env, io};
use tile_source::TileSource;

/// The words after the program's name; none of them if one is not UTF-8.
fn words(rt: &HostRuntime) -> io::Result<Option<Vec<String>>> {
    let mut words = Vec::new(rt.alloc());
    match env::args(rt) {
        Ok(args) => {
            for word in args.skip(1) {
                words.push(word)?;
            }
            Ok(Some(words))
        }
        Err(e) if e.kind() == ErrorKind::InvalidData => Ok(None),
        Err(e) => Err(e),
    }
}

fn main(rt: HostRuntime) -> ExitCode {
    let Ok(words) = words(&rt) else {
        let _ = eprintln!(rt; "parstream: out of memory");
        return ExitCode::from(NO_MEMORY);
    };
    let mut err = StdSink::new(rt.stderr());
    let Some(words) = words else {
        return ExitCode::from(say_usage(&mut err));
    };
    let mut out = StdSink::new(rt.stdout());
    if let Some(asked) = asked_of(words.as_slice()) {
        return ExitCode::from(tell(asked, &mut out, &mut err));
    }
    if let Some(form) = form_of(words.as_slice()) {
        let mut source = StdSource::new(rt.stdin());
        let status = run_form(
            &rt,
            rt.alloc(),
            form,
            words.as_slice(),
            &mut source,
            &mut out,
            &mut err,
        );
        return ExitCode::from(status);
    }
    if let Some(asked) = part_words(words.as_slice()) {
        let mut peeked = Peeked::new(StdSource::new(rt.stdin()));
        if let Some(status) = refuse_input(&mut peeked, &mut err) {
            return ExitCode::from(status);
        }
        let mut source = TileSource::new(Separated::new(peeked));
        let status = partial_states(
            &rt,
            rt.alloc(),
            asked,
            &mut source,
            &mut out,
            &mut err,
            WINDOW_BYTES,
            &mut ProgressLine::new(&rt, rt.stderr()),
        );
        return ExitCode::from(status);
    }
    let Ok(taken) = take_options(rt.alloc(), words.as_slice()) else {
        let _ = eprintln!(rt; "parstream: out of memory");
        return ExitCode::from(NO_MEMORY);
    };
    if let Some(status) = refuse_words(rt.alloc(), taken.rest.as_slice(), &mut err) {
        return ExitCode::from(status);
    }
    if let Some(status) = refuse_options(rt.alloc(), &taken, &mut err) {
        return ExitCode::from(status);
    }
    let mut source = Peeked::new(StdSource::new(rt.stdin()));
    if let Some(status) = refuse_input(&mut source, &mut err) {
        return ExitCode::from(status);
    }
    let Ok(mut source) = shown_input(rt.alloc(), &taken, source) else {
        let _ = eprintln!(rt; "parstream: out of memory");
        return ExitCode::from(NO_MEMORY);
    };
    let mut progress = ProgressLine::new(&rt, rt.stderr());
    let status = if skip_of(&taken) == 0 {
        shown_table(
            &rt,
            rt.alloc(),
            &taken,
            &mut source,
            &mut out,
            &mut err,
            WINDOW_BYTES,
            &mut progress,
        )
    } else {
        shown_good(
            &rt,
            rt.alloc(),
            &taken,
            &mut source,
            &mut out,
            &mut err,
            WINDOW_BYTES,
            &mut progress,
        )
    };
    ExitCode::from(status)
}
