//! The program: reads a trace or a listing on standard input, and writes what is asked of it to standard output.
#![tactic(auto)]

use gpl_edge::{NoGate, Sink, Source, StdSink, StdSource};
use gpl_play::{run, run_still, status, text_fault_line, text_run};
use std::alloc::{AllocError, Global};
use std::io::Write;
use std::process::ExitCode;
use std::sync::Wait;
use std::thread::Threads;
use std::{env, io};
use trace_text::{fault_line, memory_line, read_line, usage_line, write_line};

/// The forms of words, below the line that says that there was none.
const FORMS: &[u8] = b"gplrun play|check|links|text < TRACE\ngplrun assemble < LISTING\n";

/// How a call ended: its status, and the line that says what is wrong with the bytes.
type Ended = (u8, Option<Result<Vec<u8>, AllocError>>);

fn main(rt: HostRuntime) -> ExitCode {
    let Ok(words) = words(&rt, rt.alloc()) else {
        let _ = rt.stderr().write_all(memory_line());
        return ExitCode::from(status::NO_MEMORY);
    };
    let mut source = StdSource::new(rt.stdin());
    let mut sink = StdSink::new(rt.stdout());
    let (status, fault) = called(&rt, rt.alloc(), &words, &mut source, &mut sink);
    let _ = report(&rt, status, fault);
    ExitCode::from(status)
}

/// The program's words without its name.
fn words(rt: &HostRuntime, alloc: Global) -> io::Result<Vec<String>> {
    let mut words = Vec::new(alloc);
    for word in env::args(rt)?.skip(1) {
        words.push(word)?;
    }
    Ok(words)
}

/// Whether the first word is that of a call between modules and text.
fn is_text(first: &str) -> bool {
    first == "text" || first == "assemble"
}

/// Whether the first word is that of a call that no other thread takes part in.
fn is_still(first: &str) -> bool {
    first == "check" || first == "links"
}

/// Makes the call that the first word names.
fn called<R: Threads + Wait + Sync, S: Source, K: Sink>(
    rt: &R,
    alloc: Global,
    words: &Vec<String>,
    source: &mut S,
    sink: &mut K,
) -> Ended {
    let first = match words.as_slice() {
        [first, ..] => first.as_str(),
        [] => "",
    };
    if is_text(first) {
        let outcome = text_run(alloc, words, source, sink);
        let fault = outcome.fault.map(|it| text_fault_line(alloc, &it));
        return (outcome.status, fault);
    }
    let outcome = if is_still(first) {
        run_still(alloc, words, source, sink)
    } else {
        run(rt, alloc, words, source, sink, &NoGate)
    };
    let fault = outcome.fault.map(|it| fault_line(alloc, &it));
    (outcome.status, fault)
}

/// Says on standard error what kept a call from its end.
fn report(
    rt: &HostRuntime,
    status: u8,
    fault: Option<Result<Vec<u8>, AllocError>>,
) -> io::Result<()> {
    let mut stderr = rt.stderr();
    match fault {
        Some(Ok(line)) => return stderr.write_all(line.as_slice()),
        Some(Err(_)) => return stderr.write_all(memory_line()),
        None => {}
    }
    match status {
        status::USAGE => {
            stderr.write_all(usage_line())?;
            stderr.write_all(FORMS)
        }
        status::READ_FAILED => stderr.write_all(read_line()),
        status::WRITE_FAILED => stderr.write_all(write_line()),
        status::NO_MEMORY => stderr.write_all(memory_line()),
        _ => Ok(()),
    }
}
