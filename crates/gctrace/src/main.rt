//! Carries out a trace of heap commands: the trace is standard input, what it prints standard output, and a fault one
//! line on standard error.
#![tactic(auto)]

use heap_text::Counted;
use std::io::{Stderr, Stdin, Stdout};
use std::process::ExitCode;
use trace_driver::{CountedReader, main_of};

fn main(rt: HostRuntime) -> ExitCode {
    let mut reader = CountedReader::new(rt.stdin());
    let mut writer = Counted::new(rt.stdout());
    let mut errors = Counted::new(rt.stderr());
    // No other stream is taken for one of these, and nothing that keeps bytes back.
    main_of::<HostRuntime, CountedReader<Stdin>, Counted<Stdout>, Counted<Stderr>>(
        &rt,
        &mut reader,
        &mut writer,
        &mut errors,
    )
}
