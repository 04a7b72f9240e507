//! The program `elephant`. `elephant run` reads a script from standard input and writes its answers
//! to standard output. `elephant storm` lets many threads call one core, and audits it. `elephant
//! forecast` reads when a file closed, and prints what becomes of its versions. `elephant evidence`
//! prints the history of a script as a text that `elephant verify` runs again.
#![tactic(auto)]

use ele_core::Core;
use ele_model::Limits;
use ele_output::Printer;
use ele_words::{
    Cleared, Counted, Invocation, KeepsError, Meter, dispatch, labels_file, now, run_typed,
    unreadable_args, unreadable_labels, with_labels, words,
};
use std::fs::File;
use std::io::{IsTerminal, Write};
use std::process::ExitCode;

const GREETING: &str = "elephant: each line is answered as it comes, and Ctrl-D ends the run; \
    'elephant help script' tells the commands\n";

const DIALOG_GREETING: &str =
    "elephant: each line is answered as it comes, and Ctrl-D ends the run; \
    'help' tells the commands, and 'help create' explains one\n";

// What the arguments ask for.
fn asked_for(rt: &HostRuntime) -> Invocation {
    match std::env::args(rt) {
        Ok(arguments) => match arguments.collect::<Vec<String>>(rt.alloc()) {
            Ok(arguments) => words(rt.alloc(), now(rt), arguments.as_slice()),
            Err(_) => Invocation::NoMemory,
        },
        Err(error) => unreadable_args(rt.alloc(), error.kind()),
    }
}

// What is asked for, with the labels of another tool if a file of these is named.
fn with_file(rt: &HostRuntime, invocation: Invocation) -> Invocation {
    let Some(name) = labels_file(&invocation) else {
        return invocation;
    };
    match File::open(rt, name) {
        Ok(mut file) => with_labels(rt.alloc(), invocation, &mut file),
        Err(_) => unreadable_labels(rt.alloc(), name),
    }
}

// Each option that helps who types a run: numbers with reasons, remarks and explanations.
fn for_terminal(invocation: Invocation) -> Invocation {
    match invocation {
        Invocation::Run(limits, mut options) => {
            options.numbers = true;
            options.remarks = true;
            options.explain = true;
            Invocation::Run(limits, options)
        }
        other => other,
    }
}

// Whether a person types the input and reads the answers.
fn is_typed(rt: &HostRuntime) -> bool {
    rt.stdin().is_terminal() && rt.stdout().is_terminal()
}

// The limits of a run that is a dialog: a person types the input and reads the answers, and wants
// neither that a line ends the run nor the numbers of lines.
fn dialog_limits(rt: &HostRuntime, invocation: &Invocation) -> Option<Limits> {
    match invocation {
        Invocation::Run(limits, options) => {
            (is_typed(rt) && !options.strict && !options.numbers).then_some(*limits)
        }
        _ => None,
    }
}

// Greets on standard error if the script of a run is typed at a terminal.
fn greet(rt: &HostRuntime, invocation: &Invocation, is_dialog: bool) {
    if matches!(invocation, Invocation::Run(_, _)) && rt.stdin().is_terminal() {
        let greeting = if is_dialog { DIALOG_GREETING } else { GREETING };
        let _ = rt.stderr().write_all(greeting.as_bytes());
    }
}

// Whether what is asked for reads lines from standard input.
fn reads_lines(invocation: &Invocation) -> bool {
    matches!(
        invocation,
        Invocation::Run(_, _)
            | Invocation::Forecast(_, _)
            | Invocation::Evidence
            | Invocation::Verify
    )
}

// Whether what is asked for shows its progress: at a terminal, if nobody types the input.
fn is_metered(rt: &HostRuntime, invocation: &Invocation) -> bool {
    reads_lines(invocation) && rt.stderr().is_terminal() && !rt.stdin().is_terminal()
}

fn main(rt: HostRuntime) -> ExitCode {
    let mut invocation = with_file(&rt, asked_for(&rt));
    let dialog = dialog_limits(&rt, &invocation);
    greet(&rt, &invocation, dialog.is_some());
    if is_typed(&rt) {
        invocation = for_terminal(invocation);
    }
    let watched = rt.stderr().is_terminal();
    let meter = Meter::new(&rt, rt.stderr());
    let is_metered = is_metered(&rt, &invocation);
    // Output to the same terminal replaces the progress. Other output is counted.
    let replaces = is_metered && rt.stdout().is_terminal();
    let counts = is_metered && !replaces;
    let mut input = KeepsError::new(Counted::new(rt.stdin(), is_metered.then_some(&meter)));
    let output = Cleared::new(rt.stdout(), replaces.then_some(&meter));
    let mut output = KeepsError::new(Counted::new(output, counts.then_some(&meter)));
    let mut faults = Cleared::new(rt.stderr(), is_metered.then_some(&meter));
    let mut errors = Printer::new(&mut faults);
    let mut progress = rt.stderr();
    let status = match dialog {
        Some(limits) => run_typed::<Core, _, _, _>(
            rt.alloc(),
            limits,
            &mut input,
            &mut output,
            &mut errors,
        ),
        None => dispatch::<Core, _, _, _, _, _>(
            &rt,
            rt.alloc(),
            &invocation,
            watched,
            &mut input,
            &mut output,
            &mut progress,
            &mut errors,
        ),
    };
    meter.clear();
    ExitCode::from(status)
}
