//! The labels of another tool, with which a forecast is compared. They come from a reader of their own.
//! A contract sees what was asked for before they were read and after it, and what the reader has left.
ghost use Rattle.std.specs.Prelude.{◌≡◌, option_map};
ghost use Rattle.ele_invocation.specs.Invocation.{IsRefusal};
ghost use Rattle.ele_words.specs.Labels.{IsWithLabels, labels_file};

use crate::evidence::read_all;
use ele_invocation::Invocation;
use ele_runs::ShellFault;
use std::alloc::{AllocError, Global};
use std::io::Read;

const UNREAD: &str = "error: --against: the file can't be read\n";

/// Returns the name of the file with the labels of another tool, if a forecast is compared with them.
pub fn labels_file(invocation: &Invocation) -> Option<&str>
    ensures { option_map (λ name. name.now) result ≡ labels_file invocation.now }
{
    match invocation {
        Invocation::Forecast(_, Some(name)) => Some(name.as_str()),
        _ => None,
    }
}

/// Reads all of these labels, and returns the forecast with them. It is a refusal if they can't be read. What isn't a
/// forecast stays as it is, and nothing is read.
pub fn with_labels<R: Read>(alloc: Global, invocation: Invocation, labels: &mut R) -> Invocation
    ensures { IsWithLabels invocation (R.remaining labels.old) (R.remaining labels.new) result }
{
    match invocation {
        Invocation::Forecast(mut ask, file) => match read_all(alloc, labels) {
            Ok(text) => {
                ask.others = text;
                Invocation::Forecast(ask, file)
            }
            Err(fault) => unread(alloc, fault),
        },
        other => other,
    }
}

// Returns the refusal of labels whose reader failed so.
fn unread(alloc: Global, fault: ShellFault) -> Invocation
    ensures { IsRefusal result }
{
    match fault {
        ShellFault::NoMemory => Invocation::NoMemory,
        _ => refused(String::from_str(alloc, UNREAD)),
    }
}

// Returns a refusal with this text, or for want of memory.
fn refused(text: Result<String, AllocError>) -> Invocation
    ensures { IsRefusal result }
{
    match text {
        Ok(text) => Invocation::NotUnderstood(text),
        Err(_) => Invocation::NoMemory,
    }
}

/// Returns the refusal of a file of labels with this name, which can't be opened.
pub fn unreadable_labels(alloc: Global, name: &str) -> Invocation
    ensures { IsRefusal result }
{
    refused(unreadable_message(alloc, name))
}

// Returns the message for a file with this name.
fn unreadable_message(alloc: Global, name: &str) -> Result<String, AllocError> {
    format!(in alloc; "error: --against: {name} can't be opened\n")
}
