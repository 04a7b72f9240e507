//! The help on evidence, whose commands have no arguments.

/// What `elephant evidence` does, in one line.
pub(crate) const EVIDENCE: &str = "Run a script, and print its history as evidence";

/// The rest of its help.
pub(crate) const EVIDENCE_MORE: &str = "\
Standard input has a script, as for 'elephant run'. Remarks and empty lines are
passed over. The evidence has each event with its answer, and below both the
SHA-256 of them and of the hash above. So the last hash, noted down elsewhere,
shows whether a line was changed, left out or added since. A bad line, or one
that is stopped, ends the program with status 2 before anything is printed.

Example:
  elephant evidence < script > history.txt";

/// What `elephant verify` does, in one line.
pub(crate) const VERIFY: &str = "Check that a text is evidence, by running it again";

/// The rest of its help.
pub(crate) const VERIFY_MORE: &str = "\
Standard input has what 'elephant evidence' printed. Its events are run again,
and each answer and each hash is compared. If all are right the program prints
'ok verified', the number of events and the last hash. Otherwise it exits with
status 1, and standard error has the first line that is wrong, and why.
Compare the last hash with one that you noted down: anyone can make evidence
of another history.

Example:
  elephant verify < history.txt";
