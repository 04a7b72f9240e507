//! A run over a history: its options, the number of its lines and their tally.
//! A contract sees it as the state of the run, without the reasons that it wrote.
ghost use Rattle.std.specs.Prelude.{◌≡◌, ◌+◌, ◌<◌, ◌≤◌, ◌^◌, false, List, ℕ, IfOk};
ghost use Rattle.std.specs.Option.{option_map};
ghost use Rattle.ele_history.specs.Past.{fresh};
ghost use Rattle.ele_output.specs.Outlet.{Outlet, Outputs};
ghost use Rattle.ele_output.specs.Prints.{outlet};
ghost use Rattle.ele_runs.specs.RunState.{begun, counted, no_printer, noting};
ghost use Rattle.ele_runs.specs.Tally.{cut_tallied};
ghost use Rattle.ele_runs.specs.Note.{IsNoted, cut_note};
ghost use Rattle.ele_runs.specs.Block.{IsTextIn};
ghost use Rattle.ele_runs.specs.Written.{AsksEventIn, HearsNext, PutsBlock, event_said};

use crate::line_buffer::LineBuffer;
use crate::note::{report_why, why_bad, why_cut};
use crate::said::{
    Said, asked_event, event_outcome, hear_kept, last_reply, put_event_answer, put_number_front,
    record_event,
};
use crate::tally::{Outcome, Tally};
use ele_history::History;
use ele_model::{Event, Explain, FromFlat, Limits, Stop};
use ele_moment::NoMemory;
use ele_output::Printer;
use ele_run_options::RunOptions;
use std::alloc::Global;
use std::io::Write;
use std::marker::Model;
use std::mem;

/// A run over a history: its options, the number of its lines and their tally.
#[derive(Drop)]
pub(crate) struct Runner<C: Explain + FromFlat> {
    alloc: Global,
    history: History<C>,
    options: RunOptions,
    lines: u64,
    has_ended: bool,
    tally: Tally,
    // For the first bad line: memory can't be refused then.
    spare: Option<LineBuffer>,
}

impl<C: Explain + FromFlat> Model for Runner<C> {
    ghost use Rattle.std.specs.Prelude.{◌≡◌, ◌≤◌, false, None, IsSome};
    ghost use Rattle.ele_runs.specs.RunState.{RunState, no_printer};

    ghost Value = { RunState };

    ghost view = { λ k. record { options = k.options; past = k.history; number = k.lines; ended = k.has_ended; tally = k.tally; notes = no_printer } };

    // The tally counts at most the lines that were run, and there is memory for the first bad line.
    ghost invariant = { λ k. (k.tally.bad ≤ k.lines) × (k.tally.refused ≤ k.lines) × (k.tally.stopped ≤ k.lines) × (k.has_ended ≡ false → k.tally.first_bad ≡ None → IsSome k.spare) };
}

impl<C: Explain + FromFlat> Runner<C> {
    /// Starts a run over the history of a fresh world. `NoMemory` if memory is refused.
    pub(crate) fn new(
        alloc: Global,
        limits: Limits,
        options: RunOptions,
    ) -> Result<Runner<C>, NoMemory>
        ensures { IfOk result (λ runner. runner ≡ begun options (fresh limits) no_printer) }
    {
        let history = History::<C>::new(alloc, limits)?;
        let spare = Some(LineBuffer::new(alloc)?);
        Ok(Runner {
            alloc,
            history,
            options,
            lines: 0,
            has_ended: false,
            tally: Tally::new(),
            spare,
        })
    }

    /// Returns the options of the run.
    pub(crate) fn options(&self) -> RunOptions
        ensures { result ≡ self.now.options }
    {
        self.options
    }

    /// Returns the number of lines that were run.
    pub(crate) fn lines(&self) -> u64
        ensures { result ≡ self.now.number }
    {
        self.lines
    }

    /// Whether a line has ended the run.
    pub(crate) fn has_ended(&self) -> bool
        ensures { result ≡ self.now.ended }
    {
        self.has_ended
    }

    /// Ends the run, and returns the tally.
    pub(crate) fn end(&mut self) -> Tally
        ensures { result ≡ self.old.tally }
    {
        self.has_ended = true;
        mem::replace(&mut self.tally, Tally::new())
    }

    /// Ends the run, and returns the tally with a last line without its line feed.
    pub(crate) fn end_at_cut(&mut self, line: &LineBuffer) -> Tally
        requires goes_on { self.old.ended ≡ false }
        requires few { self.old.number + 1 < 2 ^ 64 }
        ensures { result ≡ cut_tallied self.old.tally (self.old.number + 1) line.now }
    {
        self.has_ended = true;
        let mut tally = mem::replace(&mut self.tally, Tally::new());
        tally.add_cut(self.lines + 1, line, &mut self.spare);
        tally
    }

    // Counts the next line, which is `None` if it is too long, by its outcome.
    fn count(&mut self, line: Option<&[u8]>, outcome: Outcome)
        requires goes_on { self.old.ended ≡ false }
        requires few { self.old.number + 1 < 2 ^ 64 }
        ensures { self.new ≡ counted self.old self.old.past
            (option_map (λ line. line.now) line.entry) outcome self.old.notes }
    {
        self.lines += 1;
        let is_well = self.tally.add(self.lines, line, outcome, &mut self.spare);
        self.has_ended = self.options.strict && !is_well;
    }

    // Runs the next line, which is `None` if it is too long, and returns its answer.
    fn hear(&mut self, line: Option<&[u8]>) -> Said
        requires goes_on { self.old.ended ≡ false }
        requires few { self.old.number + 1 < 2 ^ 64 }
        ensures { HearsNext self.old (option_map (λ line. line.now) line.entry) result self.new }
    {
        let said = hear_kept(self.alloc, self.options, line, &mut self.history);
        let outcome = said.outcome(last_reply(&self.history));
        self.count(line, outcome);
        said
    }

    // Runs the next line, which asks for the event. Returns the stop, if one came in place of a reply.
    #[tactic(auto, using(crate::proofs::Blocks::event_heard))]
    fn hear_event(&mut self, line: Option<&[u8]>, event: Event) -> Option<Stop>
        requires goes_on { self.old.ended ≡ false }
        requires few { self.old.number + 1 < 2 ^ 64 }
        requires asks { AsksEventIn self.old.options (option_map (λ line. line.now) line) event }
        ensures { HearsNext self.old (option_map (λ line. line.now) line.entry)
            (event_said result) self.new }
    {
        let stop = record_event(event, &mut self.history);
        let outcome = event_outcome(stop, last_reply(&self.history));
        self.count(line, outcome);
        stop
    }

    // Prints why the line is bad, if it is bad and reasons are written.
    fn tell_reason<E: Write>(&self, line: Option<&[u8]>, said: &Said, reasons: &mut Printer<'_, E>)
        ensures { (text : List ℕ) → IsTextIn self.now.past said.now text
            → IsNoted self.now.options self.now.number (option_map (λ line. line.now) line.entry)
            text (outlet E.contents reasons.old) (outlet E.contents reasons.new) }
    {
        let Said::Bad(_) = said else {
            return;
        };
        if !self.options.tells_reasons() {
            return;
        }
        if let Some(why) = why_bad(self.alloc, self.options, line) {
            report_why(self.lines, why, reasons);
        }
    }

    /// Prints why a last line without its line feed is never run, if reasons are written.
    pub(crate) fn tell_cut<E: Write>(&self, line: Option<&[u8]>, reasons: &mut Printer<'_, E>)
        requires { self.now.number + 1 < 2 ^ 64 }
        ensures { Outputs (outlet E.contents reasons.old) (outlet E.contents reasons.new)
            (cut_note self.now (option_map (λ line. line.now) line.entry)) }
    {
        if !self.options.tells_reasons() {
            return;
        }
        if let Some(why) = why_cut(line) {
            report_why(self.lines + 1, why, reasons);
        }
    }

    /// Runs the next line, which is `None` if it is too long. Prints why it is bad, if it is bad and
    /// reasons are written, and its block.
    pub(crate) fn put_block<W: Write, E: Write>(
        &mut self,
        line: Option<&[u8]>,
        printer: &mut Printer<'_, W>,
        reasons: &mut Printer<'_, E>,
    )
        requires goes_on { self.old.ended ≡ false }
        requires few { self.old.number + 1 < 2 ^ 64 }
        ensures { PutsBlock (noting self.old (outlet E.contents reasons.old))
            (option_map (λ line. line.now) line.entry)
            (noting self.new (outlet E.contents reasons.new))
            (outlet W.contents printer.old) (outlet W.contents printer.new) }
    {
        match asked_event(self.alloc, self.options, line) {
            Some(event) => self.put_event(line, event, printer),
            None => self.put_other(line, printer, reasons),
        }
    }

    // The same for a line that asks for the event: most lines do, and only other answers take the
    // stack that a `Said` needs.
    fn put_event<W: Write>(
        &mut self,
        line: Option<&[u8]>,
        event: Event,
        printer: &mut Printer<'_, W>,
    )
        requires goes_on { self.old.ended ≡ false }
        requires few { self.old.number + 1 < 2 ^ 64 }
        requires asks { AsksEventIn self.old.options (option_map (λ line. line.now) line) event }
        ensures { (notes : Outlet) → PutsBlock (noting self.old notes)
            (option_map (λ line. line.now) line.entry) (noting self.new notes)
            (outlet W.contents printer.old) (outlet W.contents printer.new) }
    {
        let stop = self.hear_event(line, event);
        put_number_front(self.options, self.lines, printer);
        put_event_answer(stop, last_reply(&self.history), printer);
    }

    // The same for any other line, and for one that no memory was there to read.
    #[inline(never)]
    fn put_other<W: Write, E: Write>(
        &mut self,
        line: Option<&[u8]>,
        printer: &mut Printer<'_, W>,
        reasons: &mut Printer<'_, E>,
    )
        requires goes_on { self.old.ended ≡ false }
        requires few { self.old.number + 1 < 2 ^ 64 }
        ensures { PutsBlock (noting self.old (outlet E.contents reasons.old))
            (option_map (λ line. line.now) line.entry)
            (noting self.new (outlet E.contents reasons.new))
            (outlet W.contents printer.old) (outlet W.contents printer.new) }
    {
        let said = self.hear(line);
        self.tell_reason(line, &said, reasons);
        said.put_front(self.options, self.lines, printer);
        said.put(
            last_reply(&self.history),
            self.history.folded(),
            self.history.entries(),
            printer,
        );
    }
}
