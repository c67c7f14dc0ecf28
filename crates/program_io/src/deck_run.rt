//! A run from one text.
ghost use Rattle.std.specs.Prelude.{◌≡◌, Err, IfErr, IfOk, IsOkAnd};
ghost use Rattle.std.specs.Io.KnownBytes.{Appends};
ghost use Rattle.prepared_runs.specs.Seen.{seen_sections};
ghost use Rattle.prepared_runs.specs.Source.{seen_source};
ghost use Rattle.prepared_runs.specs.declared.fault.SimFault.TheVariants.{Memory};
ghost use Rattle.prepared_runs.specs.declared.deck_fault.DeckFault.TheVariants.{Sim};
ghost use Rattle.program_io.specs.Answers.{AnswerEndsBy, GoesOut, IsNoRead};
ghost use Rattle.program_io.specs.DeckRun.{DeckEndsBy, DeckMayWantMemory, deck_answer, dump_of_deck, simulated_deck, source_of_deck, view_of_deck};

use crate::answers::write_run;
use crate::{Outcome, ProgramFault};
use kernel_runs::{Report, simulate};
use prepared_runs::{
    DeckFault, DumpView, Picks, Sections, Show, Silent, Source, View, read_sections,
};
use std::alloc::Global;
use std::io::Write;
use vcd_dump::TimeUnit;

/// Writes the dump of a deck's run, with all nets and a tick of a nanosecond, and returns the run's report. The
/// default delay is 1 tick and the period 10 ticks. The deck's schedule picks the events to apply before the
/// run completes.
///
/// # Errors
/// If the deck or a section is refused, nothing is written. After a failed write or allocation, a prefix of the
/// dump has been written, possibly nothing. The deck's rules and its horizon are checked before any memory is
/// allocated.
pub fn deck<W: Write>(alloc: Global, text: &[u8], out: &mut W) -> Result<Report, DeckFault>
    ensures ok { IfOk result (λ report. IsOkAnd (simulated_deck text.now) (λ answer.
        Appends (W.contents out.old) (W.contents out.new) answer.0 × (report ≡ answer.1))) }
    ensures err { IfErr result (DeckEndsBy (dump_of_deck text.now)
        (W.contents out.old) (W.contents out.new)) }
    ensures memory { result ≡ Err (Sim Memory) → DeckMayWantMemory text.now }
{
    let sections = read_sections(text)?;
    let (source, view) = run_of(sections);
    Ok(simulate(alloc, &source, &view, out)?)
}

/// Writes the same dump by a run in sweeps, and flushes once.
///
/// # Errors
/// As for [`deck`]; and after a failed flush, the whole dump has been written.
pub fn write_deck<'d, W: Write>(
    alloc: Global,
    text: &'d [u8],
    out: &mut W,
) -> Result<Outcome, ProgramFault<'d>>
    ensures ok { IfOk result (GoesOut (λ answer. answer ≡ deck_answer text.now)
        (W.contents out.old) (W.contents out.new)) }
    ensures err { IfErr result (AnswerEndsBy (λ answer. answer ≡ deck_answer text.now)
        (W.contents out.old) (W.contents out.new)) }
    ensures no_read { IfErr result IsNoRead }
{
    let (source, view) = run_of(read_sections(text)?);
    write_run(
        alloc,
        &source,
        &DumpView::of(&view),
        false,
        out,
        &mut Silent,
    )
}

/// Returns the source that the sections of a deck describe, and what its dump shows.
fn run_of(sections: Sections<'_>) -> (Source<'_>, View)
    ensures source { seen_source result.0 ≡ source_of_deck (seen_sections sections.entry) }
    ensures view { result.1 ≡ view_of_deck (seen_sections sections.entry) }
{
    let view = View {
        horizon: sections.horizon,
        show: Show::All,
        unit: TimeUnit::Ns,
    };
    (source_of_deck(&sections), view)
}

/// Returns the source that the sections of a deck describe: the default delay is 1 tick, the period 10 ticks,
/// and the events are those of the schedule.
pub fn source_of_deck<'a>(sections: &Sections<'a>) -> Source<'a>
    ensures { seen_source result ≡ source_of_deck (seen_sections sections.now) }
{
    Source {
        bench: sections.texts.bench,
        delays: sections.texts.delays,
        stimuli: sections.texts.stimuli,
        default_delay: 1,
        period: 10,
        picks: Picks::Text(sections.texts.schedule),
    }
}
