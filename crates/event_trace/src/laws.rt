//! Facts about the definitions alone.
ghost use Rattle.std.specs.Prelude.{◌≡◌, ℕ, Bool, List, None, All, count_by};
ghost use Rattle.design.specs.Circuit.{Circuit, IsCircuit};
ghost use Rattle.cmb_events.specs.Schedule.{Exists};
ghost use Rattle.cmb_events.specs.declared.event.Event.{Event};
ghost use Rattle.event_trace.specs.declared.shown_events.ShownEvents.{ShownEvents};
ghost use Rattle.event_trace.specs.Lines.{Line};
ghost use Rattle.event_trace.specs.Trace.{shown_trace, state_at_end, trace_lines, trace_text};
ghost use Rattle.event_trace.specs.Counted.{is_event, is_beginning, held, changes_told, nulls_told};
ghost use Rattle.event_trace.specs.Shown.{ShowWaveforms, ShowWaveformsOf};
ghost use Rattle.event_trace.specs.ShownLines.{every_event, shown_lines};

use cmb_kernel::laws::{no_deadlock, truth};

/// The numbers of events, of messages that advances send, and of rounds in the lines of a trace are
/// those that the kernel counts.
pub fn lines_are_counted()
    ensures events { (circuit : Circuit) (end : ℕ) (events : List Event) →
        (state_at_end circuit end events).counts.events ≡ held (count_by is_event (trace_lines circuit end events)) }
    ensures changes { (circuit : Circuit) (end : ℕ) (events : List Event) →
        (state_at_end circuit end events).counts.changes ≡ changes_told (trace_lines circuit end events) }
    ensures nulls { (circuit : Circuit) (end : ℕ) (events : List Event) →
        (state_at_end circuit end events).counts.nulls ≡ nulls_told (trace_lines circuit end events) }
    ensures rounds { (circuit : Circuit) (end : ℕ) (events : List Event) →
        (state_at_end circuit end events).counts.rounds ≡ held (count_by is_beginning (trace_lines circuit end events)) }
{}

/// The changes in the lines of a net's advances, in order, are those that the equations give the net,
/// for any given events.
pub fn lines_tell_waveforms()
    ensures { (circuit : Circuit) (end : ℕ) (events : List Event) → IsCircuit circuit → All (Exists circuit) events →
        ShowWaveforms circuit end (trace_lines circuit end events) }
{
    truth();
    no_deadlock();
}

/// The trace in which all events have lines is the whole trace.
pub fn every_event_is_shown()
    ensures { (circuit : Circuit) (end : ℕ) (events : List Event) →
        shown_trace every_event circuit end events ≡ trace_text circuit end events }
{}

/// The lines of idle events report nothing: without them, the lines have the same changes and null messages.
pub fn idle_lines_tell_nothing()
    ensures changes { (idle : Bool) (lines : List Line) →
        changes_told (shown_lines (record { idle = idle; net = None }) lines) ≡ changes_told lines }
    ensures nulls { (idle : Bool) (lines : List Line) →
        nulls_told (shown_lines (record { idle = idle; net = None }) lines) ≡ nulls_told lines }
{}

/// Whichever events are shown, the changes in the lines of the advances of a net whose events are among them,
/// in order, are those that the equations give the net.
pub fn shown_lines_tell_waveforms()
    ensures { (shown : ShownEvents) (circuit : Circuit) (end : ℕ) (events : List Event) →
        IsCircuit circuit → All (Exists circuit) events → ShowWaveformsOf shown circuit end (trace_lines circuit end events) }
{
    lines_tell_waveforms();
}
