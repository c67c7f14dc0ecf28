//! Facts about the definitions alone.
ghost use Rattle.std.specs.Prelude.{◌≡◌, ◌≢◌, ℕ, ◌+◌, ◌<◌, ◌≤◌, ◌^◌, false, List, [], ◌∷◌, ◌++◌, length, flat_map, All, Contains};
ghost use Rattle.logic3.specs.declared.value.Value.{Value};
ghost use Rattle.logic3.specs.declared.change.Change.{Change};
ghost use Rattle.design.specs.Circuit.{Circuit};
ghost use Rattle.texts.specs.Text.{lines_of, words_of};
ghost use Rattle.netlist.specs.Netlist.{most_nets};
ghost use Rattle.vcd_dump.specs.declared.unit.TimeUnit.{TimeUnit};
ghost use Rattle.vcd_dump.specs.Codes.{code_at};
ghost use Rattle.vcd_dump.specs.Dump.{dump_keywords, Trace, variables_of, declarations, dump_text};
ghost use Rattle.vcd_dump.specs.Spans.{StreamView, begun, with_part, with_parts, spanned, span_text, IsSpan, CanSpan, parts_of, stream_at, shown_signals, whole_text, streamed_text};
ghost use Rattle.vcd_dump.specs.Shown.{dump_tokens, IsReadable, Shows};
ghost use Rattle.vcd_dump.specs.Traces.{net_traces};

/// The identifier codes of distinct places differ.
pub fn distinct_codes()
    ensures { (first second : ℕ) → first ≢ second → code_at first ≢ code_at second }
{}

/// The code of a place below 100,000 has at most three characters, and isn't a keyword of a dump.
pub fn codes_are_no_keywords()
    ensures short { (place : ℕ) → place < most_nets → length (code_at place) ≤ 3 }
    ensures no_keyword { (place : ℕ) → place < most_nets → ¬ Contains dump_keywords (code_at place) }
{}

/// The tokens of a text are those of its lines, end to end.
pub fn tokens_of_lines()
    ensures two_parts { (first second : List ℕ) →
        dump_tokens (first ++ 10 ∷ second) ≡ dump_tokens first ++ dump_tokens second }
    ensures all_lines { (text : List ℕ) → dump_tokens text ≡ flat_map words_of (lines_of text) }
{}

/// The dump of at most 100,000 distinct proper names shows for each of them its signal, at every
/// tick up to the horizon.
pub fn shown()
    ensures { (unit : TimeUnit) (horizon : ℕ) (traces : List Trace) → horizon < 2 ^ 64 → IsReadable traces →
        All (Shows (dump_text unit horizon traces) horizon) traces }
{}

/// Changes that are given net after net become the stream's lines. With those of every net at the
/// ticks of a span, the stream can write the span.
pub fn parts_are_given()
    ensures first { (stream : StreamView) → stream.given ≡ 0 → stream.lines ≡ [] → with_parts stream [] ≡ stream }
    ensures next { (stream : StreamView) (parts : List (List Change)) (part : List Change) → stream.failed ≡ false →
        with_part (with_parts stream parts) part ≡ with_parts stream (parts ++ part ∷ []) }
    ensures span { (stream : StreamView) (upto : ℕ) (parts : List (List Change)) → IsSpan stream upto parts →
        CanSpan (with_parts stream parts) upto }
{}

/// What a stream writes for signals, span by span, is their dump. After the declarations it can advance
/// from any tick to any later one up to the horizon, and writes what a single span would have. The
/// declarations with which it begins, and what it writes after them, are the dump of the shown nets.
pub fn spans_make_the_dump()
    ensures begins { (signals : List (ℕ → Value)) (horizon : ℕ) →
        begun (length signals) horizon ≡ stream_at signals horizon 0 }
    ensures spans { (signals : List (ℕ → Value)) (horizon from to : ℕ) → from < to → to ≤ horizon + 1 →
        IsSpan (stream_at signals horizon from) to (parts_of signals from to) }
    ensures can { (signals : List (ℕ → Value)) (horizon from to : ℕ) → from < to → to ≤ horizon + 1 →
        CanSpan (with_parts (stream_at signals horizon from) (parts_of signals from to)) to }
    ensures goes_on { (signals : List (ℕ → Value)) (horizon from to : ℕ) → from < to →
        spanned (with_parts (stream_at signals horizon from) (parts_of signals from to)) to
        ≡ stream_at signals horizon to }
    ensures text { (signals : List (ℕ → Value)) (from to : ℕ) → from ≤ to →
        span_text 0 from (parts_of signals 0 from) ++ span_text from to (parts_of signals from to)
        ≡ span_text 0 to (parts_of signals 0 to) }
    ensures whole { (unit : TimeUnit) (horizon : ℕ) (traces : List Trace) →
        declarations unit (variables_of traces) ++ whole_text horizon (shown_signals traces)
        ≡ dump_text unit horizon traces }
    ensures nets { (unit : TimeUnit) (horizon : ℕ) (circuit : Circuit) (nets : List ℕ) (signal : ℕ → ℕ → Value) →
        streamed_text unit horizon circuit nets signal ≡ dump_text unit horizon (net_traces circuit nets signal) }
{}
