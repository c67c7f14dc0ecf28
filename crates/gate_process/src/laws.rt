//! Facts about the definitions alone.
ghost use Rattle.std.specs.Prelude.{◌≡◌, ◌≢◌, ◌⊎◌, ◌<◌, ◌≤◌, ℕ, List, Some};
ghost use Rattle.logic3.specs.declared.value.Value.{Value};
ghost use Rattle.logic3.specs.declared.value.Value.TheVariants.{Unknown};
ghost use Rattle.logic3.specs.declared.gates.GateKind.{GateKind};
ghost use Rattle.logic3.specs.declared.change.Change.{Change};
ghost use Rattle.netlist.specs.declared.part.Part.TheVariants.{Input, Gate, Flop};
ghost use Rattle.cmb_channels.specs.declared.message.Message.{Message};
ghost use Rattle.cmb_channels.specs.declared.message.Message.TheVariants.{Change as Changes, Null};
ghost use Rattle.gate_process.specs.Knowledge.{Tells, knowledge_of, told_all};
ghost use Rattle.gate_process.specs.Step.{ProcessState, pin_frontier, signal_so_far, sure_frontier, next_frontier, advanced, news, heard};
ghost use Rattle.gate_process.specs.Truth.{KnowsTruth, ForTruthful, ForHearers, IsProcess, CanHear, GoesOn};

/// What a process knows stays true if the signals meet its net's equation: after it advances, and after it
/// receives the first of some messages that are true of a pin's source. The messages that it sends are true,
/// too.
pub fn truth_stays()
    ensures advanced { ForTruthful (λ signals number process. KnowsTruth signals number (advanced process)) }
    ensures heard { ForHearers (λ signals number process place message.
        KnowsTruth signals number (heard place message process)) }
    ensures news { ForTruthful (λ signals number process.
        Tells (signals number) process.known.frontier (next_frontier process) (news process)) }
{}

/// How far a process advances: never back, never past the end, and at least as far as its net can be computed
/// from ticks at which all pins are known. An input and a flip-flop advance exactly that far. From there, and
/// from its frontier, a gate looks ahead: it passes the ticks at which what is known of its pins settles its
/// value, with the rest read as X, and stops at the first tick at which it doesn't.
pub fn lookahead()
    ensures never_back { (process : ProcessState) → IsProcess process → process.known.frontier ≤ next_frontier process }
    ensures within { (process : ProcessState) → next_frontier process ≤ process.end }
    ensures known_pins { (process : ProcessState) → sure_frontier process ≤ next_frontier process }
    ensures others { (process : ProcessState) → (process.net.part ≡ Input) ⊎ (process.net.part ≡ Flop) →
        next_frontier process ≡ sure_frontier process }
    ensures settled { (process : ProcessState) (tick : ℕ) →
        process.known.frontier ≤ tick → sure_frontier process ≤ tick → tick < next_frontier process →
        signal_so_far process tick ≢ Unknown }
    ensures stops { (process : ProcessState) (kind : GateKind) →
        IsProcess process → process.net.part ≡ Gate kind → next_frontier process < process.end →
        signal_so_far process (next_frontier process) ≡ Unknown }
{}

/// A pin that knows a signal up to one tick, and receives messages that report it from there up to another,
/// knows it up to the second tick.
pub fn messages_suffice()
    ensures { (signal : ℕ → Value) (from known to : ℕ) (messages : List Message) → from ≤ known →
        Tells signal known to messages →
        told_all (knowledge_of signal from known) messages ≡ knowledge_of signal from to }
{}

/// What a process can receive at a pin, by what `received` and `last` return for it: a later change to
/// another value, or a null message that raises the frontier, both up to the end.
pub fn can_hear()
    ensures change { (process : ProcessState) (place frontier : ℕ) (last : Value) (change : Change) →
        IsProcess process → GoesOn process place frontier last change → CanHear process place (Changes change) }
    ensures null { (process : ProcessState) (place frontier bound : ℕ) →
        IsProcess process → pin_frontier process place ≡ Some frontier →
        frontier < bound → bound ≤ process.end → CanHear process place (Null bound) }
{}
