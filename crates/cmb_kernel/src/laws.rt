//! Facts about the steps of a run alone.
ghost use Rattle.std.specs.Prelude.{◌≡◌, ◌≢◌, ℕ, ◌+◌, ◌*◌, ◌<◌, ◌≤◌, ◌↔◌, List, [], ◌++◌, length, drop, Some, slice_get, true, false};
ghost use Rattle.design.specs.Circuit.{Circuit, pin_count};
ghost use Rattle.design.specs.Pins.{sources_of, net_of_pin};
ghost use Rattle.gate_process.specs.Step.{next_frontier};
ghost use Rattle.cmb_events.specs.declared.event.Event.{Event};
ghost use Rattle.cmb_events.specs.declared.event.Event.TheVariants.{Deliver, Advance};
ghost use Rattle.cmb_kernel.specs.State.{State, started, frontier_at, received_at, floor_at, waiting_at, least_frontier, least_delay, past_least, most_rounds, IsComplete, waves_in};
ghost use Rattle.cmb_kernel.specs.Step.{counted, news_at, step, steps, ForEvents, ForCompletions, after_drain, round_of, rounds, completed_within};
ghost use Rattle.cmb_kernel.specs.Sweeps.{swept, ForSweeps, ForWholeSweeps, EventsLead};
ghost use Rattle.cmb_kernel.specs.Useful.{NoneFalls, SomeRises, is_useful, StaysQuiet, progress, remaining, useful_count, useful_advances};
ghost use Rattle.cmb_events.specs.Schedule.{Exists};
ghost use Rattle.cmb_kernel.specs.Sound.{EachNet, EachPin, CanDrain, IsSound, ForSound, KnowsNet, HearsItsSource};
ghost use Rattle.cmb_kernel.specs.Drains.{Action, all_acted, events_among, changes_given, AllComesOut, ForActions, ForAlike, CompleteRun, apart_from_waves};

/// Whatever events are applied, in any order, what nets and pins know is what the defining equations of the
/// circuit give: Chandy and Misra's safety.
pub fn truth()
    ensures started { (circuit : Circuit) (last : ℕ) → IsSound circuit last (started circuit last) }
    ensures steps { ForSound (λ circuit last state.
        ForEvents circuit (λ events. IsSound circuit last (steps state events))) }
    ensures drain { (circuit : Circuit) (last : ℕ) (state : State) → IsSound circuit last state →
        (net bound : ℕ) → CanDrain state net bound → IsSound circuit last (after_drain state net bound) }
    ensures nets { (circuit : Circuit) (last : ℕ) (state : State) → IsSound circuit last state →
        EachNet state (KnowsNet circuit last) }
    ensures pins { ForSound (λ circuit last state. EachPin state (HearsItsSource circuit state)) }
{}

/// A run that isn't complete can advance, and enough rounds complete it: Chandy and Misra's absence of
/// deadlock by null messages, which requires that each loop of nets takes time. Here each gate and flip-flop
/// takes at least one tick.
pub fn no_deadlock()
    ensures useful { ForSound (λ circuit last state.
        ¬ IsComplete state → (event : Event) × Exists circuit event × (is_useful state event ≡ true)) }
    // Useful means that some frontier rises, of a net or of a pin; and none ever falls.
    ensures falls { ForSound (λ circuit last state. (event : Event) → Exists circuit event → NoneFalls state (step state event)) }
    ensures rises { ForSound (λ circuit last state. (event : Event) → Exists circuit event →
        (is_useful state event ≡ true) ↔ SomeRises state (step state event)) }
    ensures sum { ForSound (λ circuit last state. progress state ≤ last * (length circuit + pin_count circuit)) }
    ensures bound { ForSound (λ circuit last state. ForEvents circuit (λ events.
        useful_count state events ≤ length circuit * last + pin_count circuit * last)) }
    ensures round { ForSound (λ circuit last state.
        past_least last circuit state ≤ least_frontier last (round_of state)) }
    ensures complete { ForSound (λ circuit last state. (count : ℕ) →
        last ≤ count * least_delay last circuit → IsComplete (rounds count state)) }
    ensures nulls { ForSound (λ circuit last state. ForEvents circuit (λ events.
        (steps state events).counts.nulls ≤ state.counts.nulls + useful_advances state events)) }
    ensures ahead { ForSound (λ circuit last state. (count number : ℕ) →
        frontier_at (rounds count (started circuit last)) number ≤ frontier_at (rounds count state) number) }
{}

/// What is left of a run's progress is a measure: each useful event lowers it, and no event raises it. So a
/// driver that applies only useful events terminates.
pub fn progress_left()
    ensures useful { ForSound (λ circuit last state. (event : Event) → Exists circuit event →
        is_useful state event ≡ true → remaining circuit last (step state event) < remaining circuit last state) }
    ensures any { ForSound (λ circuit last state. (event : Event) → Exists circuit event →
        remaining circuit last (step state event) ≤ remaining circuit last state) }
    ensures raises { (state : State) (event : Event) →
        is_useful state event ≡ true → progress state + 1 ≤ progress (step state event) }
{}

/// The order of events plays no part in what a complete run shows: whatever events complete it, in any order,
/// it shows the same as after rounds, as [`Kernel::complete`](crate::Kernel::complete) does them, and so the
/// same as after any other events that complete it.
pub fn order_plays_no_part()
    ensures sound { ForSound (λ circuit last state. (count : ℕ) → IsSound circuit last (completed_within count state)) }
    ensures complete { ForSound (λ circuit last state. IsComplete (completed_within (most_rounds last circuit) state)) }
    ensures rounds { ForSound (λ circuit last state. ForCompletions circuit state (λ events.
        waves_in (steps state events) ≡ waves_in (completed_within (most_rounds last circuit) state))) }
    ensures agree { ForSound (λ circuit last state. ForCompletions circuit state (λ one.
        ForCompletions circuit state (λ other. waves_in (steps state one) ≡ waves_in (steps state other)))) }
{}

/// An event that isn't useful is counted, and changes nothing else.
pub fn useless_events()
    ensures { ForSound (λ circuit last state. (event : Event) → Exists circuit event →
        is_useful state event ≡ false → step state event ≡ record state { counts = counted state.counts [] }) }
{}

/// What a delivery does, and what it leaves unchanged.
pub fn deliveries()
    // It is useful exactly if a message waits at the pin.
    ensures useful { ForSound (λ circuit last state. (pin : ℕ) → pin < pin_count circuit →
        (is_useful state (Deliver pin) ≡ true) ↔ (0 < length (waiting_at state pin))) }
    // It takes the oldest message out of the list of the pin, and changes no other list.
    ensures taken { ForSound (λ circuit last state. (pin : ℕ) → pin < pin_count circuit →
        waiting_at (step state (Deliver pin)) pin ≡ drop 1 (waiting_at state pin)) }
    ensures lists { (state : State) (pin other : ℕ) → other ≢ pin →
        waiting_at (step state (Deliver pin)) other ≡ waiting_at state other }
    // It changes no process but that of the pin's net.
    ensures processes { ForSound (λ circuit last state. (pin net : ℕ) → net ≢ net_of_pin circuit pin →
        slice_get (step state (Deliver pin)).processes net ≡ slice_get state.processes net) }
    // So an advance of another net is useful exactly if it was before.
    ensures others { ForSound (λ circuit last state. (pin net : ℕ) → net < length circuit → net ≢ net_of_pin circuit pin →
        is_useful (step state (Deliver pin)) (Advance net) ≡ is_useful state (Advance net)) }
{}

/// What an advance does, and what it leaves unchanged.
pub fn advances()
    // It is useful exactly if the next frontier of the net's process is past its frontier.
    ensures useful { ForSound (λ circuit last state. EachNet state (λ net process.
        (is_useful state (Advance net) ≡ true) ↔ (process.known.frontier < next_frontier process))) }
    // It adds what it sends at the end of the list of each pin that the net feeds, and changes no other list.
    ensures sent { ForSound (λ circuit last state. (net pin : ℕ) → slice_get (sources_of circuit) pin ≡ Some net →
        waiting_at (step state (Advance net)) pin ≡ waiting_at state pin ++ news_at state net) }
    ensures lists { ForSound (λ circuit last state. (net pin : ℕ) → slice_get (sources_of circuit) pin ≢ Some net →
        waiting_at (step state (Advance net)) pin ≡ waiting_at state pin) }
    // It changes no process but that of the net.
    ensures processes { (state : State) (net other : ℕ) → other ≢ net →
        slice_get (step state (Advance net)).processes other ≡ slice_get state.processes other }
    // So an advance of another net is useful exactly if it was before.
    ensures others { ForSound (λ circuit last state. (net other : ℕ) → other < length circuit → other ≢ net →
        is_useful (step state (Advance net)) (Advance other) ≡ is_useful state (Advance other)) }
    // The net has nothing more to send until one of its pins takes a message.
    ensures quiet { ForSound (λ circuit last state. (net : ℕ) → net < length circuit →
        StaysQuiet circuit (step state (Advance net)) net) }
{}

/// A sweep consists only of events, so what holds for any events holds for sweeps; and a run that isn't
/// complete can advance by a sweep.
pub fn sweeps()
    ensures events { ForSound (λ circuit last state. ForSweeps circuit (λ tick order.
        EventsLead circuit state (swept tick order state))) }
    ensures raises { ForSound (λ circuit last state. ForWholeSweeps circuit (λ tick order.
        least_frontier last state ≤ tick →
        past_least last circuit state ≤ least_frontier last (swept tick order state))) }
    // A pin that is known up to the tick takes nothing.
    ensures enough { ForSound (λ circuit last state. ForSweeps circuit (λ tick order.
        (pin : ℕ) → pin < pin_count circuit → tick ≤ received_at state pin →
        received_at (swept tick order state) pin ≡ received_at state pin)) }
{}

/// Drains between the events of a run change nothing else in it, and lose nothing: what is handed out of a
/// net, and what is left of it, are what the equations give.
pub fn drains_play_no_part()
    ensures same { ForSound (λ circuit last state. ForActions circuit state (λ actions.
        apart_from_waves (all_acted state actions) ≡ apart_from_waves (steps state (events_among actions)))) }
    ensures sound { ForSound (λ circuit last state. ForActions circuit state (λ actions.
        IsSound circuit last (all_acted state actions))) }
    ensures sweeps { ForAlike (λ circuit one other. ForSweeps circuit (λ tick order.
        apart_from_waves (swept tick order one) ≡ apart_from_waves (swept tick order other))) }
    // Only drains move floors.
    ensures floors { (state : State) (events : List Event) (net : ℕ) → floor_at (steps state events) net ≡ floor_at state net }
    ensures values { ForSound (λ circuit last state. ForActions circuit state (λ actions.
        AllComesOut state actions (λ net process.
        changes_given circuit net (floor_at state net) process.known.frontier))) }
    ensures complete { (circuit : Circuit) (last : ℕ) (actions : List Action) → CompleteRun circuit last actions →
        AllComesOut (started circuit last) actions (λ net process. changes_given circuit net 0 last) }
{}
