//! Two runs, compared net by net.
ghost use Rattle.std.specs.Prelude.{◌≡◌, ◌≢◌, flat_map, IfErr, IfOk, IsOkAnd, OnOk};
ghost use Rattle.netlist.specs.Names.{seen_names};
ghost use Rattle.kernel_runs.specs.Diffs.{IsDiff, IsDiffRefusal, are_accepted, names_of_nets, names_of_outputs, names_of_word, on_run, pair_by, pair_in, pair_named, pair_of, ticks_of_diff};
ghost use Rattle.prepared_runs.specs.Prepared.{seen_run};
ghost use Rattle.prepared_runs.specs.Source.{seen_source, MayWantMemory};
ghost use Rattle.kernel_runs.specs.Twins.{CanCompare, IsTwinRefusal};
ghost use Rattle.kernel_runs.specs.Simulated.{EndsComplete};
ghost use Rattle.prepared_runs.specs.declared.fault.SimFault.TheVariants.{Memory};

use crate::diff_fault::DiffFault;
use crate::diff_names::{mean_all, names_of_nets, names_of_outputs};
use crate::diff_words::{are_accepted, names_of_words};
use crate::net_diffs::diff_by_names;
use crate::twin_run::{TwinFault, blame};
use prepared_runs::{PreparedRun, SimFault, Source, prepare_run};
use std::alloc::Global;
use timing_text::Horizon;
use wave_diff::{Compared, DiffTicks, Side};

/// What two runs show, net by net.
#[derive(Debug, Drop)]
pub struct DiffAnswer {
    /// A line for each net, as [`wave_diff::push_line`] writes it.
    pub text: Vec<u8>,
    /// Whether each net shows the same in both runs.
    pub same: bool,
}

/// Runs two sources to one horizon by the kernel, and compares what the nets that words mean show in both, by
/// their names. A word that is the name of a net of either means that name alone. Any other word means the nets
/// that [`nets_listed`](net_words::nets_listed) returns of the first, and after them those of the second whose
/// names aren't among these. If there is no word, it compares the outputs of both in this way. If the only word
/// is `all`, and no net has this name, it compares all nets of the first and then those of the second that the
/// first doesn't have.
///
/// A line has the first compared tick at which a net shows another value in the second run than in the first.
/// If there is none, it says so, and whether the runs agree, up to the horizon, on the fan-in cone that the
/// net has in the first. If they agree on it, there is no such tick, whatever else they contain and whatever
/// picks their events.
///
/// # Errors
/// A refusal of the horizon or the ticks ([`DiffFault::Compared`]) comes before all else, then one of the
/// first source, then one of the second, then [`SimFault::UnknownNet`], reported for the first, if one of the
/// words means no net of either run. If an allocation fails, the fault may name either side.
pub fn diff(
    alloc: Global,
    first: &Source<'_>,
    second: &Source<'_>,
    words: &[&[u8]],
    ticks: DiffTicks,
) -> Result<DiffAnswer, DiffFault>
    ensures ok { IfOk result (λ answer. IsOkAnd (pair_of (seen_source first.now) (seen_source second.now) (seen_names words.now) ticks)
        (λ pair. IsDiff pair answer.text.items answer.same)) }
    // Both runs end complete.
    ensures first_complete { OnOk result (EndsComplete (seen_source first.now) ticks.horizon) }
    ensures second_complete { OnOk result (EndsComplete (seen_source second.now) ticks.horizon) }
    ensures err { IfErr result (IsDiffRefusal (pair_of (seen_source first.now) (seen_source second.now) (seen_names words.now) ticks)) }
    ensures memory { IfErr result (λ fault. (side : Side) → fault ≡ on_run side Memory → MayWantMemory (seen_source first.now) ticks.horizon) }
{
    let compared = compared_ticks(ticks)?;
    let one = blame(Side::First, prepare_run(alloc, first, ticks.horizon))?;
    let other = blame(Side::Second, prepare_run(alloc, second, ticks.horizon))?;
    Ok(diff_prepared(alloc, &one, &other, words, compared)?)
}

/// Returns the ticks that are compared.
fn compared_ticks(ticks: DiffTicks) -> Result<Compared, DiffFault>
    ensures exact { result ≡ ticks_of_diff ticks }
    ensures end { IfOk result (λ compared. compared.to ≡ ticks.horizon) }
    ensures no_memory { IfErr result (λ fault. (side : Side) → fault ≢ on_run side Memory) }
{
    let horizon = Horizon::new(ticks.horizon)?;
    Ok(Compared::new(ticks.from, ticks.every, horizon.ticks())?)
}

/// Compares two prepared runs if the words are accepted.
fn diff_prepared(
    alloc: Global,
    one: &PreparedRun,
    other: &PreparedRun,
    words: &[&[u8]],
    ticks: Compared,
) -> Result<DiffAnswer, TwinFault>
    requires runs { CanCompare one.now other.now }
    requires end { ticks.to ≡ one.now.horizon }
    ensures ok { IfOk result (λ answer. IsOkAnd (pair_in (seen_run one.now) (seen_run other.now) ticks (seen_names words.now))
        (λ pair. IsDiff pair answer.text.items answer.same)) }
    ensures err { IfErr result (IsTwinRefusal (pair_in (seen_run one.now) (seen_run other.now) ticks (seen_names words.now))) }
{
    let accepted = blame(Side::First, is_accepted(alloc, one, other, words))?;
    if !accepted {
        return Err(TwinFault {
            side: Side::First,
            fault: SimFault::UnknownNet,
        });
    }
    blame(Side::First, diff_known(alloc, one, other, words, ticks))
}

/// Returns whether the words are accepted.
fn is_accepted(
    alloc: Global,
    one: &PreparedRun,
    other: &PreparedRun,
    words: &[&[u8]],
) -> Result<bool, SimFault>
    ensures ok { IfOk result (λ accepted.
        accepted ≡ are_accepted one.now.design.netlist other.now.design.netlist (seen_names words.now)) }
    ensures err { IfErr result (λ fault. fault ≡ SimFault.Memory) }
{
    Ok(are_accepted(alloc, one.design.netlist(), other.design.netlist(), words)?)
}

/// Compares them by the words, by all nets if the words mean these, or by their outputs if there is no word.
fn diff_known(
    alloc: Global,
    one: &PreparedRun,
    other: &PreparedRun,
    words: &[&[u8]],
    ticks: Compared,
) -> Result<DiffAnswer, SimFault>
    requires runs { CanCompare one.now other.now }
    requires end { ticks.to ≡ one.now.horizon }
    ensures ok { IfOk result (λ answer. IsDiff (pair_named (seen_run one.now) (seen_run other.now) ticks (seen_names words.now))
        answer.text.items answer.same) }
    ensures err { IfErr result (λ fault. fault ≡ SimFault.Memory) }
{
    if words.is_empty() {
        return diff_outputs(alloc, one, other, ticks);
    }
    if mean_all(one.design.netlist(), other.design.netlist(), words) {
        return diff_nets(alloc, one, other, ticks);
    }
    diff_words(alloc, one, other, words, ticks)
}

/// Compares them by the names for these words.
fn diff_words(
    alloc: Global,
    one: &PreparedRun,
    other: &PreparedRun,
    words: &[&[u8]],
    ticks: Compared,
) -> Result<DiffAnswer, SimFault>
    requires runs { CanCompare one.now other.now }
    requires end { ticks.to ≡ one.now.horizon }
    ensures ok { IfOk result (λ answer. IsDiff (pair_by (seen_run one.now) (seen_run other.now) ticks
        (flat_map (names_of_word one.now.design.netlist other.now.design.netlist) (seen_names words.now)))
        answer.text.items answer.same) }
    ensures err { IfErr result (λ fault. fault ≡ SimFault.Memory) }
{
    let names = names_of_words(alloc, one.design.netlist(), other.design.netlist(), words)?;
    diff_by_names(alloc, one, other, names.as_slice(), ticks)
}

/// Compares them by all their nets.
fn diff_nets(
    alloc: Global,
    one: &PreparedRun,
    other: &PreparedRun,
    ticks: Compared,
) -> Result<DiffAnswer, SimFault>
    requires runs { CanCompare one.now other.now }
    requires end { ticks.to ≡ one.now.horizon }
    ensures ok { IfOk result (λ answer. IsDiff (pair_by (seen_run one.now) (seen_run other.now) ticks
        (names_of_nets one.now.design.netlist other.now.design.netlist)) answer.text.items answer.same) }
    ensures err { IfErr result (λ fault. fault ≡ SimFault.Memory) }
{
    let names = names_of_nets(alloc, one.design.netlist(), other.design.netlist())?;
    diff_by_names(alloc, one, other, names.as_slice(), ticks)
}

/// Compares them by their outputs.
fn diff_outputs(
    alloc: Global,
    one: &PreparedRun,
    other: &PreparedRun,
    ticks: Compared,
) -> Result<DiffAnswer, SimFault>
    requires runs { CanCompare one.now other.now }
    requires end { ticks.to ≡ one.now.horizon }
    ensures ok { IfOk result (λ answer. IsDiff (pair_by (seen_run one.now) (seen_run other.now) ticks
        (names_of_outputs one.now.design.netlist other.now.design.netlist)) answer.text.items answer.same) }
    ensures err { IfErr result (λ fault. fault ≡ SimFault.Memory) }
{
    let names = names_of_outputs(alloc, one.design.netlist(), other.design.netlist())?;
    diff_by_names(alloc, one, other, names.as_slice(), ticks)
}
