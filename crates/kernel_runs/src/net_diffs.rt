//! Comparisons of what nets show in two runs, name by name.
ghost use Rattle.std.specs.Prelude.{◌≡◌, IfErr, IfOk};
ghost use Rattle.fanin_cone.specs.AgreeingCones.{MarksAgreeing};
ghost use Rattle.netlist.specs.Names.{seen_names};
ghost use Rattle.kernel_runs.specs.Diffs.{IsComparisonOf, IsDiff, pair_by};
ghost use Rattle.prepared_runs.specs.Prepared.{seen_run};
ghost use Rattle.kernel_runs.specs.AtEnd.{IsAtEnd};
ghost use Rattle.kernel_runs.specs.Twins.{CanCompare};

use crate::diff_run::DiffAnswer;
use crate::simulation::RunKernel;
use crate::sweep_run::complete;
use fanin_cone::agreeing_cones;
use prepared_runs::{PreparedRun, SimFault};
use std::alloc::Global;
use wave_diff::{Compared, Comparison, Side, first_difference, push_line};

/// Runs two prepared runs to the end, and compares what the nets of these names show in both.
pub(crate) fn diff_by_names(
    alloc: Global,
    one: &PreparedRun,
    other: &PreparedRun,
    names: &[&[u8]],
    ticks: Compared,
) -> Result<DiffAnswer, SimFault>
    requires runs { CanCompare one.now other.now }
    requires end { ticks.to ≡ one.now.horizon }
    ensures ok { IfOk result (λ answer. IsDiff (pair_by (seen_run one.now) (seen_run other.now) ticks (seen_names names.now))
        answer.text.items answer.same) }
    ensures err { IfErr result (λ fault. fault ≡ SimFault.Memory) }
{
    let first = complete(alloc, one)?;
    let second = complete(alloc, other)?;
    diff_completed(alloc, one, &first, other, &second, names, ticks)
}

/// Does the same for runs that are at their end.
fn diff_completed(
    alloc: Global,
    one: &PreparedRun,
    first: &RunKernel<'_>,
    other: &PreparedRun,
    second: &RunKernel<'_>,
    names: &[&[u8]],
    ticks: Compared,
) -> Result<DiffAnswer, SimFault>
    requires runs { CanCompare one.now other.now }
    requires first { IsAtEnd one.now first.now }
    requires second { IsAtEnd other.now second.now }
    requires end { ticks.to ≡ one.now.horizon }
    ensures ok { IfOk result (λ answer. IsDiff (pair_by (seen_run one.now) (seen_run other.now) ticks (seen_names names.now))
        answer.text.items answer.same) }
    ensures err { IfErr result (λ fault. fault ≡ SimFault.Memory) }
{
    let agreeing = agreeing_cones(alloc, &one.design, &other.design, one.horizon)?;
    let mut text = Vec::new(alloc);
    let mut same = true;
    for name in names {
        let comparison = comparison(one, first, other, second, agreeing.as_slice(), name, ticks);
        push_line(&mut text, name, comparison)?;
        same = same && comparison.is_same();
    }
    Ok(DiffAnswer { text, same })
}

/// Returns how what the net of a name shows in two runs at their end compares. The nets of the first run on
/// whose cones the runs agree are marked.
fn comparison(
    one: &PreparedRun,
    first: &RunKernel<'_>,
    other: &PreparedRun,
    second: &RunKernel<'_>,
    agreeing: &[bool],
    name: &[u8],
    ticks: Compared,
) -> Comparison
    requires runs { CanCompare one.now other.now }
    requires first { IsAtEnd one.now first.now }
    requires second { IsAtEnd other.now second.now }
    requires agreeing { MarksAgreeing one.now.design other.now.design one.now.horizon agreeing.now }
    requires end { ticks.to ≡ one.now.horizon }
    ensures { IsComparisonOf (seen_run one.now) (seen_run other.now) ticks name.now result }
{
    let Some(net) = one.design.find(name) else {
        return Comparison::OnlyIn(Side::Second);
    };
    let Some(other_net) = other.design.find(name) else {
        return Comparison::OnlyIn(Side::First);
    };
    match first_difference(first.waveform(net), second.waveform(other_net), ticks) {
        Some(found) => Comparison::Differs(found),
        None => Comparison::Same {
            agree: agreeing[net as usize],
        },
    }
}
