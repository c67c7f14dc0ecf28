//! The walk from a net and a tick back to a cause that needs no other.
ghost use Rattle.std.specs.Prelude.{◌≡◌, ◌<◌, ◌≤◌, ◌*◌, ◌+◌, length, replicate, IfOk, None};
ghost use Rattle.design.specs.Design.{IsDesign};
ghost use Rattle.causes.specs.declared.cause.Cause.{Cause};
ghost use Rattle.causes.specs.Causes.{cause_behind, causes_of, explained_at, ShowUpTo};
ghost use Rattle.causes.specs.Marks.{mark_place, ForMarked};

use crate::cause::Cause;
use crate::pins::since;
use crate::reasons::{leads_to, reason_at};
use crate::swings::unless_swing;
use design::Design;
use design::plain::shown;
use logic3::{Value, Waveform};
use std::alloc::{AllocError, Global};

/// Returns why a net has its value at a tick: a cause for the net at the tick, and after each one that
/// names a pin the cause of what that pin showed, down to one that needs no other.
///
/// Each cause goes back to the tick at which its net took the value, and says why it took it then. A
/// value since tick 0 is explained at the cause's own tick. If a gate became X, the first pin with X
/// decides. Else, if some pin had the controlling value (0 for AND and NAND, 1 for OR and NOR), the first
/// such pin decides; else the first of the pins that changed last.
///
/// If a net comes again with the same value and swings, the next cause is that of the tick at which the
/// swing began. If it has shown the value since tick 0 both times, it is explained at tick 0. Ticks decrease from
/// cause to cause, so there are at most as many causes as ticks up to the given one.
///
/// The waveforms are those of all nets, in order, at least up to the tick.
///
/// # Errors
/// `AllocError` if an allocation fails.
pub fn why(
    alloc: Global,
    design: &Design,
    waves: &[Waveform],
    net: u32,
    tick: u64,
) -> Result<Vec<Cause>, AllocError>
    requires is_net { net < length design.now.circuit }
    requires waves { ShowUpTo design.now.circuit tick waves.now }
    ensures causes { IfOk result (λ causes. causes.items ≡ causes_of design.now.circuit net tick) }
    ensures few { IfOk result (λ causes. length causes.items ≤ tick + 1) }
    ensures well_formed { IsDesign design.now }
{
    let mut marks = no_marks(alloc, design)?;
    let mut causes = Vec::new(alloc);
    let mut next = Some((net, tick));
    while let Some((at, when)) = next {
        let cause = cause_behind(alloc, design, waves, marks.as_slice(), at, when)?;
        marks[mark_place(at, cause.value)] = Some(cause.since);
        causes.push(cause)?;
        next = leads_to(design, cause);
    }
    Ok(causes)
}

/// Returns the marks for all nets and values, before any cause.
fn no_marks(alloc: Global, design: &Design) -> Result<Vec<Option<u64>>, AllocError>
    ensures marks { IfOk result (λ marks. marks.items ≡ replicate (3 * length design.now.circuit) None) }
    ensures well_formed { IsDesign design.now }
{
    vec![in alloc; None; 3 * design.nets() as usize]
}

/// Returns the place of the mark of a net with a value.
fn mark_place(net: u32, value: Value) -> usize
    ensures { result ≡ mark_place net value }
{
    3 * net as usize
        + match value {
            Value::Zero => 0,
            Value::One => 1,
            Value::Unknown => 2,
        }
}

/// Returns the tick at which a value is explained that a net shows since a tick, and took again at a
/// later one.
fn explained_at(tick: u64, since: u64, again: Option<u64>) -> u64
    ensures { result ≡ explained_at tick since again }
{
    if since > 0 {
        return since;
    }
    match again {
        Some(0) => 0,
        _ => tick,
    }
}

/// Returns the cause of a net's value after those that are marked.
fn cause_behind(
    alloc: Global,
    design: &Design,
    waves: &[Waveform],
    marks: &[Option<u64>],
    net: u32,
    tick: u64,
) -> Result<Cause, AllocError>
    requires formed { IsDesign design.now }
    requires is_net { net < length design.now.circuit }
    requires waves { ShowUpTo design.now.circuit tick waves.now }
    requires marks { length marks.now ≡ 3 * length design.now.circuit }
    ensures { IfOk result (λ cause. ForMarked design.now.circuit marks.now waves.now
        (λ causes. cause ≡ cause_behind design.now.circuit causes net tick)) }
{
    let value = shown(waves, net, tick);
    let from = since(waves, net, tick);
    let again = marks[mark_place(net, value)];
    let at = explained_at(tick, from, again);
    let reason = reason_at(alloc, design, waves, net, at)?;
    Ok(Cause {
        net,
        tick,
        value,
        since: from,
        at,
        reason: unless_swing(waves, net, at, again, reason),
    })
}
