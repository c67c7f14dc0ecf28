//! The order of the nets, divided into loops of gates and straight stretches.
ghost use Rattle.std.specs.Prelude.{◌≡◌, ℕ, ◌+◌, ◌<◌, ◌≤◌, length, All, IfOk, true, false};
ghost use Rattle.design.specs.Flow.{IsGate, Feeds};
ghost use Rattle.design.specs.Segments.{past_of, IsAhead, IsCutUp, IsLoop, IsPast, IsStraight};

use crate::design::Design;
use std::alloc::{AllocError, Global};

/// A segment of an order of nets: it begins where the one before it ends.
#[derive(Clone, Copy, Debug, PartialEq, Eq)]
pub struct Segment {
    /// The place after its last net.
    pub end: usize,
    /// Whether it is a loop of gates. If not, each of its gates comes after the gates at its pins.
    pub loops: bool,
}

/// Returns the segments of an order of nets, end to end: loops of gates and the straight stretches
/// between them.
///
/// A loop is a stretch in which values flow back past each place, from a gate to one at or before it,
/// and from which no values flow back to earlier segments. Flip-flops form no loops, since they show
/// what their pins showed at a sample.
///
/// Takes time and memory in proportion to the nets and pins.
///
/// # Errors
/// `AllocError` if an allocation fails.
pub fn segments_of(
    alloc: Global,
    design: &Design,
    order: &[u32],
) -> Result<Vec<Segment>, AllocError>
    requires { All (λ net. net < length design.now.circuit) order.now }
    ensures { IfOk result (λ segments. IsCutUp design.now.circuit order.now segments.items) }
{
    let ahead = gates_ahead(alloc, design, order)?;
    let mut segments = Vec::new(alloc);
    let mut begin = 0;
    while begin < ahead.len() {
        let segment = segment_at(ahead.as_slice(), begin);
        segments.push(segment)?;
        begin = segment.end;
    }
    Ok(segments)
}

/// Returns for each net one more than its last place, or 0 if it has none.
fn places_past(alloc: Global, design: &Design, order: &[u32]) -> Result<Vec<usize>, AllocError>
    requires { All (λ net. net < length design.now.circuit) order.now }
    ensures size { IfOk result (λ past. length past.items ≡ length design.now.circuit) }
    ensures past { IfOk result (λ past. IsPast order.now (length order.now) past.items) }
{
    let mut past = vec![in alloc; 0; design.nets() as usize]?;
    for place in 0..order.len() {
        past[order[place] as usize] = place + 1;
    }
    Ok(past)
}

/// Returns for each place one more than the last place of a gate at the pins of the gate there, or 0 if
/// there is none.
fn gates_ahead(alloc: Global, design: &Design, order: &[u32]) -> Result<Vec<usize>, AllocError>
    requires { All (λ net. net < length design.now.circuit) order.now }
    ensures { IfOk result (λ ahead. IsAhead design.now.circuit order.now (length order.now) ahead.items) }
{
    let past = places_past(alloc, design, order)?;
    let mut ahead = Vec::new(alloc);
    for net in order {
        ahead.push(past_gates(design, *net, past.as_slice()))?;
    }
    Ok(ahead)
}

/// Returns the greatest entry for the gates at the pins of a gate; 0 if there are none.
fn past_gates(design: &Design, net: u32, past: &[usize]) -> usize
    requires net { net < length design.now.circuit }
    requires size { length past.now ≡ length design.now.circuit }
    ensures each { (source : ℕ) → IsGate design.now.circuit source → Feeds design.now.circuit source net →
        past_of past.now source ≤ result }
    ensures there { 0 < result → (source : ℕ) × IsGate design.now.circuit source × Feeds design.now.circuit source net
        × (past_of past.now source ≡ result) }
{
    prove!(net < design.nets());
    if !design.part(net).is_gate() {
        return 0;
    }
    let mut last = 0;
    let pins = design.pins_of(net);
    for pin in pins {
        if design.part(*pin).is_gate() && past[*pin as usize] > last {
            last = past[*pin as usize];
        }
    }
    last
}

/// Returns the segment that begins at a place.
fn segment_at(ahead: &[usize], begin: usize) -> Segment
    requires begin { begin < length ahead.now }
    requires within { All (λ end. end ≤ length ahead.now) ahead.now }
    ensures loops { result.loops ≡ true → (begin < past_of ahead.now begin) × IsLoop ahead.now begin result.end }
    ensures straight { result.loops ≡ false → (begin < result.end) × IsStraight ahead.now begin result.end }
{
    if ahead[begin] > begin {
        Segment {
            end: loop_end(ahead, begin),
            loops: true,
        }
    } else {
        Segment {
            end: straight_end(ahead, begin),
            loops: false,
        }
    }
}

/// Returns the end of the loop that begins at a place.
fn loop_end(ahead: &[usize], begin: usize) -> usize
    requires begin { begin < length ahead.now }
    requires within { All (λ end. end ≤ length ahead.now) ahead.now }
    ensures { IsLoop ahead.now begin result }
{
    let mut at = begin;
    let mut end = begin + 1;
    while at < end {
        if ahead[at] > end {
            end = ahead[at];
        }
        at += 1;
    }
    end
}

/// Returns the end of the straight stretch that begins at a place.
fn straight_end(ahead: &[usize], begin: usize) -> usize
    requires { begin ≤ length ahead.now }
    ensures { IsStraight ahead.now begin result }
{
    let mut end = begin;
    while end < ahead.len() && ahead[end] <= end {
        end += 1;
    }
    end
}
