//! The text that describes a circuit.
ghost use Rattle.std.specs.Prelude.{◌≡◌, ◌<◌, ◌++◌, length, All, IfOk, OnOk};
ghost use Rattle.netlist.specs.Netlist.{IsNetlist};
ghost use Rattle.circuit_info.specs.Text.{count_line, gate_lines, loop_line, part_line, size_lines, unobserved_line, unobserved_lines, AddsLine, IsDepthLine, IsGreatestLine, IsInfoText};

use crate::counts::{fan_ins, fan_outs, first_greatest, gate_count, part_count};
use crate::levels::{Depths, greatest, levels_of};
use logic3::GateKind;
use netlist::{Netlist, Part, push_names};
use std::alloc::{AllocError, Global};
use texts::push_numbered;

/// Returns the text that describes a netlist. `unobserved` has the nets that no output depends on.
///
/// Each line ends with a line feed: `nets 17`, `pins 21`, `inputs 4`, `outputs 1`, `flip-flops 3`, `gates 10`, and a
/// line for each kind of gate, such as `NOR 4`; `fan-in 2 G8`, the greatest number of pins of a net and the first net
/// that has it, and `fan-out 3 G11`, the same for the pins that a net feeds; `levels 6`, the greatest level, or, if
/// some net has no level, `loop x y`, the named loop; and `unobserved y` for each of the given nets, in order.
///
/// Takes time and memory in proportion to the nets and pins.
///
/// # Errors
/// `AllocError` if an allocation fails.
pub fn info_text(
    alloc: Global,
    netlist: &Netlist,
    unobserved: &[u32],
) -> Result<Vec<u8>, AllocError>
    requires { All (λ net. net < length netlist.now.nets) unobserved.now }
    ensures { IfOk result (λ text. IsInfoText netlist.now unobserved.now text.items) }
{
    let mut text = Vec::new(alloc);
    push_sizes(alloc, &mut text, netlist)?;
    push_gates(&mut text, netlist)?;
    let ins = fan_ins(alloc, netlist)?;
    push_greatest(&mut text, netlist, b"fan-in", ins.as_slice())?;
    let outs = fan_outs(alloc, netlist)?;
    push_greatest(&mut text, netlist, b"fan-out", outs.as_slice())?;
    push_depth(alloc, &mut text, netlist)?;
    push_unobserved(&mut text, netlist, unobserved)?;
    Ok(text)
}

/// Adds the numbers of nets, pins, inputs, outputs and flip-flops.
fn push_sizes(alloc: Global, text: &mut Vec<u8>, netlist: &Netlist) -> Result<(), AllocError>
    ensures lines { OnOk result (text.new.items ≡ text.old.items ++ size_lines netlist.now) }
    ensures well_formed { IsNetlist netlist.now }
{
    let nets = netlist.nets();
    let pins = netlist.all_pins(alloc)?;
    push_count(text, b"nets", nets as usize)?;
    push_count(text, b"pins", pins.len())?;
    push_part(text, netlist, b"inputs", Part::Input)?;
    push_count(text, b"outputs", netlist.outputs().len())?;
    push_part(text, netlist, b"flip-flops", Part::Flop)
}

/// Adds the number of gates, in all and of each kind.
fn push_gates(text: &mut Vec<u8>, netlist: &Netlist) -> Result<(), AllocError>
    ensures { OnOk result (text.new.items ≡ text.old.items ++ gate_lines netlist.now) }
{
    push_count(text, b"gates", gate_count(netlist) as usize)?;
    push_part(text, netlist, b"AND", Part::Gate(GateKind::And))?;
    push_part(text, netlist, b"NAND", Part::Gate(GateKind::Nand))?;
    push_part(text, netlist, b"OR", Part::Gate(GateKind::Or))?;
    push_part(text, netlist, b"NOR", Part::Gate(GateKind::Nor))?;
    push_part(text, netlist, b"XOR", Part::Gate(GateKind::Xor))?;
    push_part(text, netlist, b"XNOR", Part::Gate(GateKind::Xnor))?;
    push_part(text, netlist, b"NOT", Part::Gate(GateKind::Not))?;
    push_part(text, netlist, b"BUF", Part::Gate(GateKind::Buf))
}

/// Adds a word, and the number of nets that a part drives.
fn push_part(
    text: &mut Vec<u8>,
    netlist: &Netlist,
    word: &[u8],
    part: Part,
) -> Result<(), AllocError>
    ensures { OnOk result (text.new.items ≡ text.old.items ++ part_line netlist.now word.now part) }
{
    push_count(text, word, part_count(netlist, part) as usize)
}

/// Adds a word and a number.
fn push_count(text: &mut Vec<u8>, word: &[u8], count: usize) -> Result<(), AllocError>
    ensures { OnOk result (text.new.items ≡ text.old.items ++ count_line word.now count) }
{
    text.extend_from_slice(word)?;
    push_numbered(text, b" ", count as u64)?;
    text.push(b'\n')?;
    Ok(())
}

/// Adds a word, the greatest of these numbers, one for each net, and the name of the first net that has it.
fn push_greatest(
    text: &mut Vec<u8>,
    netlist: &Netlist,
    word: &[u8],
    numbers: &[usize],
) -> Result<(), AllocError>
    requires formed { IsNetlist netlist.now }
    requires size { length numbers.now ≡ length netlist.now.nets }
    ensures { OnOk result (AddsLine (IsGreatestLine netlist.now word.now numbers.now) text.old.items text.new.items) }
{
    let net = first_greatest(numbers);
    text.extend_from_slice(word)?;
    push_numbered(text, b" ", numbers[net] as u64)?;
    text.push(b' ')?;
    text.extend_from_slice(netlist.name(net as u32))?;
    text.push(b'\n')?;
    Ok(())
}

/// Adds the greatest level, or the named loop.
fn push_depth(alloc: Global, text: &mut Vec<u8>, netlist: &Netlist) -> Result<(), AllocError>
    ensures { OnOk result (AddsLine (IsDepthLine netlist.now) text.old.items text.new.items) }
{
    match levels_of(alloc, netlist)? {
        Depths::Levels(levels) => {
            push_count(text, b"levels", greatest(levels.as_slice()) as usize)?;
        }
        Depths::Loop(nets) => {
            push_loop(text, netlist, nets.as_slice())?;
        }
    }
    Ok(())
}

/// Adds the names of a loop's nets.
fn push_loop(text: &mut Vec<u8>, netlist: &Netlist, nets: &[u32]) -> Result<(), AllocError>
    requires { All (λ net. net < length netlist.now.nets) nets.now }
    ensures { OnOk result (text.new.items ≡ text.old.items ++ loop_line netlist.now nets.now) }
{
    text.extend_from_slice(b"loop")?;
    push_names(text, netlist, nets)?;
    text.push(b'\n')?;
    Ok(())
}

/// Adds a line for each of these nets.
fn push_unobserved(text: &mut Vec<u8>, netlist: &Netlist, nets: &[u32]) -> Result<(), AllocError>
    requires { All (λ net. net < length netlist.now.nets) nets.now }
    ensures { OnOk result (text.new.items ≡ text.old.items ++ unobserved_lines netlist.now nets.now) }
{
    for net in nets {
        push_unobserved_net(text, netlist.name(*net))?;
    }
    Ok(())
}

/// Adds the name of a net that no output depends on.
fn push_unobserved_net(text: &mut Vec<u8>, name: &[u8]) -> Result<(), AllocError>
    ensures { OnOk result (text.new.items ≡ text.old.items ++ unobserved_line name.now) }
{
    text.extend_from_slice(b"unobserved ")?;
    text.extend_from_slice(name)?;
    text.push(b'\n')?;
    Ok(())
}
