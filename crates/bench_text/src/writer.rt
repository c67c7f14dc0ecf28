//! A netlist as its canonical .bench text.
ghost use Rattle.std.specs.Prelude.{◌≡◌, ◌≢◌, ◌<◌, ◌≤◌, ◌++◌, length, map, All, OnOk, IfOk, codes};
ghost use Rattle.std.specs.Result.{result_map_both};
ghost use Rattle.bench_text.specs.declared.fault.BenchFault.TheVariants.{Memory};
ghost use Rattle.texts.specs.Text.{longest_text};
ghost use Rattle.netlist.specs.Netlist.{IsNetlist, net_at, name_at};
ghost use Rattle.bench_text.specs.NetlistOf.{netlist_of};
ghost use Rattle.bench_text.specs.Canonical.{keyword_of, port_line, listed, canonical_line, canonical_lines, net_statement, output_statement, canonical, within_limit};

use crate::fault::BenchFault;
use logic3::GateKind;
use netlist::{Netlist, Part};
use std::alloc::{AllocError, Global};
use texts::LONGEST_TEXT;

/// Returns the canonical .bench text of a netlist, which [`read`](crate::read) reads back: a line for
/// each net in order of number, `INPUT(a)` or `y = NAND(a, b)`, and then a line `OUTPUT(y)` for each
/// output in order. Each line ends with a line feed.
///
/// Returns [`TooLong`](BenchFault::TooLong) if that text has more than 16,777,216 bytes.
pub fn write(alloc: Global, netlist: &Netlist) -> Result<Vec<u8>, BenchFault>
    ensures written { result ≢ Err Memory →
        result_map_both (λ text. text.items) (λ fault. fault) result ≡ within_limit (canonical netlist.now) }
    ensures reads_back { IfOk result (λ text. netlist_of text.items ≡ Ok netlist.now) }
{
    let mut text = Vec::new(alloc);
    push_nets(&mut text, netlist)?;
    push_outputs(&mut text, netlist)?;
    Ok(text)
}

/// Adds the lines that define the nets, up to the first that makes the text too long.
fn push_nets(text: &mut Vec<u8>, netlist: &Netlist) -> Result<(), BenchFault>
    requires short { length text.old.items ≤ longest_text }
    ensures written { result ≢ Err Memory →
        result_map_both (λ done. text.new.items) (λ fault. fault) result
        ≡ within_limit (text.old.items ++ canonical_lines (map (net_statement netlist.now) netlist.now.nets)) }
    ensures well_formed { IsNetlist netlist.now }
{
    for net in 0..netlist.nets() {
        push_statement(text, netlist, net)?;
        end_line(text)?;
    }
    Ok(())
}

/// Adds the lines that name the outputs, up to the first that makes the text too long.
fn push_outputs(text: &mut Vec<u8>, netlist: &Netlist) -> Result<(), BenchFault>
    requires short { length text.old.items ≤ longest_text }
    ensures { result ≢ Err Memory →
        result_map_both (λ done. text.new.items) (λ fault. fault) result
        ≡ within_limit (text.old.items ++ canonical_lines (map (output_statement netlist.now) netlist.now.outputs)) }
{
    for output in netlist.outputs() {
        push_port(text, b"OUTPUT", netlist.name(*output))?;
        end_line(text)?;
    }
    Ok(())
}

/// Ends a line, unless that makes the text too long.
fn end_line(text: &mut Vec<u8>) -> Result<(), BenchFault>
    ensures { result ≢ Err Memory →
        result_map_both (λ done. text.new.items) (λ fault. fault) result ≡ within_limit (text.old.items ++ codes "\n") }
{
    text.push(b'\n')?;
    if text.len() > LONGEST_TEXT {
        return Err(BenchFault::TooLong);
    }
    Ok(())
}

/// Adds the line that defines a net, as in the canonical text, without its line feed.
///
/// After an `AllocError` a prefix of the line may have been added.
pub fn push_statement(text: &mut Vec<u8>, netlist: &Netlist, net: u32) -> Result<(), AllocError>
    requires within { net < length netlist.now.nets }
    requires well_formed { IsNetlist netlist.now }
    ensures { OnOk result (text.new.items
        ≡ text.old.items ++ canonical_line (net_statement netlist.now (net_at netlist.now net))) }
{
    let name = netlist.name(net);
    let part = netlist.part(net);
    match part {
        Part::Input => push_port(text, keyword_of(part), name),
        Part::Gate(_) | Part::Flop => {
            text.extend_from_slice(name)?;
            text.extend_from_slice(b" = ")?;
            text.extend_from_slice(keyword_of(part))?;
            text.push(b'(')?;
            push_pins(text, netlist, netlist.pins_of(net))?;
            text.push(b')')?;
            Ok(())
        }
    }
}

/// Adds a line `K(W)`, without its line feed.
fn push_port(text: &mut Vec<u8>, keyword: &[u8], name: &[u8]) -> Result<(), AllocError>
    ensures { OnOk result (text.new.items ≡ text.old.items ++ port_line keyword.now name.now) }
{
    text.extend_from_slice(keyword)?;
    text.push(b'(')?;
    text.extend_from_slice(name)?;
    text.push(b')')?;
    Ok(())
}

/// Adds the names of nets, with a comma and a space between each two.
fn push_pins(text: &mut Vec<u8>, netlist: &Netlist, pins: &[u32]) -> Result<(), AllocError>
    requires { All (λ pin. pin < length netlist.now.nets) pins.now }
    ensures { OnOk result (text.new.items ≡ text.old.items ++ listed (map (name_at netlist.now) pins.now)) }
{
    let Some((first, others)) = pins.split_first() else {
        return Ok(());
    };
    text.extend_from_slice(netlist.name(*first))?;
    for pin in others {
        text.extend_from_slice(b", ")?;
        text.extend_from_slice(netlist.name(*pin))?;
    }
    Ok(())
}

/// Returns the keyword of a part.
fn keyword_of(part: Part) -> &'static [u8]
    ensures { result.now ≡ keyword_of part }
{
    match part {
        Part::Input => b"INPUT",
        Part::Gate(GateKind::And) => b"AND",
        Part::Gate(GateKind::Nand) => b"NAND",
        Part::Gate(GateKind::Or) => b"OR",
        Part::Gate(GateKind::Nor) => b"NOR",
        Part::Gate(GateKind::Xor) => b"XOR",
        Part::Gate(GateKind::Xnor) => b"XNOR",
        Part::Gate(GateKind::Not) => b"NOT",
        Part::Gate(GateKind::Buf) => b"BUF",
        Part::Flop => b"DFF",
    }
}
