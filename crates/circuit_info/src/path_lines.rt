//! The lines of the longest paths to flip-flops and to outputs.
ghost use Rattle.std.specs.Prelude.{◌≡◌, ◌<◌, ◌++◌, length, map, All, IfOk, OnOk};
ghost use Rattle.design.specs.Design.{IsDesign};
ghost use Rattle.circuit_info.specs.Paths.{AreLongest, HasNoLoop};
ghost use Rattle.circuit_info.specs.Text.{AddsLine};
ghost use Rattle.circuit_info.specs.PathText.{ends, path_line, ticks_to, words_of, IsEndLine, IsPathText};
ghost use Rattle.circuit_info.specs.declared.path_lines.End.TheVariants.{Flop};

use crate::counts::first_greatest;
use crate::path_nets::path_to_end;
use crate::paths::{longest_paths, ticks_to_pins};
use design::Design;
use netlist::{Netlist, push_names};
use std::alloc::{AllocError, Global};
use texts::push_numbered;

/// Where a path ends.
#[derive(Clone, Copy)]
pub(crate) enum End {
    /// A flip-flop's pin. The flip-flop is the last net of the path, and its own delay doesn't count.
    Flop,
    /// An output.
    Output,
}

/// Returns the lines of the longest paths: `longest-path-to-flip-flop 12 a n1 n2 q` and
/// `longest-path-to-output 7 a n1 y`, with the ticks of a path and its nets, from an input or a flip-flop on.
///
/// A line is left out if nothing is such an end, and both if gates form a loop. Of ends that are as late the first one
/// is printed, in the order of the netlist or of the outputs. A path comes to a gate over the first of the pins that
/// see last what their sources show.
///
/// Takes time and memory in proportion to the nets and pins.
///
/// # Errors
/// `AllocError` if an allocation fails.
pub fn path_text(alloc: Global, design: &Design) -> Result<Vec<u8>, AllocError>
    ensures { IfOk result (λ text. IsPathText design.now text.items) }
{
    prove!(design.nets() > 0);
    match longest_paths(alloc, design)? {
        Some(ticks) => lines_of_ends(alloc, design, ticks.as_slice()),
        None => Ok(Vec::new(alloc)),
    }
}

/// Returns the lines of both kinds of ends, given the ticks of the longest path to each net.
fn lines_of_ends(alloc: Global, design: &Design, ticks: &[u64]) -> Result<Vec<u8>, AllocError>
    requires formed { IsDesign design.now }
    requires flat { HasNoLoop design.now.netlist }
    requires longest { AreLongest design.now ticks.now }
    ensures { IfOk result (λ text. IsPathText design.now text.items) }
{
    let mut text = Vec::new(alloc);
    push_end(alloc, &mut text, design, ticks, End::Flop)?;
    push_end(alloc, &mut text, design, ticks, End::Output)?;
    Ok(text)
}

/// Adds the line of the longest path to such an end, if there are any.
fn push_end(
    alloc: Global,
    text: &mut Vec<u8>,
    design: &Design,
    ticks: &[u64],
    end: End,
) -> Result<(), AllocError>
    requires formed { IsDesign design.now }
    requires flat { HasNoLoop design.now.netlist }
    requires longest { AreLongest design.now ticks.now }
    ensures { OnOk result (AddsLine (IsEndLine design.now end) text.old.items text.new.items) }
{
    let nets = end.nets(alloc, design.netlist())?;
    if nets.is_empty() {
        return Ok(());
    }
    let all = all_ticks(alloc, design, ticks, end, nets.as_slice())?;
    let place = first_greatest(all.as_slice());
    let path = path_to_end(alloc, design, ticks, end, nets[place])?;
    push_path(text, design.netlist(), end, all[place], path.as_slice())?;
    Ok(())
}

/// Adds the line of a path.
fn push_path(
    text: &mut Vec<u8>,
    netlist: &Netlist,
    end: End,
    ticks: usize,
    path: &[u32],
) -> Result<(), AllocError>
    requires { All (λ net. net < length netlist.now.nets) path.now }
    ensures { OnOk result (text.new.items ≡ text.old.items ++ path_line netlist.now end ticks path.now) }
{
    text.extend_from_slice(end.words().as_bytes())?;
    push_numbered(text, b" ", ticks as u64)?;
    push_names(text, netlist, path)?;
    text.push(b'\n')?;
    Ok(())
}

/// Returns the ticks of the longest path to each of these ends.
fn all_ticks(
    alloc: Global,
    design: &Design,
    ticks: &[u64],
    end: End,
    nets: &[u32],
) -> Result<Vec<usize>, AllocError>
    requires formed { IsDesign design.now }
    requires longest { AreLongest design.now ticks.now }
    requires nets { All (λ net. net < length design.now.netlist.nets) nets.now }
    ensures { IfOk result (λ all. all.items ≡ map (ticks_to design.now end) nets.now) }
{
    let mut all = Vec::new(alloc);
    for net in nets {
        all.push(end.ticks(design, ticks, *net) as usize)?;
    }
    Ok(all)
}

impl End {
    /// Returns what a line says of a path.
    fn words(self) -> &'static str
        ensures { result.now ≡ words_of self }
    {
        match self {
            End::Flop => "longest-path-to-flip-flop",
            End::Output => "longest-path-to-output",
        }
    }

    /// Returns the nets that are such ends, in order.
    fn nets(self, alloc: Global, netlist: &Netlist) -> Result<Vec<u32>, AllocError>
        ensures { IfOk result (λ nets. nets.items ≡ ends netlist.now self) }
    {
        match self {
            End::Flop => flops(alloc, netlist),
            End::Output => Vec::from_slice(alloc, netlist.outputs()),
        }
    }

    /// Returns the ticks of the longest path to an end.
    fn ticks(self, design: &Design, ticks: &[u64], net: u32) -> u64
        requires formed { IsDesign design.now }
        requires longest { AreLongest design.now ticks.now }
        requires net { net < length design.now.netlist.nets }
        ensures { result ≡ ticks_to design.now self net }
    {
        match self {
            End::Flop => ticks_to_pins(design, ticks, net),
            End::Output => ticks[net as usize],
        }
    }
}

/// Returns the numbers of the flip-flops, in rising order.
fn flops(alloc: Global, netlist: &Netlist) -> Result<Vec<u32>, AllocError>
    ensures { IfOk result (λ flops. flops.items ≡ ends netlist.now Flop) }
{
    let mut flops = Vec::new(alloc);
    for net in 0..netlist.nets() {
        if netlist.part(net).is_flop() {
            flops.push(net)?;
        }
    }
    Ok(flops)
}
