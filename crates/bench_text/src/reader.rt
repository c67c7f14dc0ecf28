//! A .bench text as a netlist: its lines, the names that they define, and what is at each pin.
ghost use Rattle.std.specs.Prelude.{◌≡◌, ◌≢◌, ℕ, ◌<◌, ◌≤◌, ◌^◌, ◌∷◌, [], length, filter_map, sum_by, All};
ghost use Rattle.std.specs.Result.{result_map_both};
ghost use Rattle.bench_text.specs.declared.fault.BenchFault.TheVariants.{Memory, TooLong};
ghost use Rattle.netlist.specs.declared.netlist.Net.{Net as TheNet};
ghost use Rattle.bench_text.specs.Line.{Statement as TheStatement, IsStatement};
ghost use Rattle.bench_text.specs.NetlistOf.{statements_of, definition_in, defined_names, repeated_fault, undefined_fault, is_over_limit, unless, place_of, netlist_of_statements, netlist_of};
ghost use Rattle.netlist.specs.Names.{seen_names};
ghost use Rattle.texts.specs.Text.{longest_text};
ghost use Rattle.bench_text.specs.Stages.{pin_numbers, seen_lines, seen_wiring, wiring_of};

use crate::fault::BenchFault;
use crate::statement::{Statement, statement_of};
use netlist::{MOST_NETS, MOST_PINS, Names, Net, Netlist, without_repeats};
use smallvec::SmallVec;
use std::alloc::Global;
use texts::{LONGEST_TEXT, code_lines};

/// Returns the netlist of a .bench text. A text that is too long is refused before anything is
/// allocated.
pub fn read(alloc: Global, text: &[u8]) -> Result<Netlist, BenchFault>
    ensures netlist { result ≢ Err Memory → result ≡ netlist_of text.now }
    ensures at_once { longest_text < length text.now → result ≡ Err TooLong }
{
    if text.len() > LONGEST_TEXT {
        return Err(BenchFault::TooLong);
    }
    let lines = statements(alloc, text)?;
    netlist(alloc, lines.as_slice())
}

/// Returns what the lines of a text say, each with its number, or the first fault of a line.
fn statements(alloc: Global, text: &[u8]) -> Result<Vec<(u64, Statement<'_>)>, BenchFault>
    ensures { result ≢ Err Memory →
        result_map_both (λ lines. seen_lines lines.items) (λ fault. fault) result ≡ statements_of text.now }
{
    let mut lines = Vec::new(alloc);
    for (line, code) in code_lines(text) {
        let said = statement_of(alloc, line, code)?;
        lines.push((line, said))?;
    }
    Ok(lines)
}

/// Returns the netlist of what the lines of a text say, or what is wrong with them as a whole.
fn netlist(alloc: Global, lines: &[(u64, Statement<'_>)]) -> Result<Netlist, BenchFault>
    requires few { length lines.now ≤ 2 ^ 32 }
    requires well_formed { All (λ (line : ℕ × TheStatement). IsStatement line.1) (seen_lines lines.now) }
    ensures { result ≢ Err Memory → result ≡ netlist_of_statements (seen_lines lines.now) }
{
    let names = defined_names(alloc, lines)?;
    let Wiring { nets, outputs } = connected(alloc, lines, &names)?;
    if nets.is_empty() {
        return Err(BenchFault::NoNets);
    }
    if is_over_limit(nets.as_slice()) {
        return Err(BenchFault::TooMany);
    }
    let outputs = without_repeats(alloc, outputs.as_slice(), names.len())?;
    Ok(Netlist::new(names, nets, outputs)?)
}

/// Returns the names that the lines define, in order, unless one is defined twice.
fn defined_names(alloc: Global, lines: &[(u64, Statement<'_>)]) -> Result<Names, BenchFault>
    requires { length lines.now ≤ 2 ^ 32 }
    ensures { result ≢ Err Memory →
        let definitions = filter_map definition_in (seen_lines lines.now) in
        result ≡ unless (repeated_fault definitions) (defined_names definitions) }
{
    let mut names = Names::new(alloc);
    for (line, said) in lines {
        if let Statement::Defines { name, .. } = said {
            if names.find(name).is_some() {
                return Err(BenchFault::DefinedTwice { line: *line });
            }
            names.push(name)?;
        }
    }
    Ok(names)
}

/// What is at each net and which nets are outputs, by the numbers of names.
#[derive(Drop)]
struct Wiring {
    nets: Vec<Net>,
    // With repeats.
    outputs: Vec<u32>,
}

/// Returns the nets that the lines define and the outputs that they name, unless a line uses a name
/// that is not among these.
fn connected(
    alloc: Global,
    lines: &[(u64, Statement<'_>)],
    names: &Names,
) -> Result<Wiring, BenchFault>
    ensures { result ≢ Err Memory →
        result_map_both seen_wiring (λ fault. fault) result
        ≡ wiring_of names.now (seen_lines lines.now) }
{
    let mut nets = Vec::new(alloc);
    let mut outputs = Vec::new(alloc);
    for (line, said) in lines {
        match said {
            Statement::Defines { part, pins, .. } => {
                let pins = numbers_of(alloc, *line, pins.as_slice(), names)?;
                nets.push(Net { part: *part, pins })?;
            }
            Statement::NamesOutput { name } => outputs.push(number_of(*line, name, names)?)?,
        }
    }
    Ok(Wiring { nets, outputs })
}

/// Returns the numbers of the names that a line has at its pins, unless one is not among these names.
fn numbers_of(
    alloc: Global,
    line: u64,
    pins: &[&[u8]],
    names: &Names,
) -> Result<SmallVec<u32, 4>, BenchFault>
    ensures { result ≢ Err Memory →
        result_map_both (λ numbers. numbers.items) (λ fault. fault) result
        ≡ pin_numbers names.now line (seen_names pins.now) }
{
    let mut numbers = SmallVec::new(alloc);
    for pin in pins {
        let number = number_of(line, pin, names)?;
        numbers.push(number)?;
    }
    Ok(numbers)
}

/// Returns the number of a name that a line uses, unless it is not among these names.
fn number_of(line: u64, name: &[u8], names: &Names) -> Result<u32, BenchFault>
    ensures { result ≡ unless (undefined_fault names.now ((line, name.now) ∷ [])) (place_of names.now name.now) }
{
    names.find(name).ok_or(BenchFault::Undefined { line })
}

/// Returns whether there are more nets, or more pins in all, than a netlist may have.
fn is_over_limit(nets: &[Net]) -> bool
    ensures { result ≡ is_over_limit (length nets.now) (sum_by (λ (net : TheNet). length net.pins.items) nets.now) }
{
    let mut pins: usize = 0;
    for net in nets {
        pins = pins.saturating_add(net.pins.len());
    }
    nets.len() > MOST_NETS || pins > MOST_PINS
}
