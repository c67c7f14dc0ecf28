//! The name at fault among the arguments.
ghost use Rattle.std.specs.Prelude.{◌≡◌, option_map, IfOk};
ghost use Rattle.std.specs.List.{find};
ghost use Rattle.netlist.specs.Names.{seen_names};
ghost use Rattle.command_line.specs.Orders.{names_shown};
ghost use Rattle.nullsim.specs.AtFault.{first_in_neither, first_meaningless, first_unnamed, in_neither, input_driven, means_nothing, name_at_fault, names_nothing, netlist_in, unknown_asked, unknown_drawn};
ghost use Rattle.program_io.specs.declared.order_texts.OrderTexts.{OrderTexts};
ghost use Rattle.program_io.specs.declared.program_fault.ProgramFault.TheVariants.{Drives};

use bench_text::{BenchFault, read};
use command_line::Order;
use drawn_stimuli::DriveFault;
use net_words::{nets_listed, nets_meant};
use netlist::Netlist;
use prepared_runs::{DiagramView, SimFault};
use program_io::{OrderTexts, ProgramFault};
use std::alloc::{AllocError, Global};
use wave_diff::Side;

/// Returns the name at fault, if an argument gave it: the first name that no net of the circuit has, or word of a
/// list that means no net (for `diff`, of either circuit), if the circuit's text is accepted; or the name of the
/// input whose drive is refused.
///
/// # Errors
/// An allocation failed.
pub(crate) fn name_at_fault<'o>(
    alloc: Global,
    order: &'o Order<'_>,
    fault: ProgramFault<'_>,
    texts: &OrderTexts,
) -> Result<Option<&'o [u8]>, AllocError>
    ensures { IfOk result (λ name. option_map (λ name. name.now) name
        ≡ name_at_fault order.now fault.entry texts.now) }
{
    match fault {
        ProgramFault::Run {
            side,
            fault: SimFault::UnknownNet,
        } => unknown_asked(alloc, order, side, texts),
        ProgramFault::Drives(fault) => Ok(driven_at_fault(order, fault)),
        _ => Ok(None),
    }
}

/// Returns the first word of an order for nets to be shown or compared, or of a bus, that means no nets, for
/// `diff` of either netlist; or else the first name that it gives and no net of its netlist has.
fn unknown_asked<'o>(
    alloc: Global,
    order: &'o Order<'_>,
    side: Side,
    texts: &OrderTexts,
) -> Result<Option<&'o [u8]>, AllocError>
    ensures { IfOk result (λ name. option_map (λ name. name.now) name
        ≡ unknown_asked order.now side texts.now) }
{
    match order {
        Order::Diff { names, .. } => {
            let one = netlist_in(alloc, texts.first.bench.as_slice())?;
            let other = netlist_in(alloc, texts.second.bench.as_slice())?;
            first_in_neither(alloc, names.as_slice(), &one, &other)
        }
        Order::Draw { view, .. } => {
            let netlist = netlist_in(alloc, texts.on(side).bench.as_slice())?;
            let name = unknown_drawn(alloc, order.names(), view, &netlist)?;
            Ok(name)
        }
        Order::Run { .. } | Order::Plain { .. } | Order::Frontiers { .. } => {
            let netlist = netlist_in(alloc, texts.on(side).bench.as_slice())?;
            first_in_neither(alloc, order.names(), &netlist, &netlist)
        }
        _ => {
            let netlist = netlist_in(alloc, texts.on(side).bench.as_slice())?;
            Ok(first_unnamed(order.names(), &netlist))
        }
    }
}

/// Returns the first of the words for nets to be shown that means none, or else the first word of a bus of a
/// diagram that means none.
fn unknown_drawn<'a>(
    alloc: Global,
    words: &[&'a [u8]],
    view: &DiagramView<'a>,
    netlist: &Option<Netlist>,
) -> Result<Option<&'a [u8]>, AllocError>
    requires { seen_names words.now ≡ names_shown view.now.show }
    ensures { IfOk result (λ name. option_map (λ name. name.now) name ≡ unknown_drawn view.now netlist.now) }
{
    match first_in_neither(alloc, words, netlist, netlist)? {
        Some(word) => Ok(Some(word)),
        None => first_meaningless(alloc, view.buses.as_slice(), netlist),
    }
}

/// Returns the first of these words that means no nets, if there is the netlist.
fn first_meaningless<'a>(
    alloc: Global,
    words: &[&'a [u8]],
    netlist: &Option<Netlist>,
) -> Result<Option<&'a [u8]>, AllocError>
    ensures { IfOk result (λ word. option_map (λ word. word.now) word
        ≡ first_meaningless (seen_names words.now) netlist.now) }
{
    match netlist {
        Some(netlist) => first_meaning_nothing(alloc, words, netlist),
        None => Ok(None),
    }
}

fn first_meaning_nothing<'a>(
    alloc: Global,
    words: &[&'a [u8]],
    netlist: &Netlist,
) -> Result<Option<&'a [u8]>, AllocError>
    ensures { IfOk result (λ word. option_map (λ word. word.now) word
        ≡ find (means_nothing netlist.now) (seen_names words.now)) }
{
    for word in words {
        if means_nothing(alloc, word, netlist)? {
            return Ok(Some(word));
        }
    }
    Ok(None)
}

fn means_nothing(alloc: Global, word: &[u8], netlist: &Netlist) -> Result<bool, AllocError>
    ensures { IfOk result (λ nothing. nothing ≡ means_nothing netlist.now word.now) }
{
    let nets = nets_meant(alloc, netlist, word)?;
    Ok(nets.is_none())
}

/// Returns the netlist of a text, if it is one.
fn netlist_in(alloc: Global, text: &[u8]) -> Result<Option<Netlist>, AllocError>
    ensures { IfOk result (λ netlist. netlist ≡ netlist_in text.now) }
{
    match read(alloc, text) {
        Ok(netlist) => Ok(Some(netlist)),
        Err(BenchFault::Memory) => Err(AllocError),
        Err(_) => Ok(None),
    }
}

/// Returns the first of these words of a list that means no net of either netlist, if there are both netlists.
fn first_in_neither<'a>(
    alloc: Global,
    words: &[&'a [u8]],
    one: &Option<Netlist>,
    other: &Option<Netlist>,
) -> Result<Option<&'a [u8]>, AllocError>
    ensures { IfOk result (λ word. option_map (λ word. word.now) word
        ≡ first_in_neither (seen_names words.now) one.now other.now) }
{
    match (one, other) {
        (Some(one), Some(other)) => first_unlisted(alloc, words, one, other),
        _ => Ok(None),
    }
}

fn first_unlisted<'a>(
    alloc: Global,
    words: &[&'a [u8]],
    one: &Netlist,
    other: &Netlist,
) -> Result<Option<&'a [u8]>, AllocError>
    ensures { IfOk result (λ word. option_map (λ word. word.now) word
        ≡ find (in_neither one.now other.now) (seen_names words.now)) }
{
    for word in words {
        if in_neither(alloc, word, one, other)? {
            return Ok(Some(word));
        }
    }
    Ok(None)
}

fn in_neither(
    alloc: Global,
    word: &[u8],
    one: &Netlist,
    other: &Netlist,
) -> Result<bool, AllocError>
    ensures { IfOk result (λ neither. neither ≡ in_neither one.now other.now word.now) }
{
    let nets = nets_listed(alloc, one, word)?;
    let others = nets_listed(alloc, other, word)?;
    Ok(nets.is_none() && others.is_none())
}

/// Returns the first of these names that no net has, if there is the netlist.
fn first_unnamed<'a>(names: &[&'a [u8]], netlist: &Option<Netlist>) -> Option<&'a [u8]>
    ensures { option_map (λ name. name.now) result ≡ first_unnamed (seen_names names.now) netlist.now }
{
    match netlist {
        Some(netlist) => first_unknown(names, netlist),
        None => None,
    }
}

fn first_unknown<'a>(names: &[&'a [u8]], netlist: &Netlist) -> Option<&'a [u8]>
    ensures { option_map (λ name. name.now) result ≡ find (names_nothing netlist.now) (seen_names names.now) }
{
    names
        .iter()
        .copied()
        .find(|name| netlist.find(name).is_none())
}

/// Returns the name of the input whose drive is at fault.
fn driven_at_fault<'o>(order: &'o Order<'_>, fault: DriveFault) -> Option<&'o [u8]>
    ensures { (texts : OrderTexts) → option_map (λ name. name.now) result ≡ name_at_fault order.now (Drives fault) texts }
{
    match fault {
        DriveFault::NotAnInput { place }
        | DriveFault::Twice { place }
        | DriveFault::BadHalf { place }
        | DriveFault::BadPulse { place }
        | DriveFault::TooWide { place } => input_driven(order, place),
        DriveFault::BadEvery | DriveFault::TooLong | DriveFault::Memory => None,
    }
}

/// Returns the name of the input that is driven by the drive at a place, if there is such a drive.
fn input_driven<'o>(order: &'o Order<'_>, place: usize) -> Option<&'o [u8]>
    ensures { option_map (λ name. name.now) result ≡ input_driven order.now place }
{
    match order {
        Order::Stimuli { drives, .. } => Some(drives.get(place)?.name),
        _ => None,
    }
}
