//! The inputs of a netlist, and what drives each.
ghost use Rattle.std.specs.Prelude.{◌≡◌, ◌≢◌, ◌<◌, ◌≤◌, [], length, map, replicate, All, MatchOption, None, Some, Ok, Err, IfOk, true, false};
ghost use Rattle.std.specs.Result.{result_map_both};
ghost use Rattle.netlist.specs.Netlist.{net_named, most_nets};
ghost use Rattle.drawn_stimuli.specs.Signals.{IsDrive, is_pulse};
ghost use Rattle.drawn_stimuli.specs.Inputs.{FailsBy, ForGiven, IsInputNet, can_follow, drives_or_fault, fault_behind, form_fault, inputs_of, is_drawn, names_input, next_place, seen_input, seen_input_drive};

use crate::drive::{Drive, InputDrive};
use crate::fault::DriveFault;
use netlist::Netlist;
use std::alloc::{AllocError, Global};

/// An input by its net number, and where its values come from.
#[derive(Clone, Copy)]
pub(crate) struct InputNet<'d> {
    pub net: u32,
    /// Its drives: none if it is drawn, and several only if all are pulses.
    pub drives: &'d [Drive],
    /// The number of inputs before it that are drawn.
    pub place: u32,
}

/// Returns the number of the input with this name, if any.
fn input_named(netlist: &Netlist, name: &[u8]) -> Option<u32>
    ensures { MatchOption result (names_input netlist.now name.now ≡ false)
        (λ net. (net_named netlist.now name.now ≡ Some net) × (names_input netlist.now name.now ≡ true)) }
{
    let net = netlist.find(name)?;
    if netlist.part(net).is_input() {
        Some(net)
    } else {
        None
    }
}

/// Returns the fault of a drive of one input, as a part of the given one at a place, regardless of the other drives.
fn form_fault(place: usize, drive: Drive) -> Option<DriveFault>
    ensures fault { result ≡ form_fault place drive }
    ensures none { result ≡ None → IsDrive drive }
{
    match drive {
        Drive::Clock { half } if half == 0 => Some(DriveFault::BadHalf { place }),
        Drive::ClockFrom { half, .. } if half == 0 => Some(DriveFault::BadHalf { place }),
        Drive::Pulse { from, to } if from >= to => Some(DriveFault::BadPulse { place }),
        Drive::HoldBits { ones, unknown } if ones >= 2 || unknown >= 2 => Some(DriveFault::TooWide {
            place,
        }),
        Drive::Clock { .. }
        | Drive::ClockFrom { .. }
        | Drive::Hold(_)
        | Drive::HoldBits { .. }
        | Drive::Pulse { .. } => None,
    }
}

/// Returns whether a drive is a pulse.
fn is_pulse(drive: Drive) -> bool
    ensures { result ≡ is_pulse drive }
{
    matches!(drive, Drive::Pulse { .. })
}

/// Returns whether an input that has these drives may have this one too.
fn can_follow(earlier: &[Drive], drive: Drive) -> bool
    ensures { result ≡ can_follow earlier.now drive }
{
    match earlier.first() {
        Some(first) => is_pulse(*first) && is_pulse(drive),
        None => true,
    }
}

/// Returns no drives for each of `nets` nets.
fn no_drives(alloc: Global, nets: u32) -> Result<Vec<Vec<Drive>>, AllocError>
    ensures { IfOk result (λ kept. map (λ drives. drives.items) kept.items ≡ replicate nets []) }
{
    let mut kept = Vec::new(alloc);
    for _net in 0..nets {
        kept.push(Vec::new(alloc))?;
    }
    Ok(kept)
}

/// Returns the net of a drive, or its fault, given the earlier drives by net number.
fn net_to_drive(
    netlist: &Netlist,
    kept: &[Vec<Drive>],
    driven: &InputDrive<'_>,
) -> Result<u32, DriveFault>
    requires one_each { length kept.now ≡ length netlist.now.nets }
    ensures net { IfOk result (λ net. net_named netlist.now driven.now.name.now ≡ Some net) }
    ensures drive { IfOk result (λ _. IsDrive driven.now.drive) }
    ensures fault { ForGiven netlist.now (map (λ drives. drives.items) kept.now) (λ earlier.
        FailsBy (fault_behind netlist.now earlier (seen_input_drive driven.now)) result) }
{
    let place = driven.place;
    let Some(net) = input_named(netlist, driven.name) else {
        return Err(DriveFault::NotAnInput { place });
    };
    let had = kept[net as usize].as_slice();
    if !can_follow(had, driven.drive) {
        return Err(DriveFault::Twice { place });
    }
    if let Some(fault) = form_fault(place, driven.drive) {
        return Err(fault);
    }
    Ok(net)
}

/// Returns the drives of each net, by net number: none except for an input that one of the drives names.
pub(crate) fn drives_by_net(
    alloc: Global,
    netlist: &Netlist,
    drives: &[InputDrive<'_>],
) -> Result<Vec<Vec<Drive>>, DriveFault>
    ensures exact { result ≢ Err DriveFault.Memory →
        result_map_both (λ kept. map (λ drives. drives.items) kept.items) (λ fault. fault) result
        ≡ drives_or_fault netlist.now (map seen_input_drive drives.now) }
    ensures drives { IfOk result (λ kept. All (All IsDrive) (map (λ drives. drives.items) kept.items)) }
{
    let mut kept = no_drives(alloc, netlist.nets())?;
    for driven in drives {
        let net = net_to_drive(netlist, kept.as_slice(), driven)?;
        let own = &mut kept[net as usize];
        own.push(driven.drive)?;
    }
    Ok(kept)
}

/// Returns whether an input with these drives is drawn.
pub(crate) fn is_drawn(drives: &[Drive]) -> bool
    ensures { result ≡ is_drawn drives.now }
{
    drives.is_empty()
}

/// Returns the place after that of an input with these drives.
fn next_place(place: u32, drives: &[Drive]) -> u32
    requires { place < most_nets }
    ensures { result ≡ next_place place drives.now }
{
    if is_drawn(drives) { place + 1 } else { place }
}

/// Returns the inputs in order, each with its drives and its place among the drawn ones, given the
/// drives of each net by number.
pub(crate) fn inputs_of<'d>(
    alloc: Global,
    netlist: &Netlist,
    drives: &'d [Vec<Drive>],
) -> Result<Vec<InputNet<'d>>, AllocError>
    requires one_each { length drives.now ≡ length netlist.now.nets }
    requires drives { All (All IsDrive) (map (λ drives. drives.items) drives.now) }
    ensures inputs { IfOk result (λ inputs. ForGiven netlist.now (map (λ drives. drives.items) drives.now) (λ given.
        map (seen_input netlist.now) inputs.items ≡ inputs_of netlist.now given)) }
    ensures exist { IfOk result (λ inputs. All (IsInputNet netlist.now) inputs.items) }
    ensures few { IfOk result (λ inputs. length inputs.items ≤ most_nets) }
{
    let mut inputs = Vec::new(alloc);
    let mut drawn = 0;
    for net in 0..netlist.nets() {
        if !netlist.part(net).is_input() {
            continue;
        }
        let own = drives[net as usize].as_slice();
        inputs.push(InputNet {
            net,
            drives: own,
            place: drawn,
        })?;
        drawn = next_place(drawn, own);
    }
    Ok(inputs)
}
