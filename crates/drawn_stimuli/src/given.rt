//! The drives of single inputs that given drives are made of.
ghost use Rattle.std.specs.Prelude.{◌≡◌, ◌<◌, ◌++◌, ◌/◌, ◌%◌, ◌^◌, length, map, All, IfOk, OnOk};
ghost use Rattle.netlist.specs.Netlist.{net_at};
ghost use Rattle.drawn_stimuli.specs.Inputs.{seen_input_drive};
ghost use Rattle.drawn_stimuli.specs.Given.{first_part, input_drives, names_meant, other_part, parts_from, seen_drive};

use crate::drive::{Drive, Driven, InputDrive};
use net_words::nets_meant;
use netlist::Netlist;
use std::alloc::{AllocError, Global};

/// Returns the bits of a number above this many.
fn high_bits(bits: u64, count: usize) -> u64
    ensures { result ≡ bits / 2 ^ count }
{
    if count < 64 { bits >> count } else { 0 }
}

/// Returns this many low bits of a number.
fn low_bits(bits: u64, count: usize) -> u64
    ensures { result ≡ bits % 2 ^ count }
{
    if count < 64 {
        bits % (1 << count)
    } else {
        bits
    }
}

/// Returns what a drive is for the first of its inputs, if `after` of them come after it.
fn first_part(drive: Drive, after: usize) -> Drive
    ensures { result ≡ first_part drive after }
{
    match drive {
        Drive::HoldBits { ones, unknown } => Drive::HoldBits {
            ones: high_bits(ones, after),
            unknown: high_bits(unknown, after),
        },
        Drive::Clock { .. } | Drive::ClockFrom { .. } | Drive::Hold(_) | Drive::Pulse { .. } =>
            drive,
    }
}

/// Returns what a drive is for the `after` inputs after the first.
fn other_part(drive: Drive, after: usize) -> Drive
    ensures { result ≡ other_part drive after }
{
    match drive {
        Drive::HoldBits { ones, unknown } => Drive::HoldBits {
            ones: low_bits(ones, after),
            unknown: low_bits(unknown, after),
        },
        Drive::Clock { .. } | Drive::ClockFrom { .. } | Drive::Hold(_) | Drive::Pulse { .. } =>
            drive,
    }
}

/// Returns what the given drives are for each input, in the order of the drives, and of the nets that each means.
pub(crate) fn input_drives<'a>(
    alloc: Global,
    netlist: &'a Netlist,
    drives: &[Driven<'a>],
) -> Result<Vec<InputDrive<'a>>, AllocError>
    ensures { IfOk result (λ parts. map seen_input_drive parts.items
        ≡ input_drives netlist.now (map seen_drive drives.now)) }
{
    let mut parts = Vec::new(alloc);
    for (place, driven) in drives.iter().enumerate() {
        push_parts(alloc, &mut parts, netlist, place, driven)?;
    }
    Ok(parts)
}

/// Adds the parts of the drive at a place.
fn push_parts<'a>(
    alloc: Global,
    parts: &mut Vec<InputDrive<'a>>,
    netlist: &'a Netlist,
    place: usize,
    driven: &Driven<'a>,
) -> Result<(), AllocError>
    ensures { OnOk result (map seen_input_drive parts.new.items ≡ map seen_input_drive parts.old.items
        ++ parts_from place driven.now.drive (names_meant netlist.now driven.now.name.now)) }
{
    match nets_meant(alloc, netlist, driven.name)? {
        Some(nets) => push_parts_of(parts, netlist, place, driven.drive, nets.as_slice()),
        None => {
            parts.push(InputDrive {
                name: driven.name,
                drive: first_part(driven.drive, 0),
                place,
            })?;
            Ok(())
        }
    }
}

/// Adds the parts of the drive at a place for these nets.
fn push_parts_of<'a>(
    parts: &mut Vec<InputDrive<'a>>,
    netlist: &'a Netlist,
    place: usize,
    drive: Drive,
    nets: &[u32],
) -> Result<(), AllocError>
    requires { All (λ net. net < length netlist.now.nets) nets.now }
    ensures { OnOk result (map seen_input_drive parts.new.items ≡ map seen_input_drive parts.old.items
        ++ parts_from place drive (map (λ net. (net_at netlist.now net).name) nets.now)) }
{
    let mut left = drive;
    for (index, net) in nets.iter().enumerate() {
        let after = nets.len() - index - 1;
        parts.push(InputDrive {
            name: netlist.name(*net),
            drive: first_part(left, after),
            place,
        })?;
        left = other_part(left, after);
    }
    Ok(())
}
