//! The names by which two runs are compared.
ghost use Rattle.std.specs.Prelude.{◌≡◌, ℕ, ◌<◌, ◌++◌, not, false, filter, is_some, length, slice_index_or, All, IfOk, OnOk};
ghost use Rattle.netlist.specs.Names.{seen_names};
ghost use Rattle.netlist.specs.Netlist.{net_named};
ghost use Rattle.kernel_runs.specs.Diffs.{is_known, is_name_among, joined_names, mean_all, names_at, names_of_nets, names_of_outputs, net_names};
ghost use Rattle.prepared_runs.specs.Marked.{is_among};

use netlist::Netlist;
use prepared_runs::marks_of;
use std::alloc::{AllocError, Global};

/// Returns whether the only name is `all`, and neither netlist has a net of that name.
pub(crate) fn mean_all(first: &Netlist, second: &Netlist, names: &[&[u8]]) -> bool
    ensures { result ≡ mean_all first.now second.now (seen_names names.now) }
{
    let [name] = names else {
        return false;
    };
    *name == b"all".as_slice() && !is_known(first, second, name)
}

/// Returns whether one netlist or the other has a net of this name.
pub(crate) fn is_known(first: &Netlist, second: &Netlist, name: &[u8]) -> bool
    ensures { result ≡ is_known first.now second.now name.now }
{
    first.find(name).is_some() || second.find(name).is_some()
}

/// Returns the names of the first netlist's outputs in order, and after them those of the second's outputs
/// that aren't names of outputs of the first.
pub(crate) fn names_of_outputs<'n>(
    alloc: Global,
    first: &'n Netlist,
    second: &'n Netlist,
) -> Result<Vec<&'n [u8]>, AllocError>
    ensures { IfOk result (λ names. seen_names names.items ≡ names_of_outputs first.now second.now) }
{
    let mut names = Vec::new(alloc);
    push_joined(
        alloc,
        first,
        first.outputs(),
        second,
        second.outputs(),
        &mut names,
    )?;
    Ok(names)
}

/// Adds the names of these nets of the first netlist in order, and after them those of the second's that aren't
/// among them.
pub(crate) fn push_joined<'n>(
    alloc: Global,
    first: &'n Netlist,
    nets: &[u32],
    second: &'n Netlist,
    others: &[u32],
    names: &mut Vec<&'n [u8]>,
) -> Result<(), AllocError>
    requires nets { All (λ net. net < length first.now.nets) nets.now }
    requires others { All (λ net. net < length second.now.nets) others.now }
    ensures { OnOk result (seen_names names.new.items ≡ seen_names names.old.items
        ++ joined_names first.now nets.now second.now others.now) }
{
    let marks = marks_of(alloc, first.nets(), nets)?;
    push_names(first, nets, names)?;
    push_others(second, others, first, nets, marks.as_slice(), names)
}

/// Returns the names of the first netlist's nets in order, and after them those of the second's nets that
/// aren't names of nets of the first.
pub(crate) fn names_of_nets<'n>(
    alloc: Global,
    first: &'n Netlist,
    second: &'n Netlist,
) -> Result<Vec<&'n [u8]>, AllocError>
    ensures { IfOk result (λ names. seen_names names.items ≡ names_of_nets first.now second.now) }
{
    let mut names = Vec::new(alloc);
    push_nets(first, &mut names)?;
    push_new_nets(second, first, &mut names)?;
    Ok(names)
}

/// Adds the names of the nets.
fn push_nets<'n>(netlist: &'n Netlist, names: &mut Vec<&'n [u8]>) -> Result<(), AllocError>
    ensures { OnOk result (seen_names names.new.items ≡ seen_names names.old.items ++ net_names netlist.now) }
{
    for net in 0..netlist.nets() {
        names.push(netlist.name(net))?;
    }
    Ok(())
}

/// Adds the names of the nets that aren't names of nets of another netlist.
fn push_new_nets<'n>(
    netlist: &'n Netlist,
    first: &Netlist,
    names: &mut Vec<&'n [u8]>,
) -> Result<(), AllocError>
    ensures { OnOk result (seen_names names.new.items ≡ seen_names names.old.items
        ++ filter (λ name. not (is_some (net_named first.now name))) (net_names netlist.now)) }
{
    for net in 0..netlist.nets() {
        let name = netlist.name(net);
        if first.find(name).is_none() {
            names.push(name)?;
        }
    }
    Ok(())
}

/// Adds the names of these nets.
fn push_names<'n>(
    netlist: &'n Netlist,
    nets: &[u32],
    names: &mut Vec<&'n [u8]>,
) -> Result<(), AllocError>
    requires { All (λ net. net < length netlist.now.nets) nets.now }
    ensures { OnOk result (seen_names names.new.items ≡ seen_names names.old.items ++ names_at netlist.now nets.now) }
{
    for net in nets {
        names.push(netlist.name(*net))?;
    }
    Ok(())
}

/// Adds the names of these nets that aren't names of certain nets of another netlist, which are marked.
fn push_others<'n>(
    netlist: &'n Netlist,
    others: &[u32],
    first: &Netlist,
    nets: &[u32],
    marks: &[bool],
    names: &mut Vec<&'n [u8]>,
) -> Result<(), AllocError>
    requires others { All (λ net. net < length netlist.now.nets) others.now }
    requires nets { All (λ net. net < length first.now.nets) nets.now }
    requires size { length marks.now ≡ length first.now.nets }
    requires marks { (net : ℕ) → slice_index_or marks.now net false ≡ is_among nets.now net }
    ensures { OnOk result (seen_names names.new.items ≡ seen_names names.old.items
        ++ filter (λ name. not (is_name_among first.now nets.now name)) (names_at netlist.now others.now)) }
{
    for net in others {
        let name = netlist.name(*net);
        if !is_marked(first, nets, marks, name) {
            names.push(name)?;
        }
    }
    Ok(())
}

/// Whether one of these nets, which are marked, has this name.
fn is_marked(netlist: &Netlist, nets: &[u32], marks: &[bool], name: &[u8]) -> bool
    requires nets { All (λ net. net < length netlist.now.nets) nets.now }
    requires size { length marks.now ≡ length netlist.now.nets }
    requires marks { (net : ℕ) → slice_index_or marks.now net false ≡ is_among nets.now net }
    ensures { result ≡ is_name_among netlist.now nets.now name.now }
{
    // No effect at run time. The proof reads from it that names are distinct.
    let _ = netlist.outputs();
    match netlist.find(name) {
        Some(net) => marks[net as usize],
        None => false,
    }
}
