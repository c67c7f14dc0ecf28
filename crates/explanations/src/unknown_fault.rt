//! A name that no fault has.
ghost use Rattle.std.specs.Prelude.{◌≡◌, ◌++◌, ◌∷◌, [], map, option_map, IfOk, OnOk};
ghost use Rattle.mistakes.specs.Near.{near_among};
ghost use Rattle.explanations.specs.UnknownFault.{fault_names, hint_told, names_in, unknown_fault};

use crate::explanation::Explanation;
use crate::table::Table;
use mistakes::near_among;
use std::alloc::{AllocError, Global};

/// Returns the message about a name that no fault of the tables has, with the only fault name near to it, if
/// any, or else how to list all names.
///
/// # Errors
/// An allocation failed.
pub fn unknown_fault_text(
    alloc: Global,
    tables: &[Table],
    name: &[u8],
) -> Result<Vec<u8>, AllocError>
    ensures { IfOk result (λ told. told.items ≡ unknown_fault tables.now name.now) }
{
    let names = fault_names(alloc, tables)?;
    let mut told = Vec::new(alloc);
    told.extend_from_slice(b"no fault is named '")?;
    told.extend_from_slice(name)?;
    push_hint(&mut told, near_among(name, names))?;
    Ok(told)
}

/// Adds the end of the message.
fn push_hint(told: &mut Vec<u8>, near: Option<&[u8]>) -> Result<(), AllocError>
    ensures { OnOk result (told.new.items ≡ told.old.items ++ hint_told (option_map (λ near. near.now) near.entry)) }
{
    match near {
        Some(near) => push_near(told, b"'; did you mean ", near, b"?"),
        None => told.extend_from_slice(b"'; 'nullsim explain' lists the names"),
    }
}

/// Adds a name between two texts.
fn push_near(told: &mut Vec<u8>, before: &[u8], name: &[u8], after: &[u8]) -> Result<(), AllocError>
    ensures { OnOk result (told.new.items ≡ told.old.items ++ (before.now ++ name.now ++ after.now)) }
{
    told.extend_from_slice(before)?;
    told.extend_from_slice(name)?;
    told.extend_from_slice(after)
}

/// Returns the names of the faults of all tables, in their order.
fn fault_names(alloc: Global, tables: &[Table]) -> Result<Vec<&'static [u8]>, AllocError>
    ensures { IfOk result (λ names. map (λ name. name.now) names.items ≡ fault_names tables.now) }
{
    let mut names = Vec::new(alloc);
    for table in tables {
        push_names(&mut names, table.explanations)?;
    }
    Ok(names)
}

fn push_names(
    names: &mut Vec<&'static [u8]>,
    table: &'static [Explanation],
) -> Result<(), AllocError>
    ensures { OnOk result (map (λ name. name.now) names.new.items
        ≡ map (λ name. name.now) names.old.items ++ names_in table.now) }
{
    for one in table {
        push_name(names, one.name)?;
    }
    Ok(())
}

fn push_name(names: &mut Vec<&'static [u8]>, name: &'static str) -> Result<(), AllocError>
    ensures { OnOk result (map (λ name. name.now) names.new.items
        ≡ map (λ name. name.now) names.old.items ++ name.now ∷ []) }
{
    names.push(name.as_bytes())?;
    Ok(())
}
