//! The explanations of faults.
use crate::faults::reported;
use engine_probes::Teller;
use explanations::{
    AtHand, Subject, explanation_text, fault_text, names_text, tables, unknown_fault_text,
};
use std::alloc::Global;
use std::io::Write;

static FAULT: AtHand<'static> = AtHand {
    subject: Subject::Stimuli,
    name: "BadLine",
    line: 2,
    text: Some(b"0 a 0\na 40 1\n"),
    word: Some(b"a"),
    number: Some(40),
    reason: Some(b"no such file"),
    circuit: None,
};

/// Probes the explanation of the faults with a name, the list of all names, the message about a name that no
/// fault has, and the explanation of a particular fault.
pub(crate) fn probe<W: Write>(alloc: Global, teller: &mut Teller<W>) -> Option<()> {
    let tables = tables();
    reported(
        teller,
        "explanation_text",
        explanation_text(alloc, &tables, "BadLine"),
    )?;
    reported(teller, "names_text", names_text(alloc, &tables))?;
    reported(
        teller,
        "unknown_fault_text",
        unknown_fault_text(alloc, &tables, b"BadLinee"),
    )?;
    reported(teller, "fault_text", fault_text(alloc, &tables, FAULT))?;
    Some(())
}
