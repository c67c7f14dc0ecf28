//! What is said of a line without a form.
use explanations::{AtHand, Subject, fault_text, tables};
use std::alloc::{AllocError, Global};
use std::process::Abort;
use std::test::Fail;

/// A line without a form, and what is said of it.
pub(crate) struct Mistake {
    pub(crate) line: &'static str,
    pub(crate) said: &'static str,
}

// The circuit that the other texts are for.
static CIRCUIT: &[u8] = b"INPUT(a)\nINPUT(b)\ny = NAND(a, b)\nq = DFF(y)\n";

// What is printed of the last line of a text, with this number.
pub(crate) fn told(
    alloc: Global,
    subject: Subject,
    number: u64,
    text: &[u8],
) -> Result<Vec<u8>, AllocError> {
    let name = match subject {
        Subject::Deck => "BadDeck",
        _ => "BadLine",
    };
    let fault = AtHand {
        subject,
        name,
        line: number,
        text: Some(text),
        word: None,
        number: None,
        reason: None,
        circuit: Some(CIRCUIT),
    };
    fault_text(alloc, &tables(), fault)
}

// What is printed of a line after other lines: the line, and what is said of it.
pub(crate) fn is_said(
    rt: &impl Abort,
    alloc: Global,
    subject: Subject,
    before: &str,
    number: u64,
    mistake: &Mistake,
) -> Result<(), Fail> {
    let (line, said) = (mistake.line, mistake.said);
    let text = format!(in alloc; "{before}{line}")?;
    let wanted = format!(in alloc; "line {number}: {line}\n{said}\n")?;
    let told = told(alloc, subject, number, text.as_str().as_bytes())?;
    assert!(rt; told.as_slice() == wanted.as_str().as_bytes());
    Ok(())
}
