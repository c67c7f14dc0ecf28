//! Names that are near to each other, and what is suggested for a name that nothing has.
use explanations::{AtHand, Subject, fault_text, is_one_edit, tables, unknown_fault_text};
use std::alloc::{AllocError, Global};
use std::process::Abort;
use std::test::Fail;

#[test]
fn edits(rt: HostRuntime) {
    for (one, other, near) in [
        (b"enable".as_slice(), b"enabel".as_slice(), true),
        (b"enable", b"enabe", true),
        (b"enable", b"nable", true),
        (b"enable", b"enables", true),
        (b"enable", b"enablE", true),
        (b"enable", b"neable", true),
        (b"", b"a", true),
        (b"aab", b"ab", true),
        (b"enable", b"enable", false),
        (b"enable", b"enab", false),
        (b"enable", b"enalbel", false),
        (b"abcd", b"badc", false),
        (b"abc", b"cba", false),
        (b"G10", b"G11", false),
        (b"G1", b"G10", false),
        (b"G01", b"G10", false),
        (b"a1", b"1a", false),
        (b"G1", b"Gx", false),
        (b"G10", b"H10", true),
        (b"", b"", false),
    ] {
        assert!(rt; is_one_edit(one, other) == near);
        assert!(rt; is_one_edit(other, one) == near);
    }
}

/// What is said before the general meaning of a fault about a name.
fn said<'t>(
    alloc: Global,
    subject: Subject,
    name: &'t str,
    text: &'t [u8],
    circuit: &'t [u8],
) -> Result<Vec<u8>, AllocError> {
    let fault = AtHand {
        subject,
        name,
        line: 1,
        text: Some(text),
        word: None,
        number: None,
        reason: None,
        circuit: Some(circuit),
    };
    fault_text(alloc, &[], fault)
}

#[test]
fn nets_that_are_near(rt: HostRuntime) -> Result<(), AllocError> {
    for (line, after) in [
        (
            b"y = NOT(DATA)\ninput(data)\n".as_slice(),
            b"line 1: y = NOT(DATA)\nno line defines 'DATA'\nline 2 defines 'data'\n".as_slice(),
        ),
        (
            b"y = NOT(b)\nINPUT(a)\n",
            b"line 1: y = NOT(b)\nno line defines 'b'\n",
        ),
        (
            b"y = NOT(ab)\nINPUT(abc)\n",
            b"line 1: y = NOT(ab)\nno line defines 'ab'\n",
        ),
    ] {
        assert!(rt; said(rt.alloc(), Subject::Bench, "Undefined", line, b"")?.as_slice() == after);
    }
    Ok(())
}

#[test]
fn inputs_that_are_near(rt: HostRuntime) -> Result<(), AllocError> {
    let circuit = b"INPUT(data)\nINPUT(enable)\nDATE = NOT(data)\n".as_slice();
    for (name, told) in [
        (
            b"DATA".as_slice(),
            b"given: DATA\nline 1 of the .bench text defines 'data'\n".as_slice(),
        ),
        (
            b"enabel",
            b"given: enabel\nline 2 of the .bench text defines 'enable'\n",
        ),
        (b"Date", b"given: Date\n"),
        (b"b", b"given: b\n"),
    ] {
        let fault = AtHand {
            subject: Subject::Drives,
            name: "NotAnInput",
            line: 0,
            text: None,
            word: Some(name),
            number: None,
            reason: None,
            circuit: Some(circuit),
        };
        assert!(rt; fault_text(rt.alloc(), &[], fault)?.as_slice() == told);
    }
    Ok(())
}

/// A name that the first line uses and no line defines, the lines after it, and what is suggested.
struct Missing {
    name: &'static str,
    lines: &'static str,
    suggested: &'static str,
}

static CONSTANTS: [Missing; 6] = [
    Missing {
        name: "tie1",
        lines: "",
        suggested: "there are no constants: add the line INPUT(tie1), and the stimulus 0 tie1 1\n",
    },
    Missing {
        name: "VSS",
        lines: "",
        suggested: "there are no constants: add the line INPUT(VSS), and the stimulus 0 VSS 0\n",
    },
    Missing {
        name: "0",
        lines: "INPUT(a0)",
        suggested: "there are no constants: add the line INPUT(0), and the stimulus 0 0 0\n",
    },
    Missing {
        name: "1",
        lines: "INPUT(0)",
        suggested: "",
    },
    Missing {
        name: "2",
        lines: "INPUT(a)",
        suggested: "",
    },
    Missing {
        name: "gnd",
        lines: "INPUT(1)",
        suggested: "there are no constants: add the line INPUT(gnd), and the stimulus 0 gnd 0\n",
    },
];

static BITS: [Missing; 6] = [
    Missing {
        name: "d[007]",
        lines: "INPUT(d[15:4])",
        suggested: "line 2 defines 'd[15:4]'\na name with a range is one net; write a line for each bit, such as one for 'd[007]'\n",
    },
    Missing {
        name: "d[4]",
        lines: "INPUT(d[3:0])\nINPUT(d[4:7])",
        suggested: "line 3 defines 'd[4:7]'\na name with a range is one net; write a line for each bit, such as one for 'd[4]'\n",
    },
    Missing {
        name: "d[4]",
        lines: "INPUT(d[5:0])\nINPUT(d[4:7])",
        suggested: "",
    },
    Missing {
        name: "d[1]",
        lines: "INPUT(e[1:0])",
        suggested: "",
    },
    Missing {
        name: "d[1]",
        lines: "INPUT(d[1:0]x)",
        suggested: "",
    },
    Missing {
        name: "d1",
        lines: "INPUT(d[1:0])",
        suggested: "",
    },
];

static MARKS: [Missing; 6] = [
    Missing {
        name: "y",
        lines: "y<= NOT(a)",
        suggested: "line 2 defines 'y<'\na ':', ';' or '<' after a name is part of it\n",
    },
    Missing {
        name: "y",
        lines: "INPUT(y;)",
        suggested: "line 2 defines 'y;'\na ':', ';' or '<' after a name is part of it\n",
    },
    Missing {
        name: "y",
        lines: "INPUT(y;)\nINPUT(y:)",
        suggested: "",
    },
    Missing {
        name: "!ab",
        lines: "INPUT(ab)",
        suggested: "line 2 defines 'ab'\nfor its inverse add the line !ab = NOT(ab)\n",
    },
    Missing {
        name: "!a",
        lines: "INPUT(b)",
        suggested: "",
    },
    Missing {
        name: "~a'",
        lines: "INPUT(~a)",
        suggested: "line 2 defines '~a'\nfor its inverse add the line ~a' = NOT(~a)\n",
    },
];

fn is_suggested(rt: &impl Abort, alloc: Global, missing: &Missing) -> Result<(), Fail> {
    let (name, lines, suggested) = (missing.name, missing.lines, missing.suggested);
    let text = format!(in alloc; "OUTPUT({name})\n{lines}")?;
    let wanted = format!(in alloc;
        "line 1: OUTPUT({name})\nno line defines '{name}'\n{suggested}"
    )?;
    let told = said(
        alloc,
        Subject::Bench,
        "Undefined",
        text.as_str().as_bytes(),
        b"",
    )?;
    assert!(rt; told.as_slice() == wanted.as_str().as_bytes());
    Ok(())
}

#[test]
fn constants(rt: HostRuntime) -> Result<(), Fail> {
    for missing in &CONSTANTS {
        is_suggested(&rt, rt.alloc(), missing)?;
    }
    Ok(())
}

#[test]
fn bits_of_buses(rt: HostRuntime) -> Result<(), Fail> {
    for missing in &BITS {
        is_suggested(&rt, rt.alloc(), missing)?;
    }
    Ok(())
}

#[test]
fn names_with_marks(rt: HostRuntime) -> Result<(), Fail> {
    for missing in &MARKS {
        is_suggested(&rt, rt.alloc(), missing)?;
    }
    Ok(())
}

#[test]
fn nets_of_the_circuit(rt: HostRuntime) -> Result<(), AllocError> {
    let circuit = b"INPUT(reset)\n\nvalid = NOT(reset)\n";
    for (subject, line, after) in [
        (
            Subject::Stimuli,
            b"0 rest 1".as_slice(),
            b"line 1: 0 rest 1\ngiven: rest\nline 1 of the .bench text defines 'reset'\n".as_slice(),
        ),
        (
            Subject::Delays,
            b"Valid 3",
            b"line 1: Valid 3\ngiven: Valid\nline 3 of the .bench text defines 'valid'\n",
        ),
        (
            Subject::Schedule,
            b"advance vlid",
            b"line 1: advance vlid\ngiven: vlid\nline 3 of the .bench text defines 'valid'\n",
        ),
        (
            Subject::Schedule,
            b"advance vld",
            b"line 1: advance vld\ngiven: vld\n",
        ),
    ] {
        assert!(rt; said(rt.alloc(), subject, "UnknownNet", line, circuit)?.as_slice() == after);
    }
    Ok(())
}

#[test]
fn gate_words(rt: HostRuntime) -> Result<(), AllocError> {
    for (line, after) in [
        (
            b"y = xnr(a, b)".as_slice(),
            b"line 1: y = xnr(a, b)\ngiven: xnr\n".as_slice(),
        ),
        (
            b"y = Nro(a, b)",
            b"line 1: y = Nro(a, b)\ngiven: Nro\ndid you mean NOR?\n",
        ),
        (
            b"y = buff1(a)",
            b"line 1: y = buff1(a)\ngiven: buff1\nthe number of pins isn't part of a gate word: BUFF\n",
        ),
        (
            b"y = Inverter(a)",
            b"line 1: y = Inverter(a)\ngiven: Inverter\ndid you mean NOT?\n",
        ),
        (b"y = MAJ(a, b)", b"line 1: y = MAJ(a, b)\ngiven: MAJ\n"),
        (
            b"NOT = y(a)",
            b"line 1: NOT = y(a)\ngiven: y\nthe net comes first: y = NOT(a)\n",
        ),
        (
            b"Nor = y(a, b)",
            b"line 1: Nor = y(a, b)\ngiven: y\nthe net comes first: y = Nor(a, b)\n",
        ),
        (b"DFF = q(d, e)", b"line 1: DFF = q(d, e)\ngiven: q\n"),
    ] {
        assert!(rt;
            said(rt.alloc(), Subject::Bench, "UnknownGate", line, b"")?.as_slice() == after
        );
    }
    Ok(())
}

#[test]
fn fault_names(rt: HostRuntime) -> Result<(), AllocError> {
    for (name, text) in [
        (
            b"Undefind".as_slice(),
            b"no fault is named 'Undefind'; did you mean Undefined?".as_slice(),
        ),
        (
            b"TooLog",
            b"no fault is named 'TooLog'; did you mean TooLong?",
        ),
        (
            b"Late",
            b"no fault is named 'Late'; 'nullsim explain' lists the names",
        ),
    ] {
        assert!(rt; unknown_fault_text(rt.alloc(), &tables(), name)?.as_slice() == text);
    }
    Ok(())
}
