//! Refused lines that have a form of another text.
use explanations::{AtHand, Subject, fault_text};
use std::alloc::Global;
use std::process::Abort;
use std::test::Fail;

/// A refused line of a text, and what is printed after it.
struct Refused {
    subject: Subject,
    line: &'static str,
    said: &'static str,
}

// Its nets have names that other texts begin lines with, or are numbers.
static CIRCUIT: &str =
    "INPUT(1)\n5 = NOT(1)\nadvance = NOT(5)\nINPUT(deliver)\n%nullsim = NOT(advance) # z = NOT(1)\n";

static REFUSED: [Refused; 12] = [
    Refused {
        subject: Subject::Stimuli,
        line: "5 1",
        said: "this has the form of a line of a delay text, which --delays takes; a stimulus text is needed\nwrite a stimulus as TICK NAME VALUE, such as 10 a 1\n",
    },
    Refused {
        subject: Subject::Stimuli,
        line: "1 1",
        said: "at the end of the line, after '1 1': expected VALUE, which is 0, 1, x or X\nfor a value from tick 0 on, write 0 1 1\n",
    },
    Refused {
        subject: Subject::Stimuli,
        line: "z 1",
        said: "column 1: found 'z', expected TICK, a whole number of 0 to 10000000\n",
    },
    Refused {
        subject: Subject::Stimuli,
        line: "advance 5",
        said: "this has the form of a line of a delay text, which --delays takes; a stimulus text is needed\nwrite a stimulus as TICK NAME VALUE, such as 10 a 1\n",
    },
    Refused {
        subject: Subject::Stimuli,
        line: "advance x",
        said: "this has the form of a line of a schedule text, which --schedule takes; a stimulus text is needed\nwrite a stimulus as TICK NAME VALUE, such as 10 a 1\n",
    },
    Refused {
        subject: Subject::Stimuli,
        line: "%nullsim 5",
        said: "this has the form of a line of a delay text, which --delays takes; a stimulus text is needed\nwrite a stimulus as TICK NAME VALUE, such as 10 a 1\n",
    },
    Refused {
        subject: Subject::Schedule,
        line: "deliver 1",
        said: "at the end of the line, after 'deliver 1': expected PLACE, a whole number\n",
    },
    Refused {
        subject: Subject::Schedule,
        line: " 10 deliver x # now",
        said: "this has the form of a line of a stimulus text, which --stimuli takes; a schedule text is needed\nwrite a step as advance NAME or deliver NAME PLACE\n",
    },
    Refused {
        subject: Subject::Schedule,
        line: "10 deliver high",
        said: "column 1: found '10', expected 'advance' or 'deliver'\n",
    },
    Refused {
        subject: Subject::Bench,
        line: "deliver 1",
        said: "this has the form of a line of a delay text, which --delays takes; a .bench text is needed\nwrite a gate as y = NAND(a, b), an input as INPUT(a)\n",
    },
    Refused {
        subject: Subject::Bench,
        line: "Output 1",
        said: "column 8, after 'Output': found '1', expected '(' or '='\nwrite Output(1)\n",
    },
    Refused {
        subject: Subject::Delays,
        line: "%nullsim 20 30",
        said: "column 13, after '%nullsim 20': found '30', expected the end of the line\n",
    },
];

fn is_said(rt: &impl Abort, alloc: Global, refused: &Refused) -> Result<(), Fail> {
    let (line, said) = (refused.line, refused.said);
    let wanted = format!(in alloc; "line 1: {line}\n{said}")?;
    let fault = AtHand {
        subject: refused.subject,
        name: "BadLine",
        line: 1,
        text: Some(line.as_bytes()),
        word: None,
        number: None,
        reason: None,
        circuit: Some(CIRCUIT.as_bytes()),
    };
    let told = fault_text(alloc, &[], fault)?;
    assert!(rt; told.as_slice() == wanted.as_str().as_bytes());
    Ok(())
}

#[test]
fn lines_of_other_texts(rt: HostRuntime) -> Result<(), Fail> {
    for refused in &REFUSED {
        is_said(&rt, rt.alloc(), refused)?;
    }
    Ok(())
}
