//! Lines of delays, stimuli, schedules and decks without a form, and what is said of the place at which each stops
//! having one.
use crate::mistaken_lines::{Mistake, is_said, told};
use explanations::Subject;
use std::test::Fail;

// First lines of delay texts.
static FIRST: [Mistake; 17] = [
    Mistake {
        line: "y 3ns",
        said: "column 3, after 'y': found '3ns', expected TICKS, a whole number of 1 to 1000000\nticks have no unit: write y 3",
    },
    Mistake {
        line: "y #3",
        said: "column 3, after 'y': found a comment, which begins at #; expected TICKS, a whole number of 1 to 1000000\nwrite y 3",
    },
    Mistake {
        line: "y=3",
        said: "at the end of the line, after 'y=3': expected TICKS, a whole number of 1 to 1000000\nwrite y 3",
    },
    Mistake {
        line: "y = 3",
        said: "column 3, after 'y': found '=', expected TICKS, a whole number of 1 to 1000000\nwrite y 3",
    },
    Mistake {
        line: "delay y 3",
        said: "column 7, after 'delay': found 'y', expected TICKS, a whole number of 1 to 1000000\nadd the first line timing version 2",
    },
    Mistake {
        line: "DELAY y 3",
        said: "column 7, after 'DELAY': found 'y', expected TICKS, a whole number of 1 to 1000000\nadd the first line timing version 2",
    },
    Mistake {
        line: "timing version 3",
        said: "column 16, after 'timing version': found '3', expected '2'\na text of version 1 has no such line; one of version 2 begins with timing version 2",
    },
    Mistake {
        line: "timing version 2 x",
        said: "column 18, after 'timing version 2': found 'x', expected the end of the line",
    },
    Mistake {
        line: "timing Version 2",
        said: "column 8, after 'timing': found 'Version', expected 'version' or TICKS, a whole number of 1 to 1000000\nwrite timing version 2",
    },
    Mistake {
        line: "y 2.25",
        said: "column 3, after 'y': found '2.25', expected TICKS, a whole number of 1 to 1000000\na tick is a whole number: multiply all ticks and delays by 100",
    },
    Mistake {
        line: "y #0",
        said: "column 3, after 'y': found a comment, which begins at #; expected TICKS, a whole number of 1 to 1000000",
    },
    Mistake {
        line: "a #3",
        said: "column 3, after 'a': found a comment, which begins at #; expected TICKS, a whole number of 1 to 1000000",
    },
    Mistake {
        line: "y -3",
        said: "column 3, after 'y': found '-3', expected TICKS, a whole number of 1 to 1000000\nticks have no sign",
    },
    Mistake {
        line: "y -",
        said: "column 3, after 'y': found '-', expected TICKS, a whole number of 1 to 1000000",
    },
    Mistake {
        line: "%stimulus",
        said: "at the end of the line, after '%stimulus': expected TICKS, a whole number of 1 to 1000000\n'%stimulus' is no marker of a deck; did you mean %stimuli?",
    },
    Mistake {
        line: "%stimuli # all",
        said: "column 10, after '%stimuli': found a comment, which begins at #; expected TICKS, a whole number of 1 to 1000000\na marker of a deck is %bench, %delays, %stimuli or %schedule, alone in its line",
    },
    Mistake {
        line: "%y 3ns",
        said: "column 4, after '%y': found '3ns', expected TICKS, a whole number of 1 to 1000000\na marker of a deck is %bench, %delays, %stimuli or %schedule, alone in its line",
    },
];

#[test]
fn first_delay_lines(rt: HostRuntime) -> Result<(), Fail> {
    for mistake in &FIRST {
        is_said(&rt, rt.alloc(), Subject::Delays, "", 1, mistake)?;
    }
    Ok(())
}

// Later lines of delay texts of version 1.
static LATER: [Mistake; 3] = [
    Mistake {
        line: "y 3 4",
        said: "column 5, after 'y 3': found '4', expected the end of the line",
    },
    Mistake {
        line: "wire y 0 2",
        said: "column 6, after 'wire': found 'y', expected TICKS, a whole number of 1 to 1000000",
    },
    Mistake {
        line: "timing version 2",
        said: "column 8, after 'timing': found 'version', expected TICKS, a whole number of 1 to 1000000",
    },
];

#[test]
fn later_delay_lines(rt: HostRuntime) -> Result<(), Fail> {
    for mistake in &LATER {
        is_said(&rt, rt.alloc(), Subject::Delays, "z 2\n", 2, mistake)?;
    }
    Ok(())
}

// Lines of delay texts of version 2.
static SECOND: [Mistake; 15] = [
    Mistake {
        line: "wire y n 2",
        said: "column 8, after 'wire y': found 'n', expected PLACE, a whole number\nthe pins of the net, from place 0 on: a, b",
    },
    Mistake {
        line: "wire y 1",
        said: "at the end of the line, after 'wire y 1': expected TICKS, a whole number of 0 to 1000000",
    },
    Mistake {
        line: "DELAY y 3",
        said: "column 1: found 'DELAY', expected 'delay', 'clock', 'init' or 'wire'\nwrite delay y 3",
    },
    Mistake {
        line: "y 3",
        said: "column 1: found 'y', expected 'delay', 'clock', 'init' or 'wire'\nwrite delay y 3",
    },
    Mistake {
        line: "timing version 2",
        said: "column 1: found 'timing', expected 'delay', 'clock', 'init' or 'wire'",
    },
    Mistake {
        line: "delay y",
        said: "at the end of the line, after 'delay y': expected TICKS, a whole number of 1 to 1000000",
    },
    Mistake {
        line: "clock q p",
        said: "column 9, after 'clock q': found 'p', expected PERIOD, a whole number of 1 to 10000000",
    },
    Mistake {
        line: "clock q 4",
        said: "at the end of the line, after 'clock q 4': expected PHASE, a whole number below PERIOD",
    },
    Mistake {
        line: "init q",
        said: "at the end of the line, after 'init q': expected VALUE, which is 0, 1, x or X",
    },
    Mistake {
        line: "init q 1 0",
        said: "column 10, after 'init q 1': found '0', expected the end of the line",
    },
    Mistake {
        line: "dealy y 3",
        said: "column 1: found 'dealy', expected 'delay', 'clock', 'init' or 'wire'\nwrite delay y 3",
    },
    Mistake {
        line: "delay y #3",
        said: "column 9, after 'delay y': found a comment, which begins at #; expected TICKS, a whole number of 1 to 1000000\nwrite delay y 3",
    },
    Mistake {
        line: "Clock q 4 1",
        said: "column 1: found 'Clock', expected 'delay', 'clock', 'init' or 'wire'",
    },
    Mistake {
        line: "Delay a 3",
        said: "column 1: found 'Delay', expected 'delay', 'clock', 'init' or 'wire'",
    },
    Mistake {
        line: "wire q",
        said: "at the end of the line, after 'wire q': expected PLACE, a whole number\nthe pins of the net, from place 0 on: y",
    },
];

#[test]
fn delay_lines_of_version_2(rt: HostRuntime) -> Result<(), Fail> {
    for mistake in &SECOND {
        is_said(
            &rt,
            rt.alloc(),
            Subject::Delays,
            "# delays\n\n timing version 2\t# all\n",
            4,
            mistake,
        )?;
    }
    Ok(())
}

// Lines of stimulus texts.
static STIMULI: [Mistake; 19] = [
    Mistake {
        line: "10ns a 1",
        said: "column 1: found '10ns', expected TICK, a whole number of 0 to 10000000\nticks have no unit: write 10 a 1",
    },
    Mistake {
        line: "2.5 a 1",
        said: "column 1: found '2.5', expected TICK, a whole number of 0 to 10000000\na tick is a whole number: multiply all ticks and delays by 10",
    },
    Mistake {
        line: "-5 a 1",
        said: "column 1: found '-5', expected TICK, a whole number of 0 to 10000000\nticks begin at 0 and have no sign",
    },
    Mistake {
        line: "a 10 1",
        said: "column 1: found 'a', expected TICK, a whole number of 0 to 10000000\nwrite 10 a 1",
    },
    Mistake {
        line: "a=1",
        said: "column 1: found 'a=1', expected TICK, a whole number of 0 to 10000000\nfor a value from tick 0 on, write 0 a 1",
    },
    Mistake {
        line: "a 1",
        said: "column 1: found 'a', expected TICK, a whole number of 0 to 10000000\nfor a value from tick 0 on, write 0 a 1",
    },
    Mistake {
        line: "5",
        said: "at the end of the line, after '5': expected NAME",
    },
    Mistake {
        line: "5 a",
        said: "at the end of the line, after '5 a': expected VALUE, which is 0, 1, x or X",
    },
    Mistake {
        line: "5 a 1 b 0",
        said: "column 7, after '5 a 1': found 'b', expected the end of the line\none change a line: 5 a 1 and 5 b 0",
    },
    Mistake {
        line: "0 a = 1",
        said: "column 7, after '0 a =': found '1', expected the end of the line\nwrite 0 a 1",
    },
    Mistake {
        line: "0123456789012345678901234567890123456789. a 1",
        said: "column 1: found '0123456789012345678901234567890123456789 ..', expected TICK, a whole number of 0 to 10000000",
    },
    Mistake {
        line: "5 a #1",
        said: "column 5, after '5 a': found a comment, which begins at #; expected VALUE, which is 0, 1, x or X\nwrite 5 a 1",
    },
    Mistake {
        line: "5 y #1",
        said: "column 5, after '5 y': found a comment, which begins at #; expected VALUE, which is 0, 1, x or X",
    },
    Mistake {
        line: "1.ns a 1",
        said: "column 1: found '1.ns', expected TICK, a whole number of 0 to 10000000",
    },
    Mistake {
        line: ".5 a 1",
        said: "column 1: found '.5', expected TICK, a whole number of 0 to 10000000",
    },
    Mistake {
        line: "+5 a 1",
        said: "column 1: found '+5', expected TICK, a whole number of 0 to 10000000\nticks begin at 0 and have no sign",
    },
    Mistake {
        line: "5 a -1 x",
        said: "column 8, after '5 a -1': found 'x', expected the end of the line",
    },
    Mistake {
        line: "%timing",
        said: "column 1: found '%timing', expected TICK, a whole number of 0 to 10000000\n'%timing' is no marker of a deck; did you mean %delays?",
    },
    Mistake {
        line: "%end",
        said: "column 1: found '%end', expected TICK, a whole number of 0 to 10000000\na marker of a deck is %bench, %delays, %stimuli or %schedule, alone in its line",
    },
];

#[test]
fn stimulus_lines(rt: HostRuntime) -> Result<(), Fail> {
    for mistake in &STIMULI {
        is_said(&rt, rt.alloc(), Subject::Stimuli, "", 1, mistake)?;
    }
    Ok(())
}

// Lines of schedule texts.
static SCHEDULE: [Mistake; 17] = [
    Mistake {
        line: "advance a 0 -> 1",
        said: "column 11, after 'advance a': found '0', expected the end of the line\na line of a trace has more than its step: write advance a",
    },
    Mistake {
        line: "round 1",
        said: "column 1: found 'round', expected 'advance' or 'deliver'\na line of a trace that is no step: leave it out",
    },
    Mistake {
        line: "Advance a",
        said: "column 1: found 'Advance', expected 'advance' or 'deliver'\nwrite advance a",
    },
    Mistake {
        line: "advance",
        said: "at the end of the line, after 'advance': expected NAME",
    },
    Mistake {
        line: "deliver y",
        said: "at the end of the line, after 'deliver y': expected PLACE, a whole number\nthe pins of the net, from place 0 on: a, b",
    },
    Mistake {
        line: "deliver y a",
        said: "column 11, after 'deliver y': found 'a', expected PLACE, a whole number\nthe pins of the net, from place 0 on: a, b",
    },
    Mistake {
        line: "deliver y 0: 1",
        said: "column 11, after 'deliver y': found '0:', expected PLACE, a whole number\na line of a trace has more than its step: write deliver y 0",
    },
    Mistake {
        line: "advnce a",
        said: "column 1: found 'advnce', expected 'advance' or 'deliver'\nwrite advance a",
    },
    Mistake {
        line: "Deliver y 0",
        said: "column 1: found 'Deliver', expected 'advance' or 'deliver'\nwrite deliver y 0",
    },
    Mistake {
        line: "Advance z",
        said: "column 1: found 'Advance', expected 'advance' or 'deliver'",
    },
    Mistake {
        line: "advance a b",
        said: "column 11, after 'advance a': found 'b', expected the end of the line\none step a line: advance a and advance b",
    },
    Mistake {
        line: "advance y 0 -> 1: null 1",
        said: "column 11, after 'advance y': found '0', expected the end of the line\na line of a trace has more than its step: write advance y",
    },
    Mistake {
        line: "deliver z 0: idle",
        said: "column 11, after 'deliver z': found '0:', expected PLACE, a whole number",
    },
    Mistake {
        line: "events 7 changes 4 nulls 3 rounds 2",
        said: "column 1: found 'events', expected 'advance' or 'deliver'\na line of a trace that is no step: leave it out",
    },
    Mistake {
        line: "deliver a",
        said: "at the end of the line, after 'deliver a': expected PLACE, a whole number",
    },
    Mistake {
        line: "%STIMULI",
        said: "column 1: found '%STIMULI', expected 'advance' or 'deliver'\n'%STIMULI' is no marker of a deck; did you mean %stimuli?",
    },
    Mistake {
        line: "%bench a",
        said: "column 1: found '%bench', expected 'advance' or 'deliver'\na marker of a deck is %bench, %delays, %stimuli or %schedule, alone in its line",
    },
];

#[test]
fn schedule_lines(rt: HostRuntime) -> Result<(), Fail> {
    for mistake in &SCHEDULE {
        is_said(&rt, rt.alloc(), Subject::Schedule, "", 1, mistake)?;
    }
    Ok(())
}

// First lines of decks.
static DECK: [Mistake; 8] = [
    Mistake {
        line: "",
        said: "at the end of the line: expected '%nullsim'\nstandard input is empty: a deck begins with %nullsim and the horizon",
    },
    Mistake {
        line: "%nullsim",
        said: "at the end of the line, after '%nullsim': expected the horizon, a whole number of 0 to 10000000",
    },
    Mistake {
        line: "%nullsim 10ns",
        said: "column 10, after '%nullsim': found '10ns', expected the horizon, a whole number of 0 to 10000000",
    },
    Mistake {
        line: "%nullsim 5 # x",
        said: "column 12, after '%nullsim 5': found '#', expected the end of the line",
    },
    Mistake {
        line: "# a deck",
        said: "column 1: found '#', expected '%nullsim'",
    },
    Mistake {
        line: "%NULLSIM 5",
        said: "column 1: found '%NULLSIM', expected '%nullsim'\nwrite %nullsim 5",
    },
    Mistake {
        line: "INPUT(a)",
        said: "this has the form of a line of a .bench text, which --bench takes; a deck is needed\nbegin with %nullsim and the horizon, such as %nullsim 20",
    },
    Mistake {
        line: "%nulsim 5",
        said: "column 1: found '%nulsim', expected '%nullsim'\nwrite %nullsim 5",
    },
];

#[test]
fn first_lines_of_decks(rt: HostRuntime) -> Result<(), Fail> {
    for mistake in &DECK {
        is_said(&rt, rt.alloc(), Subject::Deck, "", 1, mistake)?;
    }
    Ok(())
}

// Lines of decks before the first section.
static BEFORE_SECTIONS: [Mistake; 3] = [
    Mistake {
        line: "%BENCH",
        said: "'%BENCH' is no marker of a deck; did you mean %bench?",
    },
    Mistake {
        line: " %stimulus # of a",
        said: "'%stimulus' is no marker of a deck; did you mean %stimuli?",
    },
    Mistake {
        line: "%end",
        said: "a marker of a deck is %bench, %delays, %stimuli or %schedule, alone in its line",
    },
];

#[test]
fn lines_before_sections_of_decks(rt: HostRuntime) -> Result<(), Fail> {
    for mistake in &BEFORE_SECTIONS {
        is_said(&rt, rt.alloc(), Subject::Deck, "%nullsim 5\n", 2, mistake)?;
    }
    Ok(())
}

// Decks whose first line has no words, and all that is printed.
static LATE: [(&[u8], &str); 6] = [
    (
        b"# a deck\n\n%nullsim 20\n%bench\n",
        "line 1: # a deck\ncolumn 1: found '#', expected '%nullsim'\na deck has no comments or empty lines before %nullsim: leave out the lines before line 3\n",
    ),
    (
        b"\r\n%nullsim 5\r\n%bench\r\n",
        "line 1:  \nat the end of the line: expected '%nullsim'\na deck has no comments or empty lines before %nullsim: leave out the lines before line 2\n",
    ),
    (
        b"\n%nullsim 5 # a run\n",
        "line 1: \nat the end of the line: expected '%nullsim'\n",
    ),
    (
        b"\nINPUT(a)\n%nullsim 5\n",
        "line 1: \nat the end of the line: expected '%nullsim'\n",
    ),
    (
        b"#\n\n",
        "line 1: #\ncolumn 1: found '#', expected '%nullsim'\n",
    ),
    (
        b" \n\t\n\r\n",
        "line 1:  \nat the end of the line: expected '%nullsim'\nstandard input is empty: a deck begins with %nullsim and the horizon\n",
    ),
];

#[test]
fn decks_that_begin_late(rt: HostRuntime) -> Result<(), Fail> {
    for &(text, wanted) in &LATE {
        let told = told(rt.alloc(), Subject::Deck, 1, text)?;
        assert!(rt; told.as_slice() == wanted.as_bytes());
    }
    Ok(())
}

// Texts whose last line, with a tab or with a byte that isn't printable, has no form; and all that is printed.
static ODD: [(Subject, u64, &[u8], &str); 4] = [
    (
        Subject::Bench,
        2,
        b"INPUT(a)\n\ty = NAND(a\tb)\r",
        "line 2:  y = NAND(a b) \ncolumn 13, after 'NAND(a': found 'b', expected ',' or ')'\nwrite y = NAND(a, b)\n",
    ),
    (
        Subject::Delays,
        1,
        b"y \xc3\xa9 3",
        "line 1: y ?? 3\ncolumn 3: found the byte C3, which is neither white space nor printable ASCII\n",
    ),
    (
        Subject::Stimuli,
        1,
        b"\xef0 a 1",
        "line 1: ?0 a 1\ncolumn 1: found the byte EF, which is neither white space nor printable ASCII\n",
    ),
    (
        Subject::Deck,
        1,
        b"%nullsim 5\x0b",
        "line 1: %nullsim 5?\ncolumn 11: found the byte 0B, which is neither white space nor printable ASCII\n",
    ),
];

#[test]
fn odd_bytes(rt: HostRuntime) -> Result<(), Fail> {
    for &(subject, number, text, wanted) in &ODD {
        let told = told(rt.alloc(), subject, number, text)?;
        assert!(rt; told.as_slice() == wanted.as_bytes());
    }
    Ok(())
}

// The other lines of a deck have no form of their own: what the fault means is printed.
#[test]
fn later_lines_of_decks(rt: HostRuntime) -> Result<(), Fail> {
    let told = told(rt.alloc(), Subject::Deck, 2, b"%nullsim 5\nwords")?;
    assert!(rt;
        told.as_slice()
            .starts_with(b"line 2: words\nBadDeck (deck): ")
    );
    Ok(())
}
