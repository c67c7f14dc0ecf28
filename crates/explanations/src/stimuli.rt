//! Faults of stimulus texts.
use crate::explanation::{Example, Explanation};

pub(crate) static STIMULI: [Explanation; 7] = [
    Explanation {
        name: "TooLong",
        meaning: "the text has more than 16,777,216 bytes.",
        wanted: "a shorter text, with lines only where a value changes",
        example: None,
    },
    Explanation {
        name: "BadLine",
        meaning: "the line isn't a number, a name and a word, or has a byte that is neither white space nor\n\
                  printable.",
        wanted: "TICK NAME VALUE, such as 40 a 1",
        example: Some(Example {
            line: 2,
            faulty: "0 a 0\na 40 1\n",
            mended: "0 a 0\n40 a 1\n",
        }),
    },
    Explanation {
        name: "UnknownNet",
        meaning: "no net of the circuit has this name.",
        wanted: "the name of an input that the .bench text defines, byte for byte",
        example: Some(Example {
            line: 1,
            faulty: "0 A 0\n",
            mended: "0 a 0\n",
        }),
    },
    Explanation {
        name: "NotAnInput",
        meaning: "the net is a gate or a flip-flop, whose value follows from its pins.",
        wanted: "the name of an input, which the .bench text defines by INPUT(NAME)",
        example: Some(Example {
            line: 1,
            faulty: "0 y 0\n",
            mended: "0 a 0\n",
        }),
    },
    Explanation {
        name: "TickTooLarge",
        meaning: "the tick is above 10,000,000.",
        wanted: "a tick of 0 to 10000000",
        example: Some(Example {
            line: 1,
            faulty: "10000001 a 0\n",
            mended: "10000000 a 0\n",
        }),
    },
    Explanation {
        name: "BadValue",
        meaning: "the word isn't one of the values.",
        wanted: "0, 1, x or X, such as 40 a 1",
        example: Some(Example {
            line: 1,
            faulty: "40 a high\n",
            mended: "40 a 1\n",
        }),
    },
    Explanation {
        name: "NotRising",
        meaning: "the tick isn't after that of this input's previous line. Lines for other\n\
                  inputs don't count.",
        wanted: "the lines for each input in the order of their ticks, at most one for a tick",
        example: Some(Example {
            line: 2,
            faulty: "5 a 1\n5 a 0\n",
            mended: "5 a 1\n6 a 0\n",
        }),
    },
];
