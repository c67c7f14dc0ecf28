//! Faults of delay texts.
use crate::explanation::{Example, Explanation};

pub(crate) static DELAYS: [Explanation; 11] = [
    Explanation {
        name: "TooLong",
        meaning: "the text has more than 16,777,216 bytes.",
        wanted: "a shorter text, for example without lines that only repeat the default delay",
        example: None,
    },
    Explanation {
        name: "BadLine",
        meaning: "the line has none of the forms of its version: it has too few or too many words, a word that\n\
                  isn't a number in the place of one, or a byte that is neither white space nor printable.\n\
                  Lines other than NAME TICKS need timing version 2 as the first line.",
        wanted: "NAME TICKS, such as y 3; after the line timing version 2, delay NAME TICKS,\n\
                 clock NAME PERIOD PHASE, init NAME VALUE or wire NAME PLACE TICKS, such as delay y 3",
        example: Some(Example {
            line: 1,
            faulty: "delay y 3\n",
            mended: "timing version 2\ndelay y 3\n",
        }),
    },
    Explanation {
        name: "UnknownNet",
        meaning: "no net of the circuit has this name.",
        wanted: "the name of a net that the .bench text defines, byte for byte",
        example: Some(Example {
            line: 1,
            faulty: "Y 3\n",
            mended: "y 3\n",
        }),
    },
    Explanation {
        name: "IsInput",
        meaning: "the delay is for an input, and inputs have no delay: their stimuli say when they\n\
                  change.",
        wanted: "the name of a gate or a flip-flop, such as y 3",
        example: Some(Example {
            line: 1,
            faulty: "a 3\n",
            mended: "y 3\n",
        }),
    },
    Explanation {
        name: "NotAFlop",
        meaning: "the clock or the initial value is for an input or a gate.",
        wanted: "the name of a flip-flop, which the .bench text defines by DFF, such as clock q 4 1",
        example: Some(Example {
            line: 2,
            faulty: "timing version 2\nclock y 4 1\n",
            mended: "timing version 2\nclock q 4 1\n",
        }),
    },
    Explanation {
        name: "BadPin",
        meaning: "the wire is to a pin that the net doesn't have. Places count from 0, and an input has no pins.",
        wanted: "wire NAME PLACE TICKS with a place below the number of the net's pins, such as wire y 1 2 for\n\
                 the second pin of y",
        example: Some(Example {
            line: 2,
            faulty: "timing version 2\nwire y 2 5\n",
            mended: "timing version 2\nwire y 1 5\n",
        }),
    },
    Explanation {
        name: "BadTicks",
        meaning: "the delay is 0 or above 1,000,000, or for a wire above 1,000,000.",
        wanted: "1 to 1000000 ticks, or for a wire 0 to 1000000, such as y 3",
        example: Some(Example {
            line: 1,
            faulty: "y 0\n",
            mended: "y 1\n",
        }),
    },
    Explanation {
        name: "BadPeriod",
        meaning: "the clock's period is 0 or above 10,000,000.",
        wanted: "clock NAME PERIOD PHASE with a period of 1 to 10000000 ticks, such as clock q 4 1",
        example: Some(Example {
            line: 2,
            faulty: "timing version 2\nclock q 0 0\n",
            mended: "timing version 2\nclock q 4 0\n",
        }),
    },
    Explanation {
        name: "BadPhase",
        meaning: "the clock's phase isn't below its period.",
        wanted: "clock NAME PERIOD PHASE with a phase of 0 to PERIOD - 1, such as clock q 4 1",
        example: Some(Example {
            line: 2,
            faulty: "timing version 2\nclock q 4 4\n",
            mended: "timing version 2\nclock q 4 3\n",
        }),
    },
    Explanation {
        name: "BadValue",
        meaning: "the initial value isn't one of the values.",
        wanted: "init NAME VALUE with a VALUE of 0, 1, x or X, such as init q 0",
        example: Some(Example {
            line: 2,
            faulty: "timing version 2\ninit q 2\n",
            mended: "timing version 2\ninit q 1\n",
        }),
    },
    Explanation {
        name: "Twice",
        meaning: "an earlier line of the same form is for this net or, among wires, for the same pin.",
        wanted: "only one of the two lines",
        example: Some(Example {
            line: 2,
            faulty: "y 3\ny 4\n",
            mended: "y 3\nq 4\n",
        }),
    },
];
