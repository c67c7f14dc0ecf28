//! Faults of schedule texts.
use crate::explanation::{Example, Explanation};

pub(crate) static SCHEDULE: [Explanation; 5] = [
    Explanation {
        name: "TooLong",
        meaning: "the text has more than 16,777,216 bytes.",
        wanted: "a shorter text, or --seed and --picks instead",
        example: None,
    },
    Explanation {
        name: "BadLine",
        meaning: "the line has neither form, or has a byte that is neither white space nor printable. The\n\
                  first word must be in lower case.",
        wanted: "advance NAME or deliver NAME PLACE, such as deliver y 0",
        example: Some(Example {
            line: 1,
            faulty: "deliver y\n",
            mended: "deliver y 0\n",
        }),
    },
    Explanation {
        name: "UnknownNet",
        meaning: "no net of the circuit has this name.",
        wanted: "the name of a net that the .bench text defines, byte for byte",
        example: Some(Example {
            line: 1,
            faulty: "advance z\n",
            mended: "advance y\n",
        }),
    },
    Explanation {
        name: "BadPin",
        meaning: "the net has no pin at this place. Places count from 0, and an input has no pins.",
        wanted: "deliver NAME PLACE with a place below the number of the net's pins, such as deliver y 0 for\n\
                 the first pin of y",
        example: Some(Example {
            line: 1,
            faulty: "deliver y 2\n",
            mended: "deliver y 1\n",
        }),
    },
    Explanation {
        name: "TooManyEvents",
        meaning: "more than 10,000,000 events would be drawn.",
        wanted: "--picks 0 to 10000000",
        example: None,
    },
];
