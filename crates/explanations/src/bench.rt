//! Faults of .bench texts.
use crate::explanation::{Example, Explanation};

pub(crate) static BENCH: [Explanation; 10] = [
    Explanation {
        name: "TooLong",
        meaning: "the text, or the one that cone would write, has more than 16,777,216 bytes.",
        wanted: "a shorter text, with fewer nets or fewer comments",
        example: None,
    },
    Explanation {
        name: "BadByte",
        meaning: "a byte outside comments is neither white space (space, tab, carriage return) nor printable\n\
                  ASCII, such as one of an accented letter or of a byte order mark.",
        wanted: "names in printable ASCII, and anything else in a comment, after a #",
        example: Some(Example {
            line: 2,
            faulty: "INPUT(a)\ny = NOT(\u{e9})\n",
            mended: "INPUT(a)\ny = NOT(a)\n",
        }),
    },
    Explanation {
        name: "BadLine",
        meaning: "the line has none of the three forms of a .bench line, or a net's name begins with $.\n\
                  Often a parenthesis, a comma or the = is missing.",
        wanted: "INPUT(NAME), OUTPUT(NAME) or NAME = GATE(NAME, NAME), such as y = NAND(a, q)",
        example: Some(Example {
            line: 3,
            faulty: "INPUT(a)\nINPUT(b)\ny = NAND(a, b\n",
            mended: "INPUT(a)\nINPUT(b)\ny = NAND(a, b)\n",
        }),
    },
    Explanation {
        name: "NameTooLong",
        meaning: "a net's name has more than 255 bytes.",
        wanted: "a name of at most 255 bytes",
        example: None,
    },
    Explanation {
        name: "UnknownGate",
        meaning: "the word before the parenthesis isn't a gate word.",
        wanted: "AND, NAND, OR, NOR, XOR, XNOR, NOT, INV, BUF, BUFF or DFF, in upper or lower case",
        example: Some(Example {
            line: 3,
            faulty: "INPUT(a)\nINPUT(b)\ny = NADN(a, b)\n",
            mended: "INPUT(a)\nINPUT(b)\ny = NAND(a, b)\n",
        }),
    },
    Explanation {
        name: "BadArity",
        meaning: "the gate doesn't take this number of pins.",
        wanted: "one pin for NOT, BUF and DFF, such as y = NOT(a), and 1 to 1024 for the other gates",
        example: Some(Example {
            line: 3,
            faulty: "INPUT(a)\nINPUT(b)\ny = NOT(a, b)\n",
            mended: "INPUT(a)\nINPUT(b)\ny = NOR(a, b)\n",
        }),
    },
    Explanation {
        name: "DefinedTwice",
        meaning: "the line defines a net that an earlier line already defines. INPUT(a) defines a, and\n\
                  y = NOT(a) defines y.",
        wanted: "another name for one of the two nets, or only one of the two lines",
        example: Some(Example {
            line: 3,
            faulty: "INPUT(a)\ny = NOT(a)\ny = BUF(a)\n",
            mended: "INPUT(a)\ny = NOT(a)\nz = BUF(a)\n",
        }),
    },
    Explanation {
        name: "Undefined",
        meaning: "the line uses, as a pin or as an output, a net that no line defines. Names are compared\n\
                  byte for byte: A and a are different names.",
        wanted: "a line that defines the net, such as INPUT(b), or the name of a net that is defined",
        example: Some(Example {
            line: 2,
            faulty: "INPUT(a)\ny = AND(a, b)\n",
            mended: "INPUT(a)\ny = AND(a, b)\nINPUT(b)\n",
        }),
    },
    Explanation {
        name: "NoNets",
        meaning: "no line defines a net: the text is empty or has only comments.",
        wanted: "at least one line that defines a net, such as INPUT(a)",
        example: Some(Example {
            line: 0,
            faulty: "# to be written\n",
            mended: "INPUT(a)\n",
        }),
    },
    Explanation {
        name: "TooMany",
        meaning: "there are more than 100,000 nets, or more than 1,000,000 pins in total.",
        wanted: "a smaller circuit, such as the part that cone writes",
        example: None,
    },
];
