//! Faults of reading, of writing and of memory.
use crate::explanation::{Example, Explanation};

pub(crate) static PROGRAM: [Explanation; 4] = [
    Explanation {
        name: "Read",
        meaning: "file not found, not readable, or a read failed; at stdin, a read of standard input failed.",
        wanted: "the path of a readable file; relative paths start at the folder where nullsim runs",
        example: Some(Example {
            line: 0,
            faulty: "nullsim info --bench circit.bench\n",
            mended: "nullsim info --bench circuit.bench\n",
        }),
    },
    Explanation {
        name: "Write",
        meaning: "standard output couldn't be written or flushed: the disk is full, or its reader has ended.",
        wanted: "free space on the disk, or a reader that reads to the end",
        example: None,
    },
    Explanation {
        name: "WroteNothing",
        meaning: "standard output accepted no byte of what was written.",
        wanted: "an output that accepts what is written to it",
        example: None,
    },
    Explanation {
        name: "Memory",
        meaning: "out of memory for a text, for the circuit or for its run; a prefix of a dump may have\n\
                  been written.",
        wanted: "more memory, a smaller circuit, an earlier horizon, or fewer nets shown (--show outputs)",
        example: None,
    },
];
