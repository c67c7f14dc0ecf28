//! Faults of decks.
use crate::explanation::{Example, Explanation};

pub(crate) static DECK: [Explanation; 2] = [
    Explanation {
        name: "TooLong",
        meaning: "the deck has more than 16,777,216 bytes.",
        wanted: "a shorter deck, or nullsim run with files in place of the sections",
        example: None,
    },
    Explanation {
        name: "BadDeck",
        meaning: "the first line isn't %nullsim and the horizon, or the line repeats the marker of a section or\n\
                  has words before the first marker. A deck has no comments of its own.",
        wanted: "%nullsim HORIZON, such as %nullsim 5, followed by %bench, %delays, %stimuli and %schedule,\n\
                 each at most once, alone on its line, and before the lines of its text",
        example: Some(Example {
            line: 2,
            faulty: "%nullsim 5\nINPUT(a)\n",
            mended: "%nullsim 5\n%bench\nINPUT(a)\n",
        }),
    },
];
