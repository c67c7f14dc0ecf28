//! Notes on runs.
use bench_text::BenchFault;
use plain_runs::notes_text;
use prepared_runs::{Picks, SimFault, Source};
use std::alloc::Global;
use std::process::Abort;
use timing_text::{DelayFault, OptionFault, StimulusFault};

// An input that is driven, and an output after it.
const DRIVEN: Source<'static> = Source {
    bench: b"INPUT(e)\nOUTPUT(y)\ny = BUFF(e)\n",
    delays: b"",
    stimuli: b"0 e 0\n9 e 1\n",
    default_delay: 1,
    period: 3,
    picks: Picks::Nothing,
};

// A gate at three inputs, of which one at most is driven, and an inverter after it.
const GATED: Source<'static> = Source {
    bench: b"INPUT(a)\nINPUT(b)\nINPUT(c)\nOUTPUT(y)\ny = AND(a, b, c)\nz = NOT(y)\n",
    stimuli: b"0 b 0\n",
    ..DRIVEN
};

// A flip-flop that samples its own opposite.
const RING: Source<'static> = Source {
    bench: b"q = DFF(n)\nn = NOT(q)\n",
    stimuli: b"",
    ..DRIVEN
};

// An input that nothing uses, beside a flip-flop.
const CLOCKED: Source<'static> = Source {
    bench: b"INPUT(clk)\nINPUT(d)\nOUTPUT(q)\nq = DFF(d)\n",
    stimuli: b"0 clk 0\n0 d 1\n",
    ..DRIVEN
};

// A gate at thirteen inputs.
const WIDE: Source<'static> = Source {
    bench: b"INPUT(a)\nINPUT(b)\nINPUT(c)\nINPUT(d)\nINPUT(e)\nINPUT(f)\nINPUT(g)\nINPUT(h)\nINPUT(i)\n\
          INPUT(j)\nINPUT(k)\nINPUT(l)\nINPUT(m)\nOUTPUT(y)\ny = OR(a, b, c, d, e, f, g, h, i, j, k, l, m)\n",
    stimuli: b"",
    ..DRIVEN
};

// A run with every note on nets.
const ALL: Source<'static> = Source {
    bench: b"INPUT(e)\nz = NOT(y)\ny = AND(a, e)\nINPUT(a)\nINPUT(c)\n",
    stimuli: b"0 e 1\n9 e 0\n",
    ..DRIVEN
};

// A flip-flop that samples what two gates make of an input.
const DELAYED: Source<'static> = Source {
    bench: b"INPUT(a)\nOUTPUT(q)\nn = NOT(a)\nm = NOT(n)\nq = DFF(m)\n",
    stimuli: b"0 a 0\n",
    ..DRIVEN
};

// Two inputs that are driven, and a gate.
const BOTH: Source<'static> = Source {
    bench: b"INPUT(a)\nINPUT(b)\nOUTPUT(y)\ny = AND(a, b)\n",
    stimuli: b"0 a 0\n0 b 0\n",
    ..DRIVEN
};

const LATE: &[u8] = b"note: inputs whose stimuli after the horizon are ignored: e\n";

const NO_OUTPUT: &[u8] = b"note: no net is an output\n";

/// A run, its horizon, and the notes on it.
type Row = (Source<'static>, u64, &'static [u8]);

static NOTED: [Row; 35] = [
    (DRIVEN, 9, b""),
    (DRIVEN, 8, LATE),
    // Only the last stimulus, which comes too late.
    (
        Source {
            stimuli: b"9 e 1\n",
            ..DRIVEN
        },
        8,
        b"note: inputs whose stimuli after the horizon are ignored: e\n\
          note: other nets that are X throughout: e y\n",
    ),
    // It comes at the horizon, and its gate a tick later.
    (
        Source {
            stimuli: b"9 e 1\n",
            ..DRIVEN
        },
        9,
        b"note: other nets that are X throughout: y\n",
    ),
    // An input that is X throughout, since its stimulus says so.
    (
        Source {
            stimuli: b"3 e x\n",
            ..DRIVEN
        },
        9,
        b"note: other nets that are X throughout: e y\n",
    ),
    // A 0 decides what the gate shows.
    (
        GATED,
        5,
        b"note: inputs without a stimulus, X throughout: a c\n",
    ),
    (
        Source {
            stimuli: b"0 b 1\n",
            ..GATED
        },
        5,
        b"note: inputs without a stimulus, X throughout: a c\n\
          note: other nets that are X throughout: y z\n",
    ),
    // Gates are X at tick 0 at least.
    (
        GATED,
        0,
        b"note: inputs without a stimulus, X throughout: a c\n\
          note: other nets that are X throughout: y z\n",
    ),
    // A tick later the first of them shows a 0.
    (
        GATED,
        1,
        b"note: inputs without a stimulus, X throughout: a c\n\
          note: other nets that are X throughout: z\n",
    ),
    (
        RING,
        30,
        b"note: no net is an output\n\
          note: other nets that are X throughout: q n\n",
    ),
    (
        Source {
            delays: b"timing version 2\ninit q 0\n",
            ..RING
        },
        30,
        NO_OUTPUT,
    ),
    (
        ALL,
        8,
        b"note: no net is an output\n\
          note: inputs without a stimulus, X throughout: a c\n\
          note: inputs whose stimuli after the horizon are ignored: e\n\
          note: unused inputs: c\n\
          note: other nets that are X throughout: z y\n",
    ),
    // The 0 at tick 9 shows after both gates.
    (
        ALL,
        11,
        b"note: no net is an output\n\
          note: inputs without a stimulus, X throughout: a c\n\
          note: unused inputs: c\n",
    ),
    (
        CLOCKED,
        9,
        b"note: unused inputs: clk; flip-flops sample by --period or clock lines\n",
    ),
    // An output is used.
    (
        Source {
            bench: b"INPUT(clk)\nINPUT(d)\nOUTPUT(clk)\nq = DFF(d)\n",
            ..CLOCKED
        },
        9,
        b"",
    ),
    // A line has twelve names.
    (
        WIDE,
        9,
        b"note: inputs without a stimulus, X throughout: a b c d e f g h i j k l and 1 more\n\
          note: other nets that are X throughout: y\n",
    ),
    (
        Source {
            stimuli: b"0 m 0\n",
            ..WIDE
        },
        9,
        b"note: inputs without a stimulus, X throughout: a b c d e f g h i j k l\n\
          note: other nets that are X throughout: y\n",
    ),
    // The path takes 2 ticks, and then 4 of a period of 3.
    (DELAYED, 9, b""),
    (
        Source {
            default_delay: 2,
            ..DELAYED
        },
        9,
        b"note: flip-flops whose period is shorter than the longest path to them: q; nullsim info prints the longest\n",
    ),
    // With its wire it takes the 3 ticks of the period.
    (
        Source {
            delays: b"timing version 2\nwire q 0 1\n",
            ..DELAYED
        },
        9,
        b"",
    ),
    (
        Source {
            delays: b"timing version 2\nwire q 0 2\n",
            ..DELAYED
        },
        9,
        b"note: flip-flops whose period is shorter than the longest path to them: q; nullsim info prints the longest\n",
    ),
    // A period of its own.
    (
        Source {
            bench: b"INPUT(a)\nOUTPUT(p)\nOUTPUT(q)\nn = NOT(a)\np = DFF(n)\nq = DFF(n)\n",
            delays: b"timing version 2\nclock p 2 0\n",
            default_delay: 3,
            ..DELAYED
        },
        9,
        b"note: flip-flops whose period is shorter than the longest path to them: p; nullsim info prints the longest\n",
    ),
    // The path begins with the delay of the flip-flop.
    (
        Source {
            delays: b"timing version 2\ninit q 0\n",
            default_delay: 2,
            ..RING
        },
        30,
        b"note: no net is an output\n\
          note: flip-flops whose period is shorter than the longest path to them: q; nullsim info prints the longest\n",
    ),
    // Gates in a loop have no longest path.
    (
        Source {
            bench: b"INPUT(a)\nOUTPUT(q)\nn = NAND(a, m)\nm = NOT(n)\nq = DFF(m)\n",
            default_delay: 5,
            ..DELAYED
        },
        20,
        b"",
    ),
    // Names that look like something else.
    (
        Source {
            bench: b"INPUT(a)\nOUTPUT(y)\ny = NOT(a)\n//z = NOT(a)\n-b = NOT(a)\n;c = NOT(a)\n",
            ..DELAYED
        },
        9,
        b"note: nets named like comments, which begin with # here: //z ;c, in lines 4 6 of the .bench text\n",
    ),
    (
        Source {
            bench: b"INPUT(a;)\nOUTPUT(y:)\ny:= NOT(a;)\n--z<= NOT(a;)\n",
            stimuli: b"0 a; 0\n",
            ..DELAYED
        },
        9,
        b"note: nets named like comments, which begin with # here: --z<, in line 4 of the .bench text\n\
          note: nets whose names end with ';', ':' or '<', as part of the name: a; y: --z<, in lines 1 3 4 of the .bench text\n",
    ),
    (
        Source {
            bench: b"INPUT(a[1:0])\nOUTPUT(y)\ny = NOT(a[1:0])\ny[1] = NOT(y)\ny[2][3:2] = NOT(y)\ny[3:] = NOT(y)\n",
            stimuli: b"0 a[1:0] 0\n",
            ..DELAYED
        },
        9,
        b"note: nets named like buses, each of one bit: a[1:0] y[2][3:2], in lines 1 5 of the .bench text\n",
    ),
    // A comment goes on to the line feed.
    (
        Source {
            bench: b"# two inputs\rINPUT(c)\nINPUT(a)\nINPUT(b)\nOUTPUT(y)\ny = AND(a, b)\n",
            ..BOTH
        },
        9,
        b"note: lines of the .bench text whose comments hide words after a carriage return: 1\n",
    ),
    (
        Source {
            delays: b"# none\r\ny 1 # one \r y 2\n",
            ..BOTH
        },
        9,
        b"note: lines of the delay text whose comments hide words after a carriage return: 2\n",
    ),
    (
        Source {
            stimuli: b"0 a 0 # low\r1 a 1\n0 b 0 # low\r \t\r\n# \r#\n",
            ..BOTH
        },
        9,
        b"note: lines of the stimulus text whose comments hide words after a carriage return: 1 3\n",
    ),
    // Stimuli in comments, for an input without any.
    (
        Source {
            stimuli: b"#10 a 1\n# 5 a 0\n0 b 0\n#10 a = 1;\n#b 1\n#7 b 1\n#8 y 1\n5 b 1 #9 a 1\n#1 a Z\n",
            ..BOTH
        },
        9,
        b"note: inputs without a stimulus, X throughout: a\n\
          note: lines of the stimulus text that # makes comments, with stimuli for inputs that have none: 1 4\n",
    ),
    // Delays in comments, for nets without a delay line: neither for an input, nor for a net that has one.
    (
        Source {
            delays: b"#y 3\n#delay y 3\n# y 3\n#y = 3\n#a 3\n#y 3ns\n#y fast\n#wire y 3\n",
            ..BOTH
        },
        9,
        b"note: lines of the delay text that # makes comments, with delays for nets that have no delay line: 1 2 4\n",
    ),
    (
        Source {
            delays: b"#y 3\ny 1 # fast\n",
            ..BOTH
        },
        9,
        b"",
    ),
    (
        Source {
            delays: b"timing version 2\n#y 3\ndelay y 1\n",
            ..BOTH
        },
        9,
        b"",
    ),
    // Both inputs have one.
    (
        Source {
            stimuli: b"0 a 0\n0 b 0\n#10 a 1\n",
            ..BOTH
        },
        9,
        b"",
    ),
];

fn notes(rt: &impl Abort, alloc: Global, source: &Source, horizon: u64, wanted: &[u8]) {
    let answer = notes_text(alloc, source, horizon);
    assert!(rt; answer.is_ok_and(|text| text.as_slice() == wanted));
}

#[test]
fn noted(rt: HostRuntime) {
    for (source, horizon, wanted) in &NOTED {
        notes(&rt, rt.alloc(), source, *horizon, wanted);
    }
}

// What picks the events has no effect, whatever is wrong with it.
#[test]
fn noted_without_a_schedule(rt: HostRuntime) {
    let source = Source {
        picks: Picks::Text(b"advance zz\n"),
        ..DRIVEN
    };
    notes(&rt, rt.alloc(), &source, 8, LATE);
}

static REFUSED: [(Source<'static>, u64, SimFault); 5] = [
    (
        DRIVEN,
        10_000_001,
        SimFault::Setting(OptionFault::BadHorizon),
    ),
    (
        Source {
            period: 0,
            ..DRIVEN
        },
        5,
        SimFault::Setting(OptionFault::BadPeriod),
    ),
    (
        Source {
            bench: b"y = NOT(a)\n",
            ..DRIVEN
        },
        5,
        SimFault::Bench(BenchFault::Undefined { line: 1 }),
    ),
    (
        Source {
            delays: b"zz 1\n",
            ..DRIVEN
        },
        5,
        SimFault::Timing(DelayFault::UnknownNet { line: 1 }),
    ),
    (
        Source {
            stimuli: b"0 e 0\n3 y 1\n",
            ..DRIVEN
        },
        5,
        SimFault::Stimulus(StimulusFault::NotAnInput { line: 2 }),
    ),
];

#[test]
fn nothing_noted(rt: HostRuntime) {
    for &(source, horizon, fault) in &REFUSED {
        let answer = notes_text(rt.alloc(), &source, horizon);
        assert!(rt; answer.is_err_and(|refused| refused == fault));
    }
}
