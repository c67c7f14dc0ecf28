//! Lines of .bench texts without a form, and what is said of the place at which each stops having one.
use crate::mistaken_lines::{Mistake, is_said};
use explanations::Subject;
use std::test::Fail;

// Lines of .bench texts.
static BENCH: [Mistake; 49] = [
    Mistake {
        line: "INPUT a",
        said: "column 7, after 'INPUT': found 'a', expected '(' or '='\nwrite INPUT(a)",
    },
    Mistake {
        line: "INPUT",
        said: "at the end of the line, after 'INPUT': expected '(' or '='",
    },
    Mistake {
        line: "output(y",
        said: "at the end of the line, after 'output(y': expected ')'\nwrite output(y)",
    },
    Mistake {
        line: "y = NAND(a b)",
        said: "column 12, after 'NAND(a': found 'b', expected ',' or ')'\nwrite y = NAND(a, b)",
    },
    Mistake {
        line: "y = NAND(a,",
        said: "at the end of the line, after 'a,': expected a name",
    },
    Mistake {
        line: "y = NAND(a, b",
        said: "at the end of the line, after 'a, b': expected ',' or ')'\nwrite y = NAND(a, b)",
    },
    Mistake {
        line: "y = NAND(a, \\",
        said: "at the end of the line, after 'a, \\': expected ',' or ')'",
    },
    Mistake {
        line: "y = NAND(a,b,)",
        said: "column 14, after 'b,': found ')', expected a name\nwrite y = NAND(a, b)",
    },
    Mistake {
        line: "y = NAND(,a)",
        said: "column 10, after 'NAND(': found ',', expected ')' or a name\nwrite y = NAND(a)",
    },
    Mistake {
        line: "y = NAND(a,b);",
        said: "column 14, after 'b)': found ';', expected the end of the line\na line ends without a ';'",
    },
    Mistake {
        line: "y = AND();",
        said: "column 10, after 'AND()': found ';', expected the end of the line",
    },
    Mistake {
        line: "INPUT(a) INPUT(b)",
        said: "column 10, after 'a)': found 'INPUT', expected the end of the line\none statement a line: INPUT(a) and INPUT(b)",
    },
    Mistake {
        line: "// note",
        said: "column 1: '//' doesn't begin a comment; # does",
    },
    Mistake {
        line: "y = AND(NOT(a), b)",
        said: "column 12, after 'AND(NOT': found '(', expected ',' or ')'\none gate a line, n being a new name: n = NOT(a) and y = AND(n, b)",
    },
    Mistake {
        line: "y = a & b",
        said: "column 7, after 'y = a': found '&', expected '('",
    },
    Mistake {
        line: "y = a&b",
        said: "at the end of the line, after 'y = a&b': expected '('",
    },
    Mistake {
        line: "y = a",
        said: "at the end of the line, after 'y = a': expected '('",
    },
    Mistake {
        line: "y = (a)",
        said: "column 5, after 'y =': found '(', expected a gate word",
    },
    Mistake {
        line: "y",
        said: "at the end of the line, after 'y': expected '='",
    },
    Mistake {
        line: "AND(y,a,b)",
        said: "column 4, after 'AND': found '(', expected '='\nthe output of a gate comes first: y = AND(a, b)",
    },
    Mistake {
        line: "INPUT(a, b)",
        said: "column 8, after 'INPUT(a': found ',', expected ')'\none name a line: INPUT(a) and INPUT(b)",
    },
    Mistake {
        line: "INPUT(my net)",
        said: "column 10, after 'INPUT(my': found 'net', expected ')'\na name has no white space: write INPUT(my_net)",
    },
    Mistake {
        line: "my net = NOT(a)",
        said: "column 4, after 'my': found 'net', expected '='\na name has no white space: write my_net = NOT(a)",
    },
    Mistake {
        line: "my own net = AND( a, b )",
        said: "column 4, after 'my': found 'own', expected '='\na name has no white space: write my_own_net = AND(a, b)",
    },
    Mistake {
        line: "OUTPUT y = AND(a, b)",
        said: "column 8, after 'OUTPUT': found 'y', expected '(' or '='\none statement a line: OUTPUT(y) and y = AND(a, b)",
    },
    Mistake {
        line: "input y = AND(a, b)",
        said: "column 7, after 'input': found 'y', expected '(' or '='",
    },
    Mistake {
        line: "$n1 = NOT(a)",
        said: "column 1: found '$n1', expected 'INPUT', 'OUTPUT' or a name\nno name begins with '$'; rename it in each line: n1 = NOT(a)",
    },
    Mistake {
        line: "y = AND(a, $n1)",
        said: "column 12, after 'a,': found '$n1', expected a name\nno name begins with '$'; rename it in each line: y = AND(a, n1)",
    },
    Mistake {
        line: "= NOT(a)",
        said: "column 1: found '=', expected 'INPUT', 'OUTPUT' or a name",
    },
    Mistake {
        line: "INPUT(a#)",
        said: "column 8, after 'INPUT(a': found a comment, which begins at #; expected ')'\nwrite INPUT(a)",
    },
    Mistake {
        line: "  y = NAND(a  b) # both",
        said: "column 15, after 'NAND(a': found 'b', expected ',' or ')'\nwrite y = NAND(a, b)",
    },
    Mistake {
        line: "INPTU(a)",
        said: "column 6, after 'INPTU': found '(', expected '='\nwrite INPUT(a)",
    },
    Mistake {
        line: "OUTPU( y )",
        said: "column 6, after 'OUTPU': found '(', expected '='\nwrite OUTPUT(y)",
    },
    Mistake {
        line: "OUTPUTS(y)",
        said: "column 8, after 'OUTPUTS': found '(', expected '='\nwrite OUTPUT(y)",
    },
    Mistake {
        line: "WIRE(w)",
        said: "column 5, after 'WIRE': found '(', expected '='",
    },
    Mistake {
        line: "output y",
        said: "column 8, after 'output': found 'y', expected '(' or '='\nwrite output(y)",
    },
    Mistake {
        line: "AND y",
        said: "column 5, after 'AND': found 'y', expected '='",
    },
    Mistake {
        line: "%stimulus",
        said: "at the end of the line, after '%stimulus': expected '='\n'%stimulus' is no marker of a deck; did you mean %stimuli?",
    },
    Mistake {
        line: "%end",
        said: "at the end of the line, after '%end': expected '='\na marker of a deck is %bench, %delays, %stimuli or %schedule, alone in its line",
    },
    Mistake {
        line: "%x y",
        said: "column 4, after '%x': found 'y', expected '='",
    },
    Mistake {
        line: "y = LUT 0x8 (a, b)",
        said: "column 9, after 'y = LUT': found '0x8', expected '('\nthere are no look-up tables; ABC writes gates by write_bench -l\n0x8 of two pins is AND: y = AND(a, b)",
    },
    Mistake {
        line: "y = LUT 0x7 (a, b)",
        said: "column 9, after 'y = LUT': found '0x7', expected '('\nthere are no look-up tables; ABC writes gates by write_bench -l\n0x7 of two pins is NAND: y = NAND(a, b)",
    },
    Mistake {
        line: "y = LUT 0xe (a, b)",
        said: "column 9, after 'y = LUT': found '0xe', expected '('\nthere are no look-up tables; ABC writes gates by write_bench -l\n0xE of two pins is OR: y = OR(a, b)",
    },
    Mistake {
        line: "y = LUT 0x1 (a, b)",
        said: "column 9, after 'y = LUT': found '0x1', expected '('\nthere are no look-up tables; ABC writes gates by write_bench -l\n0x1 of two pins is NOR: y = NOR(a, b)",
    },
    Mistake {
        line: "y = LUT 0x6 (a, b)",
        said: "column 9, after 'y = LUT': found '0x6', expected '('\nthere are no look-up tables; ABC writes gates by write_bench -l\n0x6 of two pins is XOR: y = XOR(a, b)",
    },
    Mistake {
        line: "y = LUT 0x9 (a, b)",
        said: "column 9, after 'y = LUT': found '0x9', expected '('\nthere are no look-up tables; ABC writes gates by write_bench -l\n0x9 of two pins is XNOR: y = XNOR(a, b)",
    },
    Mistake {
        line: "y = LUT 0x80 (a, b, c)",
        said: "column 9, after 'y = LUT': found '0x80', expected '('\nthere are no look-up tables; ABC writes gates by write_bench -l",
    },
    Mistake {
        line: "y = LUT 0x8 (a, b, c)",
        said: "column 9, after 'y = LUT': found '0x8', expected '('\nthere are no look-up tables; ABC writes gates by write_bench -l",
    },
    Mistake {
        line: "y = LUT 0x8 ($a, b)",
        said: "column 9, after 'y = LUT': found '0x8', expected '('\nthere are no look-up tables; ABC writes gates by write_bench -l",
    },
];

// Lines after those that define the nets a and b.
static AFTER_NETS: [Mistake; 34] = [
    Mistake {
        line: "y = a",
        said: "at the end of the line, after 'y = a': expected '('\na BUF has the value of its pin: y = BUF(a)",
    },
    Mistake {
        line: "y = a & b",
        said: "column 7, after 'y = a': found '&', expected '('\na gate is written NAME = GATE(NAME, NAME): y = AND(a, b)",
    },
    Mistake {
        line: "y = a || b",
        said: "column 7, after 'y = a': found '||', expected '('\na gate is written NAME = GATE(NAME, NAME): y = OR(a, b)",
    },
    Mistake {
        line: "y = a ^ b",
        said: "column 7, after 'y = a': found '^', expected '('\na gate is written NAME = GATE(NAME, NAME): y = XOR(a, b)",
    },
    Mistake {
        line: "y = ~ b",
        said: "column 7, after 'y = ~': found 'b', expected '('\na gate is written NAME = GATE(NAME, NAME): y = NOT(b)",
    },
    Mistake {
        line: "y = a nand b",
        said: "column 7, after 'y = a': found 'nand', expected '('\na gate is written NAME = GATE(NAME, NAME): y = nand(a, b)",
    },
    // No line defines c.
    Mistake {
        line: "y = a & c",
        said: "column 7, after 'y = a': found '&', expected '('",
    },
    Mistake {
        line: "y = NOT a",
        said: "column 9, after 'y = NOT': found 'a', expected '('\nwrite y = NOT(a)",
    },
    Mistake {
        line: "y = OR a, b",
        said: "column 8, after 'y = OR': found 'a', expected '('\nwrite y = OR(a, b)",
    },
    Mistake {
        line: "y = OR a b",
        said: "column 8, after 'y = OR': found 'a', expected '('\nwrite y = OR(a, b)",
    },
    // An inverter has one pin.
    Mistake {
        line: "y = NOT(a b)",
        said: "column 11, after 'NOT(a': found 'b', expected ',' or ')'",
    },
    // No gate has this word.
    Mistake {
        line: "y = NADN(a b)",
        said: "column 12, after 'NADN(a': found 'b', expected ',' or ')'",
    },
    Mistake {
        line: "not(y, a)",
        said: "column 4, after 'not': found '(', expected '='\nthe output of a gate comes first: y = not(a)",
    },
    Mistake {
        line: "WIRE(y, a)",
        said: "column 5, after 'WIRE': found '(', expected '='",
    },
    Mistake {
        line: "y AND(a, b)",
        said: "column 3, after 'y': found 'AND', expected '='\nwrite y = AND(a, b)",
    },
    Mistake {
        line: "y = NOT(a))",
        said: "column 11, after 'a)': found ')', expected the end of the line\nwrite y = NOT(a)",
    },
    Mistake {
        line: "y = NOT(a); z = NOT(b);",
        said: "column 11, after 'a)': found ';', expected the end of the line\none statement a line: y = NOT(a) and z = NOT(b)",
    },
    Mistake {
        line: "y = NOT(a b)",
        said: "column 11, after 'NOT(a': found 'b', expected ',' or ')'",
    },
    Mistake {
        line: "y = NOT(a) too",
        said: "column 12, after 'a)': found 'too', expected the end of the line",
    },
    Mistake {
        line: "output(c, d, e)",
        said: "column 9, after 'output(c': found ',', expected ')'\none name a line: output(c) and output(d) and output(e)",
    },
    Mistake {
        line: "y = AND(a, NOT(b))",
        said: "column 15, after 'a, NOT': found '(', expected ',' or ')'\none gate a line, n being a new name: n = NOT(b) and y = AND(a, n)",
    },
    Mistake {
        line: "y = NOT(AND(a, b))",
        said: "column 12, after 'NOT(AND': found '(', expected ',' or ')'\none gate a line, n being a new name: n = AND(a, b) and y = NOT(n)",
    },
    // The name without its mark is another net's.
    Mistake {
        line: "$a = NOT(b)",
        said: "column 1: found '$a', expected 'INPUT', 'OUTPUT' or a name",
    },
    Mistake {
        line: "y = NAND(a, b \\",
        said: "column 15, after 'a, b': found '\\', expected ',' or ')'\nwrite y = NAND(a, b)",
    },
    // Longer than what is shown.
    Mistake {
        line: "y23456789012345678901234567890123456789012345678901234567890 = NAND(a234567890123456789012345678 b)",
        said: "column 98, after 'NAND(a234567890123456789012345678': found 'b', expected ',' or ')'",
    },
    Mistake {
        line: "y = AND(NOT(a234567890123456789012345), b2345678901234567890, c)",
        said: "column 12, after 'AND(NOT': found '(', expected ',' or ')'",
    },
    Mistake {
        line: "y = a&b",
        said: "at the end of the line, after 'y = a&b': expected '('\na gate is written NAME = GATE(NAME, NAME): y = AND(a, b)",
    },
    Mistake {
        line: "y = a+ b",
        said: "column 8, after 'y = a+': found 'b', expected '('\na gate is written NAME = GATE(NAME, NAME): y = OR(a, b)",
    },
    Mistake {
        line: "y = !a",
        said: "at the end of the line, after 'y = !a': expected '('\na gate is written NAME = GATE(NAME, NAME): y = NOT(a)",
    },
    Mistake {
        line: "y = a * b",
        said: "column 7, after 'y = a': found '*', expected '('\na gate is written NAME = GATE(NAME, NAME): y = AND(a, b)",
    },
    Mistake {
        line: "y = a&c",
        said: "at the end of the line, after 'y = a&c': expected '('",
    },
    Mistake {
        line: "y = a&b&a",
        said: "at the end of the line, after 'y = a&b&a': expected '('",
    },
    // No such mark is before a name.
    Mistake {
        line: "y = &a",
        said: "at the end of the line, after 'y = &a': expected '('",
    },
    Mistake {
        line: "y = ~c",
        said: "at the end of the line, after 'y = ~c': expected '('",
    },
];

#[test]
fn bench_lines_after_nets(rt: HostRuntime) -> Result<(), Fail> {
    for mistake in &AFTER_NETS {
        is_said(
            &rt,
            rt.alloc(),
            Subject::Bench,
            "INPUT(a)\nINPUT(b)\n",
            3,
            mistake,
        )?;
    }
    Ok(())
}

#[test]
fn bench_lines(rt: HostRuntime) -> Result<(), Fail> {
    for mistake in &BENCH {
        is_said(&rt, rt.alloc(), Subject::Bench, "", 1, mistake)?;
    }
    Ok(())
}
