//! Dumps of worked runs, byte for byte.

/// The dump of an inverter driven by 0, and by 1 from tick 3 on, up to tick 5.
pub const INVERTER_DUMP: &[u8] =
    b"$version nullsim 1 $end\n$timescale 1 ns $end\n$scope module top $end\n$var wire 1 ! a $end\n$var wire 1 \" y $end\n$upscope $end\n$enddefinitions $end\n#0\n$dumpvars\n0!\nx\"\n$end\n#1\n1\"\n#3\n1!\n#4\n0\"\n#5\n";

/// The dump of its output alone, in picoseconds.
pub const OUTPUTS_DUMP: &[u8] =
    b"$version nullsim 1 $end\n$timescale 1 ps $end\n$scope module top $end\n$var wire 1 ! y $end\n$upscope $end\n$enddefinitions $end\n#0\n$dumpvars\nx!\n$end\n#1\n1!\n#4\n0!\n#5\n";

/// The dump of the inverter with a delay of 9 ticks.
pub const SLOW_DUMP: &[u8] =
    b"$version nullsim 1 $end\n$timescale 1 ns $end\n$scope module top $end\n$var wire 1 ! a $end\n$var wire 1 \" y $end\n$upscope $end\n$enddefinitions $end\n#0\n$dumpvars\n0!\nx\"\n$end\n#3\n1!\n#5\n";

/// The dump of a buffer and a gate that compares its two sides, driven by 0, and by 1 from tick 5 on, up to
/// tick 8.
pub const EDGE_DUMP: &[u8] =
    b"$version nullsim 1 $end\n$timescale 1 ns $end\n$scope module top $end\n$var wire 1 ! a $end\n$var wire 1 \" b $end\n$var wire 1 # y $end\n$upscope $end\n$enddefinitions $end\n#0\n$dumpvars\n0!\nx\"\nx#\n$end\n#1\n0\"\n#2\n0#\n#5\n1!\n#6\n1\"\n1#\n#7\n0#\n#8\n";

/// The dump of the gate and the input of that circuit alone, in this order.
pub const NAMED_DUMP: &[u8] =
    b"$version nullsim 1 $end\n$timescale 1 ns $end\n$scope module top $end\n$var wire 1 ! y $end\n$var wire 1 \" a $end\n$upscope $end\n$enddefinitions $end\n#0\n$dumpvars\nx!\n0\"\n$end\n#2\n0!\n#5\n1\"\n#6\n1!\n#7\n0!\n#8\n";

/// The dump of its input alone.
pub const INPUT_DUMP: &[u8] =
    b"$version nullsim 1 $end\n$timescale 1 ns $end\n$scope module top $end\n$var wire 1 ! a $end\n$upscope $end\n$enddefinitions $end\n#0\n$dumpvars\n0!\n$end\n#5\n1!\n#8\n";

/// The dump of none of its nets.
pub const NO_NETS_DUMP: &[u8] =
    b"$version nullsim 1 $end\n$timescale 1 ns $end\n$scope module top $end\n$upscope $end\n$enddefinitions $end\n#0\n$dumpvars\n$end\n#8\n";

/// The dump of an inverter whose input is called `all` and whose gate is called `outputs`, driven by 0, and
/// by 1 from tick 3 on, up to tick 5: the gate and then the input.
pub const WORDS_DUMP: &[u8] =
    b"$version nullsim 1 $end\n$timescale 1 ns $end\n$scope module top $end\n$var wire 1 ! outputs $end\n$var wire 1 \" all $end\n$upscope $end\n$enddefinitions $end\n#0\n$dumpvars\nx!\n0\"\n$end\n#1\n1!\n#3\n1\"\n#4\n0!\n#5\n";

/// The dump of its input alone.
pub const WORD_DUMP: &[u8] =
    b"$version nullsim 1 $end\n$timescale 1 ns $end\n$scope module top $end\n$var wire 1 ! all $end\n$upscope $end\n$enddefinitions $end\n#0\n$dumpvars\n0!\n$end\n#3\n1!\n#5\n";

/// The dump of a flip-flop of period 4 whose pin is 1 at tick 4 alone, up to tick 9.
pub const SAMPLER_DUMP: &[u8] =
    b"$version nullsim 1 $end\n$timescale 1 ns $end\n$scope module top $end\n$var wire 1 ! d $end\n$var wire 1 \" q $end\n$upscope $end\n$enddefinitions $end\n#0\n$dumpvars\nx!\nx\"\n$end\n#4\n1!\n#5\n0!\n1\"\n#9\n0\"\n";

/// The dump of an inverter at its own pin, up to tick 3.
pub const SELF_INVERTER_DUMP: &[u8] =
    b"$version nullsim 1 $end\n$timescale 1 ns $end\n$scope module top $end\n$var wire 1 ! y $end\n$upscope $end\n$enddefinitions $end\n#0\n$dumpvars\nx!\n$end\n#3\n";

/// The dump of a NAND at its own pin, which oscillates from tick 5 on, up to tick 12.
pub const OSCILLATOR_DUMP: &[u8] =
    b"$version nullsim 1 $end\n$timescale 1 ns $end\n$scope module top $end\n$var wire 1 ! e $end\n$var wire 1 \" y $end\n$upscope $end\n$enddefinitions $end\n#0\n$dumpvars\n0!\nx\"\n$end\n#2\n1\"\n#5\n1!\n#7\n0\"\n#9\n1\"\n#11\n0\"\n#12\n";

/// The dump of an AND at its own pin, which its input settles, up to tick 5.
pub const LATCH_DUMP: &[u8] =
    b"$version nullsim 1 $end\n$timescale 1 ns $end\n$scope module top $end\n$var wire 1 ! a $end\n$var wire 1 \" y $end\n$upscope $end\n$enddefinitions $end\n#0\n$dumpvars\n0!\nx\"\n$end\n#1\n0\"\n#5\n";

/// The dump of a flip-flop of period 3 that samples its own opposite, up to tick 10.
pub const RING_COUNTER_DUMP: &[u8] =
    b"$version nullsim 1 $end\n$timescale 1 ns $end\n$scope module top $end\n$var wire 1 ! q $end\n$var wire 1 \" n $end\n$upscope $end\n$enddefinitions $end\n#0\n$dumpvars\nx!\nx\"\n$end\n#10\n";

/// The dump of the first flip-flop, sampling at the ticks 1, 5 and 9 and begun with 0, up to tick 9.
pub const CLOCKED_DUMP: &[u8] =
    b"$version nullsim 1 $end\n$timescale 1 ns $end\n$scope module top $end\n$var wire 1 ! d $end\n$var wire 1 \" q $end\n$upscope $end\n$enddefinitions $end\n#0\n$dumpvars\nx!\n0\"\n$end\n#2\nx\"\n#4\n1!\n#5\n0!\n#6\n0\"\n#9\n";

/// The dump of the second one, begun with 0, up to tick 10.
pub const PRESET_RING_DUMP: &[u8] =
    b"$version nullsim 1 $end\n$timescale 1 ns $end\n$scope module top $end\n$var wire 1 ! q $end\n$var wire 1 \" n $end\n$upscope $end\n$enddefinitions $end\n#0\n$dumpvars\n0!\nx\"\n$end\n#1\n1\"\n#4\n1!\n#5\n0\"\n#7\n0!\n#8\n1\"\n#10\n1!\n";

/// The dump of a buffer and a gate that compares its two sides, the wire to the first one of which takes as
/// long as the buffer, up to tick 8.
pub const WIRED_XOR_DUMP: &[u8] =
    b"$version nullsim 1 $end\n$timescale 1 ns $end\n$scope module top $end\n$var wire 1 ! a $end\n$var wire 1 \" b $end\n$var wire 1 # y $end\n$upscope $end\n$enddefinitions $end\n#0\n$dumpvars\n0!\nx\"\nx#\n$end\n#1\n0\"\n#2\n0#\n#5\n1!\n#6\n1\"\n#8\n";

/// The dump of a flip-flop that sees a change of its pin too late, up to tick 9.
pub const WIRED_FLOP_DUMP: &[u8] =
    b"$version nullsim 1 $end\n$timescale 1 ns $end\n$scope module top $end\n$var wire 1 ! d $end\n$var wire 1 \" q $end\n$upscope $end\n$enddefinitions $end\n#0\n$dumpvars\nx!\nx\"\n$end\n#4\n1!\n#5\n0!\n#9\n0\"\n";

/// The dump of the nets a, y, b and z, where y inverts a, and z is 1 where a and b are, up to tick 5.
pub const TWIN_DUMP: &[u8] =
    b"$version nullsim 1 $end\n$timescale 1 ns $end\n$scope module top $end\n$var wire 1 ! a $end\n$var wire 1 \" y $end\n$var wire 1 # b $end\n$var wire 1 $ z $end\n$upscope $end\n$enddefinitions $end\n#0\n$dumpvars\n0!\nx\"\n1#\nx$\n$end\n#1\n1\"\n0$\n#3\n1!\n#4\n0\"\n1$\n#5\n";

/// The dump of another circuit with the same y, driven alike, in which z is 1 where a and b differ.
pub const OTHER_TWIN_DUMP: &[u8] =
    b"$version nullsim 1 $end\n$timescale 1 ns $end\n$scope module top $end\n$var wire 1 ! c $end\n$var wire 1 \" k $end\n$var wire 1 # m $end\n$var wire 1 $ z $end\n$var wire 1 % b $end\n$var wire 1 & a $end\n$var wire 1 ' y $end\n$upscope $end\n$enddefinitions $end\n#0\n$dumpvars\nx!\nx\"\nx#\nx$\n1%\n0&\nx'\n$end\n#1\n1$\n1'\n#3\n1&\n#4\n0$\n0'\n#5\n";
