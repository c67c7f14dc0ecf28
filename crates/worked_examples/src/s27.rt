//! The ISCAS-89 circuit s27: seventeen nets, three of them flip-flops.

/// Its netlist.
pub const S27_BENCH: &[u8] = b"INPUT(G0)\nINPUT(G1)\nINPUT(G2)\nINPUT(G3)\nOUTPUT(G17)\n\
      G5 = DFF(G10)\nG6 = DFF(G11)\nG7 = DFF(G13)\n\
      G14 = NOT(G0)\nG17 = NOT(G11)\nG8 = AND(G14, G6)\n\
      G15 = OR(G12, G8)\nG16 = OR(G3, G8)\nG9 = NAND(G16, G15)\n\
      G10 = NOR(G14, G11)\nG11 = NOR(G5, G9)\nG12 = NOR(G1, G7)\nG13 = NOR(G2, G12)\n";

/// Changes of its inputs up to tick 22.
pub const S27_STIMULI: &[u8] =
    b"0 G0 1\n0 G1 1\n0 G2 0\n0 G3 0\n12 G0 0\n12 G2 1\n22 G1 0\n22 G3 1\n";
