//! A circuit cut in two shows what the whole shows.
use crate::circuits::{Circuit, S27};
use bench_text::read;
use design::{Design, plain_waves};
use kernel_uses::{Half, Told, run_in_turns};
use logic3::Waveform;
use std::alloc::Global;
use std::process::Abort;
use std::test::Fail;
use timing_text::Horizon;

// A circuit and its two halves.
#[derive(Clone, Copy)]
struct Cut {
    whole: Circuit,
    first: Half<'static>,
    second: Half<'static>,
}

// A buffer in one half, which a gate in the other compares with its input: values flow one way.
const FEED_FORWARD: Cut = Cut {
    whole: Circuit {
        bench: b"INPUT(a)\nb = BUFF(a)\ny = XOR(a, b)\n",
        delays: b"y 3\n",
        stimuli: b"0 a 0\n5 a 1\n9 a 0\n",
        period: 10,
        horizon: 20,
    },
    first: Half {
        bench: b"INPUT(a)\nb = BUFF(a)\n",
        delays: b"",
        stimuli: b"0 a 0\n5 a 1\n9 a 0\n",
        period: 10,
    },
    second: Half {
        bench: b"INPUT(a)\nINPUT(b)\ny = XOR(a, b)\n",
        delays: b"y 3\n",
        stimuli: b"0 a 0\n5 a 1\n9 a 0\n",
        period: 10,
    },
};

// A ring of three gates, of which one is in the other half, released at tick 5.
const RING: Cut = Cut {
    whole: Circuit {
        bench: b"INPUT(e)\nx = NAND(e, z)\ny = NOT(x)\nz = NOT(y)\n",
        delays: b"x 2\ny 1\nz 3\n",
        stimuli: b"0 e 0\n5 e 1\n",
        period: 10,
        horizon: 40,
    },
    first: Half {
        bench: b"INPUT(e)\nINPUT(y)\nz = NOT(y)\nx = NAND(e, z)\n",
        delays: b"x 2\nz 3\n",
        stimuli: b"0 e 0\n5 e 1",
        period: 10,
    },
    second: Half {
        bench: b"INPUT(x)\ny = NOT(x)\n",
        delays: b"",
        stimuli: b"",
        period: 10,
    },
};

// A counter of two bits: each half has a flip-flop, and each bit depends on both.
const COUNTER: Cut = Cut {
    whole: Circuit {
        bench: b"q = DFF(n)\nn = NOT(q)\nr = DFF(s)\ns = XOR(q, r)\n",
        delays: b"timing version 2\ninit q 0\ninit r 0\n",
        stimuli: b"",
        period: 4,
        horizon: 30,
    },
    first: Half {
        bench: b"q = DFF(n)\nINPUT(n)\nINPUT(r)\ns = XOR(q, r)\n",
        delays: b"timing version 2\ninit q 0\n",
        stimuli: b"",
        period: 4,
    },
    second: Half {
        bench: b"INPUT(q)\nn = NOT(q)\nINPUT(s)\nr = DFF(s)\n",
        delays: b"timing version 2\ninit r 0\n",
        stimuli: b"",
        period: 4,
    },
};

// The seventeen nets, the flip-flops G5 and G7 in one half and G6 in the other.
const SEQUENTIAL: Cut = Cut {
    whole: S27,
    first: Half {
        bench: b"INPUT(G0)\nINPUT(G1)\nINPUT(G2)\nINPUT(G11)\nINPUT(G9)\nG5 = DFF(G10)\nG7 = DFF(G13)\n\
          G14 = NOT(G0)\nG10 = NOR(G14, G11)\nG12 = NOR(G1, G7)\nG13 = NOR(G2, G12)\nG17 = NOT(G11)\n",
        delays: b"",
        stimuli: b"0 G0 1\n0 G1 1\n0 G2 0\n12 G0 0\n12 G2 1\n22 G1 0\n",
        period: 10,
    },
    second: Half {
        bench: b"INPUT(G3)\nINPUT(G14)\nINPUT(G12)\nINPUT(G5)\nG6 = DFF(G11)\nG8 = AND(G14, G6)\n\
          G15 = OR(G12, G8)\nG16 = OR(G3, G8)\nG9 = NAND(G16, G15)\nG11 = NOR(G5, G9)\n",
        delays: b"",
        stimuli: b"0 G3 0\n22 G3 1\n",
        period: 10,
    },
};

static CUTS: [Cut; 4] = [FEED_FORWARD, RING, COUNTER, SEQUENTIAL];

// A half, driven by its own stimuli and by what it has received.
fn driven(alloc: Global, half: &Half<'_>, told: &Told) -> Result<Design, Fail> {
    let mut stimuli = Vec::from_slice(alloc, half.stimuli)?;
    stimuli.extend_from_slice(b"\n")?;
    stimuli.extend_from_slice(told.stimuli.as_slice())?;
    let netlist = read(alloc, half.bench)?;
    Ok(Design::build(
        alloc,
        netlist,
        half.delays,
        stimuli.as_slice(),
        1,
        half.period,
    )?)
}

// Each net of the half shows what the net of its name shows in the whole.
fn shows_its_part(
    rt: &impl Abort,
    alloc: Global,
    half: &Half<'_>,
    told: &Told,
    whole: &Design,
    waves: &[Waveform],
    horizon: Horizon,
) -> Result<(), Fail> {
    let design = driven(alloc, half, told)?;
    let shown = plain_waves(alloc, &design, horizon)?;
    for net in 0..design.nets() {
        let there = whole
            .find(design.name(net))
            .expect(rt, "a net of this name");
        let wanted = waves
            .get(there as usize)
            .expect(rt, "its waveform in the whole");
        assert!(rt; shown.get(net as usize).expect(rt, "its waveform") == wanted);
    }
    Ok(())
}

fn shows_the_whole(rt: &impl Abort, alloc: Global, cut: &Cut) -> Result<(), Fail> {
    let whole = cut.whole.build(alloc)?;
    let horizon = Horizon::new(cut.whole.horizon)?;
    let waves = plain_waves(alloc, &whole, horizon)?;
    let (first, second) = run_in_turns(alloc, &cut.first, &cut.second, horizon)?;
    assert!(rt; first.ticks == horizon.ticks() + 1);
    assert!(rt; second.ticks == horizon.ticks() + 1);
    shows_its_part(
        rt,
        alloc,
        &cut.first,
        &first,
        &whole,
        waves.as_slice(),
        horizon,
    )?;
    shows_its_part(
        rt,
        alloc,
        &cut.second,
        &second,
        &whole,
        waves.as_slice(),
        horizon,
    )
}

#[test]
fn halves(rt: HostRuntime) -> Result<(), Fail> {
    for cut in &CUTS {
        shows_the_whole(&rt, rt.alloc(), cut)?;
    }
    Ok(())
}
