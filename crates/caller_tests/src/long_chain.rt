//! A chain of 100,000 nets, each the opposite of the one before it: no call recurses to the depth of the circuit.
use bench_text::{Netlist, read};
use design::Design;
use fanin_cone::cone;
use nullsim::{CheckAnswer, Picks, Show, SimFault, Source, TimeUnit, View, check, simulate};
use std::alloc::{AllocError, Global};
use std::process::Abort;
use std::test::Fail;

// This number of nets: an input, and gates that each invert the net before.
fn chain(alloc: Global, nets: u32) -> Result<Vec<u8>, AllocError> {
    let mut text = Vec::from_slice(alloc, b"INPUT(n0)\n")?;
    for before in 0..nets.saturating_sub(1) {
        push_inverter(&mut text, before)?;
    }
    Ok(text)
}

fn push_inverter(text: &mut Vec<u8>, before: u32) -> Result<(), AllocError> {
    let alloc = *text.allocator();
    let net = before.saturating_add(1);
    let line = format!(in alloc; "n{net} = NOT(n{before})\n")?;
    text.extend_from_slice(line.as_bytes())
}

// The most nets that a circuit may have. The proofs of the tests don't look at the number.
fn most_nets() -> u32 {
    100_000
}

fn driven(bench: &[u8]) -> Source<'_> {
    Source {
        bench,
        delays: b"",
        stimuli: b"0 n0 1\n",
        default_delay: 1,
        period: 10,
        picks: Picks::Nothing,
    }
}

// Both engines give the same for each net.
#[test]
fn checked(rt: HostRuntime) -> Result<(), Fail> {
    let bench = chain(rt.alloc(), most_nets())?;
    let answer: Result<CheckAnswer, SimFault> = check(rt.alloc(), &driven(&bench), 3);
    let CheckAnswer { nets, pins, same } = answer?;
    assert!(rt; (nets, pins, same) == (most_nets(), 99_999, most_nets()));
    Ok(())
}

fn built(alloc: Global, bench: &[u8]) -> Result<Design, Fail> {
    let netlist: Netlist = read(alloc, bench)?;
    let design: Design = Design::build(alloc, netlist, b"", b"", 1, 10)?;
    Ok(design)
}

// The cone of a net has this number of nets, each once.
fn has_cone(
    rt: &impl Abort,
    alloc: Global,
    design: &Design,
    net: u32,
    wanted: usize,
) -> Result<(), Fail> {
    assert!(rt; net < design.nets());
    let nets: Vec<u32> = cone(alloc, design, net)?;
    assert!(rt; nets.len() == wanted);
    Ok(())
}

// The cone of the last net is all nets.
#[test]
fn its_cone(rt: HostRuntime) -> Result<(), Fail> {
    let bench: Vec<u8> = chain(rt.alloc(), most_nets())?;
    let design: Design = built(rt.alloc(), &bench)?;
    has_cone(&rt, rt.alloc(), &design, 99_999, most_nets() as usize)
}

// The dump from tick 1 on: the fourth net changes at the horizon, and no net after it changes.
const CHANGES: &[u8] = b"$end\n#1\n0\"\n#2\n1#\n#3\n0$\n";

#[test]
fn its_changes(rt: HostRuntime) -> Result<(), Fail> {
    let bench = chain(rt.alloc(), most_nets())?;
    let view = View {
        horizon: 3,
        show: Show::All,
        unit: TimeUnit::Ns,
    };
    let mut out = Vec::new(rt.alloc());
    simulate(rt.alloc(), &driven(&bench), &view, &mut out)?;
    let first = b"#0\n$dumpvars\n1!\nx\"\nx#\nx$\nx%\n".as_slice();
    assert!(rt; out.windows(first.len()).any(|window| window == first));
    assert!(rt; out.ends_with(CHANGES));
    Ok(())
}
