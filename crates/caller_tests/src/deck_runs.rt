//! Decks, read and run, and the program without arguments.
use bench_text::BenchFault;
use nullsim::{DeckFault, ReadFault, Report, SimFault, deck, read_text, tell};
use std::process::Abort;
use std::test::Fail;
use worked_examples::Narrow;
use worked_examples::dumps::INVERTER_DUMP;

const INVERTER: &[u8] =
    b"%nullsim 5\n%bench\nINPUT(a)\nOUTPUT(y)\ny = NOT(a)\n%stimuli\n0 a 0\n3 a 1\n";

#[test]
fn a_run(rt: HostRuntime) -> Result<(), Fail> {
    let mut input: &[u8] = INVERTER;
    let read: Result<Vec<u8>, ReadFault> = read_text(rt.alloc(), &mut input);
    let text: Vec<u8> = read?;
    let mut out: Vec<u8> = Vec::new(rt.alloc());
    let answer: Result<Report, DeckFault> = deck(rt.alloc(), &text, &mut out);
    let report: Report = answer?;
    let (least, events): (u64, u64) = (report.least, report.total.events);
    assert!(rt; (least, events) == (0, 7));
    assert!(rt; out.as_slice() == INVERTER_DUMP);
    Ok(())
}

// There are exactly these faults of a deck.
fn line(fault: DeckFault) -> u64 {
    match fault {
        DeckFault::BadDeck { line } => line,
        DeckFault::TooLong | DeckFault::Sim(_) => 0,
    }
}

// There are exactly these faults of a reader.
fn is_of_memory(fault: ReadFault) -> bool {
    match fault {
        ReadFault::Read => false,
        ReadFault::Memory => true,
    }
}

const NO_NETS: DeckFault = DeckFault::Sim(SimFault::Bench(BenchFault::NoNets));

static REFUSED: [(&[u8], DeckFault, u64); 3] = [
    (b"nullsim 5\n", DeckFault::BadDeck { line: 1 }, 1),
    (
        b"%nullsim 5\n%bench\n\n%bench\n",
        DeckFault::BadDeck { line: 4 },
        4,
    ),
    (b"%nullsim 5\n", NO_NETS, 0),
];

#[test]
fn refused_decks(rt: HostRuntime) {
    for &(text, wanted, at) in &REFUSED {
        let mut out: Vec<u8> = Vec::new(rt.alloc());
        let fault: Option<DeckFault> = deck(rt.alloc(), text, &mut out).err();
        assert!(rt; fault == Some(wanted));
        assert!(rt; line(wanted) == at);
        assert!(rt; out.is_empty());
    }
    assert!(rt; is_of_memory(ReadFault::Memory) && !is_of_memory(ReadFault::Read));
}

// Decks that are refused, and the fault line.
static PRINTED: [(&[u8], &[u8]); 3] = [
    (b"nullsim 5\n", b"deck:1: BadDeck\n"),
    (b"%nullsim 5\n", b"bench:0: NoNets\n"),
    (
        b"%nullsim 5\n%bench\nINPUT(a)\ny = NOT(a)\n%schedule\ndeliver y 1\n",
        b"schedule:1: BadPin\n",
    ),
];

#[test]
fn fault_lines(rt: HostRuntime) {
    for &(text, fault) in &PRINTED {
        let mut input: &[u8] = text;
        let mut out: Vec<u8> = Vec::new(rt.alloc());
        let mut err: Vec<u8> = Vec::new(rt.alloc());
        let status: u8 = tell(rt.alloc(), &mut input, &mut out, &mut err);
        assert!(rt; status == 1);
        assert!(rt; out.is_empty());
        assert!(rt; err.as_slice() == fault);
    }
}

// The room of the writer; the status and the fault line.
static ROOMS: [(usize, u8, &[u8]); 2] = [(190, 0, b""), (40, 3, b"stdout:0: Write\n")];

#[test]
fn the_program_without_arguments(rt: HostRuntime) {
    for &(room, wanted, fault) in &ROOMS {
        let mut input: &[u8] = INVERTER;
        let mut out = Narrow::new(rt.alloc(), room, 7);
        let mut err: Vec<u8> = Vec::new(rt.alloc());
        let status: u8 = tell(rt.alloc(), &mut input, &mut out, &mut err);
        assert!(rt; status == wanted);
        assert!(rt; err.as_slice() == fault);
        assert!(rt; out.taken.as_slice() == &INVERTER_DUMP[..room.min(190)]);
    }
}
