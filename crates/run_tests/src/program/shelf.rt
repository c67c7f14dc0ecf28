//! Calls of `command` over texts by name.
ghost use Rattle.std.specs.Prelude.{◌≡◌, option_map};
ghost use Rattle.run_tests.specs.Shelf.{text_under};

use nullsim::{ReadFault, Texts, command};
use std::alloc::{AllocError, Global};
use std::io::Write;
use std::process::Abort;
use worked_examples::{S27_BENCH, S27_STIMULI};

/// A text with its name.
pub(crate) type Named<'a> = (&'a str, &'a [u8]);

/// The texts that the tests name.
static FILES: [Named<'static>; 9] = [
    ("inv.bench", b"INPUT(a)\nOUTPUT(y)\ny = NOT(a)\n"),
    ("inv.stim", b"0 a 0\n3 a 1\n"),
    ("slow.delays", b"y 9\n"),
    ("ahead.sched", b"advance a\ndeliver y 0\nadvance y\n"),
    ("bad.bench", b"INPUT(a)\nx y\n"),
    ("bad.delays", b"# none\nzz 2\n"),
    (
        "one.bench",
        b"INPUT(a)\nOUTPUT(y)\ny = NOT(a)\nINPUT(b)\nz = AND(a, b)\n",
    ),
    ("s27.bench", S27_BENCH),
    ("s27.stim", S27_STIMULI),
];

/// Texts by name.
#[derive(Drop)]
pub(crate) struct Shelf<'a> {
    alloc: Global,
    pub(crate) texts: &'a [Named<'a>],
}

impl<'a> Shelf<'a> {
    pub(crate) fn new(alloc: Global) -> Shelf<'a> {
        Shelf::of(alloc, FILES.as_slice())
    }

    /// Returns a shelf with these texts.
    pub(crate) fn of(alloc: Global, texts: &'a [Named<'a>]) -> Shelf<'a> {
        Shelf { alloc, texts }
    }
}

impl<'a> Texts for Shelf<'a> {
    ghost known = { λ shelf. text_under shelf.texts.now };

    fn text(&mut self, name: &str) -> Result<Vec<u8>, ReadFault> {
        match text_under(self.texts, name) {
            Some(text) => Ok(Vec::from_slice(self.alloc, text)?),
            None if name == "too-big" => Err(ReadFault::Memory),
            None => Err(ReadFault::Read),
        }
    }
}

fn text_under<'a>(shelf: &[Named<'a>], name: &str) -> Option<&'a [u8]>
    ensures { option_map (λ text. text.now) result ≡ text_under shelf.now name.now }
{
    let named = shelf.iter().find(|named| named.0 == name)?;
    Some(named.1)
}

pub(crate) fn words_of(alloc: Global, line: &str) -> Result<Vec<String>, AllocError> {
    let mut words = Vec::new(alloc);
    for word in line.split_whitespace() {
        words.push(word.to_string(alloc)?)?;
    }
    Ok(words)
}

/// Returns the exit status of a call that writes to these, unless there is no memory for its arguments.
pub(crate) fn status_of<W: Write, E: Write>(
    alloc: Global,
    line: &str,
    out: &mut W,
    err: &mut E,
) -> Option<u8> {
    status_over(alloc, FILES.as_slice(), line, out, err)
}

/// Returns the exit status of a call over these texts.
pub(crate) fn status_over<W: Write, E: Write>(
    alloc: Global,
    texts: &[Named<'_>],
    line: &str,
    out: &mut W,
    err: &mut E,
) -> Option<u8> {
    match words_of(alloc, line) {
        Ok(words) => {
            let mut shelf = Shelf::of(alloc, texts);
            Some(command(alloc, words.as_slice(), &mut shelf, out, err))
        }
        Err(_) => None,
    }
}

fn runs_out_of_memory(rt: &impl Abort, alloc: Global, line: &str) {
    let (mut out, mut err) = (Vec::new(alloc), Vec::new(alloc));
    let status = status_of(alloc, line, &mut out, &mut err);
    let is_said = err.as_slice() == b"memory:0: Memory\n".as_slice();
    assert!(rt; status == Some(4) && out.is_empty() && is_said, "at {line}");
}

// If an allocation for a text fails, every command ends, whatever is wrong with the texts before it.
#[test]
fn texts_without_memory(rt: HostRuntime) {
    for line in [
        "plain --bench inv.bench --stimuli too-big --horizon 5",
        "run --bench bad.bench --schedule too-big --horizon 5",
        "cone --bench too-big y",
        "info --bench too-big",
        "diff --first one.bench --second too-big --horizon 5",
        "twin --first bad.bench --second too-big --net y --horizon 5",
    ] {
        runs_out_of_memory(&rt, rt.alloc(), line);
    }
}

fn contains(text: &[u8], part: &[u8]) -> bool {
    !part.is_empty() && text.windows(part.len()).any(|window| window == part)
}

// Without arguments the program reads a deck; `command` refuses that, without a tip.
#[test]
fn no_arguments(rt: HostRuntime) {
    let (mut out, mut err) = (Vec::new(rt.alloc()), Vec::new(rt.alloc()));
    let status = status_of(rt.alloc(), "", &mut out, &mut err);
    assert!(rt; status == Some(2) && out.is_empty() && !err.is_empty());
    assert!(rt; !contains(err.as_slice(), b"  tip: "));
}
