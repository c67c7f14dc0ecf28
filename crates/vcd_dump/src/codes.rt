ghost use Rattle.std.specs.Prelude.{◌≡◌, ◌+◌, ◌<◌, ◌≤◌, [], ◌∷◌, length, take, IfOk};
ghost use Rattle.logic3.specs.Value.{value_text};
ghost use Rattle.netlist.specs.Netlist.{most_nets};
ghost use Rattle.vcd_dump.specs.Codes.{code_at, AreCodes};
ghost use Rattle.vcd_dump.specs.Dump.{change_text};

use logic3::Value;
use std::alloc::{AllocError, Global};
use std::marker::Model;

// The 94 characters of codes begin at '!'.
const FIRST_CHARACTER: u8 = 33;

const CHARACTERS: usize = 94;

// Returns the byte of a value.
fn value_byte(value: Value) -> u8
    ensures { value_text value ≡ result ∷ [] }
{
    match value {
        Value::Zero => b'0',
        Value::One => b'1',
        Value::Unknown => b'x',
    }
}

/// The identifier code of a shown net: at most three characters. It takes five bytes.
#[derive(Drop)]
pub struct Code {
    // The characters, and a line feed after them.
    bytes: [u8; 4],
    // The number of characters.
    len: u8,
}

impl Model for Code {
    ghost use Rattle.std.specs.Prelude.{◌≡◌, ℕ, ◌≤◌, List, take, slice_index};

    ghost Value = { List ℕ };

    ghost view = { λ c. take c.len c.bytes };

    ghost invariant = { λ c. (c.len ≤ 3) × (slice_index c.bytes c.len ≡ 10) };
}

impl Code {
    /// Returns the code of a place.
    pub fn new(place: usize) -> Code
        requires { place < most_nets }
        ensures { result ≡ code_at place }
    {
        let mut bytes = [0; 4];
        let mut len = 0;
        let mut rest = place;
        loop {
            bytes[len] = FIRST_CHARACTER + (rest % CHARACTERS) as u8;
            len += 1;
            if rest < CHARACTERS {
                bytes[len] = b'\n';
                return Code {
                    bytes,
                    len: len as u8,
                };
            }
            rest = rest / CHARACTERS - 1;
        }
    }

    /// Returns the characters.
    pub fn as_slice(&self) -> &[u8]
        ensures { result.now ≡ self.now }
    {
        &self.bytes[..self.len as usize]
    }

    /// Returns the number of characters.
    pub fn len(&self) -> usize
        ensures is { result ≡ length self.now }
        ensures most { result ≤ 3 }
    {
        self.len as usize
    }

    /// Returns the line of a change, and what fills five bytes. The line is two bytes longer than the code.
    pub fn change(&self, value: Value) -> [u8; 5]
        ensures line { take (length self.now + 2) result ≡ change_text value self.now }
        ensures bytes { length result ≡ 5 }
    {
        let bytes = &self.bytes;
        [value_byte(value), bytes[0], bytes[1], bytes[2], bytes[3]]
    }
}

/// Returns the codes of the first places.
pub fn first_codes(alloc: Global, places: usize) -> Result<Vec<Code>, AllocError>
    requires { places ≤ most_nets }
    ensures many { IfOk result (λ codes. length codes.items ≡ places) }
    ensures codes { IfOk result (λ codes. AreCodes codes.items) }
{
    let mut codes = Vec::with_capacity(alloc, places)?;
    for place in 0..places {
        codes.push(Code::new(place))?;
    }
    Ok(codes)
}
