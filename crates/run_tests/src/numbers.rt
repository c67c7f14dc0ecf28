//! Numbers in the texts that tests make.
use std::alloc::AllocError;

/// Adds the digits of a number.
pub(crate) fn push_number(text: &mut Vec<u8>, number: u32) -> Result<(), AllocError> {
    let digits = number.to_string(*text.allocator())?;
    text.extend_from_slice(digits.as_bytes())
}
