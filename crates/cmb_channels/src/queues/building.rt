//! The parts of empty channels.
ghost use Rattle.std.specs.Prelude.{◌≡◌, [], replicate, IfOk};
ghost use Rattle.cmb_channels.specs.Waiting.{lists_in};

use crate::message::Message;
use std::alloc::{AllocError, Global};
use std::collections::VecDeque;

/// Returns an empty queue for each of `pins` pins.
pub(super) fn empty_queues(alloc: Global, pins: u32) -> Result<Vec<VecDeque<Message>>, AllocError>
    ensures { IfOk result (λ queues. lists_in queues.items ≡ replicate pins []) }
{
    let mut queues = Vec::with_capacity(alloc, pins as usize)?;
    for _pin in 0..pins {
        queues.push(VecDeque::new(alloc))?;
    }
    Ok(queues)
}
