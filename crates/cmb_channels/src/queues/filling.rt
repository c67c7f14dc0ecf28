//! Sending a message to the queues of several pins: room is made in all of them first.
ghost use Rattle.std.specs.Prelude.{◌≡◌, ◌<◌, vec_len, All, OnOk};
ghost use Rattle.logic3.specs.Rising.{Rises};
ghost use Rattle.cmb_channels.specs.Waiting.{appended, lists_in, HasRoom};

use crate::message::Message;
use std::alloc::AllocError;
use std::collections::VecDeque;

/// Makes room for one more message in the queue of each of these pins.
///
/// After an `AllocError` some of them may lack the room.
pub(super) fn reserve_places(
    queues: &mut Vec<VecDeque<Message>>,
    pins: &[u32],
) -> Result<(), AllocError>
    requires { All (λ pin. pin < vec_len queues.old) pins.now }
    ensures lists { lists_in queues.new.items ≡ lists_in queues.old.items }
    ensures ok { OnOk result (All (HasRoom queues.new.items) pins.now) }
{
    for pin in pins {
        queues[*pin as usize].reserve(1)?;
    }
    Ok(())
}

/// Adds a message at the end of the queue of each of these pins.
pub(super) fn push_at_all(queues: &mut Vec<VecDeque<Message>>, pins: &[u32], message: Message)
    requires rising { Rises pins.now }
    requires exist { All (λ pin. pin < vec_len queues.old) pins.now }
    requires room { All (HasRoom queues.old.items) pins.now }
    ensures { lists_in queues.new.items ≡ appended message pins.now (lists_in queues.old.items) }
{
    for pin in pins {
        queues[*pin as usize].push_back_reserved(message);
    }
}
