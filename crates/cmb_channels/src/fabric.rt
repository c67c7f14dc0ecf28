ghost use Rattle.std.specs.Prelude.{◌≡◌, ℕ, ◌<◌, ◌++◌, ◌∷◌, [], List, length, replicate, IfOk, OnOk, OnErr, slice_index_or, option_to_list};
ghost use Rattle.design.specs.Circuit.{pin_count};
ghost use Rattle.design.specs.Pins.{sources_of};
ghost use Rattle.cmb_channels.specs.declared.message.Message.{Message};
ghost use Rattle.cmb_channels.specs.Lists.{sent, taken};

use crate::message::Message;
use crate::packed::Packed;
use design::Design;
use std::alloc::{AllocError, Global};

/// First-in first-out channels from nets to the pins that they feed: a list of waiting messages for
/// each pin.
///
/// Nets and pins are numbered as in the [`Design`] that the channels were made for, which has the net that
/// feeds a pin ([`Design::pin_source`]) and the pins that a net feeds ([`Design::pins_fed`]). A method that
/// takes the number of a net or a pin requires one of that design.
///
/// Channels lose no message, create none, and keep the order of each pin's messages. When a message is
/// taken doesn't matter (Chandy and Misra, 1979).
pub trait Fabric: Drop {
    /// The messages that wait at each pin, the oldest first.
    ghost lists: { Self → List (List Message) };

    /// The net that feeds each pin.
    ghost sources: { Self → List ℕ };

    /// The number of nets.
    ghost nets: { Self → ℕ };

    /// Makes empty channels for a design. The design is read in this call and not kept.
    ///
    /// After an `AllocError` nothing remains allocated.
    fn empty_for(alloc: Global, design: &Design) -> Result<Self, AllocError>
        ensures lists { IfOk result (λ fabric. lists fabric ≡ replicate (pin_count design.now.circuit) []) }
        ensures sources { IfOk result (λ fabric. sources fabric ≡ sources_of design.now.circuit) }
        ensures nets { IfOk result (λ fabric. nets fabric ≡ length design.now.circuit) };

    /// Adds a message at the end of the list of each pin that the net feeds, and of no other. A net at two
    /// pins of a gate sends to both.
    ///
    /// An `AllocError` leaves all lists unchanged: the message is sent to no pin.
    fn send(&mut self, net: u32, message: Message) -> Result<(), AllocError>
        requires { net < nets self.old }
        ensures ok { OnOk result (lists self.new ≡ sent net (message ∷ []) (sources self.old) (lists self.old)) }
        ensures err { OnErr result (lists self.new ≡ lists self.old) }
        ensures pins { length (lists self.new) ≡ length (lists self.old) }
        ensures sources { sources self.new ≡ sources self.old }
        ensures nets { nets self.new ≡ nets self.old };

    /// Sends some messages in order, as [`send`](Self::send) sends each of them. An empty list takes no memory.
    ///
    /// After an `AllocError` the first of them may be sent.
    fn send_all(&mut self, net: u32, messages: &[Packed]) -> Result<(), AllocError>
        requires { net < nets self.old }
        ensures ok { OnOk result (lists self.new ≡ sent net messages.now (sources self.old) (lists self.old)) }
        ensures pins { length (lists self.new) ≡ length (lists self.old) }
        ensures sources { sources self.new ≡ sources self.old }
        ensures nets { nets self.new ≡ nets self.old }
        ensures memory { OnErr result (0 < length messages.now) }
    {
        for message in messages {
            self.send(net, message.message())?;
        }
        Ok(())
    }

    /// Takes the oldest message that waits at the pin. If none waits, returns `None` and changes nothing.
    /// Messages at other pins are unaffected, including those from the same net. Allocates nothing.
    fn take(&mut self, pin: u32) -> Option<Message>
        requires { pin < length (lists self.old) }
        ensures front { slice_index_or (lists self.old) pin [] ≡ option_to_list result ++ slice_index_or (lists self.new) pin [] }
        ensures lists { lists self.new ≡ taken pin (lists self.old) }
        ensures pins { length (lists self.new) ≡ length (lists self.old) }
        ensures sources { sources self.new ≡ sources self.old }
        ensures nets { nets self.new ≡ nets self.old };

    /// Returns the number of messages that wait at the pin. Allocates nothing.
    fn waiting(&self, pin: u32) -> u64
        requires { pin < length (lists self.now) }
        ensures { result ≡ length (slice_index_or (lists self.now) pin []) };
}
