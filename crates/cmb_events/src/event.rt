/// The largest number of events in a list.
pub const MOST_EVENTS: u64 = 10_000_000;

/// A step of the kernel, with the number of a pin or of a net, both counted from 0.
#[derive(Clone, Copy, Debug, PartialEq, Eq)]
pub enum Event {
    /// The pin with this number takes the oldest message that waits there, if any.
    Deliver(u32),
    /// The net with this number is computed as far as its pins are known, and sends what is new.
    Advance(u32),
}
