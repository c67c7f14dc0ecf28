use logic3::Change;

/// What a net's process sends to the pins that the net feeds, with its promise about all later changes of
/// the net. Ticks are those of the net; the wire delay of a pin isn't added.
#[derive(Clone, Copy, Debug, PartialEq, Eq)]
pub enum Message {
    /// From the tick of this change on, the net shows its value. Each later change is at least one tick
    /// after it.
    Change(Change),
    /// Null message: no change, but a promise that each later one is at this tick or after it. From it a
    /// pin knows how long its source stays unchanged, and nets that wait for each other in a loop can
    /// advance (Chandy and Misra, 1979).
    Null(u64),
}
