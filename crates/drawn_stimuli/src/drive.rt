use logic3::Value;

/// What drives an input that isn't drawn.
#[derive(Clone, Copy, Debug, PartialEq, Eq)]
pub enum Drive {
    /// 0 at tick 0, and then a change every `half` ticks; `half` is at least 1.
    Clock {
        half: u64,
    },
    /// 0 before tick `first`, 1 from it on, and then a change every `half` ticks; `half` is at least 1. If it begins
    /// high, each 0 is a 1, and each 1 a 0.
    ClockFrom {
        half: u64,
        first: u64,
        begins_high: bool,
    },
    /// This value throughout.
    Hold(Value),
    /// The bits of a number throughout, one for each input that the name means, the first the most significant: X if
    /// `unknown` has the bit, and otherwise the bit of `ones`. Neither has more bits than there are inputs.
    HoldBits {
        ones: u64,
        unknown: u64,
    },
    /// 1 from tick `from` up to but not including the later tick `to`, and 0 elsewhere. Only an input that
    /// has other pulses may have further ones; it is 1 in each of them.
    Pulse {
        from: u64,
        to: u64,
    },
}

/// Inputs by a name, and what drives each: the input with exactly this name, or otherwise, of a range such as
/// `data[7:0]`, the inputs `data[7]` to `data[0]`.
#[derive(Clone, Copy, Debug)]
pub struct Driven<'a> {
    pub name: &'a [u8],
    pub drive: Drive,
}

/// One input by its name, and what drives it.
#[derive(Clone, Copy)]
pub(crate) struct InputDrive<'a> {
    pub name: &'a [u8],
    pub drive: Drive,
    /// The place among the given drives of the one that this is part of.
    pub place: usize,
}

/// How the other inputs are drawn: from this seed, at tick 0 and at each multiple of `every`, which is
/// at least 1 tick; or that they aren't.
#[derive(Clone, Copy, Debug, PartialEq, Eq)]
pub struct Draws {
    pub seed: u64,
    pub every: u64,
    /// Whether only the inputs that drives name have values. Then nothing is drawn, and the others are X.
    pub only: bool,
}

/// The rounds of draws: in each, a word of the generator for each drawn input.
#[derive(Clone, Copy)]
pub(crate) struct Rounds {
    pub draws: Draws,
    pub inputs: u64,
}
