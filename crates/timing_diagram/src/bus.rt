use logic3::Waveform;

/// Several nets that are drawn in one lane, as hexadecimal numbers.
#[derive(Debug, Drop)]
pub struct Bus<'a> {
    /// The name of its lane.
    pub name: &'a [u8],
    /// The waveforms of its bits, the most significant first.
    pub bits: Vec<Waveform>,
}
