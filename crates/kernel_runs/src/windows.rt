//! How many ticks past those that every net knows a sweep covers.
//!
//! With a wide window few sweeps are enough, but all that happens in it is in flight at once. So the window
//! grows while a sweep sends few changes, and shrinks if one sends many.
ghost use Rattle.std.specs.Prelude.{◌≡◌, ◌+◌, min};
ghost use Rattle.kernel_runs.specs.Windows.{most_sent, next_width, written_next};

/// The width of a run's first window, in ticks.
pub(crate) const FIRST_WIDTH: u64 = 16;

/// The most changes that a sweep over few nets should send.
const MOST_SENT_BY_FEW: u64 = 16_384;

/// The most changes that a sweep should send, unless two for each net are more.
const MOST_SENT_BY_MANY: u64 = 65_536;

/// The greatest width: longer than the longest run.
const WIDEST: u64 = 16_777_216;

/// Returns the most changes that a sweep over this number of nets should send: four for each net, within
/// bounds. It decides how much is in flight in a run, and how often each net is looked at.
pub(crate) fn most_sent(nets: u32) -> u64
    ensures { result ≡ most_sent nets }
{
    let nets = u64::from(nets);
    (4 * nets)
        .min(MOST_SENT_BY_MANY)
        .max(MOST_SENT_BY_FEW)
        .max(2 * nets)
}

/// Returns the tick up to which the next sweep goes, given the number of ticks known of every net.
pub(crate) fn reach(known: u64, width: u64, end: u64) -> u64
    ensures { result ≡ min end (known + width) }
{
    end.min(known.saturating_add(width))
}

/// Returns the width of the next window, after a sweep over one of this width with `sent` changes, if it
/// should send at most `most`. Before that sweep, `known` ticks were known of every net.
pub(crate) fn next_width(known: u64, width: u64, sent: u64, most: u64) -> u64
    ensures { result ≡ next_width known width sent most }
{
    // In the first sweep inputs send all their stimuli, and each net changes from X.
    if known == 0 {
        width
    } else if sent < most / 4 {
        WIDEST.min(width.saturating_mul(2))
    } else if sent / 2 > most {
        1.max(width / 2)
    } else if sent > most {
        1.max(width - width / 4)
    } else {
        width
    }
}

/// Returns the tick up to which a dump is written now, given up to which it is written already, the ticks known of
/// every net, and the changes sent since the dump was last written, if a sweep should send at most `most`.
///
/// To write the dump, each net is looked at. So this waits until a quarter of these changes were sent, or all is
/// known.
pub(crate) fn written_next(written: u64, known: u64, end: u64, sent: u64, most: u64) -> u64
    ensures { result ≡ written_next written known end sent most }
{
    if known == end || sent >= most / 4 {
        known
    } else {
        written
    }
}
