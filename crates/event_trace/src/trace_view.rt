//! What of a run its trace shows.
ghost use Rattle.std.specs.Prelude.{◌≡◌};
ghost use Rattle.event_trace.specs.Traced.{shown_or_unknown};

use crate::shown_events::ShownEvents;
use design::Design;
use prepared_runs::{SimFault, net_named};

/// What of a run its trace shows: the events that have a line.
#[derive(Clone, Copy, Debug)]
pub struct TraceView<'a> {
    /// Whether events that do nothing have a line.
    pub idle: bool,
    /// The name of the net whose events alone have a line; `None` for those of all nets.
    pub net: Option<&'a [u8]>,
}

/// Returns the events of a design that a view shows.
///
/// # Errors
/// [`SimFault::UnknownNet`] if no net has the name that the view gives.
pub(crate) fn shown_events(design: &Design, view: &TraceView<'_>) -> Result<ShownEvents, SimFault>
    ensures { result ≡ shown_or_unknown design.now view.now }
{
    let net = match view.net {
        Some(name) => Some(net_named(design, name)?),
        None => None,
    };
    Ok(ShownEvents {
        idle: view.idle,
        net,
    })
}
