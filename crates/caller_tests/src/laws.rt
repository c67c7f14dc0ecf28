//! The laws, by the paths that callers cite them by.
use nullsim::laws::isolation;

// The main law: two runs that agree on a net's fan-in cone show the same for it. The call does nothing.
#[test]
fn headline(_rt: HostRuntime) {
    isolation();
}
