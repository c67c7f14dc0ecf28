//! Facts about the definitions alone.
ghost use Rattle.std.specs.Prelude.{◌≡◌, ℕ, List, ◌++◌, codes};
ghost use Rattle.vcd_dump.specs.declared.unit.TimeUnit.{TimeUnit};
ghost use Rattle.texts.specs.Written.{line};
ghost use Rattle.vcd_dump.specs.Dump.{heading};
ghost use Rattle.nullsim.specs.Version.{version};

pub use kernel_runs::laws::isolation;

/// The first line of each dump has the program's version.
pub fn dumps_print_the_version()
    ensures { (unit : TimeUnit) →
        (rest : List ℕ) × (heading unit ≡ line (codes "$version " ++ version ++ codes " $end") ++ rest) }
{}
