//! Facts about the notes alone.
ghost use Rattle.std.specs.Prelude.{◌≡◌, ◌⊎◌, ℕ, ◌<◌, length};
ghost use Rattle.logic3.specs.declared.value.Value.TheVariants as value;
ghost use Rattle.design.specs.Circuit.{Circuit};
ghost use Rattle.design.specs.Equations.{value_of};
ghost use Rattle.plain_runs.specs.declared.remark.Remark.TheVariants.{Undriven, Unknown};
ghost use Rattle.plain_runs.specs.Remarks.{Notes, StaysUnknown};

/// An input that is noted as undriven shows X at every tick, and any other net that is noted as X throughout
/// shows X at every tick to the horizon. Each net that shows X at all of these is noted as one or the other.
pub fn notes_report_x()
    ensures undriven { (circuit : Circuit) (horizon net tick : ℕ) → Notes Undriven horizon circuit net →
        value_of circuit net tick ≡ value.Unknown }
    ensures unknown { (circuit : Circuit) (horizon net : ℕ) → Notes Unknown horizon circuit net →
        StaysUnknown horizon circuit net }
    ensures all { (circuit : Circuit) (horizon net : ℕ) → net < length circuit →
        StaysUnknown horizon circuit net →
        Notes Undriven horizon circuit net ⊎ Notes Unknown horizon circuit net }
{}
