//! Facts about cones and agreement alone. A set of names is given by a test here.
ghost use Rattle.std.specs.Prelude.{◌≡◌, ℕ, ◌↔◌, ◌∷◌, [], Bool, List, All, Contains};
ghost use Rattle.netlist.specs.Netlist.{NetlistView};
ghost use Rattle.design.specs.Design.{DesignView};
ghost use Rattle.fanin_cone.specs.Cone.{Passes, IsClosed, InCone};
ghost use Rattle.fanin_cone.specs.Agreement.{HasNet, AgreesOn, DesignsAgree, ShowTheSame, ShowTheSameOn};
ghost use Rattle.fanin_cone.specs.Extract.{AreNets, IsDesignOfCones, IsDesignOfExtract, names_in, signals_in};

/// The cone of some names is the least closed set that contains them, and the union of the cones of
/// each of them.
pub fn least_closed()
    ensures closed { (netlist : NetlistView) (names : List (List ℕ)) → IsClosed netlist (InCone netlist names) }
    ensures holds { (netlist : NetlistView) (names : List (List ℕ)) → All (InCone netlist names) names }
    ensures least { (netlist : NetlistView) (names : List (List ℕ)) (K : List ℕ → Bool) →
        IsClosed netlist (Passes K) → All (Passes K) names →
        (name : List ℕ) → InCone netlist names name → Passes K name }
    ensures together { (netlist : NetlistView) (names : List (List ℕ)) (name : List ℕ) →
        InCone netlist names name ↔ ((start : List ℕ) × Contains names start × InCone netlist (start ∷ []) name) }
{}

/// If two designs agree, up to a tick, on a closed set of names of the first one, such as a cone, the
/// nets with such a name show the same in both, at every tick up to that one.
pub fn agreeing_designs_show_the_same()
    ensures closed { (a b : DesignView) (K : List ℕ → Bool) (horizon : ℕ) →
        IsClosed a.netlist (Passes K) → DesignsAgree a b (Passes K) horizon →
        ShowTheSameOn a b (Passes K) horizon }
    ensures cone { (a b : DesignView) (names : List (List ℕ)) (horizon : ℕ) →
        DesignsAgree a b (InCone a.netlist names) horizon →
        ShowTheSameOn a b (InCone a.netlist names) horizon }
{}

/// If two designs agree, up to some tick, on the cone that some names have in the first one, these
/// names have the same cone in the second.
pub fn agreeing_designs_have_the_same_cone()
    ensures { (a b : DesignView) (names : List (List ℕ)) (horizon : ℕ) →
        DesignsAgree a b (InCone a.netlist names) horizon →
        (name : List ℕ) → InCone a.netlist names name ↔ InCone b.netlist names name }
{}

/// If the nets of an extracted netlist have, up to a tick, the timing and stimuli that they have in
/// the whole, the two designs agree on them, and they show the same in both, at every tick up to that
/// one.
pub fn extracted_nets_show_the_same()
    ensures agree { (whole extract : DesignView) (names : List (List ℕ)) (horizon : ℕ) →
        IsDesignOfExtract whole extract names horizon → AgreesOn extract whole (HasNet extract) horizon }
    ensures show { (whole extract : DesignView) (names : List (List ℕ)) (horizon : ℕ) →
        IsDesignOfExtract whole extract names horizon → (name : List ℕ) → ShowTheSame extract whole horizon name }
{}

/// The nets in the cones of some nets, as a design of their own, are an extract with the timing and
/// the stimuli of the whole. Its outputs are these nets, in order: they keep their names, and show at
/// every tick what they show in the whole.
pub fn cones_alone_show_the_same()
    ensures extract { (whole part : DesignView) (nets : List ℕ) (horizon : ℕ) →
        AreNets whole nets → IsDesignOfCones whole nets part →
        IsDesignOfExtract whole part (names_in whole nets) horizon }
    ensures names { (whole part : DesignView) (nets : List ℕ) →
        AreNets whole nets → IsDesignOfCones whole nets part →
        names_in part part.netlist.outputs ≡ names_in whole nets }
    ensures values { (whole part : DesignView) (nets : List ℕ) →
        AreNets whole nets → IsDesignOfCones whole nets part →
        signals_in part part.netlist.outputs ≡ signals_in whole nets }
{}
