//! Facts about levels, loops and the text alone.
ghost use Rattle.std.specs.Prelude.{◌≡◌, ℕ, ◌≤◌, false, IsTrue, List};
ghost use Rattle.netlist.specs.Netlist.{NetlistView};
ghost use Rattle.design.specs.Design.{DesignView, IsDesign};
ghost use Rattle.circuit_info.specs.Levels.{IsGateLoop, IsLevelling};
ghost use Rattle.circuit_info.specs.Loops.{HasLevel, IsNamedLoop};
ghost use Rattle.circuit_info.specs.Paths.{longest_to, HasLoop, HasNoLoop, IsPath};
ghost use Rattle.circuit_info.specs.PathText.{IsLongestPath};
ghost use Rattle.circuit_info.specs.Periods.{is_late, is_loop_free, IsLatePath};
ghost use Rattle.circuit_info.specs.Text.{IsInfoText};
ghost use Rattle.circuit_info.specs.InfoText.{IsInfoOf};

/// A netlist has at most one assignment of levels: none if its gates form a loop, and one exactly if each net has a
/// level.
pub fn one_levelling()
    ensures one { (netlist : NetlistView) (levels others : List ℕ) →
        IsLevelling netlist levels → IsLevelling netlist others → levels ≡ others }
    ensures no_loop { (netlist : NetlistView) (levels nets : List ℕ) → IsLevelling netlist levels → IsGateLoop netlist nets → ⊥ }
    ensures each { (netlist : NetlistView) (levels : List ℕ) → IsLevelling netlist levels → (net : ℕ) → HasLevel netlist net }
    ensures some { (netlist : NetlistView) → ((net : ℕ) → HasLevel netlist net) → (levels : List ℕ) × IsLevelling netlist levels }
{}

/// A netlist has at most one named loop. It is a loop of gates, and some nets of the netlist then have no level.
pub fn one_named_loop()
    ensures one { (netlist : NetlistView) (nets others : List ℕ) →
        IsNamedLoop netlist nets → IsNamedLoop netlist others → nets ≡ others }
    ensures gates { (netlist : NetlistView) (nets : List ℕ) → IsNamedLoop netlist nets → IsGateLoop netlist nets }
    ensures without { (netlist : NetlistView) (nets : List ℕ) → IsNamedLoop netlist nets → ((net : ℕ) → HasLevel netlist net) → ⊥ }
{}

/// If gates form no loop, no path to a net takes more ticks than the longest one, and some path takes as many: that
/// of which the nets are printed, among others.
pub fn longest_path()
    ensures most { (design : DesignView) (net ticks : ℕ) (path : List ℕ) →
        IsDesign design → HasNoLoop design.netlist → IsPath design net path ticks → ticks ≤ longest_to design net }
    ensures one { (design : DesignView) (net : ℕ) →
        IsDesign design → HasNoLoop design.netlist → (path : List ℕ) × IsPath design net path (longest_to design net) }
    ensures nets { (design : DesignView) (net : ℕ) (path : List ℕ) →
        IsDesign design → HasNoLoop design.netlist → IsLongestPath design net path → IsPath design net path (longest_to design net) }
{}

/// If gates form no loop, a flip-flop is late exactly if a path to its pin takes more ticks than its period. The test
/// for loops passes a netlist without one, and fails for each with one.
pub fn late_flops_have_late_paths()
    ensures some { (design : DesignView) (flop : ℕ) → IsDesign design → HasNoLoop design.netlist →
        IsTrue (is_late design flop) → (path : List ℕ) × IsLatePath design flop path }
    ensures each { (design : DesignView) (flop : ℕ) (path : List ℕ) → IsDesign design → HasNoLoop design.netlist →
        IsLatePath design flop path → IsTrue (is_late design flop) }
    ensures free { (netlist : NetlistView) → HasNoLoop netlist → IsTrue (is_loop_free netlist) }
    ensures loops { (netlist : NetlistView) → HasLoop netlist → is_loop_free netlist ≡ false }
{}

/// A netlist has at most one info text.
pub fn one_info_text()
    ensures { (netlist : NetlistView) (unobserved text other : List ℕ) →
        IsInfoText netlist unobserved text → IsInfoText netlist unobserved other → text ≡ other }
{}

/// A design has at most one description.
pub fn one_info()
    ensures { (design : DesignView) (text other : List ℕ) → IsInfoOf design text → IsInfoOf design other → text ≡ other }
{}
