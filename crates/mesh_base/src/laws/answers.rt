//! Laws of answers and parts.
ghost use Rattle.std.specs.Prelude.{◌≡◌, ◌⊎◌, ℕ, List, Contains};
ghost use Rattle.std.specs.List.Sorted.{IsStrictlyIncreasing};
ghost use Rattle.mesh_base.specs.Place.{Area};
ghost use Rattle.mesh_base.specs.Mesh.{MeshView};
ghost use Rattle.mesh_base.specs.Scan.{scan};
ghost use Rattle.mesh_base.specs.Parts.{IsPart, IsCovered, part};
ghost use Rattle.mesh_base.specs.Answer.{IsAnswer, answer, route};
ghost use Rattle.mesh_base.specs.declared.answer.Route.{Route};

/// The list of an answer is ascending without repeats and lies in the scan. Where the box is covered, it is the scan.
pub fn answers_are_scans()
    ensures ascending { (mesh : MeshView) (area : Area) (found : Route) (vs : List ℕ)
        → IsAnswer mesh area found vs → IsStrictlyIncreasing vs }
    ensures inside { (mesh : MeshView) (area : Area) (found : Route) (vs : List ℕ)
        → IsAnswer mesh area found vs → (v : ℕ) → Contains vs v → Contains (scan mesh area) v }
    ensures covered { (mesh : MeshView) (area : Area) (found : Route) (vs : List ℕ)
        → IsAnswer mesh area found vs → IsCovered mesh area → vs ≡ scan mesh area }
{}

/// The computed answer is an answer by inside paths, and the only one.
pub fn answers_are_computed()
    ensures is_one { (mesh : MeshView) (area : Area) → IsAnswer mesh area (route mesh area) (answer mesh area) }
    ensures only { (mesh : MeshView) (area : Area) (found : Route) (vs : List ℕ)
        → IsAnswer mesh area found vs → vs ≡ answer mesh area }
{}

/// A part is the same list from each of its vertices, and two parts are equal or share no vertex.
pub fn parts_are_shared()
    ensures computed { (mesh : MeshView) (area : Area) (v : ℕ)
        → Contains (scan mesh area) v → IsPart mesh area v (part mesh area v) }
    ensures same { (mesh : MeshView) (area : Area) (v w : ℕ) (vs ws : List ℕ)
        → IsPart mesh area v vs → IsPart mesh area w ws → Contains vs w → vs ≡ ws }
    ensures apart { (mesh : MeshView) (area : Area) (v w : ℕ) (vs ws : List ℕ)
        → IsPart mesh area v vs → IsPart mesh area w ws
        → (vs ≡ ws) ⊎ ((u : ℕ) → Contains vs u → ¬ Contains ws u) }
{}
