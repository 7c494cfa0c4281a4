//! Laws of linear programs over a box. Each is the contract of a function that does nothing.
ghost use Rattle.xn_lp.specs.Laws.{LeastOfForm, WeakDuality, RayExcludesPoints, AnswerDecides};

/// The least value of a linear form over the box takes each column where its coefficient is below 0.
pub fn least_of_form()
    ensures { LeastOfForm }
{}

/// Weak duality: no point costs less than the least value under any multipliers (Gale, Kuhn and Tucker 1951).
pub fn weak_duality()
    ensures { WeakDuality }
{}

/// A ray excludes every point, the easy half of Farkas's lemma.
pub fn ray_excludes_points()
    ensures { RayExcludesPoints }
{}

/// An answer that holds is Nothing exactly where the program has no point.
pub fn answer_decides()
    ensures { AnswerDecides }
{}
