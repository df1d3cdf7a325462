//! Laws about the definitions alone. Each is the contract of a function with an empty body.
ghost use Rattle.std.specs.Prelude.{ℕ, List};
ghost use Rattle.ec_matrix.specs.Matrix.{Matrix};
ghost use Rattle.ec_matrix.specs.Solution.{CombinesTo, TellsApart};

/// If a column tells a row apart from the rows of a matrix, no coefficients make the row of them.
pub fn answers_exclude_each_other()
    ensures { (m : Matrix) (wanted c d : List ℕ) → CombinesTo m wanted c → TellsApart m wanted d → ⊥ }
{}
