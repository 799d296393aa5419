//! The laws of algorithms and their names.
ghost use Rattle.std.specs.Prelude.{◌≡◌, Some};
ghost use Rattle.ocfl_tree.specs.Ascending.{IsAscending};
ghost use Rattle.ocfl_digest.specs.Algorithm.{algorithm_name, algorithm_cmp, algorithm_named, supported};
ghost use Rattle.ocfl_digest.specs.declared.algorithm.Algorithm.{Algorithm};

/// The supported algorithms are in the order of their names, and each is found by its name.
#[tactic(auto, using(crate::proofs::Names::named_by_name))]
pub fn algorithms_are_named()
    ensures order { IsAscending algorithm_cmp supported }
    ensures named { (a : Algorithm) → algorithm_named (algorithm_name a) ≡ Some a }
{}
