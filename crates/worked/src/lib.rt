// Worked cases, proved together over one list.
#![tactic(auto)]

ghost use Rattle.std.specs.Prelude.{◌≡◌, true, length};
ghost use Rattle.worked.specs.Cases.{cases, passes};
ghost use Rattle.worked.specs.Witness.{Witness};

// How many cases there are, all as expected; and a run for which the law of runs says something.
#[tactic(auto, using(crate::proofs::Passing::all_pass, crate::proofs::Witnessed::witness))]
pub fn worked_cases() -> usize
    ensures count { result ≡ length cases }
    ensures pass { passes cases ≡ true }
    ensures witness { Witness }
{
    11
}
