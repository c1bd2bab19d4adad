//! Laws of faults during expansion. Each function here computes nothing: what it promises is the law.

ghost use Rattle.law_eval_faults.specs.Causes.{FaultsAreOfThese, CausesAreFaults};
ghost use Rattle.law_eval_faults.specs.Outputs.{OutputsAreRead};
ghost use Rattle.law_eval_faults.specs.Refusals.{RefusalsAreTold};

/// A primitive refuses a call exactly where there is none of that name during expansion (NoPrimitive), where it doesn't
/// take so many arguments (Arity), or where it refuses these (PrimFault, which names it). `error` and its like raise.
pub fn refusals_of_primitives_are_told()
    ensures { RefusalsAreTold }
{}

/// Where evaluation meets a variable without a value, it is UnsetVariable; an assignment, SetAtExpansion; a call of no
/// procedure, PrimFault `call`; a procedure of which no case takes so many arguments, Arity; a `syntax-case` of which
/// no clause matches, NoClause. It has no other faults, but for those of primitives, templates and fuel.
pub fn faults_of_evaluations_are_told()
    ensures only { FaultsAreOfThese }
    ensures told { CausesAreFaults }
{}

/// The output of a transformer is refused as RawSymbol where it holds a plain symbol, which is told, and as BadOutput
/// where it holds another value that is no syntax. An output that is read holds neither.
pub fn outputs_are_syntax()
    ensures { OutputsAreRead }
{}
