//! Laws of rules. Each function here computes nothing: what it promises is the law.

ghost use Rattle.law_rules.specs.Laws.{RulesAreEvaluation};

/// If the rules of a transformer that is a `syntax-case` of templates (R6RS libraries 12.4) tell a tree, and
/// evaluating and reading it take no more than the fuel of one evaluation, then a use gives that tree, spends
/// what they tell, and leaves the stage as it was.
pub fn rules_are_evaluation()
    ensures { RulesAreEvaluation }
{}
