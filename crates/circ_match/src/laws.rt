//! What is proved of patterns and their variables. The function does nothing: a law is a contract.
ghost use Rattle.circ_match.specs.Matcher.{VariablesDecide};

/// What a pattern becomes decides what its variables are given, and the other way round. So there
/// is only one matcher.
pub fn variables_decide()
    ensures { VariablesDecide }
{}
