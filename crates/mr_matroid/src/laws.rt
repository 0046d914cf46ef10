ghost use Rattle.mr_matroid.specs.Laws.{OneFirstFailure, OneMatroidVerdict, ExchangeFailsWhereNothingFits};

/// One exchange is the first that fails.
pub fn one_first_failure()
    ensures { OneFirstFailure }
{}

/// Of a matroid, no basis and a failing exchange one answer is due.
pub fn one_verdict()
    ensures { OneMatroidVerdict }
{}

/// An exchange fails exactly where the second basis has none of the elements that fit.
pub fn exchange_fails_where_nothing_fits()
    ensures { ExchangeFailsWhereNothingFits }
{}
