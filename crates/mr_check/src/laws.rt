//! The laws of accepted logs, each the contract of a function without a body.

ghost use Rattle.mr_check.specs.Laws.{AcceptedLogsRefute, AcceptedLogsAreNotRejected, OneRejection, EachTextIsAcceptedOrRejected};

/// No matrix over the field represents the matroid of an accepted log.
pub fn accepted_logs_refute()
    ensures { AcceptedLogsRefute }
{}

/// A text is accepted or rejected, never both and never neither, and rejected for one cause.
pub fn one_verdict_on_a_log()
    ensures accepted { AcceptedLogsAreNotRejected }
    ensures rejected { OneRejection }
    ensures either { EachTextIsAcceptedOrRejected }
{}
