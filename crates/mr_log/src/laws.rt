ghost use Rattle.mr_log.specs.Reading.{OneLogRefusal, NoLogRefusal, OneLog, EachTextIsALogOrAtFault};

/// A text is refused for one cause.
pub fn one_log_refusal()
    ensures { OneLogRefusal }
{}

/// The bytes of a log are not refused.
pub fn no_log_refusal()
    ensures { NoLogRefusal }
{}

/// The bytes are those of one log.
pub fn one_log()
    ensures { OneLog }
{}

/// A text is a log or has a fault.
pub fn each_text_is_a_log_or_at_fault()
    ensures { EachTextIsALogOrAtFault }
{}
