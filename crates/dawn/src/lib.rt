// The dawn morning as a proved example: a bay is offered the dawn sheet in spans, started, and stepped to its end.
// So what is said of every succession of calls is said of one that does something, and what it asks of the domains is
// met by those that ship.
#![tactic(auto)]

ghost use Rattle.dawn.specs.Morning.{Morning};

/// The calls of a dawn morning are a succession of calls on a bay, and no trap is answered.
pub fn morning_runs()
    ensures { Morning }
{}
