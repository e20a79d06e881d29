//! What holds after every list of accepted events. Each function is a theorem: it does nothing, and its contract is the law.
ghost use Rattle.rmodel.specs.Laws.{OneSettlement, OneSettlementAStep, SettlingIsExclusive, WritesAreExclusive};
ghost use Rattle.rmodel.specs.Laws.{SettledIsStable, SettledIsStableAStep, SomebodyHolds, SomebodyHoldsAStep, OneWriteAtMost, OneWriteAtMostAStep, TakingTurns, TakingTurnsAStep, EarliestIsEntitled, EarliestIsEntitledAStep};
ghost use Rattle.rmodel.specs.Telling.{GrantsAreOfRequests, NoneIsToldToWait, NoneFallsBack};
ghost use Rattle.rmodel.specs.StateLaws.{ClaimsAreBelow, HeldOneWay, IdleSeatsHaveRoom, HeldUntilGivenBack};

/// *One settlement*: a well-formed list of claims settles in one way, and so does what any accepted event leaves.
pub fn l1()
    ensures any { OneSettlement }
    ensures step { OneSettlementAStep }
{}

/// *Settled is stable*: what claims settle to settles to itself, and so does what any list of accepted events leaves.
pub fn l2()
    ensures any { SettledIsStable }
    ensures step { SettledIsStableAStep }
{}

/// *Writes are exclusive*: exclusive claims settle to exclusive claims, and after any list of accepted events
/// what one request holds for writing, no other request holds.
pub fn l3()
    ensures any { SettlingIsExclusive }
    ensures step { WritesAreExclusive }
{}

/// *Somebody holds*: where there are well-formed claims, some claim is satisfied once they are settled. After any list of
/// accepted events some claim is satisfied while a request is incomplete, and the seat of each satisfied claim holds
/// something, with no ask pending.
pub fn l4()
    ensures any { SomebodyHolds }
    ensures step { SomebodyHoldsAStep }
{}

/// *One write at most keeps a read waiting*: at most one entitled or satisfied write conflicts with a given read claim.
/// So it is in what exclusive claims settle to, if groups admit them, and after any list of accepted events.
pub fn l5()
    ensures any { OneWriteAtMost }
    ensures step { OneWriteAtMostAStep }
{}

/// *The halves of an upgrade take turns*: the write half waits while the read half is unsatisfied, and is unsatisfied while
/// the read half is there. So it is in what exclusive claims settle to, if groups admit them and the halves took turns
/// before, and after any list of accepted events.
pub fn l6()
    ensures any { TakingTurns }
    ensures step { TakingTurnsAStep }
{}

/// *The earliest write is entitled*: a write that shares a place with no write of smaller stamp is entitled or satisfied,
/// in what claims settle to and after any list of accepted events.
pub fn l7()
    ensures any { EarliestIsEntitled }
    ensures step { EarliestIsEntitledAStep }
{}

/// *Grants are of requests*: of each accepted event, after any list of accepted events, the grants that are told are those of
/// the seats whose request holds more than before, one for each, with all that it holds.
pub fn grants_are_of_requests()
    ensures { GrantsAreOfRequests }
{}

/// *No claim falls back*: of each accepted event, after any list of accepted events, each status that is told is entitled or
/// satisfied, and what was entitled or satisfied stays so.
pub fn no_claim_falls_back()
    ensures told { NoneIsToldToWait }
    ensures claims { NoneFallsBack }
{}

/// *Claims lie within the resources*: after any list of accepted events, what a claim reads and writes, what it asks for and
/// what was granted to it are resources that there are, and so are its places where the groups are of such.
pub fn claims_lie_within_the_resources()
    ensures { ClaimsAreBelow }
{}

/// *Held in one way*: after any list of accepted events, what a request holds for reading it does not hold for writing.
pub fn held_in_one_way()
    ensures { HeldOneWay }
{}

/// *Idle seats have room*: after any list of accepted events, where a seat is idle fewer requests are incomplete than there
/// are seats. So with a cap that is no less than the number of seats, each issue of an idle seat is accepted.
pub fn idle_seats_have_room()
    ensures { IdleSeatsHaveRoom }
{}

/// *Held until given back*: what a request holds after any list of accepted events it holds after more of them, until the
/// finish or the rise of its own seat.
pub fn held_until_given_back()
    ensures { HeldUntilGivenBack }
{}
