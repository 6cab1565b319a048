//! The laws of the definitions, each as the contract of a function that does nothing.
ghost use Rattle.grid_types.specs.declared.config.HubConfig.{HubConfig};
ghost use Rattle.grid_types.specs.HistoryLaws.{Known};
ghost use Rattle.grid_types.specs.OneMoreEntry.{ActiveMoves, BarMoves, BaseMoves, BeatMoves, CountMoves, HeldMoves, HolderMoves, LiveMoves, LoadMoves, NumberedOneByOne, OwnerMoves, PlaceMoves, PublishedMoves, QueueMoves, SuspicionMoves, TurnMoves};
ghost use Rattle.grid_types.specs.Laws.{CallsGiveGoodTokens, CallsStayLegal, ChosenFits, ChosenIsFirst, ClosingsStayGood, FirstIsChosen, LegalHistoriesAreSafe, LiveIsRunning, MapFindsLive, NoneFits, ReservationsStayGood, ReservationsTellTheSame, TicketsStayGood, TicketsTellTheSame};

/// After each call of the hub of one thread its history is legal again.
pub fn calls_stay_legal()
    ensures { CallsStayLegal }
{}

/// The tokens that a call gives are good after it.
pub fn calls_give_good_tokens()
    ensures { CallsGiveGoodTokens }
{}

/// A legal history is safe.
pub fn legal_is_safe()
    ensures { LegalHistoriesAreSafe }
{}

/// In a legal history the published map finds what is live.
pub fn map_finds_live()
    ensures { MapFindsLive }
{}

/// A good token stays good in every legal history that goes on without an entry of its caller that uses it.
pub fn tokens_stay_good()
    ensures tickets { TicketsStayGood }
    ensures reservations { ReservationsStayGood }
    ensures closings { ClosingsStayGood }
{}

/// In a legal history a session is live exactly where it runs.
pub fn live_is_running()
    ensures { LiveIsRunning }
{}

/// The chosen assignment is the one that fits and that nothing that fits comes before.
pub fn chosen_is_first()
    ensures fits { ChosenFits }
    ensures none { NoneFits }
    ensures first { ChosenIsFirst }
    ensures only { FirstIsChosen }
{}

/// What a good ticket or reservation tells stays the same until its caller uses it.
pub fn tokens_tell_the_same()
    ensures tickets { TicketsTellTheSame }
    ensures reservations { ReservationsTellTheSame }
{}

/// What one more entry does to each fact of a node, a slot, a request and a session, and to the published map.
pub fn one_more_entry()
    ensures base { BaseMoves }
    ensures suspicion { SuspicionMoves }
    ensures count { CountMoves }
    ensures beat { BeatMoves }
    ensures turned { TurnMoves }
    ensures holder { HolderMoves }
    ensures owner { OwnerMoves }
    ensures load { (c : HubConfig) → LoadMoves c }
    ensures held { (c : HubConfig) → HeldMoves c }
    ensures place { (c : HubConfig) → PlaceMoves c }
    ensures barred { BarMoves }
    ensures live { (c : HubConfig) → LiveMoves c }
    ensures active { ActiveMoves }
    ensures published { (c : HubConfig) → PublishedMoves c }
    ensures unsettled { (c : HubConfig) → QueueMoves c }
{}

/// In a legal history nodes and requests are numbered one by one from the configured first numbers on, so that both lists ascend.
pub fn numbered_one_by_one()
    ensures { (c : HubConfig) → NumberedOneByOne c }
{}

/// What holds of every legal history: what a permitted change tells, and what each change does to nodes, slots, requests
/// and sessions.
pub fn history_laws()
    ensures { Known }
{}
