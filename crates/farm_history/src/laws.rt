//! What follows from the definitions for every history.

ghost use Rattle.farm_history.specs.Laws.{BooksGrow, BooksMean, DeskKeepsLegal, DipFaultsMean, EmptyIsLegal, GainsMean, GainsStand, HoldingsMean, KeysActOnce, LastPlacesMean, OpenMovementsMean, PostingsGrow, RangesMean, RepeatsChangeNothing, ReversesPostBack, SameCommandsAreOne, StocksAgree, TicketsMean, TicketsStand, TotalsGrow, TotalsMean, UsesMean, VerdictsAreOne, VerdictsMean};

/// Does nothing: its contract is the laws of a history.
pub fn history_laws()
    ensures same_commands_are_one { SameCommandsAreOne }
    ensures ranges_mean { RangesMean }
    ensures dip_faults_mean { DipFaultsMean }
    ensures open_movements_mean { OpenMovementsMean }
    ensures holdings_mean { HoldingsMean }
    ensures uses_mean { UsesMean }
    ensures tickets_mean { TicketsMean }
    ensures tickets_stand { TicketsStand }
    ensures last_places_mean { LastPlacesMean }
    ensures gains_mean { GainsMean }
    ensures gains_stand { GainsStand }
    ensures reverses_post_back { ReversesPostBack }
    ensures postings_grow { PostingsGrow }
    ensures books_grow { BooksGrow }
    ensures books_mean { BooksMean }
    ensures totals_mean { TotalsMean }
    ensures totals_grow { TotalsGrow }
    ensures stocks_agree { StocksAgree }
    ensures verdicts_mean { VerdictsMean }
    ensures verdicts_are_one { VerdictsAreOne }
    ensures empty_is_legal { EmptyIsLegal }
    ensures desk_keeps_legal { DeskKeepsLegal }
    ensures keys_act_once { KeysActOnce }
    ensures repeats_change_nothing { RepeatsChangeNothing }
{}
