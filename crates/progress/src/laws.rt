ghost use Rattle.progress.specs.Laws.{KnownGrows, WordsArrive, AllIsSaid, RequestsOnce, TurnsInARound, CertifiedInARound, ReachedInTwoRounds, EligibleInTwoRounds, EligibleInFourRounds, LeaderOffers, OfferedIsPrepared, PreparesArrive, PreparedIsCommitted, CommitsArrive, IntroducedInARound, UnderCorrectLeader};
ghost use Rattle.progress.specs.UnderLeader.{PlansAgree, OfferedIsOffer, OrderedIsOffer, ProposedIsWorth, OfferIsPrepared, OfferIsOrdered, RequestedIsOffer, ExecutionsSpread};
ghost use Rattle.progress.specs.Leaving.{VotesSpread, VotedIsLeft, ViewOpens};
ghost use Rattle.progress.specs.Asking.{WaitingAsks, AskedIsGiven, NextIsGiven};
ghost use Rattle.progress.specs.Marking.{OrderedIsMarked, MarksArrive, OrderedIsStable, OfferIsStable};
ghost use Rattle.progress.specs.Keeping.{CertifiedIsOrdered, ConnectedAreShown, ServedInRounds, LeaderServes, LeaderIsKept, PatienceGrows};
ghost use Rattle.progress.specs.Serving.{ImpatientVotes, StarvedVotes, StarvedIsLeft, ServedOrGone, UnvotedIsKept, PatientIsKept, ServedArePatient, ServedIsKept, NextViewOpens, UnderServingLeader};

/// What a master knows only grows, at its end.
pub fn known_grows()
    ensures { KnownGrows }
{}

/// What one connected master said before a round is known to the others after it.
pub fn words_arrive()
    ensures { WordsArrive }
{}

/// A correct master that has a leaf left in the end said, at each event, all that was due.
pub fn all_is_said()
    ensures { AllIsSaid }
{}

/// A correct master says one request for each of its numbers.
pub fn requests_once()
    ensures { RequestsOnce }
{}

/// A request that has its turn with all connected masters is certified with each a round later.
pub fn certified_in_a_round()
    ensures { CertifiedInARound }
{}

/// A request that a connected master said has its turn with all of them a round later.
pub fn turns_in_a_round()
    ensures { TurnsInARound }
{}

/// What a connected master requested each of them has certified without a gap two rounds later.
pub fn reached_in_two_rounds()
    ensures { ReachedInTwoRounds }
{}

/// What each connected master has certified the latest summaries of each make eligible two rounds later.
pub fn eligible_in_two_rounds()
    ensures { EligibleInTwoRounds }
{}

/// An update handed to a connected door is introduced by it within a round, or as many are executed there.
pub fn introduced_in_a_round()
    ensures { IntroducedInARound }
{}

/// What a connected master requested is eligible at each of them four rounds later.
pub fn eligible_in_four_rounds()
    ensures { EligibleInFourRounds }
{}

/// What all connected masters prepared each knows a round later to be prepared by a quorum.
pub fn prepares_arrive()
    ensures { PreparesArrive }
{}

/// What all connected masters committed each knows a round later to be committed by a quorum.
pub fn commits_arrive()
    ensures { CommitsArrive }
{}

/// At a tick the leader of an open view offers the next number, or all that is eligible it counts as offered.
pub fn leader_offers()
    ensures { LeaderOffers }
{}

/// What an open view offers, and is worth it, a correct master has prepared once it knows so.
pub fn offered_is_prepared()
    ensures { OfferedIsPrepared }
{}

/// What a correct master knows to be prepared in its view it has committed.
pub fn prepared_is_committed()
    ensures { PreparedIsCommitted }
{}

/// The connected masters in a view that one of them leads know one plan.
pub fn plans_agree()
    ensures { PlansAgree }
{}

/// What a connected master's words offer as a number is what the view offers, each number in one way.
pub fn offered_is_offer()
    ensures { OfferedIsOffer }
{}

/// What a connected master knows to be prepared in the view, or ordered above its plan's base, is what the view offers.
pub fn ordered_is_offer()
    ensures { OrderedIsOffer }
{}

/// What the leader proposed each connected master finds worth a prepare a round later.
pub fn proposed_is_worth()
    ensures { ProposedIsWorth }
{}

/// What the view offers each connected master has prepared a round later.
pub fn offer_is_prepared()
    ensures { OfferIsPrepared }
{}

/// What the view offers each connected master has ordered three rounds later, with all lower numbers.
pub fn offer_is_ordered()
    ensures { OfferIsOrdered }
{}

/// What a connected master requested the view offers five rounds later.
pub fn requested_is_offer()
    ensures { RequestedIsOffer }
{}

/// What one connected master executed each has executed three rounds later, where it lacks no request.
pub fn executions_spread()
    ensures { ExecutionsSpread }
{}

/// Progress under a correct leader: what a client handed to a connected door each connected master has executed nine rounds later.
pub fn under_correct_leader()
    ensures { UnderCorrectLeader }
{}

/// Where more than f + k connected masters voted against a view all have done so a round later.
pub fn votes_spread()
    ensures { VotesSpread }
{}

/// A view that all connected masters voted against each has left a round later.
pub fn voted_is_left()
    ensures { VotedIsLeft }
{}

/// A view that all connected masters came to, and that one of them leads, is open to each two rounds later.
pub fn view_opens()
    ensures { ViewOpens }
{}

/// A correct master votes at a tick at which its patience is at its end.
pub fn impatient_votes()
    ensures { ImpatientVotes }
{}

/// A correct master that lacked for longer than its patience what was eligible there has voted against its view.
pub fn starved_votes()
    ensures { StarvedVotes }
{}

/// A view in which more than f + k connected masters lacked something for so long all have left two rounds later.
pub fn starved_is_left()
    ensures { StarvedIsLeft }
{}

/// All connected masters leave a view once they waited for longer than their patience, or all but f + k were served.
pub fn served_or_gone()
    ensures { ServedOrGone }
{}

/// Where no connected master voted against a view no correct master knows a quorum's votes against it.
pub fn unvoted_is_kept()
    ensures { UnvotedIsKept }
{}

/// A view in which no connected master comes to the end of its patience no correct master goes beyond.
pub fn patient_is_kept()
    ensures { PatientIsKept }
{}

/// Who gets in time what it waits for doesn't come to the end of its patience.
pub fn served_are_patient()
    ensures { ServedArePatient }
{}

/// A view that serves the connected masters is kept.
pub fn served_is_kept()
    ensures { ServedIsKept }
{}

/// Progress under a connected leader that serves: what was handed to a door is executed nine rounds later.
pub fn under_serving_leader()
    ensures { UnderServingLeader }
{}

/// Who is served within so many rounds is served in time, where patience is longer than their ticks.
pub fn served_in_rounds()
    ensures { ServedInRounds }
{}

/// What each connected master has certified each has ordered six rounds later, under a connected leader.
pub fn certified_is_ordered()
    ensures { CertifiedIsOrdered }
{}

/// A connected leader serves, where nothing eligible stays hidden and patience is longer than eight rounds and these.
pub fn leader_serves()
    ensures { LeaderServes }
{}

/// So a connected leader isn't voted out.
pub fn leader_is_kept()
    ensures { LeaderIsKept }
{}

/// Where more than f + k connected masters starved the next view, if one of them leads it, is open to each four rounds later.
pub fn next_view_opens()
    ensures { NextViewOpens }
{}

/// What is eligible of a connected master's requests each of them has certified two rounds later.
pub fn connected_are_shown()
    ensures { ConnectedAreShown }
{}

/// A number that a connected master asked for, when another had it ordered, it has ordered two rounds later.
pub fn asked_is_given()
    ensures { AskedIsGiven }
{}

/// At a tick at which it has waited for more than 16 ticks a master asks for the next number, where it may ask.
pub fn waiting_asks()
    ensures { WaitingAsks }
{}

/// One that has waited for more than 16 ticks has one number more two rounds after its tick, where a connected master had it.
pub fn next_is_given()
    ensures { NextIsGiven }
{}

/// Patience grows as the views go round.
pub fn patience_grows()
    ensures { PatienceGrows }
{}

/// A correct master has marked what it has ordered without a gap, at each number that is to be marked.
pub fn ordered_is_marked()
    ensures { OrderedIsMarked }
{}

/// What all connected masters marked is stable at each a round later.
pub fn marks_arrive()
    ensures { MarksArrive }
{}

/// So what all of them have ordered up to such a number is stable at each a round later.
pub fn ordered_is_stable()
    ensures { OrderedIsStable }
{}

/// What a view offers up to a number that is to be marked is stable at each connected master four rounds later.
pub fn offer_is_stable()
    ensures { OfferIsStable }
{}
