//! Defines what a group does, and proves the laws that follow from the definitions alone, whatever the program.
//! `specs/` has the definitions, and `specs/Headline` the words of the main promise. Each function below does nothing;
//! its contract is a law, for every configuration and list of events.
#![tactic(auto)]

ghost use Rattle.cast_model.specs.RunLaws.{AllRunsDeliverPrefixes, AllRunsCloseStreams, AllRunsDecideProposals, AllRunsDecideFewValues, AllRunsDecideWithinFaults};
ghost use Rattle.cast_model.specs.RunLaws.{AllRunsAnswerWhatIsDelivered, AllRunsAnswerWhatIsDecided, AllNodesShowProposals, AllNodesShowFewValues, OnlyTakenSlotsAreAcknowledged, NoFaultsMakeModesOne};
ghost use Rattle.cast_model.specs.RestLaws.{RefusesRoundsAsFullAlone, RoundsSpread, RoundsAddNothing, RoundsRest, TwoRoundsRest};
ghost use Rattle.cast_model.specs.RestLaws.{RestsWhereNothingIsDue, NothingIsDueAtRest, DeliversTheSameAtRest, DeliversWholeStreamsAtRest, DeliversWhatAnyDeliveredAtRest};
ghost use Rattle.cast_model.specs.RestLaws.{DecidesTheSameAtRest, DecidesWhatIsProposedAtRest, NodesAnswerAsTheGroup, NodesStepAsTheGroup};
ghost use Rattle.cast_model.specs.RestLaws.{NodesMakeTheFrames, NodesDeliverAsTheGroup, NodesDecideAsTheGroup, NodesOweAsTheGroup, NodesKnowHoldersAsTheGroup, NodesKnowWhoHoldsAsTheGroup};

/// A node's deliveries from a sender are a prefix of what that sender broadcast, with nothing after its close. Each
/// decided value was proposed in its instance. If the faults are fewer than k, at most k values are decided in it; for
/// any k, at most one more than the tolerated faults (Chaudhuri 1993). The replies' deliveries are what each node has
/// delivered, and their decisions what it shows, each once. Values shown as decided were also proposed, and are at most
/// k. What is acknowledged was taken. If no fault is tolerated, both modes have the same replies.
pub fn keeps_order_and_agrees()
    ensures prefix { AllRunsDeliverPrefixes }
    ensures closed { AllRunsCloseStreams }
    ensures proposed { AllRunsDecideProposals }
    ensures few { AllRunsDecideFewValues }
    ensures within { AllRunsDecideWithinFaults }
    ensures shown { AllRunsAnswerWhatIsDelivered }
    ensures shown_decided { AllRunsAnswerWhatIsDecided }
    ensures shown_proposed { AllNodesShowProposals }
    ensures shown_few { AllNodesShowFewValues }
    ensures acknowledged { OnlyTakenSlotsAreAcknowledged }
    ensures modes { NoFaultsMakeModesOne }
{}

/// A round is refused only if a node's frames are full. After a round each live node holds exactly what some live node
/// held before it. After two rounds the group is at rest.
pub fn rests_after_two_rounds()
    ensures refused { RefusesRoundsAsFullAlone }
    ensures spread { RoundsSpread }
    ensures nothing_else { RoundsAddNothing }
    ensures rest { RoundsRest }
    ensures two { TwoRoundsRest }
{}

/// Nothing is due exactly when the group is at rest. Then all live nodes have delivered the same, with the whole stream
/// of each live sender. They have decided the same instances, including each that enough senders proposed in what they
/// delivered. In uniform mode this needs that no more nodes have crashed than are tolerated, or none is tolerated. In
/// the first case, each live node has also delivered what any node did, even a crashed one.
pub fn agrees_at_rest()
    ensures rests { RestsWhereNothingIsDue }
    ensures nothing_due { NothingIsDueAtRest }
    ensures same { DeliversTheSameAtRest }
    ensures whole { DeliversWholeStreamsAtRest }
    ensures uniform { DeliversWhatAnyDeliveredAtRest }
    ensures decided { DecidesTheSameAtRest }
    ensures proposed { DecidesWhatIsProposedAtRest }
{}

/// Each node answers from its own steps as the group does. It makes, delivers, decides and owes what the group says,
/// and knows the same holders of each pair.
pub fn answers_by_own_steps()
    ensures reply { NodesAnswerAsTheGroup }
    ensures steps { NodesStepAsTheGroup }
    ensures frames { NodesMakeTheFrames }
    ensures delivered { NodesDeliverAsTheGroup }
    ensures decided { NodesDecideAsTheGroup }
    ensures owed { NodesOweAsTheGroup }
    ensures known { NodesKnowHoldersAsTheGroup }
    ensures holders { NodesKnowWhoHoldsAsTheGroup }
{}
