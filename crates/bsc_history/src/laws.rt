//! What holds of every conversation: both ends agree, and the link cores keep the rules.
ghost use Rattle.bsc_history.specs.Agreement.{GetsAtMostOneMore, KnowsBeforeBlocks, GetsInOrder, StaysWithinPlan, ConversationsMayBeSpoken};
ghost use Rattle.bsc_history.specs.Conversation.{EverySchedule, OneConversation, NoneBreaks, OneBreak};
ghost use Rattle.bsc_history.specs.Cores.{ConversationsAreSpoken, SenderCoreSays, SenderCoreKeeps, SenderCoreCounts, ReceiverCoreKeeps, ReceiverCoreReplies, ReceiverCoreAccepts};
ghost use Rattle.bsc_history.specs.PairAgreement.{DirectionsMayBeSpoken, PairConversationsMayBeSpoken, AgreesEachWay};
ghost use Rattle.bsc_history.specs.PairSchedule.{EveryPairSchedule, OnePairConversation, NonePairBreaks, OnePairBreak};

/// The law of agreement. In every history that the saying rule, the reply rule and the fates of the line allow, where giving up may end
/// it at any turn or at none: the receiver got as many blocks as the sender knows of, or one more; before each turn that says a block
/// the sender knows of all that it got; it got the blocks from the first on, in order and each once; and there are as many blocks.
pub fn ends_agree()
    ensures at_most_one_more { GetsAtMostOneMore }
    ensures known_before_blocks { KnowsBeforeBlocks }
    ensures in_order { GetsInOrder }
    ensures within_plan { StaysWithinPlan }
    ensures conversations { ConversationsMayBeSpoken }
{}

/// The bridge to the link cores. After every history the sender's core that heard its sounds is due to say what the saying rule says,
/// ends as the outcome says, keeps the parity, the RVI, the tries and the holds of the history, and reports just the counting turns. While
/// the conversation goes on the receiver's core replies by the reply rule to whatever arrives, accepts just the blocks that are brought,
/// and keeps the place, the parity, the last reply and the RVI of the history.
pub fn cores_keep_rules()
    ensures spoken { ConversationsAreSpoken }
    ensures says { SenderCoreSays }
    ensures sender_keeps { SenderCoreKeeps }
    ensures counts { SenderCoreCounts }
    ensures receiver_keeps { ReceiverCoreKeeps }
    ensures replies { ReceiverCoreReplies }
    ensures accepts { ReceiverCoreAccepts }
{}

/// Over a schedule of sounds there is a conversation, or a turn whose fate is the first to break its rule. There is one conversation at
/// most; where there is one, no fate broke its rule before its end; and at most one turn's fate is the first to break it.
pub fn one_conversation()
    ensures every { EverySchedule }
    ensures one { OneConversation }
    ensures none_breaks { NoneBreaks }
    ensures one_break { OneBreak }
{}

/// The law of agreement, in each direction of two stations that both have jobs. Of every conversation of a pair, each direction is a
/// history of the law of agreement: the receiver got as many blocks as the sender knows of, or one more; before each turn that says a
/// block the sender knows of all that it got; it got the blocks from the first on, in order and each once; and there are as many blocks.
pub fn pair_ends_agree()
    ensures directions { DirectionsMayBeSpoken }
    ensures conversations { PairConversationsMayBeSpoken }
    ensures agrees { AgreesEachWay }
{
    ends_agree();
}

/// Over a schedule of sounds there is a conversation of two stations that both have jobs, or a turn whose fate is the first to break its
/// rule. There is one conversation at most; where there is one, no fate broke its rule before its end; and at most one turn's fate is the
/// first to break it.
pub fn one_pair_conversation()
    ensures every { EveryPairSchedule }
    ensures one { OnePairConversation }
    ensures none_breaks { NonePairBreaks }
    ensures one_break { OnePairBreak }
{}
