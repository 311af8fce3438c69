//! What holds of receipts and accounts.
ghost use Rattle.rje_settle.specs.Laws.{CardsTellReceipts, CountFromNone, CountOneMore, TellsWhatCame};

/// A receipt counts each job that is kept, from none on: its number is how many they are, and its
/// digest that of all of them.
pub fn receipts_count_what_is_kept()
    ensures none { CountFromNone }
    ensures one_more { CountOneMore }
{}

/// Where digests tell apart the two lists that are compared, a receipt by which so many promised
/// jobs came says just which jobs are kept: those that were known, and the promised ones that came,
/// in order.
pub fn receipts_tell_what_came()
    ensures { TellsWhatCame }
{}

/// No two receipts have one card.
pub fn cards_tell_receipts()
    ensures { CardsTellReceipts }
{}
