//! What is due of a high-speed interrupt endpoint as the walk of the frames comes to its queue head is done in that visit (EHCI 1.0, 3.6.2,
//! 4.7, 4.10 and 4.10.3; USB 2.0, 5.7.4 and 8.6).
ghost use Rattle.law_microframes.specs.due.Laws.{ReadyTransactionsMove, TextsComeToEach, TextsDoWhatIsDue, TextsKeepDue};

/// A transaction of the queue head of a high-speed interrupt endpoint moves its bytes where the endpoint's device has the same toggle, and
/// a packet that fits or room for one, and none of its three packets is lost.
pub fn ready_transactions_move()
    ensures { ReadyTransactionsMove }
{}

/// Where the walk of the frames is over in a microframe, it came to the queue head of each interrupt endpoint that has this frame by its
/// placement and was in the frame list as the microframe began and is in it still, while others are opened and cancelled.
pub fn texts_come_to_each()
    ensures { TextsComeToEach }
{}

/// Where the walk of the frames is over in a microframe, each transaction of a high-speed interrupt endpoint that was due as the walk came
/// to its queue head moved its bytes in that microframe, and was written back: the queue head had something to work on in a microframe of
/// its S-mask, its device a packet of the same toggle that fits or room for one, and none of the packets of the transaction is lost.
pub fn texts_do_what_is_due()
    ensures { TextsDoWhatIsDue }
{}

/// Of each script that a text spells: the walk comes to each, and what is due then is done.
pub fn texts_keep_due()
    ensures { TextsKeepDue }
{}
