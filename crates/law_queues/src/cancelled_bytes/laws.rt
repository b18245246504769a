ghost use Rattle.law_queues.specs.cancelled_bytes.Cancelled.{QtdIsCounted, TransferIsCounted, CancelTells, CancelTellsAll, CancelLineTells};

/// Of a qTD that wasn't harvested, and of a transfer of which some were, exactly the bytes that were moved are counted.
pub fn a_transfer_is_counted()
    ensures qtd { QtdIsCounted }
    ensures transfer { TransferIsCounted }
{}

/// The line tells what was held back of the endpoint's next transfer, and then all that was moved of the qTDs that are out.
pub fn cancel_tells()
    ensures { CancelTells }
{}

/// With what was told before that is all that was moved of the endpoint; and so its lines tell, the last of which ends it.
pub fn a_cancelled_endpoint_is_told_to_its_end()
    ensures bytes { CancelTellsAll }
    ensures lines { CancelLineTells }
{}
