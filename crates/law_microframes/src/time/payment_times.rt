//! The transactions of the periodic part have the time that they need, in each microframe that isn't held (USB 2.0, 5.9 and 5.11.3; EHCI 1.0, 4.4, 4.6 and 4.10.3).
ghost use Rattle.law_microframes.specs.time.PaymentTimes.{TextsLeaveTheRest, TextsAreInTime};

/// At each moment of the run of a script: in the periodic part the time that is left, the prices of the transactions of the microframe and
/// of those made again are together the time of the microframe.
pub fn texts_leave_the_rest()
    ensures { TextsLeaveTheRest }
{}

/// So where the microframe isn't held a fifth of it is left, but for what was made again, and while that is no more than 4 microseconds no
/// transaction of the periodic part is skipped for want of time. Where the periodic endpoints are of high speed, nothing is ever made
/// again.
pub fn texts_are_in_time()
    ensures { TextsAreInTime }
{}
