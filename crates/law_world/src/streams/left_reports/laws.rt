//! The laws.
ghost use Rattle.law_world.specs.streams.left_reports.Leaver.{LeavesAreTold, LeaverCanBeTold, EndpointReleaseIsTold};

/// The steps of an endpoint's leave, up to the one that gives it back, leave what is told of each queue that has a
/// stream.
pub fn leaves_are_told()
    ensures { LeavesAreTold }
{}

/// Of the endpoint that is to be given back all is known that its line needs.
pub fn leaver_can_be_told()
    ensures { LeaverCanBeTold }
{}

/// When it is given back, the lines of one that has a stream tell all that was moved of it, where its cancel is told; where it had ended by an error they tell
/// what they told before. Of a cancelled control endpoint nothing is said; of the others as before.
pub fn endpoint_release_is_told()
    ensures { EndpointReleaseIsTold }
{}
