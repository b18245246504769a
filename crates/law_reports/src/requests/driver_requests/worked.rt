//! A worked driver.
ghost use Rattle.claims_driver.specs.Owners.{views_of};
ghost use Rattle.claims_driver.specs.Leaving.{HasOwners};
ghost use Rattle.law_driver_ring.specs.Inventory.{sorts_of, IsDriven};
ghost use Rattle.law_devices.specs.ring_requests.Windows.{AreSent};
ghost use Rattle.law_reports.specs.requests.world_requests.Recording.{AreTransfers};
ghost use Rattle.law_reports.specs.requests.driver_requests.Requests.{AreOfDriver, HaveQtds, AreUnderWay};
ghost use Rattle.law_reports.specs.requests.driver_requests.Samples.{driver, parts, is_queue as IsQueueAt, requests, begun};

/// Two requests that are published are transfers of their endpoint, and laid out; the driver's runs have their owners, and what stands in memory is its. So they are
/// the transfers of which the recorder's law speaks.
pub fn two_requests_are_laid_out()
    ensures requests { AreOfDriver driver IsQueueAt (λ n. requests) (λ n. begun) (λ n. 0) (λ n i. i) }
    ensures under_way { AreUnderWay IsQueueAt (λ n. requests) (λ n. begun) }
    ensures sent { AreSent IsQueueAt IsQueueAt (λ n. requests) }
    ensures qtds { HaveQtds driver }
    ensures owners { HasOwners driver }
    ensures driven { IsDriven (views_of driver) (sorts_of parts) }
    ensures told { AreTransfers driver IsQueueAt (λ n. requests) (λ n. begun) parts (λ n. 0) (λ n i. i) }
{}
