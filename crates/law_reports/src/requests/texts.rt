//! Scripts of bulk and control endpoints.
ghost use Rattle.std.specs.Prelude.{◌≡◌, true, false};
ghost use Rattle.script_world.specs.Draft.{hub_desc};
ghost use Rattle.law_driver.specs.AsynchronousScripts.{AsynchronousOnly};
ghost use Rattle.law_devices.specs.declared_controls.Samples.{zero, beside_bulk};
ghost use Rattle.law_reports.specs.requests.Given.{is_of_device};
ghost use Rattle.law_reports.specs.requests.Kept.{TextsKeepRequests};

/// Of each text, whatever it opens: in the window of each request of a control endpoint at high speed a device that is no hub acts at most
/// once, and on nothing but its setup bytes. A request that is reported done was acted on exactly once, and the bytes that are told are its
/// data; at the end all that the text asks for is told.
pub fn texts_keep_requests()
    ensures { TextsKeepRequests }
{}

/// So it is of a script that opens a device's control endpoint, a bulk one and a hub's own: of the requests of the device all this is said,
/// and not of the hub's.
pub fn a_hub_beside_a_device()
    ensures only { AsynchronousOnly beside_bulk }
    ensures of_device { is_of_device beside_bulk zero ≡ true }
    ensures of_hub { is_of_device beside_bulk (hub_desc 4) ≡ false }
{}
