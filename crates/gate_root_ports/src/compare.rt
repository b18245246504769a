ghost use Rattle.std.specs.Prelude.{◌≤◌};

use crate::draws::Draws;
use crate::model::Model;
use root_ports::{Plugged, PortEvent, RootPorts, play};
use std::alloc::{AllocError, Global};

/// The events of a list.
const EVENTS: u32 = 100;

/// What is counted.
#[derive(Clone, Copy, Default)]
pub(crate) struct Counts {
    /// The events.
    pub(crate) events: u32,
    /// Those that raise Port Change Detect.
    pub(crate) raised: u32,
    /// The ports that are ready behind an event.
    pub(crate) ready: u32,
    /// The readings that are others than the model's.
    pub(crate) differ: u32,
}

impl Counts {
    fn differ_where(&mut self, differs: bool) {
        if differs {
            self.differ = self.differ.saturating_add(1);
        }
    }
}

/// Compares what each port reads, also at the two numbers past the ends, and whether some change bit is 1.
fn compare_ports(ports: &RootPorts, model: &Model, counts: &mut Counts) {
    for port in 0..=16u8 {
        let (word, ready) = match model.port(port) {
            Some(it) => (it.word(), it.ready),
            None => (0, false),
        };
        counts.differ_where(ports.read(port) != word || ports.enabled(port) != ready);
        if ready {
            counts.ready = counts.ready.saturating_add(1);
        }
    }
    counts.differ_where(ports.changed() != (model.changes() != 0));
}

/// Makes an event, and compares what it raises.
fn compare_event(ports: &mut RootPorts, model: &mut Model, event: &PortEvent, counts: &mut Counts) {
    let before = model.changes();
    model.event(event);
    let raised = ports.event_raises(event);
    counts.differ_where(raised != (model.changes() & !before != 0));
    counts.events = counts.events.saturating_add(1);
    if raised {
        counts.raised = counts.raised.saturating_add(1);
    }
}

/// What is declared at the ports.
fn things_of(draws: &mut Draws) -> [Option<Plugged>; 15] {
    let mut things = [None; 15];
    for thing in things.iter_mut() {
        *thing = draws.thing();
    }
    things
}

/// Draws a list of events, makes one after another, and compares all that is read behind each; then all of them at once, and a reset
/// of the controller.
pub(crate) fn compare_list(
    alloc: Global,
    count: u8,
    draws: &mut Draws,
    counts: &mut Counts,
) -> Result<(), AllocError>
    requires least { 1 ≤ count }
    requires most { count ≤ 15 }
{
    let things = things_of(draws);
    let mut ports = RootPorts::new(things, count);
    let mut model = Model::opened(&things, count);
    let mut events: Vec<PortEvent> = Vec::new(alloc);
    compare_ports(&ports, &model, counts);
    for _event in 0..EVENTS {
        let event = draws.event(count);
        events.push(event)?;
        compare_event(&mut ports, &mut model, &event, counts);
        compare_ports(&ports, &model, counts);
    }
    compare_ports(&play(things, count, events.as_slice()), &model, counts);
    ports.reopen();
    model.reopen();
    compare_ports(&ports, &model, counts);
    Ok(())
}
