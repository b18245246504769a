ghost use Rattle.std.specs.Prelude.{◌≡◌, ◌<◌, ◌≤◌, IfSome};
ghost use Rattle.bench_controller.specs.Loads.{fewest};

/// What the queue heads do.
#[derive(Clone, Copy, PartialEq, Eq)]
pub(crate) enum Kind {
    /// Bulk INs.
    In,
    /// Bulk OUTs.
    Out,
    /// The SETUPs of control endpoints.
    Control,
    /// INs of interrupt endpoints, in the chain of each frame and in each microframe; the ring is off.
    Interrupt,
}

/// What is stepped.
#[derive(Clone, Copy)]
pub(crate) struct Load {
    pub(crate) kind: Kind,
    /// How many queue heads there are beside the ring's head, up to 256; at least one, but for interrupt endpoints.
    pub(crate) queues: u32,
    /// The bytes of a packet, at most 512.
    pub(crate) size: u16,
    pub(crate) events: u64,
}

fn kind_of(word: &str) -> Option<Kind> {
    if word == "in" {
        return Some(Kind::In);
    }
    if word == "out" {
        return Some(Kind::Out);
    }
    if word == "control" {
        return Some(Kind::Control);
    }
    if word == "interrupt" {
        return Some(Kind::Interrupt);
    }
    None
}

fn fewest(kind: Kind) -> u32
    ensures { result ≡ fewest kind }
{
    match kind {
        Kind::In | Kind::Out | Kind::Control => 1,
        Kind::Interrupt => 0,
    }
}

/// The load of these numbers, where they are in their ranges.
fn within(kind: Kind, queues: u32, size: u16, events: u64) -> Option<Load>
    ensures { IfSome result (λ l. (fewest l.kind ≤ l.queues) × (l.queues ≤ 256) × (l.size ≤ 512)) }
{
    if queues < fewest(kind) || queues > 256 || size > 512 {
        return None;
    }
    Some(Load {
        kind,
        queues,
        size,
        events,
    })
}

/// The load that a line tells; None where it tells none.
pub(crate) fn read(line: &str) -> Option<Load>
    ensures { IfSome result (λ l. (fewest l.kind ≤ l.queues) × (l.queues ≤ 256) × (l.size ≤ 512)) }
{
    let (first, rest) = line.split_once(' ')?;
    let (queues, rest) = rest.split_once(' ')?;
    let (size, events) = rest.split_once(' ')?;
    let kind = kind_of(first)?;
    match (
        queues.parse::<u32>(),
        size.parse::<u16>(),
        events.parse::<u64>(),
    ) {
        (Ok(queues), Ok(size), Ok(events)) => within(kind, queues, size, events),
        _ => None,
    }
}
