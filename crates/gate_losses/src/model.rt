/// How a transfer of three packets ends.
#[derive(Clone, Copy, Debug, PartialEq, Eq)]
pub enum Ending {
    Done,
    /// Three errors, after this number of packets was taken.
    Halted(u32),
}

fn is_lost(lost: u32, packet: u32) -> bool {
    packet < 10 && lost >> packet & 1 == 1
}

/// The counts of a transfer: the next packet on the bus, the data packets that the device knows to be taken and those that
/// the host took, and the errors so far.
#[derive(Clone, Copy)]
struct Counts {
    packet: u32,
    sent: u32,
    taken: u32,
    errors: u32,
}

/// One IN: what is lost of it, and what it moves.
fn one_in(lost: u32, counts: &mut Counts) {
    let packet = counts.packet;
    if is_lost(lost, packet) {
        counts.packet = packet.saturating_add(1);
        counts.errors = counts.errors.saturating_add(1);
        return;
    }
    if is_lost(lost, packet.saturating_add(1)) {
        counts.packet = packet.saturating_add(2);
        counts.errors = counts.errors.saturating_add(1);
        return;
    }
    counts.packet = packet.saturating_add(3);
    if counts.sent == counts.taken {
        counts.taken = counts.taken.saturating_add(1);
    }
    if !is_lost(lost, packet.saturating_add(2)) {
        counts.sent = counts.sent.saturating_add(1);
    }
}

/// How the transfer ends where packet k is lost exactly where bit k of `lost` is set: it is done when three packets were
/// taken, and halts at the third error.
pub fn model_of(lost: u32) -> Ending {
    let mut counts = Counts {
        packet: 0,
        sent: 0,
        taken: 0,
        errors: 0,
    };
    for _ in 0..32 {
        if counts.taken >= 3 {
            return Ending::Done;
        }
        if counts.errors >= 3 {
            return Ending::Halted(counts.taken);
        }
        one_in(lost, &mut counts);
    }
    Ending::Halted(counts.taken)
}
