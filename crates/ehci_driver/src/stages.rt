ghost use Rattle.std.specs.Prelude.{◌≡◌};
ghost use Rattle.drv_jobs.specs.Clearing.{mend_of};
ghost use Rattle.drv_jobs.specs.HubRequests.{cause_of};
ghost use Rattle.drv_jobs.specs.Jobs.{parted, stage_after, stage_read};

use drv_jobs::{Job, JobRow, OverlayWord};
use drv_table::{DriverRow, Endpoint, Found, Mend};
use usb_base::{EndCause, What};

/// The row while the hub's request isn't harvested, of the driver's own one: its end is the job's.
pub(crate) fn parted(t: usize, row: DriverRow) -> JobRow
    ensures { result ≡ parted t row }
{
    match row {
        DriverRow::Harvest(h, u, Found::Ended(n, what)) => {
            if u == t {
                JobRow::EndsRequest(h, u, n, what)
            } else {
                JobRow::Plain(DriverRow::Harvest(h, u, Found::Ended(n, what)))
            }
        }
        other => JobRow::Plain(other),
    }
}

/// The store of this word of the endpoint's queue head (EHCI 1.0, 3.6.3).
pub(crate) fn overlay_store(endpoint: &Endpoint, word: OverlayWord) -> Mend
    ensures { result ≡ mend_of endpoint.now word }
{
    let queue = endpoint.queue;
    let at = 32 * queue as u32;
    match word {
        OverlayWord::Next => Mend {
            queue,
            at: at + 16,
            value: 32 * endpoint.dummy as u32,
        },
        OverlayWord::Alternate => Mend {
            queue,
            at: at + 20,
            value: 1,
        },
        OverlayWord::Token => Mend {
            queue,
            at: at + 24,
            value: 0,
        },
    }
}

/// The stage of the job behind this one, where nothing was read.
pub(crate) fn next_stage(job: Option<Job>) -> Option<Job>
    ensures { result ≡ stage_after job }
{
    match job {
        None | Some(Job::Reopens(_)) => None,
        Some(Job::Asks(e, _)) => Some(Job::Resets(e)),
        Some(Job::Reads(e, boundary)) => Some(Job::Reads(e, boundary)),
        Some(Job::Resets(e)) => Some(Job::Mends(e, OverlayWord::Next)),
        Some(Job::Mends(e, OverlayWord::Next)) => Some(Job::Mends(e, OverlayWord::Alternate)),
        Some(Job::Mends(e, OverlayWord::Alternate)) => Some(Job::Mends(e, OverlayWord::Token)),
        Some(Job::Mends(e, OverlayWord::Token)) => Some(Job::Reopens(e)),
    }
}

/// The stage once FRINDEX was read: the translator forgets at the end of a frame (USB 2.0, 11.18.6).
pub(crate) fn read_stage(frindex: u16, job: Option<Job>) -> Option<Job>
    ensures { result ≡ stage_read frindex job }
{
    let Some(Job::Reads(e, old)) = job else {
        return job;
    };
    let mut boundary = old;
    boundary.read(frindex);
    if boundary.is_seen() {
        return Some(Job::Resets(e));
    }
    Some(Job::Reads(e, boundary))
}

/// The cause of an end that isn't `Done`.
pub(crate) fn cause(what: What) -> EndCause
    ensures { result ≡ cause_of what }
{
    match what {
        What::Halt(cause) => cause,
        What::Miss => EndCause::Miss,
        _ => EndCause::Error,
    }
}
