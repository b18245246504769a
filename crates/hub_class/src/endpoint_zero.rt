ghost use Rattle.std.specs.Prelude.{◌≡◌};
ghost use Rattle.std.specs.Option.{option_copied};
ghost use Rattle.dev_control.specs.Stages.{token_of};
ghost use Rattle.hub_class.specs.EndpointZero.{reply_bytes, is_token, acts_on, unless_done};

use dev_control::{Request, StageRow, StageToken, token};
use hub_ports::HubReply;
use usb_base::Pid;

/// The bytes of a request's reply, if the hub knows it.
pub fn bytes(reply: &HubReply) -> Option<&[u8]>
    ensures { option_copied result ≡ reply_bytes reply.now }
{
    match reply {
        HubReply::Bytes(bytes) => Some(bytes),
        HubReply::Done => Some(&[]),
        HubReply::Stall => None,
    }
}

/// Whether a PID is a token of a transaction with a device.
pub fn is_token_pid(pid: Pid) -> bool
    ensures { result ≡ is_token (token_of pid) }
{
    match token(pid) {
        StageToken::Other => false,
        _ => true,
    }
}

fn setup(request: Option<Request>) -> Option<[u8; 8]>
    ensures { result ≡ unless_done request }
{
    match request {
        Some(request) => {
            if request.done {
                None
            } else {
                Some(request.setup)
            }
        }
        None => None,
    }
}

/// The setup bytes of the request that is acted on in this row.
pub fn acting(row: StageRow, request: Option<Request>) -> Option<[u8; 8]>
    ensures { result ≡ acts_on row request }
{
    match row {
        StageRow::Acknowledges | StageRow::Confirms => setup(request),
        _ => None,
    }
}
