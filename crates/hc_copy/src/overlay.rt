ghost use Rattle.std.specs.Prelude.{◌≡◌, ◌%◌, ◌<◌, ◌≤◌};
ghost use Rattle.usb_base.specs.Limits.{longest_qtd};
ghost use Rattle.qh_qtd.specs.Qtd.{IsQtdInRange};
ghost use Rattle.qh_qtd.specs.QueueHead.{IsQhInRange};
ghost use Rattle.hc_copy.specs.Overlay.{taken_token, advanced as advanced_queue, settled_queue, moved as moved_queue};

use hc_host_side::token_of;
use qh_qtd::{Qh, Qtd, Token};
use toggle_error::HostSide;

/// The token of a qTD that a queue head takes.
fn token_taken(queue_head: &Qh, token: &Token) -> Token
    ensures { result ≡ taken_token queue_head.now token.now }
{
    Token {
        toggle: if queue_head.dtc {
            token.toggle
        } else {
            queue_head.token.toggle
        },
        ping: if queue_head.eps == 2 {
            queue_head.token.ping
        } else {
            token.ping
        },
        ..*token
    }
}

/// The queue head with the qTD at `at` as its overlay.
#[tactic(auto, using(crate::proofs::Ranges::advanced_in_range), unfolding(crate::specs::Overlay::advanced))]
pub(crate) fn advanced(queue_head: &Qh, at: u32, qtd: &Qtd) -> Qh
    requires queue_head { IsQhInRange queue_head.now }
    requires at { at % 32 ≡ 0 }
    requires qtd { IsQtdInRange qtd.now }
    ensures copy { result ≡ advanced_queue queue_head.now at qtd.now }
    ensures range { IsQhInRange result }
{
    Qh {
        current: at,
        next: qtd.next,
        alternate: qtd.alternate,
        nak_cnt: queue_head.rl,
        token: token_taken(queue_head, &qtd.token),
        offset: qtd.offset,
        page0: qtd.page0,
        c_prog: 0,
        page1: qtd.page1,
        frame_tag: 0,
        s_bytes: 0,
        page2: qtd.page2,
        page3: qtd.page3,
        page4: qtd.page4,
        ..*queue_head
    }
}

/// The queue head with the host's side that a transaction left.
#[tactic(auto, using(crate::proofs::Ranges::settled_in_range), unfolding(crate::specs::Overlay::settled_queue))]
#[inline(always)]
pub(crate) fn settled(queue_head: &Qh, host: &HostSide) -> Qh
    requires range { IsQhInRange queue_head.now }
    requires errors { host.now.cerr < 4 }
    requires left { host.now.left ≤ longest_qtd }
    ensures copy { result ≡ settled_queue host.now queue_head.now }
    ensures range { IsQhInRange result }
{
    Qh {
        token: token_of(&queue_head.token, host),
        ..*queue_head
    }
}

/// The queue head after this number of bytes was moved.
#[tactic(auto, using(crate::proofs::Ranges::moved_in_range), unfolding(crate::specs::Overlay::moved))]
pub(crate) fn moved(queue_head: &Qh, bytes: u16) -> Qh
    requires range { IsQhInRange queue_head.now }
    ensures copy { result ≡ moved_queue queue_head.now bytes }
    ensures range { IsQhInRange result }
{
    let place = queue_head.offset as u32 + bytes as u32;
    Qh {
        offset: (place % 4096) as u16,
        token: Token {
            c_page: u8::min(4, queue_head.token.c_page + (place / 4096) as u8),
            ..queue_head.token
        },
        ..*queue_head
    }
}
