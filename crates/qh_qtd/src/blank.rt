ghost use Rattle.std.specs.Prelude.{◌≡◌, ◌∷◌, []};
ghost use Rattle.qh_qtd.specs.Blank.{blank_token, blank_qtd, blank_head};
ghost use Rattle.qh_qtd.specs.Token.{token_word};
ghost use Rattle.qh_qtd.specs.Qtd.{qtd_words};
ghost use Rattle.qh_qtd.specs.QueueHead.{qh_words};

use crate::qtd::Qtd;
use crate::queue_head::Qh;
use crate::token::Token;
use link_words::{LinkBits, ShortLink};

impl Token {
    /// A token with nothing in it: not active, no byte to move, toggle 0. It is the word 0.
    pub fn blank() -> Token
        ensures { result ≡ blank_token }
    {
        Token {
            ping: false,
            split_state: false,
            missed: false,
            xact_err: false,
            babble: false,
            buffer_error: false,
            halted: false,
            active: false,
            pid: 0,
            cerr: 0,
            c_page: 0,
            ioc: false,
            total: 0,
            toggle: false,
        }
    }
}

impl Qtd {
    /// A descriptor with nothing in it: its links end, and all else is 0.
    pub fn blank() -> Qtd
        ensures { result ≡ blank_qtd }
    {
        Qtd {
            next: ShortLink::end(),
            alternate: ShortLink::end(),
            token: Token::blank(),
            offset: 0,
            page0: 0,
            page1: 0,
            page2: 0,
            page3: 0,
            page4: 0,
        }
    }
}

impl Qh {
    /// A queue head with nothing in it: its link and the links of its overlay end, and all else is 0.
    pub fn blank() -> Qh
        ensures { result ≡ blank_head }
    {
        Qh {
            link: LinkBits::end(),
            addr: 0,
            inactivate: false,
            ep: 0,
            eps: 0,
            dtc: false,
            head: false,
            max: 0,
            control: false,
            rl: 0,
            smask: 0,
            cmask: 0,
            hub: 0,
            port: 0,
            mult: 0,
            current: 0,
            next: ShortLink::end(),
            alternate: ShortLink::end(),
            nak_cnt: 0,
            token: Token::blank(),
            offset: 0,
            page0: 0,
            c_prog: 0,
            page1: 0,
            frame_tag: 0,
            s_bytes: 0,
            page2: 0,
            page3: 0,
            page4: 0,
        }
    }
}

/// The words of the blank structures.
#[tactic(auto, unfolding(crate::specs::Token::token_word, crate::specs::Qtd::qtd_words, crate::specs::QueueHead::qh_words))]
pub fn worked_blanks()
    ensures token { token_word blank_token ≡ 0 }
    ensures qtd { qtd_words blank_qtd ≡ 1 ∷ 1 ∷ 0 ∷ 0 ∷ 0 ∷ 0 ∷ 0 ∷ 0 ∷ [] }
    ensures queue_head { qh_words blank_head ≡ 1 ∷ 0 ∷ 0 ∷ 0 ∷ 1 ∷ 1 ∷ 0 ∷ 0 ∷ 0 ∷ 0 ∷ 0 ∷ 0 ∷ [] }
{}
