//! The host's side of a transfer in the token of a qTD or of a queue head's overlay (EHCI 1.0, 3.5.3 and 3.6.3).
//!
//! `host_of` takes it out of a token, `token_of` puts it back. What a transaction makes of it is `toggle_error`'s.
#![tactic(auto)]

ghost use Rattle.std.specs.Prelude.{◌≡◌, ℕ};
ghost use Rattle.qh_qtd.specs.declared.token.Token.{Token as TokenValue};
ghost use Rattle.toggle_error.specs.declared.host.HostSide.{HostSide as HostValue};
ghost use Rattle.hc_host_side.specs.HostToken.{host_at, with_host};

use qh_qtd::Token;
use toggle_error::HostSide;

/// The host's side that a token tells, for packets of at most `max` bytes.
pub fn host_of(token: &Token, max: u16) -> HostSide
    ensures { result ≡ host_at token.now max }
{
    HostSide {
        toggle: token.toggle,
        ping: token.ping,
        cerr: token.cerr,
        left: token.total,
        max,
        active: token.active,
        halted: token.halted,
        babble: token.babble,
        xact_err: token.xact_err,
        missed: token.missed,
        waiting: token.split_state,
    }
}

/// The token with a host's side; its PID, page, interrupt and buffer error stay.
pub fn token_of(token: &Token, host: &HostSide) -> Token
    ensures { result ≡ with_host token.now host.now }
{
    Token {
        toggle: host.toggle,
        ping: host.ping,
        cerr: host.cerr,
        total: host.left,
        active: host.active,
        halted: host.halted,
        babble: host.babble,
        xact_err: host.xact_err,
        missed: host.missed,
        split_state: host.waiting,
        ..*token
    }
}

/// A token tells the host's side that was put into it.
pub fn a_token_tells_its_host()
    ensures { (token : TokenValue) → (host : HostValue) → host_at (with_host token host) host.max ≡ host }
{}
