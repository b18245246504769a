//! Places and byte addresses: specs/Base.antt.
ghost use Rattle.std.specs.Prelude.{◌≡◌, ℕ, ◌%◌};
ghost use Rattle.link_words.specs.Links.{IsAligned as IsLinkAligned, IsQtdAligned};
ghost use Rattle.image_show.specs.Base.{link_from, lowered, lowered_link, lowered_qtd, qtd_from, raised};

use link_words::{Link, QtdLink, read, read_qtd};

/// How many byte addresses there are.
const ADDRESSES: u64 = 0x1_0000_0000;

/// The place of a byte address.
pub fn lowered(base: u32, at: u32) -> u32
    ensures place { result ≡ lowered base at }
    ensures block { base % 32 ≡ 0 → at % 32 ≡ 0 → result % 32 ≡ 0 }
    ensures page { base % 4096 ≡ 0 → at % 4096 ≡ 0 → result % 4096 ≡ 0 }
{
    ((at as u64 + (ADDRESSES - base as u64)) % ADDRESSES) as u32
}

/// The byte address of a place.
pub fn raised(base: u32, place: u32) -> u32
    ensures { result ≡ raised base place }
{
    ((place as u64 + base as u64) % ADDRESSES) as u32
}

/// Where a link leads, by its place.
fn lowered_link(base: u32, link: Link) -> Link
    requires base { base % 32 ≡ 0 }
    requires link { IsLinkAligned link }
    ensures place { result ≡ lowered_link base link }
    ensures aligned { IsLinkAligned result }
{
    match link {
        Link::End => Link::End,
        Link::Itd(at) => Link::Itd(lowered(base, at)),
        Link::Qh(at) => Link::Qh(lowered(base, at)),
        Link::Sitd(at) => Link::Sitd(lowered(base, at)),
        Link::Fstn(at) => Link::Fstn(lowered(base, at)),
    }
}

/// Where a link of a queue leads, by its place.
fn lowered_qtd(base: u32, link: QtdLink) -> QtdLink
    requires base { base % 32 ≡ 0 }
    requires link { IsQtdAligned link }
    ensures place { result ≡ lowered_qtd base link }
    ensures aligned { IsQtdAligned result }
{
    match link {
        QtdLink::End => QtdLink::End,
        QtdLink::To(at) => QtdLink::To(lowered(base, at)),
    }
}

/// Where a link word leads, by its place.
pub fn link_from(base: u32, word: u32) -> Link
    requires { base % 32 ≡ 0 }
    ensures meaning { result ≡ link_from base word }
    ensures aligned { IsLinkAligned result }
{
    lowered_link(base, read(word))
}

/// Where a link word of a queue leads, by its place.
pub fn qtd_from(base: u32, word: u32) -> QtdLink
    requires { base % 32 ≡ 0 }
    ensures meaning { result ≡ qtd_from base word }
    ensures aligned { IsQtdAligned result }
{
    lowered_qtd(base, read_qtd(word))
}
