ghost use Rattle.std.specs.Prelude.{◌≡◌, ◌%◌};
ghost use Rattle.link_words.specs.Links.{link_read, link_word, IsAligned, IsLinkWord, qtd_link_read, qtd_link_word, IsQtdAligned, IsQtdLinkWord};

use crate::fields::{LinkBits, ShortLink};
use crate::kinds::{Link, QtdLink};

/// Where a link word leads (EHCI 1.0, 3.3.1). T=1 is the end of the list, whatever else the word holds.
#[tactic(auto, unfolding(crate::specs::Links::link_read, crate::specs::Links::link_word))]
pub fn read(w: u32) -> Link
    ensures meaning { result ≡ link_read w }
    ensures end { w % 2 ≡ 1 → result ≡ Link.End }
    ensures aligned { IsAligned result }

    // What was written is read.
    ensures back { (l : Link) → IsAligned l → w ≡ link_word l → result ≡ l }

    // What is read is written as it was, where something is written so.
    ensures whole { IsLinkWord w → link_word result ≡ w }
{
    Link::from(LinkBits::from_word(w))
}

/// The word of a link (EHCI 1.0, 3.3.1). The end of a list is the word 1.
#[tactic(auto, unfolding(crate::specs::Links::link_word))]
pub fn write(l: Link) -> u32
    requires { IsAligned l }
    ensures word { result ≡ link_word l }
    ensures end { l ≡ Link.End → result ≡ 1 }
{
    LinkBits::from(l).to_word()
}

/// Where a link word of a queue leads (EHCI 1.0, 3.5.1). T=1 is the end of the queue, whatever else the word holds.
#[tactic(auto, unfolding(crate::specs::Links::qtd_link_read, crate::specs::Links::qtd_link_word))]
pub fn read_qtd(w: u32) -> QtdLink
    ensures meaning { result ≡ qtd_link_read w }
    ensures end { w % 2 ≡ 1 → result ≡ QtdLink.End }
    ensures aligned { IsQtdAligned result }

    // What was written is read.
    ensures back { (l : QtdLink) → IsQtdAligned l → w ≡ qtd_link_word l → result ≡ l }

    // What is read is written as it was, where something is written so.
    ensures whole { IsQtdLinkWord w → qtd_link_word result ≡ w }
{
    QtdLink::from(ShortLink::from_word(w))
}

/// The word of a link of a queue (EHCI 1.0, 3.5.1). The end of a queue is the word 1.
#[tactic(auto, unfolding(crate::specs::Links::qtd_link_word))]
pub fn write_qtd(l: QtdLink) -> u32
    requires { IsQtdAligned l }
    ensures word { result ≡ qtd_link_word l }
    ensures end { l ≡ QtdLink.End → result ≡ 1 }
{
    ShortLink::from(l).to_word()
}
