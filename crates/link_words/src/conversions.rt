ghost use Rattle.std.specs.Prelude.{◌≡◌, ◌%◌};
ghost use Rattle.link_words.specs.Links.{link_of, link_fields, qtd_link_of, qtd_link_fields, no_link, no_qtd, address_of, is_end, IsAligned};

use crate::fields::{LinkBits, ShortLink};
use crate::kinds::{Link, QtdLink};

/// Where the fields lead: T=1 is the end of the list, whatever else they say.
impl From<LinkBits> for Link {
    ghost from_gives = { λ fields link. link ≡ link_of fields };

    fn from(fields: LinkBits) -> Link {
        if fields.t {
            return Link::End;
        }
        match fields.typ {
            0 => Link::Itd(fields.address),
            1 => Link::Qh(fields.address),
            2 => Link::Sitd(fields.address),
            _ => Link::Fstn(fields.address),
        }
    }
}

/// The fields that lead there. Those of the end are T=1 and else 0.
impl From<Link> for LinkBits {
    ghost from_gives = { λ link fields. fields ≡ link_fields link };

    fn from(link: Link) -> LinkBits {
        match link {
            Link::End => LinkBits::end(),
            Link::Itd(address) => LinkBits {
                t: false,
                typ: 0,
                address,
            },
            Link::Qh(address) => LinkBits {
                t: false,
                typ: 1,
                address,
            },
            Link::Sitd(address) => LinkBits {
                t: false,
                typ: 2,
                address,
            },
            Link::Fstn(address) => LinkBits {
                t: false,
                typ: 3,
                address,
            },
        }
    }
}

/// Where the fields lead: T=1 is the end of the queue, whatever else they say.
impl From<ShortLink> for QtdLink {
    ghost from_gives = { λ fields link. link ≡ qtd_link_of fields };

    fn from(fields: ShortLink) -> QtdLink {
        if fields.t {
            return QtdLink::End;
        }
        QtdLink::To(fields.address)
    }
}

/// The fields that lead there. Those of the end are T=1 and else 0.
impl From<QtdLink> for ShortLink {
    ghost from_gives = { λ link fields. fields ≡ qtd_link_fields link };

    fn from(link: QtdLink) -> ShortLink {
        match link {
            QtdLink::End => ShortLink::end(),
            QtdLink::To(address) => ShortLink { t: false, address },
        }
    }
}

impl Link {
    /// The byte address that the link names; the end of a list names none, which is told as 0.
    #[inline]
    pub fn address(self) -> u32
        ensures address { result ≡ address_of self }
        ensures aligned { IsAligned self → result % 32 ≡ 0 }
    {
        match self {
            Link::End => 0,
            Link::Itd(at) | Link::Qh(at) | Link::Sitd(at) | Link::Fstn(at) => at,
        }
    }

    /// Whether the link ends its list.
    #[inline]
    pub fn is_end(self) -> bool
        ensures { result ≡ is_end self }
    {
        match self {
            Link::End => true,
            Link::Itd(_) | Link::Qh(_) | Link::Sitd(_) | Link::Fstn(_) => false,
        }
    }
}

impl LinkBits {
    /// The fields of a link that leads nowhere: T=1, and else 0.
    #[inline]
    pub fn end() -> LinkBits
        ensures { result ≡ no_link }
    {
        LinkBits {
            t: true,
            typ: 0,
            address: 0,
        }
    }
}

impl ShortLink {
    /// The fields of a link of a queue that leads nowhere: T=1, and else 0.
    #[inline]
    pub fn end() -> ShortLink
        ensures { result ≡ no_qtd }
    {
        ShortLink {
            t: true,
            address: 0,
        }
    }
}
