/// What becomes of a start-split.
#[derive(Clone, Copy, Debug, PartialEq, Eq)]
pub enum StartRow {
    /// It makes an entry, at the end of the order of arrival; an entry of its key goes.
    Enters,
    /// It is a later part of an isochronous OUT, and joins the entry of its key.
    Joins,
    /// It is forgotten.
    Forgotten,
}

/// What a complete-split gets from the entry of its key.
#[derive(Clone, Copy, Debug, PartialEq, Eq)]
pub enum AnswerRow {
    /// NYET: nothing is there, or nothing new.
    NotYet,
    /// The answer of the interrupt transaction.
    Result,
    /// ERR: the isochronous device was silent.
    Unheard,
    /// MDATA with new bytes of an isochronous IN, and more are to come.
    More,
    /// DATA0 with the last bytes of an isochronous IN, which may be none.
    Last,
}
