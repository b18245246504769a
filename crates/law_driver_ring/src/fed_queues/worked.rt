//! Worked rows of the definitions, which the check computes.
ghost use Rattle.std.specs.Prelude.{◌≡◌};
ghost use Rattle.link_words.specs.Links.{no_qtd};
ghost use Rattle.drv_table.specs.declared.content.Sort.TheVariants as sorts;
ghost use Rattle.law_structures.specs.lent_structures.Sound.{buffer_name};
ghost use Rattle.law_driver_ring.specs.fed_queues.Fed.{IsNotedQtd, IsPieceFed, sized};
ghost use Rattle.law_driver_ring.specs.fed_queues.Worked.{noted, written, sent, setup_noted, setup_part};

/// A qTD as it is written is the one that was noted; its buffer begins in the first of its runs.
pub fn written_as_noted()
    ensures noted { IsNotedQtd sorts.Get written noted 143 }
    ensures buffer { buffer_name written ≡ 8352 }
{}

/// So is one of a put, after which a short packet leads nowhere.
pub fn sent_as_noted()
    ensures noted { IsNotedQtd sorts.Put sent noted 143 }
    ensures alternate { sent.alternate ≡ no_qtd }
    ensures buffer { buffer_name sent ≡ 8352 }
{}

/// The first qTD of a request sends the eight bytes of its SETUP, of which its note tells none.
pub fn a_setup_is_fed()
    ensures told { setup_noted.told ≡ 0 }
    ensures fed { IsPieceFed sorts.Request setup_part (sized sorts.Request 0 setup_noted) 141 143 }
{}
