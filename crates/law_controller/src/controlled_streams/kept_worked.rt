//! Worked rows.
ghost use Rattle.std.specs.Prelude.{◌≡◌, true, false};
ghost use Rattle.qh_qtd.specs.declared.qtd.Qtd.{Qtd};
ghost use Rattle.qh_qtd.specs.declared.queue_head.Qh.{Qh};
ghost use Rattle.law_structures.specs.lent_structures.Structures.{Element, put};
ghost use Rattle.law_structures.specs.lent_structures.StructureSamples.{queue, element, token, parts};
ghost use Rattle.law_controller.specs.controlled_streams.Kept.{bare, KeepsEach};

/// A queue head whose overlay has ended keeps its other fields; another address is another one.
pub fn bare_rows()
    ensures ended { bare (record queue { token = record token { active = false }; offset = 102 }) ≡ bare queue }
    ensures other { (bare (record queue { addr = 6 })).addr ≡ 6 }
{}

/// Where its qTD ends, all is kept.
pub fn a_qtd_ends()
    ensures { KeepsEach parts (put parts 0 64 (Element (record element { token = record token { active = false } }))) }
{}
