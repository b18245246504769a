//! Worked rows: a qTD of one stage, in block 200, whose buffer begins in block 300.
ghost use Rattle.std.specs.Prelude.{◌≡◌, true, [], ◌∷◌};
ghost use Rattle.qh_qtd.specs.declared.qtd.Qtd.{Qtd};
ghost use Rattle.drv_table.specs.Words.{dummy_qtd, new_qtd, in_stage};
ghost use Rattle.law_driver_ring.specs.Published.{partly};

/// Once seven stores were made all but the token is there; the eighth makes it active.
pub fn published_rows()
    ensures first { partly (new_qtd (in_stage 512) 201 202 (300 ∷ []) true) 0 ≡ dummy_qtd }
    ensures seventh { (partly (new_qtd (in_stage 512) 201 202 (300 ∷ []) true) 7).token ≡ dummy_qtd.token }
    ensures eighth { partly (new_qtd (in_stage 512) 201 202 (300 ∷ []) true) 8 ≡ new_qtd (in_stage 512) 201 202 (300 ∷ []) true }
{}
