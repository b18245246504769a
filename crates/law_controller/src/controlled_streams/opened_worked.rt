//! Worked rows.
ghost use Rattle.std.specs.Prelude.{◌≡◌, ℕ, true, false, [], ◌∷◌, Some, List};
ghost use Rattle.law_ring.specs.Told.{endpoint_of};
ghost use Rattle.law_structures.specs.lent_structures.StructureSamples.{queue};
ghost use Rattle.law_controller.specs.controlled_streams.Unopened.{IsUntouched};
ghost use Rattle.law_controller.specs.controlled_streams.Opened.{with_stream, with_end, with_none};

/// An endpoint with two packets, of which none was sent, and a queue head at 64 beside one at 32.
pub fn opened_rows()
    ensures untouched { IsUntouched ((7 ∷ []) ∷ (9 ∷ []) ∷ []) (Some (record { left = (7 ∷ []) ∷ (9 ∷ []) ∷ []; sends = false })) }
    ensures new { with_stream (λ k. false) 64 64 ≡ true }
    ensures beside { with_stream (λ k. false) 64 32 ≡ false }
    ensures end { (with_end (λ k. endpoint_of queue) 64 (record (endpoint_of queue) { addr = 9 }) 64).addr ≡ 9 }
    ensures none { with_none {A = ℕ} (λ k. 1 ∷ []) 64 64 ≡ [] }
    ensures others { with_none {A = ℕ} (λ k. 1 ∷ []) 64 32 ≡ 1 ∷ [] }
{}
