//! Pipe agreement: over a bus that loses packets the two toggles keep the receiver's packets the first ones of the
//! sender's, each once and in order (USB 2.0, 8.6).
//!
//! The crate has no code of its own: each function is a law over the definitions of `specs/`, and its body is empty.
#![tactic(auto)]

ghost use Rattle.std.specs.Prelude.{◌≡◌, ℕ, List, [], ◌∷◌, true, false};
ghost use Rattle.std.specs.List.{concat};
ghost use Rattle.claims_base.specs.Prefix.{IsPrefix};
ghost use Rattle.law_pipe.specs.Pipe.{Pipe, Hearing, Unheard, Heard, PipeAgrees, opening, after_all};
ghost use Rattle.law_pipe.specs.Samples.{first, second, packets};

/// Whatever is lost, the two sides of a pipe agree after each list of transactions.
pub fn pipe_agrees()
    ensures { (packets : List (List ℕ)) → (hearings : List Hearing) → PipeAgrees packets (after_all packets opening hearings) }
{}

/// Whatever is lost, the bytes that the receiver accepted begin the stream.
pub fn accepted_bytes_begin_the_stream()
    ensures { (packets : List (List ℕ)) → (hearings : List Hearing) → IsPrefix (concat (after_all packets opening hearings).accepted) (concat packets) }
{}

/// The law at work: a lost acknowledgement repeats a packet, which the receiver drops.
pub fn a_lost_acknowledgement()
    ensures once { (after_all packets opening (Heard false ∷ [])).accepted ≡ first ∷ [] }
    ensures again { (after_all packets opening (Heard false ∷ Unheard ∷ Heard true ∷ [])).accepted ≡ first ∷ [] }
    ensures then { (after_all packets opening (Heard false ∷ Unheard ∷ Heard true ∷ Heard true ∷ [])).accepted ≡ first ∷ second ∷ [] }
    ensures end { (after_all packets opening (Heard true ∷ Heard true ∷ Heard true ∷ [])).accepted ≡ first ∷ second ∷ [] }
{}
