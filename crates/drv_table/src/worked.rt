//! Worked rows of the definitions, which the check computes.
ghost use Rattle.std.specs.Prelude.{◌≡◌, [], ◌∷◌, true, false, None, Some};
ghost use Rattle.qh_qtd.specs.Qtd.{qtd_words};
ghost use Rattle.qh_qtd.specs.QueueHead.{qh_words};
ghost use Rattle.drv_table.specs.Words.{opening_head, dummy_qtd, queue_head, new_qtd, in_stage, cut, get_stages, request_stages, setup_stage, data_stage, status_stage, needs, buffer_needs};
ghost use Rattle.drv_table.specs.Harvests.{halt_of, moved_of, found_in};
ghost use Rattle.drv_table.specs.Commands.{events_of};
ghost use Rattle.drv_table.specs.Rows.{step_of};
ghost use Rattle.drv_table.specs.IsoOffers.{iso_needs, total_of};
ghost use Rattle.drv_table.specs.Opening.{opening_registers};

/// The words of the head, of a new bulk queue head, of a dummy, and of a qTD with a buffer of two pages.
#[tactic(auto, unfolding(qh_qtd::specs::Qtd::qtd_words, qh_qtd::specs::QueueHead::qh_words))]
pub fn words_written()
    ensures head { qh_words opening_head ≡ 0x1002 ∷ 0x40A000 ∷ 0x40000000 ∷ 0 ∷ 1 ∷ 1 ∷ 0x40 ∷ 0 ∷ 0 ∷ 0 ∷ 0 ∷ 0 ∷ [] }
    ensures dummy { qtd_words dummy_qtd ≡ 1 ∷ 1 ∷ 0 ∷ 0 ∷ 0 ∷ 0 ∷ 0 ∷ 0 ∷ [] }
    ensures published { qtd_words (new_qtd (in_stage 5000) 133 133 (256 ∷ 384 ∷ 0 ∷ 0 ∷ 0 ∷ []) true) ≡ 0x10A0 ∷ 0x10A0 ∷ 0x13888D80 ∷ 0x2000 ∷ 0x3000 ∷ 0 ∷ 0 ∷ 0 ∷ [] }
{}

/// How a transfer is cut: 1,024 bytes by 512, 515 by 512, none; and which runs it takes.
pub fn transfers_cut()
    ensures even { cut 1024 512 ≡ 512 ∷ 512 ∷ [] }
    ensures rest { cut 515 512 ≡ 512 ∷ 3 ∷ [] }
    ensures none { cut 0 20480 ≡ 0 ∷ [] }
    ensures small { buffer_needs 515 ≡ 17 ∷ [] }
    ensures page { buffer_needs 4096 ≡ 128 ∷ [] }
    ensures pages { buffer_needs 4097 ≡ 128 ∷ 128 ∷ [] }
    ensures empty { buffer_needs 0 ≡ [] }
    ensures runs { needs (get_stages 515 512) ≡ 1 ∷ 1 ∷ 16 ∷ 1 ∷ [] }
{}

/// The stages of GET_DESCRIPTOR for 18 bytes, and of SET_CONFIGURATION, which has no data (USB 2.0, 9.4).
pub fn requests_cut()
    ensures to_host { request_stages (0x80 ∷ 6 ∷ 0 ∷ 1 ∷ 0 ∷ 0 ∷ 18 ∷ 0 ∷ []) ≡ setup_stage ∷ data_stage true 18 ∷ status_stage false ∷ [] }
    ensures no_data { request_stages (0 ∷ 9 ∷ 1 ∷ 0 ∷ 0 ∷ 0 ∷ 0 ∷ 0 ∷ []) ≡ setup_stage ∷ status_stage true ∷ [] }
{}

/// A token that tells more bytes left than the buffer has counts none of it.
pub fn bytes_counted()
    ensures short { moved_of 512 100 ≡ 412 }
    ensures none { moved_of 512 512 ≡ 0 }
    ensures wild { moved_of 512 513 ≡ 0 }
{}

/// The runs of two iTDs of three slots with 1,003 bytes each, and of two siTDs of 400 bytes, which are sent in three microframes.
#[tactic(auto, unfolding(drv_periodic_table::specs::Descriptors::slots_before))]
pub fn descriptors_taken()
    ensures slots { iso_needs (record { split = false; smask = 0x49; cmask = 0; slot = 1003 }) 2 ≡ 2 ∷ 95 ∷ 2 ∷ 95 ∷ [] }
    ensures split { iso_needs (record { split = true; smask = 7; cmask = 0; slot = 400 }) 2 ≡ 1 ∷ 13 ∷ 1 ∷ 13 ∷ [] }
    ensures empty { iso_needs (record { split = true; smask = 7; cmask = 0; slot = 0 }) 1 ≡ 1 ∷ [] }
    ensures whole { total_of (record { split = true; smask = 7; cmask = 0; slot = 400 }) ≡ 400 }
{}
