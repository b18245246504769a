ghost use Rattle.std.specs.Prelude.{◌≡◌, ◌≤◌, length, IfOk};
ghost use Rattle.multi_tt.specs.Translators.{opening};
ghost use Rattle.multi_tt.specs.Single.{is_buffered as is_buffered_kind, started, start_answer, completed, complete_answer, cleared, TranslatorWorks};

use hub_keys::Key;
use std::alloc::Global;
use std::marker::Model;
use tt_bulk::Buffers;
use tt_pipeline::Pipeline;
use usb_base::limits::BYTE_TIMES_OF_MICROFRAME;
use usb_base::{Ask, EpKind, Memory, Reply, Wire};

/// One translator. A contract sees its two buffers and its pipeline.
#[derive(Drop)]
pub struct Translator {
    bulk: Buffers,
    pipeline: Pipeline,
}

impl Model for Translator {
    ghost use Rattle.multi_tt.specs.Translators.{Translator as Content};

    ghost Value = { Content };

    ghost view = { λ t. record { bulk = t.bulk; pipeline = t.pipeline } };
}

/// Whether transactions of this kind go into the buffers, and not into the pipeline.
fn is_buffered(kind: EpKind) -> bool
    ensures { result ≡ is_buffered_kind kind }
{
    match kind {
        EpKind::Bulk | EpKind::Control => true,
        EpKind::Interrupt | EpKind::Iso => false,
    }
}

impl Translator {
    /// One with free buffers and an empty pipeline.
    pub fn build(alloc: Global) -> Result<Translator, Memory>
        ensures { IfOk result (λ t. t ≡ opening) }
    {
        let bulk = Buffers::build(alloc)?;
        let pipeline = Pipeline::build(alloc)?;
        Ok(Translator { bulk, pipeline })
    }

    /// Takes a start-split with its bytes, which stuffed bits make longer by `stuff` in 36, and answers it; one of an
    /// interrupt or isochronous endpoint is answered by silence (USB 2.0, 11.17 to 11.21).
    pub fn start(&mut self, ask: &Ask, bytes: &[u8], stuff: u8) -> Reply
        requires { length bytes.now ≤ 1024 }
        ensures answer { result ≡ start_answer ask.now self.old }
        ensures after { self.new ≡ started ask.now bytes.now stuff self.old }
    {
        if is_buffered(ask.kind) {
            return self.bulk.start(ask, bytes, stuff);
        }
        self.pipeline.start(ask, bytes, stuff);
        Reply::Silent
    }

    /// Answers a complete-split.
    pub fn complete(&mut self, ask: &Ask) -> Reply
        ensures answer { result ≡ complete_answer ask.now self.old }
        ensures after { self.new ≡ completed ask.now self.old }
    {
        let key = Key::of(ask);
        if is_buffered(ask.kind) {
            return self.bulk.complete(&key);
        }
        self.pipeline.complete(&key)
    }

    /// Works on the bus below for the microframe that ended, at the begin of the one with this frame index (0 to 16,383): the
    /// pipeline first, then the buffers with the byte-times that are left of 188 (USB 2.0, 11.18).
    pub fn microframe<W: Wire>(&mut self, frindex: u16, down: &mut W)
        ensures { TranslatorWorks W.transacts frindex self.old down.old self.new down.new }
    {
        let used = self.pipeline.microframe(frindex, down);
        self.bulk.work(down, BYTE_TIMES_OF_MICROFRAME as u32 - used);
    }

    /// Frees the key's buffer; of a control endpoint those of both directions (USB 2.0, 11.24.2.3).
    pub fn clear(&mut self, key: &Key)
        ensures { self.new ≡ cleared key.now self.old }
    {
        self.bulk.clear(key);
    }

    /// Frees both buffers, and empties the pipeline (USB 2.0, 11.24.2.9).
    pub fn reset(&mut self)
        ensures { self.new ≡ opening }
    {
        self.bulk.clear_all();
        self.pipeline.clear();
    }
}
