ghost use Rattle.std.specs.Prelude.{◌≡◌, ℕ, ◌+◌, ◌*◌, ◌%◌, ◌<◌, length, IfOk};
ghost use Rattle.usb_base.specs.Limits.{most_memory};
ghost use Rattle.image_show.specs.ImageAt.{IsAlignedAt};
ghost use Rattle.image_show.specs.Base.{lowered};
ghost use Rattle.app_probe.specs.Window.{from_base, lent_from, IsWindow};

use hc_memory::HcMemory;
use image_show::ImageAt;
use std::alloc::Global;
use usb_base::Memory;
use word_mem::WordMem;

/// The words of an image, all of them lent to the controller by their byte addresses.
#[derive(Drop)]
pub struct Window {
    mem: WordMem,
    base: u32,
    ghost based: { base % 32 ≡ 0 },
    ghost ends: { base + 4 * length mem.words < 4294963201 },
}

impl Window {
    /// The place of a byte address, from the first word's on; what lies below that has a place past the last word.
    fn place(&self, at: u32) -> u32
        ensures place { result ≡ lowered self.now.base at }
        ensures window { IsWindow self.now.base self.now.mem at }
        ensures aligned { at % 4 ≡ 0 → result % 4 ≡ 0 }
        ensures block { result % 32 ≡ at % 32 }
    {
        let _words = self.mem.words();
        ((at as u64 + (0x1_0000_0000 - self.base as u64)) % 0x1_0000_0000) as u32
    }

    /// A copy of these words.
    pub fn of(alloc: Global, image: &ImageAt) -> Result<Window, Memory>
        requires { IsAlignedAt image.now }
        ensures base { IfOk result (λ w. w.base ≡ image.now.base) }
        ensures mem { IfOk result (λ w. from_base w.base w.mem ≡ lent_from image.now.base image.now.words) }
    {
        let mem = WordMem::from_words(alloc, image.words.as_slice())?;
        Ok(Window {
            mem,
            base: image.base,
        })
    }

    /// How many reads and writes were refused.
    pub fn foreign(&self) -> u64
        ensures { result ≡ self.now.mem.foreign }
    {
        self.mem.foreign()
    }
}

impl HcMemory for Window {
    ghost mem = { λ w. from_base w.base w.mem };

    fn hc_read(&mut self, at: u32) -> Option<u32> {
        let place = self.place(at);
        self.mem.hc_read(place)
    }

    fn hc_write(&mut self, at: u32, v: u32) -> bool {
        let place = self.place(at);
        self.mem.hc_write(place, v)
    }

    fn hc_read_words(&mut self, at: u32, into: &mut [u32]) -> bool {
        let place = self.place(at);
        self.mem.hc_read_words(place, into)
    }

    fn hc_write_words(&mut self, at: u32, words: &[u32]) -> bool {
        let place = self.place(at);
        self.mem.hc_write_words(place, words)
    }

    fn ends(&self) {
        let _words = self.mem.words();
    }
}
