//! A script as far as it is read.
ghost use Rattle.std.specs.Prelude.{◌≡◌, ℕ, ◌<◌, ◌++◌, ◌∷◌, IfOk, [], length, map};
ghost use Rattle.script_world.specs.Draft.{empty, device_text, script_of};

use crate::bytes::push;
use crate::devices::DeviceDraft;
use script_types::{DeviceText, FateText, HubText, Line, Script};
use std::alloc::Global;
use std::marker::Model;
use usb_base::{EpName, ListOf, Memory};

/// A script as far as it is read: what is declared, the actions so far, and what counts toward the limits.
#[derive(Drop)]
pub struct Draft {
    pub(crate) version: u8,
    pub(crate) words: Option<u32>,
    pub(crate) declaring: bool,
    pub(crate) acting: bool,
    pub(crate) hubs: Vec<HubText>,
    pub(crate) devices: Vec<DeviceDraft>,
    pub(crate) endpoints: Vec<EpName>,
    pub(crate) stuffed: Vec<EpName>,
    pub(crate) fates: Vec<FateText>,
    pub(crate) holds: Vec<(u32, u32)>,
    pub(crate) lines: Vec<(u32, Line)>,
    pub(crate) commands: u32,
    pub(crate) steps: u32,
    pub(crate) microframes: u32,
    pub(crate) scripted: u32,
    pub(crate) asked: u32,
}

impl Model for Draft {
    ghost use Rattle.script_world.specs.Draft.{Draft as Drafted};

    ghost Value = { Drafted };

    ghost view = { λ w. record {
      version = w.version;
      words = w.words;
      declaring = w.declaring;
      acting = w.acting;
      hubs = w.hubs.items;
      devices = w.devices.items;
      endpoints = w.endpoints.items;
      stuffed = w.stuffed.items;
      fates = w.fates.items;
      holds = w.holds.items;
      lines = w.lines.items;
      commands = w.commands;
      steps = w.steps;
      microframes = w.microframes;
      scripted = w.scripted;
      asked = w.asked;
    } };
}

impl Draft {
    /// A script of which nothing is read yet.
    pub fn new(alloc: Global) -> Draft
        ensures { result ≡ empty }
    {
        Draft {
            version: 1,
            words: None,
            declaring: false,
            acting: false,
            hubs: Vec::new(alloc),
            devices: Vec::new(alloc),
            endpoints: Vec::new(alloc),
            stuffed: Vec::new(alloc),
            fates: Vec::new(alloc),
            holds: Vec::new(alloc),
            lines: Vec::new(alloc),
            commands: 0,
            steps: 0,
            microframes: 0,
            scripted: 0,
            asked: 0,
        }
    }

    /// The version of the language.
    pub fn version(&self) -> u8
        ensures { result ≡ self.now.version }
    {
        self.version
    }

    /// The text is of this version of the language.
    pub fn set_version(&mut self, version: u8)
        ensures { self.new ≡ record self.old { version = version } }
    {
        self.version = version;
    }

    /// The script that was read. An error is want of memory alone.
    pub fn into_script(self, alloc: Global) -> Result<Script, Memory>
        ensures { IfOk result (λ script. script ≡ script_of self) }
    {
        let mut devices: Vec<DeviceText> = Vec::with_capacity(alloc, self.devices.len())?;
        for device in self.devices {
            let text = device.into_text(alloc)?;
            push(&mut devices, text)?;
        }
        Ok(Script {
            words: self.words.unwrap_or(65_536),
            hubs: ListOf::of(self.hubs),
            devices: ListOf::of(devices),
            endpoints: ListOf::of(self.endpoints),
            fates: ListOf::of(self.fates),
            holds: ListOf::of(self.holds),
            lines: ListOf::of(self.lines),
            version: self.version,
            frames: 1024,
            park: 0,
            roots: ListOf::of(Vec::new(alloc)),
            classics: ListOf::of(Vec::new(alloc)),
            disks: ListOf::of(Vec::new(alloc)),
        })
    }
}
