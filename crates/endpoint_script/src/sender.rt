ghost use Rattle.std.specs.Prelude.{◌≡◌, IfOk, IsTrue};
ghost use Rattle.std.specs.List.{list_all};
ghost use Rattle.endpoint_script.specs.Items.{is_short};
ghost use Rattle.endpoint_script.specs.Sending.{sending_at, sending_reply, sending_answered, sending_acked};
ghost use Rattle.endpoint_script.specs.Resets.{sending_reset};

use crate::item_list::ItemList;
use dev_control::data_pid;
use script_types::Item;
use std::alloc::{AllocError, Global};
use std::marker::Model;
use usb_base::{Packet, Pid, Reply};

/// A bulk or interrupt IN endpoint, which contracts see as a `Sending`.
#[derive(Drop)]
pub struct Sender {
    items: ItemList,
    toggle: bool,
}

impl Model for Sender {
    ghost use Rattle.endpoint_script.specs.Sending.{Sending};

    ghost Value = { Sending };

    ghost view = { λ s. record { items = s.items; toggle = s.toggle } };
}

impl Sender {
    /// The endpoint before its first IN. None of its packets has more than 1,024 bytes.
    pub fn open(alloc: Global, items: &[Item]) -> Result<Sender, AllocError>
        requires { IsTrue (list_all is_short items.now) }
        ensures { IfOk result (λ s. s ≡ sending_at items.now) }
    {
        Ok(Sender {
            items: ItemList::copy_of(alloc, items)?,
            toggle: false,
        })
    }

    /// Answers an IN.
    pub fn answer(&mut self) -> Reply
        ensures reply { result ≡ sending_reply self.old }
        ensures after { self.new ≡ sending_answered self.old }
    {
        match self.items.first() {
            Some(Item::Bytes(bytes)) => Reply::Bytes(
                data_pid(self.toggle),
                Packet::copy_of(bytes.as_slice()),
            ),
            Some(Item::Nak(_)) => self.refuse(),
            Some(Item::Stall) => Reply::Hand(Pid::Stall),
            _ => Reply::Hand(Pid::Nak),
        }
    }

    /// The host's ACK of the data just sent was heard.
    pub fn acked(&mut self)
        ensures { self.new ≡ sending_acked self.old }
    {
        if let Some(Item::Bytes(_)) = self.items.first() {
            self.items.advance();
            self.toggle = !self.toggle;
        }
    }

    /// The endpoint is reset.
    pub fn reset(&mut self)
        ensures { self.new ≡ sending_reset self.old }
    {
        self.items.begin_epoch();
        self.toggle = false;
    }

    fn refuse(&mut self) -> Reply
        ensures reply { result ≡ Reply.Hand Pid.Nak }
        ensures after { self.new ≡ sending_answered self.old }
    {
        self.items.give_nak();
        Reply::Hand(Pid::Nak)
    }
}
