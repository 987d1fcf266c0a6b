//! The posts of `solo`: messages that one incarnation posts to itself.
ghost use Rattle.std.specs.Prelude.{◌≡◌, ◌-◌, ◌<◌, [], ◌∷◌, ◌++◌, slice_get, IfOk, OnOk, OnErr};

use std::alloc::{AllocError, Global};
use std::marker::{Model, PhantomData};
use yard_model::{Command, EntityName, Message};

/// Numbered commands; seen as the list of these messages, in the order of posting.
#[derive(Drop)]
pub struct Posts {
    messages: Vec<Message>,
    holds: PhantomData<(Command, EntityName)>,
}

impl Model for Posts {
    ghost use Rattle.std.specs.Prelude.{List};
    ghost use Rattle.yard_model.specs.declared.packet.Message.{Message};

    ghost Value = { List Message };

    ghost view = { λ p. p.messages.items };
}

impl Posts {
    /// Nothing was posted; there is room for so many messages. The only error is want of memory.
    pub fn with_room(alloc: Global, room: usize) -> Result<Posts, AllocError>
        ensures { IfOk result (λ posts. posts ≡ []) }
    {
        Ok(Posts {
            messages: Vec::with_capacity(alloc, room)?,
            holds: PhantomData,
        })
    }

    /// Posts a message. The only error is want of memory.
    pub fn post(&mut self, message: &Message) -> Result<(), AllocError>
        ensures ok { OnOk result (self.new ≡ self.old ++ message.now ∷ []) }
        ensures err { OnErr result (self.new ≡ self.old) }
    {
        self.messages.push(*message)?;
        Ok(())
    }

    /// The message of this number, from 1; None where no such number was posted.
    pub fn at(&self, number: u32) -> Option<Message>
        requires { 0 < number }
        ensures { result ≡ slice_get self.now (number - 1) }
    {
        self.messages.get(number as usize - 1).copied()
    }
}
