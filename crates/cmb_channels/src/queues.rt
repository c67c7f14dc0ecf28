mod building;
mod filling;

use crate::fabric::Fabric;
use crate::fed_pins::fed_pins;
use crate::message::Message;
use building::empty_queues;
use design::Design;
use filling::{push_at_all, reserve_places};
use flat_lists::FlatLists;
use std::alloc::{AllocError, Global};
use std::collections::VecDeque;
use std::marker::Model;

/// Channels with a queue of waiting messages for each pin.
///
/// Sending takes time in proportion to the pins that the net feeds; taking and counting take constant
/// time. A message needs memory at each pin where it waits.
#[derive(Debug, Drop)]
pub struct Queues {
    // The pins that each net feeds.
    fed: FlatLists<u32>,
    // The messages that wait at each pin.
    queues: Vec<VecDeque<Message>>,
}

impl Model for Queues {
    ghost use Rattle.std.specs.Prelude.{length};
    ghost use Rattle.cmb_channels.specs.Channels.{Channels, AreFed, sources_in};
    ghost use Rattle.cmb_channels.specs.Waiting.{lists_in};

    ghost Value = { Channels };

    ghost view = { λ q. record {
      lists = lists_in q.queues.items;
      sources = sources_in q.fed (length q.queues.items);
      nets = length q.fed;
    } };

    ghost invariant = { λ q. AreFed q.fed (length q.queues.items) };
}

impl Fabric for Queues {
    ghost use Rattle.cmb_channels.specs.Channels.{Channels};

    ghost lists = { λ q. q.lists };

    ghost sources = { λ q. q.sources };

    ghost nets = { λ q. q.nets };

    fn empty_for(alloc: Global, design: &Design) -> Result<Self, AllocError> {
        Ok(Queues {
            fed: fed_pins(alloc, design)?,
            queues: empty_queues(alloc, design.pins())?,
        })
    }

    fn send(&mut self, net: u32, message: Message) -> Result<(), AllocError> {
        let pins = self.fed.list(net as usize);
        reserve_places(&mut self.queues, pins)?;
        push_at_all(&mut self.queues, pins, message);
        Ok(())
    }

    fn take(&mut self, pin: u32) -> Option<Message> {
        self.queues[pin as usize].pop_front()
    }

    fn waiting(&self, pin: u32) -> u64 {
        self.queues[pin as usize].len() as u64
    }
}
