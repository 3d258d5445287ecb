//! Bursts that push their results to a vector with enough room.
ghost use Rattle.std.specs.Prelude.{◌≡◌, ◌+◌, ◌-◌, ◌≤◌, drop, length, map, vec_capacity, vec_len};
ghost use Rattle.pie_event.specs.declared.command.Command.TheVariants.{Depart};
ghost use Rattle.pie_link.specs.Entries.{always, arrive, departures, has_left};

use crate::burst::{Burst, Replies, Reply};
use crate::entry::Arrival;
use pie_book::{Answer, Command};

/// A burst of arrivals. Each packet is decided.
#[derive(Drop)]
pub struct Arrivals<'a> {
    /// The packets.
    pub arrivals: &'a [Arrival],
    /// The vector for the results.
    pub replies: Replies,
}

/// A burst of departures at one moment. It ends early if no packet departs.
#[derive(Drop)]
pub struct Departures {
    /// The moment in nanoseconds, at most `2^60 - 1`.
    pub moment: u64,
    /// The greatest number of departures.
    pub most: usize,
    /// The vector for the results.
    pub replies: Replies,
}

impl Burst for Arrivals<'_> {
    ghost commands = { λ b place. map arrive (drop place b.arrivals.now) };

    ghost continues = { λ b. always };

    ghost received = { λ first b replies. b.replies.items ≡ replies };

    ghost room = { λ b. vec_capacity b.replies };

    ghost has_room = { λ b place. vec_len b.replies + length b.arrivals.now ≤ vec_capacity b.replies + place };

    #[inline(always)]
    fn count(&self) -> usize {
        self.arrivals.len()
    }

    #[inline(always)]
    fn command(&self, place: usize) -> Command {
        self.arrivals[place].command()
    }

    #[inline(always)]
    fn take(&mut self, place: usize, reply: Reply) -> bool {
        let _ = place;
        self.replies.push_reserved(reply);
        true
    }
}

impl Burst for Departures {
    ghost commands = { λ b place. departures (b.most - place) b.moment };

    ghost continues = { λ b. has_left };

    ghost received = { λ first b replies. b.replies.items ≡ replies };

    ghost room = { λ b. vec_capacity b.replies };

    ghost has_room = { λ b place. vec_len b.replies + b.most ≤ vec_capacity b.replies + place };

    #[inline(always)]
    fn count(&self) -> usize {
        self.most
    }

    #[inline(always)]
    fn command(&self, place: usize) -> Command {
        let _ = place;
        Command::Depart {
            moment: self.moment,
        }
    }

    #[inline(always)]
    fn take(&mut self, place: usize, reply: Reply) -> bool {
        let _ = place;
        let continues = has_left(&reply);
        self.replies.push_reserved(reply);
        continues
    }
}

// Returns true if a packet departed.
fn has_left(reply: &Reply) -> bool
    ensures { result ≡ has_left reply.now }
{
    match reply {
        Ok(reply) => matches!(reply.answer, Answer::Left(_)),
        Err(_) => false,
    }
}
