//! The updates of the flows of each queue.
ghost use Rattle.std.specs.Prelude.{◌≡◌, IfOk, option_map};
ghost use Rattle.pie_linux_history.specs.Decided.{plain};

use crate::decided::{DecidedStep, Updates};
use crate::queues::Queues;
use crate::step::{Kind, QueueName};
use std::alloc::{AllocError, Global};

/// No updates.
pub(crate) const NONE: Updates = Updates {
    count: 0,
    event: 0,
    moment: 0,
    opening: 0,
};

/// The updates of a queue's flows.
#[derive(Drop)]
struct QueueUpdates {
    queue: QueueName,
    /// Those of a flow without an update.
    none: Updates,
    flows: Vec<Updates>,
}

impl QueueUpdates {
    /// Forgets all updates. `opening` is the moment of the queue's first row that has one, and `moment` the effective moment.
    fn begin(&mut self, opening: u64, moment: u64) {
        self.flows.clear();
        self.none = Updates {
            count: 0,
            event: 0,
            moment,
            opening,
        };
    }

    /// Returns the updates of a flow.
    fn at(&self, place: u32) -> Updates {
        match self.flows.get(place as usize) {
            Some(updates) => *updates,
            None => self.none,
        }
    }

    /// Counts an update of a flow by this event at this effective moment.
    fn count(&mut self, place: u32, event: u64, moment: u64) -> Result<(), AllocError> {
        for _ in self.flows.len()..=place as usize {
            self.flows.push(self.none)?;
        }
        if let Some(updates) = self.flows.get_mut(place as usize) {
            updates.count = updates.count.saturating_add(1);
            updates.event = event;
            updates.moment = moment;
        }
        Ok(())
    }
}

/// The updates of the queues of a text.
#[derive(Drop)]
pub(crate) struct QueuesUpdates {
    alloc: Global,
    all: Vec<QueueUpdates>,
}

impl QueuesUpdates {
    /// Returns no updates.
    pub(crate) fn new(alloc: Global) -> QueuesUpdates {
        QueuesUpdates {
            alloc,
            all: Vec::new(alloc),
        }
    }

    /// Returns the place of a queue's updates.
    fn place_of(&mut self, queue: QueueName) -> Result<usize, AllocError> {
        let known = self.all.iter().position(|one| one.queue.equals(&queue));
        if let Some(place) = known {
            return Ok(place);
        }
        self.all.push(QueueUpdates {
            queue,
            none: NONE,
            flows: Vec::new(self.alloc),
        })?;
        Ok(self.all.len().saturating_sub(1))
    }

    /// Returns the updates of the flow of a decided step, the last row of `queues`. Counts an update, and forgets those of an
    /// earlier queue of this name.
    fn before(
        &mut self,
        queues: &Queues,
        decided: Option<DecidedStep>,
    ) -> Result<Updates, AllocError> {
        let Some((queue, step)) = queues.last else {
            return Ok(NONE);
        };
        let place = self.place_of(queue)?;
        let Some(updates) = self.all.get_mut(place) else {
            return Ok(NONE);
        };
        if step.kind.is_opening() {
            updates.begin(0, 0);
        }
        if updates.none.opening == 0 && step.moment > 0 {
            updates.begin(step.moment, queues.moment);
        }
        let Some(one) = decided else {
            return Ok(NONE);
        };
        let earlier = updates.at(one.before.place);
        if step.kind == Kind::Update {
            updates.count(one.before.place, one.event, one.moment)?;
        }
        Ok(earlier)
    }

    /// Takes the last row of `queues` into account. Returns its decided step with the updates of its flow before it.
    pub(crate) fn add(
        &mut self,
        queues: &Queues,
        decided: Option<DecidedStep>,
    ) -> Result<Option<DecidedStep>, AllocError>
        ensures { IfOk result (λ full. option_map plain full ≡ option_map plain decided) }
    {
        let updates = self.before(queues, decided)?;
        match decided {
            Some(one) => Ok(Some(DecidedStep { updates, ..one })),
            None => Ok(None),
        }
    }
}
