//! The queues of a text by their names. The queue of a name is the one after its last row `init` or `resume`, unless
//! steps of it were lost later. After a step that differs no step of it is decided.
ghost use Rattle.std.specs.List.{flat_map};
ghost use Rattle.std.specs.Prelude.{◌≡◌, ◌++◌, [], map, ℕ, List, Option, Some, None, IfOk, OnOk, if◌then◌else◌};
ghost use Rattle.std.specs.Option.{MatchOption, option_map};
ghost use Rattle.std.specs.Str.{bytes_eq};
ghost use Rattle.pie_linux_history.specs.{Cuts.named_rows, Cuts.with_name, Cuts.without_name, Decided.decision_of, Decided.numbers_of, Decided.taken_by, Known.IsPlaceOf, Known.known_names, Known.looked_up, Known.named, Known.tracked, LookBack.begun, LookBack.decision_by, LookBack.dropped_by_step, LookBack.follow, LookBack.name_of, LookBack.next_of, Queue.opening_difference};

use crate::columns::{Columns, NUMBER, handle_of};
use crate::decided::{StepNumbers, Taken};
use crate::difference::Difference;
use crate::explained::{DecidedPacket, Decision};
use crate::queue::{Queue, opening_difference};
use crate::resume::QueueRows;
use crate::step::{QueueName, Step};
use pie_record::Page;
use std::alloc::{AllocError, Global};

/// A queue with its name, and the number of its last step.
#[derive(Drop)]
pub(crate) struct Known {
    pub(crate) name: QueueName,
    pub(crate) last: u64,
    pub(crate) queue: Queue,
    /// True if a step since the first row differs.
    pub(crate) differs: bool,
}

impl Known {
    /// Returns the numbers of the queue and of the flow of a step, if there is such a flow, and the queue does not differ.
    fn numbers_at(&self, step: &Step) -> Option<StepNumbers>
        ensures { result ≡ numbers_of (tracked self.now) step.now }
    {
        if self.differs {
            return None;
        }
        self.queue.numbers_at(step)
    }

    /// Decides a step again, if it is the next one of the queue, and no earlier one differs. Adds the packets that a change or a reset dropped to `lost`.
    fn take(&mut self, step: &Step, lost: &mut Vec<DecidedPacket>) -> Result<Decision, AllocError>
        ensures name { OnOk result (self.new.name ≡ self.old.name) }
        ensures follows { OnOk result (tracked self.new ≡ follow (tracked self.old) step.now) }
        ensures decided { IfOk result (λ decision. decision ≡ (next_of (tracked self.old) step.now).decision) }
        ensures lost { OnOk result (lost.new.items
            ≡ lost.old.items ++ dropped_by_step step.now (Some (tracked self.old))) }
    {
        if self.differs {
            return Ok(Decision::other(None));
        }
        let next = self.last.wrapping_add(u64::from(!step.kind.is_part()));
        if step.number != next {
            self.differs = true;
            return Ok(Decision::other(Some(Difference {
                column: NUMBER,
                recorded: step.number,
                right: next,
            })));
        }
        self.last = step.number;
        match self.queue.step(step, lost) {
            Ok(decision) => {
                self.differs = decision.difference.is_some();
                Ok(decision)
            }
            Err(why) => Err(why),
        }
    }
}

/// Adds the rows of a queue to a page, unless it has ended.
fn write_known(
    known: &Known,
    columns: &Columns,
    moment: u64,
    page: &mut Page,
) -> Result<(), AllocError>
    ensures { OnOk result (page.new ≡ page.old ++ named_rows columns.now moment (named known.now)) }
{
    if known.queue.has_ended {
        return Ok(());
    }
    let rows = QueueRows {
        columns,
        name: known.name.bytes(),
        number: known.last,
        moment,
    };
    rows.write(&known.queue, page)
}

/// The queues of a text.
#[derive(Drop)]
pub(crate) struct KnownQueues {
    pub(crate) all: Vec<Known>,
}

impl KnownQueues {
    /// Returns no queues.
    pub(crate) fn new(alloc: Global) -> KnownQueues
        ensures { result.all.items ≡ [] }
    {
        KnownQueues {
            all: Vec::new(alloc),
        }
    }

    /// Returns the place of the queue with this name.
    fn find(&self, name: &[u8]) -> Option<usize>
        ensures { MatchOption result (looked_up name.now self.now.all.items ≡ None) (λ place. IsPlaceOf name.now self.now.all.items place) }
    {
        for place in 0..self.all.len() {
            if self.all[place].name.is(name) {
                return Some(place);
            }
        }
        None
    }

    /// Decides a step of the queue with this name again. Returns `None` if there is none. Adds the packets that a change
    /// or a reset dropped to `lost`.
    pub(crate) fn take(
        &mut self,
        name: &[u8],
        step: &Step,
        lost: &mut Vec<DecidedPacket>,
    ) -> Result<Option<Taken>, AllocError>
        ensures taken { IfOk result (λ taken. taken ≡ taken_by step.now (looked_up name.now self.old.all.items)) }
        ensures lost { OnOk result (lost.new.items
            ≡ lost.old.items ++ dropped_by_step step.now (looked_up name.now self.old.all.items)) }
        ensures queues { OnOk result ((other : List ℕ) → looked_up other self.new.all.items
            ≡ (if bytes_eq name.now other
            then option_map (λ was. follow was step.now) (looked_up other self.old.all.items)
            else looked_up other self.old.all.items)) }
        ensures names { OnOk result (known_names self.new.all.items ≡ known_names self.old.all.items) }
    {
        let Some(place) = self.find(name) else {
            return Ok(None);
        };
        let Some(known) = self.all.get_mut(place) else {
            return Ok(None);
        };
        let before = known.numbers_at(step);
        match known.take(step, lost) {
            Ok(decision) => Ok(Some(Taken {
                decision,
                before,
                after: known.numbers_at(step),
            })),
            Err(why) => Err(why),
        }
    }

    /// Makes a queue from its first step, in the place of an earlier one with the same name. Returns the first number of the
    /// step that differs.
    pub(crate) fn open(
        &mut self,
        alloc: Global,
        name: QueueName,
        step: &Step,
    ) -> Result<Option<Difference>, AllocError>
        ensures difference { IfOk result (λ difference. difference ≡ opening_difference step.now) }
        ensures names { OnOk result (known_names self.new.all.items ≡ with_name (name_of name) (known_names self.old.all.items)) }
        ensures queues { OnOk result ((other : List ℕ) → looked_up other self.new.all.items
            ≡ (if bytes_eq (name_of name) other then Some (begun (name_of name) step.now) else looked_up other self.old.all.items)) }
    {
        let difference = opening_difference(step);
        let made = Known {
            name,
            last: step.number,
            queue: Queue::open(alloc, handle_of(name.bytes()), step)?,
            differs: difference.is_some(),
        };
        let Some(place) = self.find(name.bytes()) else {
            self.all.push(made)?;
            return Ok(difference);
        };
        let Some(known) = self.all.get_mut(place) else {
            return Ok(difference);
        };
        *known = made;
        Ok(difference)
    }

    /// Adds the rows of each queue that is alive to a page, in the order in which they began.
    pub(crate) fn write(
        &self,
        columns: &Columns,
        moment: u64,
        page: &mut Page,
    ) -> Result<(), AllocError>
        ensures { OnOk result (page.new ≡ page.old ++ flat_map (named_rows columns.now moment) (map named self.now.all.items)) }
    {
        for place in 0..self.all.len() {
            write_known(&self.all[place], columns, moment, page)?;
        }
        Ok(())
    }

    /// Forgets the queue with this name.
    pub(crate) fn lose(&mut self, name: &[u8])
        ensures names { known_names self.new.all.items ≡ without_name name.now (known_names self.old.all.items) }
        ensures queues { (other : List ℕ) → looked_up other self.new.all.items
            ≡ (if bytes_eq name.now other then None else looked_up other self.old.all.items) }
    {
        self.all.retain(|known| !known.name.is(name));
    }
}
