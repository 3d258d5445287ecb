//! The text of a controller's numbers, which often stay as they are from one event to the next: what did not change is not written a second time.
ghost use Rattle.std.specs.Prelude.{◌≡◌, ◌≤◌, ◌-◌, [], drop, length, true};
ghost use Rattle.pie_explain.specs.Record.{register_fields, steady_fields};
ghost use Rattle.pie_record.specs.Plain.{onto};

use pie_book::Registers;
use pie_record::RowBuffer;
use std::marker::Model;

/// The probabilities and the burst allowance that were put last, and the length of their text as fields of a row, each with a comma after it.
#[derive(Clone, Copy)]
struct Steady {
    prob: u64,
    accu: u64,
    burst: u64,
    len: usize,
}

/// Leaves in `text` only the probabilities and the burst allowance of `numbers`. The text ends with those of `steady`, which stay where they did not
/// change.
#[inline(always)]
fn begin(text: &mut RowBuffer, steady: &mut Steady, numbers: &Registers)
    requires ends { drop (length text.old - steady.old.len) text.old ≡ onto (steady_fields steady.old.prob steady.old.accu steady.old.burst) [] }
    requires within { steady.old.len ≤ length text.old }
    requires few { steady.old.len ≤ 63 }
    requires long { steady.old.len ≡ length (onto (steady_fields steady.old.prob steady.old.accu steady.old.burst) []) }
    ensures text { text.new ≡ onto (steady_fields numbers.now.prob numbers.now.accu numbers.now.burst) [] }
    ensures numbers { text.new ≡ onto (steady_fields steady.new.prob steady.new.accu steady.new.burst) [] }
    ensures long { steady.new.len ≡ length text.new }
    ensures few { steady.new.len ≤ 63 }
{
    if steady.prob == numbers.prob && steady.accu == numbers.accu && steady.burst == numbers.burst {
        text.keep_last(steady.len);
        return;
    }
    text.clear();
    text.prepend_number(numbers.burst);
    text.prepend_number(numbers.accu);
    text.prepend_number(numbers.prob);
    steady.prob = numbers.prob;
    steady.accu = numbers.accu;
    steady.burst = numbers.burst;
    steady.len = text.len();
}

/// All numbers of a controller that were put last, and their text as fields of a row, each with a comma after it: the numbers after an event mostly
/// are those before the next.
#[derive(Drop)]
pub(crate) struct Held {
    bytes: u64,
    packets: u64,
    delay: u64,
    steady: Steady,
    text: RowBuffer,
}

impl Model for Held {
    ghost use Rattle.std.specs.Prelude.{ℕ, ◌≡◌, ◌≤◌, ◌∷◌, List, [], length, decimal};
    ghost use Rattle.pie_explain.specs.Record.{steady_fields};
    ghost use Rattle.pie_record.specs.Plain.{onto};

    ghost Value = { List ℕ };

    ghost view = { λ cache. cache.text };

    ghost invariant = { λ cache.
        (cache.text ≡ onto (decimal cache.bytes ∷ decimal cache.packets ∷ decimal cache.delay ∷ [])
        (onto (steady_fields cache.steady.prob cache.steady.accu cache.steady.burst) []))
        × (cache.steady.len ≡ length (onto (steady_fields cache.steady.prob cache.steady.accu cache.steady.burst) []))
        × (cache.steady.len ≤ 63) × (length cache.text ≤ 126) };
}

impl Held {
    /// Returns the text of zeros.
    pub(crate) fn new() -> Held {
        let mut text = RowBuffer::new();
        text.prepend_number(0);
        text.prepend_number(0);
        text.prepend_number(0);
        let (prob, accu, burst, len) = (0, 0, 0, text.len());
        text.prepend_number(0);
        text.prepend_number(0);
        text.prepend_number(0);
        Held {
            bytes: 0,
            packets: 0,
            delay: 0,
            steady: Steady {
                prob,
                accu,
                burst,
                len,
            },
            text,
        }
    }

    /// Returns true if the numbers are those that were put last.
    #[inline(always)]
    fn has(&self, registers: &Registers, delay: u64) -> bool
        ensures { result ≡ true → self.now ≡ onto (register_fields registers.now delay) [] }
    {
        let steady = &self.steady;
        self.bytes == registers.bytes
            && self.packets == registers.packets
            && self.delay == delay
            && steady.prob == registers.prob
            && steady.accu == registers.accu
            && steady.burst == registers.burst
    }

    /// Takes these numbers in place of the earlier ones.
    #[inline(always)]
    pub(crate) fn take(&mut self, registers: &Registers, delay: u64)
        ensures { self.new ≡ onto (register_fields registers.now delay) [] }
    {
        if self.has(registers, delay) {
            return;
        }
        begin(&mut self.text, &mut self.steady, registers);
        self.text.prepend_number(delay);
        self.text.prepend_number(registers.packets);
        self.text.prepend_number(registers.bytes);
        self.bytes = registers.bytes;
        self.packets = registers.packets;
        self.delay = delay;
    }

    /// Returns the text.
    pub(crate) fn as_bytes(&self) -> &[u8]
        ensures text { result.now ≡ self.now }
        ensures long { length result.now ≤ 126 }
    {
        self.text.as_bytes()
    }
}
