//! The columns of a text of steps, and the fields of its rows.
ghost use Rattle.std.specs.Prelude.{◌≡◌, ◌<◌, codes, get_or, map};
ghost use Rattle.pie_record.specs.declared.fault.TraceFault.TheVariants.{Memory};
ghost use Rattle.pie_record.specs.Field.{fault_at};
ghost use Rattle.pie_linux_history.specs.declared.fault.StepsFault.TheVariants.{Trace};
ghost use Rattle.pie_linux_history.specs.{Columns.blank, Columns.collected, Columns.column_at, Columns.columns_of, Columns.decimal_at, Columns.digits_after, Columns.field_or, Columns.flow_at, Columns.handle_of, Columns.has_flows_at, Columns.has_returned, Columns.hex_digit, Columns.hexadecimal_after, Columns.hexadecimal_at, Columns.is_optional, Columns.kind_at, Columns.most_of, Columns.name_of, Columns.narrow, Columns.lost_in, Columns.moment_of, Columns.numbers_of, Columns.params_of, Columns.place_from, Columns.state_of, Columns.step_in, Columns.step_of, Cuts.column_of};

use crate::fault::StepsFault;
use crate::step::{Kind, QueueName, Step};
use pie_linux::{LinuxParams, LinuxState, LinuxStats, MarkLimit};
use pie_record::field::has_word;
use pie_record::number::number;
use pie_record::{Record, RecordFault, TraceFault};

/// The number of columns that are read.
pub(crate) const COUNT: usize = 58;

/// The number of columns with decimal numbers, the first ones.
pub(crate) const NUMBERS: usize = 53;

/// The number of columns whose numbers are compared: those, `proto` and `l3`.
pub(crate) const COMPARED: usize = 55;

/// The place of the column `seq` in [`NAMES`].
pub(crate) const NUMBER: usize = 0;

/// The place of the column `qlen1` in [`NAMES`].
pub(crate) const LENGTH_AFTER: usize = 15;

/// The place of the column `ns` in [`NAMES`].
const MOMENT: usize = 25;

/// The place of the column `hash` in [`NAMES`].

/// The place of the first column that a text may lack, `prio`, in [`NAMES`].
const PRIORITY: usize = 47;

/// The place of the column `rq` in [`NAMES`].
const RETURNED: usize = 49;

/// The places of the other columns in [`NAMES`].
const PROTOCOL: usize = 53;

const HEADER: usize = 54;

pub(crate) const FLOW: usize = 55;

pub(crate) const TYPE: usize = 56;

pub(crate) const FAMILY: usize = 57;

/// The field `early` of a row without a decision: `pie_drop_early` was not called.
const NOT_CALLED: u32 = 255;

/// The names of the columns, in the order in which an audit compares them. Those with 64 bits are `seq` and `a_qdelay` to
/// `target`. A text may lack `prio` to `moved`.
const NAMES: [&str; COUNT] = [
    "seq",
    "qlen0",
    "bl0",
    "limit",
    "early",
    "nrnd",
    "ret",
    "size",
    "pktlen",
    "packets_in",
    "dropped",
    "overlimit",
    "ecn_mark",
    "maxq",
    "backlog",
    "qlen1",
    "bl1",
    "a_qdelay",
    "a_qdelay_old",
    "a_burst_time",
    "a_dq_tstamp",
    "a_prob",
    "a_accu_prob",
    "a_dq_count",
    "enq",
    "ns",
    "rnd",
    "t0",
    "t1",
    "t2",
    "target",
    "a_avg_dq_rate",
    "a_backlog_old",
    "x0",
    "x1",
    "x2",
    "mtu",
    "room",
    "hash",
    "truesize",
    "tupdate",
    "plimit",
    "alpha",
    "beta",
    "ecn",
    "bytemode",
    "dqrate",
    "prio",
    "nt",
    "rq",
    "rqb",
    "drop",
    "moved",
    "proto",
    "l3",
    "flow",
    "type",
    "kind",
];

/// The places of the columns in a row.
#[derive(Drop)]
pub(crate) struct Columns {
    queue: usize,
    places: [usize; COUNT],
    count: usize,
}

/// Returns the name of the column with this place in [`NAMES`]; of the place behind them, `qid`.
pub(crate) fn name_of(place: usize) -> &'static str
    ensures { result.now ≡ name_of place }
{
    name_in(&NAMES, place)
}

/// Returns the name with this place in a table; of a place behind it, `qid`.
fn name_in(table: &[&'static str], place: usize) -> &'static str
    ensures { result.now ≡ get_or (map (λ name. name.now) table.now) place (codes "qid") }
{
    if place < table.len() {
        table[place]
    } else {
        "qid"
    }
}

/// Returns the place of the column with this name.
#[inline(never)]
fn place_of(names: &Record, name: &str) -> Option<usize>
    ensures { result ≡ place_from 0 name.now names.now }
{
    for place in 0..names.len() {
        if has_word(names, place, name.as_bytes()) {
            return Some(place);
        }
    }
    None
}

/// Returns true if a text may lack this column.
fn is_optional(column: usize) -> bool
    ensures { result ≡ is_optional column }
{
    PRIORITY <= column && column < NUMBERS
}

/// Returns the place of the column with this number in [`NAMES`], of an optional one that the text lacks the place behind the
/// last field.
fn column_at(names: &Record, column: usize) -> Result<usize, StepsFault>
    ensures { result ≡ column_at names.now column }
{
    match place_of(names, name_of(column)) {
        Some(place) => Ok(place),
        None if is_optional(column) => Ok(names.len()),
        None => Err(StepsFault::NoColumn(column)),
    }
}

/// Returns the place of each column.
fn places_of(names: &Record) -> Result<[usize; COUNT], StepsFault>
    ensures { result ≡ collected (column_at names.now) 58 }
{
    let mut places = [0; COUNT];
    for column in 0..COUNT {
        match column_at(names, column) {
            Ok(place) => places[column] = place,
            Err(why) => return Err(why),
        }
    }
    Ok(places)
}

/// Returns the field at a place, empty if there is none.
#[inline(always)]
fn field_or(fields: &Record, place: usize) -> &[u8]
    ensures { result.now ≡ field_or fields.now place }
{
    match fields.get(place) {
        Some(field) => field,
        None => &[],
    }
}

/// Returns the number of a field, at most `most`. An empty field is 0.
#[inline(never)]
#[tactic(auto, unfolding(crate::specs::Columns::decimal_at))]
fn decimal(fields: &Record, place: usize, most: u64) -> Result<u64, RecordFault>
    ensures { result ≡ decimal_at fields.now place most }
{
    let field = field_or(fields, place);
    if field.is_empty() {
        return Ok(0);
    }
    number(field, most).ok_or(RecordFault::Number)
}

/// Returns the value of a hexadecimal digit in a small letter.
fn hex_digit(byte: u8) -> Option<u8>
    ensures { result ≡ hex_digit byte }
{
    match byte {
        b'0'..=b'9' => Some(byte - b'0'),
        b'a'..=b'f' => Some(byte - b'a' + 10),
        _ => None,
    }
}

/// Returns the number that hexadecimal digits write after those of `value`.
#[tactic(auto, unfolding(crate::specs::Columns::hexadecimal_after))]
fn hexadecimal_after(value: u16, digits: &[u8]) -> Result<u16, RecordFault>
    ensures { result ≡ hexadecimal_after value digits.now }
{
    match digits {
        [] => Ok(value),
        [byte, rest @ ..] => match hex_digit(*byte) {
            Some(digit) => {
                hexadecimal_after(value.wrapping_mul(16).wrapping_add(u16::from(digit)), rest)
            }
            None => Err(RecordFault::Number),
        },
    }
}

/// Returns the number that the hexadecimal digits before the first other byte write after those of `value`.
#[tactic(auto, unfolding(crate::specs::Columns::digits_after))]
fn digits_after(value: u16, bytes: &[u8]) -> u16
    ensures { result ≡ digits_after value bytes.now }
{
    match bytes {
        [] => value,
        [byte, rest @ ..] => match hex_digit(*byte) {
            Some(digit) => {
                digits_after(value.wrapping_mul(16).wrapping_add(u16::from(digit)), rest)
            }
            None => value,
        },
    }
}

/// Returns the handle in the name of a queue, DEVICE/HANDLE:/NUMBER. It is 0 if the name has none.
#[tactic(auto, unfolding(crate::specs::Columns::handle_of))]
pub(crate) fn handle_of(name: &[u8]) -> u32
    ensures { result ≡ handle_of name.now }
{
    match name {
        [] => 0,
        [byte, rest @ ..] => {
            if *byte == b'/' {
                u32::from(digits_after(0, rest)) * 65536
            } else {
                handle_of(rest)
            }
        }
    }
}

/// Returns the greatest number of a column.
#[inline(always)]
fn most_of(column: usize) -> u64
    ensures { result ≡ most_of column }
{
    match column {
        0 | 17..=30 => u64::MAX,
        _ => u64::from(u32::MAX),
    }
}

/// Returns the number of a field with at most four hexadecimal digits. An empty field is 0.
#[tactic(auto, unfolding(crate::specs::Columns::hexadecimal_at))]
fn hexadecimal(fields: &Record, place: usize) -> Result<u16, RecordFault>
    ensures { result ≡ hexadecimal_at fields.now place }
{
    let field = field_or(fields, place);
    if field.len() > 4 {
        return Err(RecordFault::Number);
    }
    hexadecimal_after(0, field)
}

/// Returns the flow in a field, `None` for -1.
#[tactic(auto, unfolding(crate::specs::Columns::flow_at))]
fn flow_at(fields: &Record, place: usize) -> Result<Option<u32>, RecordFault>
    ensures { result ≡ flow_at fields.now place }
{
    if has_word(fields, place, b"-1") {
        return Ok(None);
    }
    match decimal(fields, place, u64::from(u32::MAX)) {
        Ok(flow) => Ok(Some(narrow(flow))),
        Err(why) => Err(why),
    }
}

/// Returns the kind of a step with the word of this field.
#[tactic(auto, unfolding(crate::specs::Columns::kind_at))]
fn kind_at(fields: &Record, place: usize) -> Result<Kind, RecordFault>
    ensures { result ≡ kind_at fields.now place }
{
    if has_word(fields, place, b"enq") {
        return Ok(Kind::Enqueue);
    }
    if has_word(fields, place, b"deq") {
        return Ok(Kind::Dequeue);
    }
    if has_word(fields, place, b"calc") {
        return Ok(Kind::Update);
    }
    if has_word(fields, place, b"timer") {
        return Ok(Kind::Timer);
    }
    if has_word(fields, place, b"wait") {
        return Ok(Kind::Wait);
    }
    if has_word(fields, place, b"flow") {
        return Ok(Kind::Flow);
    }
    if has_word(fields, place, b"init") {
        return Ok(Kind::Init);
    }
    if has_word(fields, place, b"resume") {
        return Ok(Kind::Resume);
    }
    if has_word(fields, place, b"change") {
        return Ok(Kind::Change);
    }
    if has_word(fields, place, b"reset") {
        return Ok(Kind::Reset);
    }
    if has_word(fields, place, b"destroy") {
        return Ok(Kind::Destroy);
    }
    if has_word(fields, place, b"empty") {
        return Ok(Kind::Empty);
    }
    Err(RecordFault::Word)
}

/// Returns true for `fq_pie` and false for `pie`.
#[tactic(auto, unfolding(crate::specs::Columns::has_flows_at))]
fn has_flows_at(fields: &Record, place: usize) -> Result<bool, RecordFault>
    ensures { result ≡ has_flows_at fields.now place }
{
    if has_word(fields, place, b"pie") {
        return Ok(false);
    }
    if has_word(fields, place, b"fq_pie") {
        return Ok(true);
    }
    Err(RecordFault::Word)
}

impl Columns {
    /// Finds the columns in the first row.
    #[tactic(auto, unfolding(crate::specs::Columns::columns_of))]
    pub(crate) fn find(names: &Record) -> Result<Columns, StepsFault>
        ensures { result ≡ columns_of names.now }
    {
        let places = match places_of(names) {
            Ok(places) => places,
            Err(why) => return Err(why),
        };
        match column_at(names, COUNT) {
            Ok(queue) => Ok(Columns {
                queue,
                places,
                count: names.len(),
            }),
            Err(why) => Err(why),
        }
    }

    /// Returns the name of the queue of a row.
    pub(crate) fn queue<'f>(&self, fields: &'f Record) -> &'f [u8]
        ensures { result.now ≡ field_or fields.now self.now.queue }
    {
        field_or(fields, self.queue)
    }

    /// Returns true if the text has the column `rq`, that is, its rows say which packets the device returned.
    #[tactic(auto, unfolding(crate::specs::Columns::place_from))]
    pub(crate) fn has_returned(&self) -> bool
        ensures { result ≡ has_returned self.now }
    {
        self.places[RETURNED] != self.count
    }

    /// Returns the moment of a row, and 0 if the row has none.
    #[tactic(auto, unfolding(crate::specs::Columns::moment_of, crate::specs::Columns::place_from))]
    pub(crate) fn moment(&self, fields: &Record) -> u64
        ensures { result ≡ moment_of self.now fields.now }
    {
        if fields.len() != self.count {
            return 0;
        }
        decimal(fields, self.places[MOMENT], u64::MAX).unwrap_or(0)
    }

    /// Returns the number of columns.
    pub(crate) fn count(&self) -> usize
        ensures { result ≡ self.now.count }
    {
        self.count
    }

    /// Returns the place in [`NAMES`] of the column at `place` of a row, the place behind them for `qid`, and `None` for a column
    /// that is not read.
    pub(crate) fn column_at(&self, place: usize) -> Option<usize>
        ensures { result ≡ column_of self.now place }
    {
        if place == self.queue {
            return Some(COUNT);
        }
        for column in 0..COUNT {
            if self.places[column] == place {
                return Some(column);
            }
        }
        None
    }

    /// Reads the numbers of a row.
    #[tactic(auto, unfolding(crate::specs::Columns::numbers_of))]
    fn numbers(&self, fields: &Record) -> Result<[u64; NUMBERS], RecordFault>
        ensures { result ≡ numbers_of self.now fields.now }
    {
        let mut numbers = [0; NUMBERS];
        for column in 0..NUMBERS {
            match decimal(fields, self.places[column], most_of(column)) {
                Ok(number) => numbers[column] = number,
                Err(why) => return Err(why),
            }
        }
        Ok(numbers)
    }

    /// Reads a row.
    #[inline(never)]
    #[tactic(auto, unfolding(crate::specs::Columns::step_in, crate::specs::Columns::place_from))]
    pub(crate) fn read(&self, fields: &Record) -> Result<Step, RecordFault>
        ensures { result ≡ step_in self.now fields.now }
    {
        if fields.len() != self.count {
            return Err(RecordFault::Fields);
        }
        let kind = kind_at(fields, self.places[TYPE])?;
        let has_flows = has_flows_at(fields, self.places[FAMILY])?;
        let flow = flow_at(fields, self.places[FLOW])?;
        let protocol = hexadecimal(fields, self.places[PROTOCOL])?;
        let header = hexadecimal(fields, self.places[HEADER])?;
        let numbers = self.numbers(fields)?;
        Ok(Step {
            flow,
            protocol,
            header,
            ..step_of(&numbers, kind, has_flows, self.has_returned())
        })
    }
}

/// Returns a number of a column of 32 bits, which is at most 2^32 - 1.
#[inline(always)]
fn narrow(number: u64) -> u32
    ensures { result ≡ narrow number }
{
    u32::try_from(number).unwrap_or(u32::MAX)
}

/// Returns the step with these numbers. It has no flow, no protocol and no header.
#[tactic(auto, unfolding(crate::specs::Columns::place_from, crate::specs::Columns::step_of))]
pub(crate) fn step_of(
    numbers: &[u64; NUMBERS],
    kind: Kind,
    has_flows: bool,
    has_returned: bool,
) -> Step
    ensures { result ≡ step_of numbers.now kind has_flows has_returned }
{
    Step {
        kind,
        has_flows,
        has_returned,
        number: numbers[0],
        moment: numbers[25],
        flow: None,
        backlog: narrow(numbers[14]),
        size: narrow(numbers[7]),
        packet_length: narrow(numbers[8]),
        mtu: narrow(numbers[36]),
        length_before: narrow(numbers[1]),
        length_after: narrow(numbers[15]),
        bytes_before: narrow(numbers[2]),
        bytes_after: narrow(numbers[16]),
        limit: narrow(numbers[3]),
        returned: narrow(numbers[6]),
        protocol: 0,
        header: 0,
        contained: numbers[37] != 0,
        early: narrow(numbers[4]),
        draws: narrow(numbers[5]),
        word: numbers[26],
        enqueued: numbers[24],
        readings: [numbers[27], numbers[28], numbers[29]],
        reads: narrow(numbers[48]),
        hash: narrow(numbers[38]),
        priority: narrow(numbers[47]),
        truesize: narrow(numbers[39]),
        x0: narrow(numbers[33]),
        x1: narrow(numbers[34]),
        x2: narrow(numbers[35]),
        after: state_of(numbers),
        params: params_of(numbers, has_flows),
        stats: LinuxStats {
            packets_in: narrow(numbers[9]),
            dropped: narrow(numbers[10]),
            overlimit: narrow(numbers[11]),
            ecn_mark: narrow(numbers[12]),
            maxq: narrow(numbers[13]),
        },
        returned_packets: narrow(numbers[49]),
        returned_bytes: narrow(numbers[50]),
        is_drop: numbers[51] != 0,
        moved: narrow(numbers[52]),
    }
}

/// Returns the step whose numbers are 0. Its field `early` says that `pie_drop_early` was not called.
#[tactic(auto, unfolding(crate::specs::Columns::blank))]
pub(crate) fn blank(kind: Kind, has_flows: bool, has_returned: bool) -> Step
    ensures { result ≡ blank kind has_flows has_returned }
{
    Step {
        early: NOT_CALLED,
        ..step_of(&[0; NUMBERS], kind, has_flows, has_returned)
    }
}

/// Returns the state in these numbers.
#[tactic(auto, unfolding(crate::specs::Columns::place_from))]
fn state_of(numbers: &[u64; NUMBERS]) -> LinuxState
    ensures { result ≡ state_of numbers.now }
{
    LinuxState {
        qdelay: numbers[17],
        qdelay_old: numbers[18],
        burst_time: numbers[19],
        dq_tstamp: numbers[20],
        prob: numbers[21],
        accu_prob: numbers[22],
        dq_count: numbers[23],
        avg_dq_rate: narrow(numbers[31]),
        backlog_old: narrow(numbers[32]),
    }
}

/// Returns the parameters in these numbers.
#[tactic(auto, unfolding(crate::specs::Columns::place_from))]
fn params_of(numbers: &[u64; NUMBERS], has_flows: bool) -> LinuxParams
    ensures { result ≡ params_of numbers.now has_flows }
{
    LinuxParams {
        target: numbers[30],
        tupdate: narrow(numbers[40]),
        limit: narrow(numbers[41]),
        alpha: narrow(numbers[42]),
        beta: narrow(numbers[43]),
        ecn: numbers[44] != 0,
        bytemode: numbers[45] != 0,
        dq_rate_estimator: numbers[46] != 0,
        marks: if has_flows {
            MarkLimit::Percent(narrow(numbers[33]))
        } else {
            MarkLimit::Tenth
        },
    }
}

/// Steps that the recorder lost: the name of their queue, and their number.
#[tactic(auto, unfolding(crate::specs::Columns::lost_in))]
pub(crate) fn lost_at(fields: &Record) -> Result<Option<(QueueName, u64)>, RecordFault>
    ensures { result ≡ lost_in fields.now }
{
    if !has_word(fields, 0, b"lost") {
        return Ok(None);
    }
    if fields.len() != 3 {
        return Err(RecordFault::Fields);
    }
    let count = decimal(fields, 1, u64::MAX)?;
    match QueueName::new(field_or(fields, 2)) {
        Some(queue) => Ok(Some((queue, count))),
        None => Err(RecordFault::Word),
    }
}

/// Returns the fault of record `row`.
pub(crate) fn fault_at(row: u64, why: RecordFault) -> StepsFault
    ensures { result ≡ Trace (fault_at row why) }
{
    StepsFault::Trace(why.at(row))
}

/// Returns the fault of a failed allocation.
pub(crate) fn out_of_memory() -> StepsFault
    ensures { result ≡ Trace Memory }
{
    StepsFault::Trace(TraceFault::Memory)
}
