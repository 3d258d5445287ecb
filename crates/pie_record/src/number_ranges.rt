//! The numbers of an event fit the types of their fields. These functions do nothing: their contracts state it for given values.
ghost use Rattle.pie_record.specs.Field.{most_u16};
ghost use Rattle.std.specs.Prelude.{◌≤◌, ◌≡◌};
ghost use Rattle.pie_record.specs.{AnswerFits, CommandFits, PacketFits, true, fits, ParamsFit, EventFits};

use pie_event::{Answer, Command, Event};
use pie_params::Params;
use pie_queue::Packet;

/// Parameters are in their ranges.
pub(crate) fn params_fit(params: Params)
    ensures { ParamsFit params }
{
    let _ = params.raw();
}

/// A packet's numbers fit their types.
fn packet_fits(packet: Packet)
    ensures { PacketFits packet }
{
    let _ = (packet.tag, packet.size);
}

/// A caller's number fits its type.
fn caller_fits(caller: u16)
    ensures { caller ≤ most_u16 }
{
    let _ = caller;
}

/// A command's numbers fit their types.
fn command_fits(command: Command)
    ensures { CommandFits command }
{
    match command {
        Command::Arrive {
            moment,
            packet,
            word,
        } => {
            let _ = (moment, word);
            packet_fits(packet)
        }
        Command::Depart { moment } => {
            let _ = moment;
        }
        Command::Update { moment } => {
            let _ = moment;
        }
        Command::Reset { moment } => {
            let _ = moment;
        }
        Command::SetParams { moment, params } => {
            let _ = moment;
            params_fit(params)
        }
    }
}

/// An answer's numbers fit their types.
fn answer_fits(answer: Answer)
    ensures { AnswerFits answer }
{
    match answer {
        Answer::Left(packet) => packet_fits(packet),
        Answer::Updated { delay, prob, burst } => {
            let _ = (delay, prob, burst);
        }
        _ => {}
    }
}

/// The numbers of an event fit their types, if its answer is of a kind that its command can have.
pub(crate) fn event_fits(event: &Event)
    requires { fits event.now.command event.now.answer ≡ true }
    ensures { EventFits event.now }
{
    caller_fits(event.caller);
    command_fits(event.command);
    answer_fits(event.answer);
}
