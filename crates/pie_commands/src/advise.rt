//! `pie advise`: writes advice on the parameters of a queue for a link.
ghost use Rattle.std.specs.Prelude.{◌≡◌};
ghost use Rattle.clap.specs.Words.{found_of, rows_of};
ghost use Rattle.pie_commands.specs.Advising.{range_given, rate_given, request_in};

use crate::call::Call;
use crate::end::{End, end_failed, end_of_page};
use crate::files::Output;
use crate::line::Part::Text;
use crate::line::{say, say_parts, say_text};
use crate::options::{flag, parsed, text};
use crate::params::overhead_in;
use clap::ArgMatches;
use pie_record::Page;
use pie_units::advising::{Range, Request, advice_for, opening_for_link, push_advice, range_in};
use pie_units::{Quantity, rate_of};
use std::io::Stderr;

/// Returns the rate that the options give. If they give none, writes a line to `errors`.
fn rate_given(options: &ArgMatches<'_>, errors: Stderr) -> Option<u64>
    ensures { result ≡ rate_given (rows_of (found_of options.now)) }
{
    let Some(text) = text(options, "rate") else {
        say_parts! { errors; Text("advise needs --rate, such as --rate 20mbit") };
        return None;
    };
    parsed(rate_of(text), "--rate", errors)
}

/// Returns the range of the option `name`, of numbers of this kind, such as `example`. If there is none, writes a line to
/// `errors`.
fn range_given(
    options: &ArgMatches<'_>,
    name: &'static str,
    kind: Quantity,
    example: &'static str,
    errors: Stderr,
) -> Option<Range>
    ensures { result ≡ range_given name.now kind (rows_of (found_of options.now)) }
{
    let Some(text) = text(options, name) else {
        say_parts! { errors;
            Text("advise needs --"), Text(name), Text(", such as --"), Text(name), Text(" "), Text(example)
        };
        return None;
    };
    match range_in(kind, text.as_bytes()) {
        Ok(range) => Some(range),
        Err(why) => {
            say_text(errors, &[Text("--"), Text(name), Text(" ")], why);
            None
        }
    }
}

/// Returns the link that the options describe. If a value is missing or not valid, writes a line to `errors`.
fn request_of(options: &ArgMatches<'_>, errors: Stderr) -> Option<Request>
    ensures { result ≡ request_in (rows_of (found_of options.now)) }
{
    let rate = rate_given(options, errors)?;
    let trips = range_given(options, "rtt", Quantity::Time, "10ms-100ms", errors)?;
    let flows = range_given(options, "flows", Quantity::Packets, "1-16", errors)?;
    let overhead = parsed(overhead_in(options), "--overhead", errors)?;
    if flows.least == 0 {
        say(errors, &[Text("--flows must be at least 1")]);
        return None;
    }
    let ecn = flag(options, "ecn");
    Some(Request {
        rate,
        trips,
        flows,
        overhead,
        ecn,
    })
}

/// `pie advise`: writes advice on the parameters of a queue for the link that the options describe.
pub(crate) fn advise(call: &Call<'_, '_>, output: &mut Output) -> End {
    let Some(request) = request_of(call.options, call.errors) else {
        return End::Failed;
    };
    let Ok(opening) = opening_for_link(&request) else {
        return end_failed(
            call.errors,
            "--overhead must be at most 64511: mean_pkt is 1024 bytes and the overhead, and at most 65535",
        );
    };
    let mut page = Page::new(call.alloc);
    let advice = advice_for(&request, &opening);
    match push_advice(&mut page, &request, &opening, &advice) {
        Ok(()) => end_of_page(page.as_bytes(), output),
        Err(_) => {
            say(call.errors, &[Text("out of memory")]);
            End::CannotStart
        }
    }
}
