//! Writing the lines of an event and its reply: no line is made, and no message is copied.
ghost use Rattle.std.specs.Prelude.{◌≡◌, ◌∷◌, [], false};
ghost use Rattle.cast_record.specs.Written.{Puts};
ghost use Rattle.cast_record.specs.Lines.{answer_lines, lines_for, outcome_lines};
ghost use Rattle.cast_record.specs.Text.{record_text};

use crate::line::{Line, MOST_CODE};
use crate::meter::Meter;
use crate::writing::{write_broadcast, write_decided, write_delivered, write_line};
use crate::written::Written;
use cast_message::{Answer, Event, NodeId, Outcome, Reply};
use std::io::Write;

/// Writes the lines that `lines_of` makes, each with its line feed. It takes no memory. It is refused only if the writer failed or
/// took no byte. The meter then says so, and a prefix of the text was written.
pub fn write_lines_of<W: Write>(
    index: u64,
    event: &Event,
    reply: &Reply,
    writer: &mut Meter<W>,
) -> Written
    requires { writer.old.failed ≡ false }
    ensures { Puts W.contents writer.old writer.new result
        (record_text (lines_for index event.now reply.now)) }
{
    match reply {
        Ok(answer) => write_answer(event, answer, writer),
        Err(fault) => {
            let code = fault.code();
            if code <= MOST_CODE {
                return write_alone(&Line::Refused { index, code }, writer);
            }
            Ok(())
        }
    }
}

fn write_answer<W: Write>(event: &Event, answer: &Answer, writer: &mut Meter<W>) -> Written
    requires { writer.old.failed ≡ false }
    ensures { Puts W.contents writer.old writer.new result
        (record_text (answer_lines event.now answer.now)) }
{
    match (event, answer) {
        (Event::Order { node, item }, Answer::Ordered { number, outcome }) => {
            write_broadcast(*node, *number, item, writer)?;
            write_outcome(*node, outcome, writer)
        }
        (Event::Arrive { .. }, Answer::Arrived { node, outcome }) => {
            write_outcome(*node, outcome, writer)
        }
        (Event::Crash { node }, Answer::Down) => {
            write_alone(&Line::Crashed { node: *node }, writer)
        }
        _ => Ok(()),
    }
}

fn write_alone<W: Write>(line: &Line, writer: &mut Meter<W>) -> Written
    requires { writer.old.failed ≡ false }
    ensures { Puts W.contents writer.old writer.new result (record_text (line.now ∷ [])) }
{
    write_line(line, writer)
}

// What was delivered at the node, and then what was decided there.
fn write_outcome<W: Write>(node: NodeId, outcome: &Outcome, writer: &mut Meter<W>) -> Written
    requires { writer.old.failed ≡ false }
    ensures { Puts W.contents writer.old writer.new result
        (record_text (outcome_lines node outcome.now)) }
{
    for message in outcome.deliveries.as_slice() {
        write_delivered(node, message, writer)?;
    }
    for decision in outcome.decisions.as_slice() {
        write_decided(node, decision, writer)?;
    }
    Ok(())
}
