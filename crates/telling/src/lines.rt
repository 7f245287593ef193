// The lines of a report, laid over the front of a room that has space for them. The room is a lent slice with a `requires`: a struct over a `&mut` slice
// would be taken apart and lent again at each part of it.
ghost use Rattle.std.specs.Prelude.{◌≡◌, ◌++◌, ◌≤◌, length, take, drop};
ghost use Rattle.wire.specs.Room.{lays};
ghost use Rattle.frame.specs.Frame.{longest_frame};
ghost use Rattle.frame.specs.Writer.{least_room};
ghost use Rattle.text.specs.Text.{line_text, written_text};
ghost use Rattle.telling.specs.Told.{least_text};
ghost use Rattle.telling.specs.Inner.{frames_bytes, written_bytes, longest_line, acknowledgement_bytes, prints, replied_by, acknowledged_by};
ghost use Rattle.telling.specs.Lines.{frames_text, report_text};

use crate::numbers;
use panel::{Handed, LentError};
use text::Line;

// One line.
pub(crate) fn print_line(line: Line, room: &mut [u8]) -> usize
    requires { least_text ≤ length room.old }
    ensures { (lays result room.new ≡ prints (line_text line) room.old) × (result ≤ longest_line) }
{
    text::put_line(line, room)
}

// The line of an acknowledgement, where there is one. What was written goes on as two counts and the reply room: a struct of the three would carry in ghost
// fields just what `print_report`, its one maker, is required.
fn print_acknowledgement(acknowledged: usize, reply: &[u8], room: &mut [u8]) -> usize
    requires { (written_bytes acknowledgement_bytes ≤ length room.old) × (acknowledged ≤ acknowledgement_bytes) × (length reply.now ≡ least_room) }
    ensures { (lays result room.new ≡ prints (written_text (take acknowledged reply.now)) room.old) × (result ≤ written_bytes acknowledgement_bytes) }
{
    text::put_written(&reply[..acknowledged], room)
}

// The line of the reply behind it, where there is one.
fn print_reply(acknowledged: usize, replied: usize, reply: &[u8], room: &mut [u8]) -> usize
    requires { (written_bytes longest_frame ≤ length room.old) × (acknowledged ≤ acknowledgement_bytes) × (replied ≤ longest_frame) × (length reply.now ≡ least_room) }
    ensures { (lays result room.new ≡ prints (written_text (take replied (drop acknowledged reply.now))) room.old) × (result ≤ written_bytes longest_frame) }
{
    text::put_written(&reply[acknowledged..acknowledged + replied], room)
}

// An acknowledgement and a reply, each where there is one.
fn print_frames(acknowledged: usize, replied: usize, reply: &[u8], room: &mut [u8]) -> usize
    requires { (frames_bytes ≤ length room.old) × (acknowledged ≤ acknowledgement_bytes) × (replied ≤ longest_frame) × (length reply.now ≡ least_room) }
    ensures { (lays result room.new ≡ prints (frames_text acknowledged replied reply.now) room.old) × (result ≤ frames_bytes) }
{
    let k = print_acknowledgement(acknowledged, reply, room);
    let m = print_reply(acknowledged, replied, reply, &mut room[k..]);
    k + m
}

// A line, then what was written.
fn print_both(
    line: Line,
    acknowledged: usize,
    replied: usize,
    reply: &[u8],
    room: &mut [u8],
) -> usize
    requires { (least_text ≤ length room.old) × (acknowledged ≤ acknowledgement_bytes) × (replied ≤ longest_frame) × (length reply.now ≡ least_room) }
    ensures { lays result room.new ≡ prints (line_text line ++ frames_text acknowledged replied reply.now) room.old }
{
    let k = print_line(line, room);
    let m = print_frames(acknowledged, replied, reply, &mut room[k..]);
    k + m
}

// The lines of a report; where none is handed over, there is no line.
pub(crate) fn print_report(
    handed: Result<Option<Handed>, LentError>,
    reply: &[u8],
    room: &mut [u8],
) -> usize
    requires { (least_text ≤ length room.old) × (length reply.now ≡ least_room) × (acknowledged_by handed ≤ acknowledgement_bytes) × (replied_by handed ≤ longest_frame) }
    ensures { lays result room.new ≡ prints (report_text handed reply.now) room.old }
{
    let Ok(handed) = handed else {
        return 0;
    };
    let Some(handed) = handed else {
        return 0;
    };
    match handed {
        Handed::BadCheck(command, acknowledged) => print_both(
            Line::BadCheck(command),
            acknowledged,
            0,
            reply,
            room,
        ),
        Handed::Accepted {
            command,
            count: _,
            outcome,
            acknowledged,
            replied,
        } => {
            let line = Line::Frame {
                command,
                number: numbers::outcome_number(outcome),
            };
            print_both(line, acknowledged, replied, reply, room)
        }
    }
}
