// Asking: the next report is handed over with its data, and what is behind it settles. That the arrays are empty is a premise of each: `ask` makes
// them once and all write in place (docs/PROVING.md, "Speed of the program").
ghost use Rattle.std.specs.Prelude.{◌≡◌, [], ◌+◌, ◌-◌, ◌≤◌, length, take, drop, None};
ghost use Rattle.frame.specs.Frame.{header_bytes, content_of, longest_frame, most_payload};
ghost use Rattle.line.specs.State.{padded};
ghost use Rattle.line.specs.Front.{report_said, front_said};
ghost use Rattle.line.specs.Inner.{asked_with, answer_with_report};
ghost use Rattle.line.specs.Methods.{body_length, span, told, asked};

use crate::{Asked, Handover, Reader, Report, Rest, arrays, head, settle};
use frame::LONGEST_FRAME;
use place::Look;

// The report on a frame, by what stands there and its L bytes.
fn report_on(checking: bool, look: Look, body: &[u8]) -> Option<Report>
    ensures { result ≡ told checking look body.now }
{
    match look {
        Look::Pass | Look::Wait => None,
        Look::Bad(command) => Some(Report::BadCheck(command)),
        Look::Good(_) => Some(Report::Accepted {
            command: wire::byte_at(body, 0),
            len: body.len().saturating_sub(1 + frame::check_length(checking)),
        }),
    }
}

// Lays up to three bytes of data, as reads have them; `end` is how many of the L bytes are command and data. One by one, since `copy_from_slice` and a
// chain both become a call of memcpy, for which short frames are slower (docs/PROVING.md, "Speed of the program").
fn put_short(body: &[u8], end: usize, out: &mut [u8])
    requires { (end ≤ 4) × (end ≤ length body.now) × (out.old ≡ padded most_payload []) }
    ensures { out.new ≡ padded most_payload (take (end - 1) (drop 1 body.now)) }
{
    if end < 2 {
        return;
    }
    out[0] = body[1];
    if end < 3 {
        return;
    }
    out[1] = body[2];
    if end < 4 {
        return;
    }
    out[2] = body[3];
}

// Lays the data of the frame at the front.
fn put_payload(reader: Reader, out: &mut [u8])
    requires { out.old ≡ padded most_payload [] }
    ensures { out.new ≡ padded most_payload (drop 1 (content_of reader.line.checking (take (body_length reader.head) (drop (length (header_bytes reader.line.header) + 1) reader.held)))) }
{
    let from = reader.line.header.length() + 1;
    let l = head::body_length(reader.head);
    let end = l.saturating_sub(frame::check_length(reader.line.checking));
    if end < 5 {
        // A local, since to lend a part of a reader copies all of it.
        let held = reader.held;
        put_short(&held[from..from + l], end, out);
        return;
    }
    arrays::put_held(reader, from + 1, from + end, out);
}

// Nothing is handed over, and all stays.
fn hand_nothing(reader: Reader, left: &mut [u8]) -> Handover
    requires { left.old ≡ padded longest_frame [] }
    ensures { (result ≡ record { report = None; closed = reader.closed; rest = record { len = reader.len; head = reader.head } }) × (left.new ≡ reader.held) }
{
    arrays::put_held(reader, 0, LONGEST_FRAME, left);
    Handover {
        report: None,
        closed: reader.closed,
        rest: Rest {
            len: reader.len,
            head: reader.head,
        },
    }
}

// Hands over the report at the front, whose k bytes are all held.
fn hand_report(reader: Reader, k: usize, payload: &mut [u8], left: &mut [u8]) -> Handover
    requires { (k ≡ span (header_bytes reader.line.header) reader.head) × (k ≤ reader.len) × (reader.len ≤ longest_frame) × (payload.old ≡ padded most_payload []) × (left.old ≡ padded longest_frame []) }
    ensures { asked_with reader.line result payload.new left.new ≡ answer_with_report reader }
{
    // A local, since to lend a part of a reader copies all of it.
    let held = reader.held;
    let from = reader.line.header.length() + 1;
    let report = report_on(
        reader.line.checking,
        reader.head,
        &held[from..from + head::body_length(reader.head)],
    );
    put_payload(reader, payload);
    let rest = settle::settle_left(reader, k, left);
    Handover {
        report,
        // `&` and no `&&`: one equation of truth values (docs/PROVING.md, Loops).
        closed: reader.closed & (0 < rest.len),
        rest,
    }
}

// The next report, or nothing: its data and what is left, laid into empty arrays.
fn hand_over(reader: Reader, payload: &mut [u8], left: &mut [u8]) -> Handover
    requires { (payload.old ≡ padded most_payload []) × (left.old ≡ padded longest_frame []) }
    ensures { asked_with reader.line result payload.new left.new ≡ asked reader }
{
    let k = head::span_of(reader.line.header, reader.head);
    if (k == 0) | (reader.len < k) | (LONGEST_FRAME < reader.len) {
        return hand_nothing(reader, left);
    }
    hand_report(reader, k, payload, left)
}

impl Reader {
    // Hands over the next report, or nothing.
    pub fn ask(self) -> Asked
        ensures value { result ≡ asked self }
        ensures report_value { report_said result.report ≡ front_said self }
    {
        let mut payload = wire::zeros();
        let mut left = wire::zeros();
        let handed = hand_over(self, &mut payload, &mut left);
        Asked {
            report: handed.report,
            payload,
            reader: Reader {
                line: self.line,
                held: left,
                len: handed.rest.len,
                closed: handed.closed,
                head: handed.rest.head,
            },
        }
    }
}
