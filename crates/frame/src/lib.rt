// Frames of 01, "Frame": the public frame writer, and the inner writers that lay frames into a part of a lent room. Header and checking choice
// are parameters of their own, as 01 lists them: "any header pair, checking choice, command byte, data and room". An inner writer answers how many
// bytes it laid, 0 where none: callers go on behind them (`&mut room[k..]`), and of an Option they would take that number again.
#![tactic(auto)]

ghost use Rattle.std.specs.Prelude.{◌≡◌, [], ◌∷◌, ◌++◌, ◌+◌, ◌≤◌, length, take, Err};
ghost use Rattle.wire.specs.Room.{over, lays};
ghost use Rattle.frame.specs.Frame.{header_bytes, check_length, check_bytes, enclosed, most_payload, most_data};
ghost use Rattle.frame.specs.Acknowledgement.{verdict};
ghost use Rattle.frame.specs.Writer.{number_of_written, written_said, writer_said, answers, writing, frame_laid, acknowledgement_laid, closed_laid};

// The header set up for the line.
#[derive(Clone, Copy, Debug, PartialEq, Eq)]
pub struct Header {
    pub h1: u8,
    pub h2: u8,
}

// Why the frame writer refuses.
#[derive(Clone, Copy, Debug, PartialEq, Eq)]
pub enum WriteError {
    // The data is over the limit.
    DataTooLong,
    // The room is below 265 bytes.
    RoomTooSmall,
}

impl WriteError {
    // 01's number.
    #[tactic(auto, unfolding(crate::specs::Writer::number_of_written))]
    pub fn number(self) -> u8
        ensures { result ≡ number_of_written (Err self) }
    {
        match self {
            WriteError::DataTooLong => 3,
            WriteError::RoomTooSmall => 14,
        }
    }
}

// "reply or writer's room below 265" is refused.
pub const LEAST_ROOM: usize = 265;

// "a frame has 3 + L bytes, at most 258"
pub const LONGEST_FRAME: usize = 258;

// "Data is at most 252 bytes with checking and 254 without": the most that any frame carries.
pub const MOST_PAYLOAD: usize = 254;

// "an acknowledgement carries 02": its length byte, which does not count the check bytes.
const ACKNOWLEDGEMENT_LENGTH: u8 = 2;

// "its frame still has seven bytes": length byte, command, verdict and two check bytes behind the header.
const BEHIND_HEADER: usize = 5;

impl Header {
    #[tactic(auto, unfolding(crate::specs::Frame::header_bytes))]
    pub fn length(self) -> usize
        ensures value { result ≡ length (header_bytes self) }
        ensures upper_bound { result ≤ 2 }
    {
        2
    }
}

// How many check bytes a frame has.
#[tactic(auto, unfolding(crate::specs::Frame::check_length))]
pub fn check_length(checking: bool) -> usize
    ensures value { result ≡ check_length checking }
    ensures upper_bound { result ≤ 2 }
{
    if checking { 2 } else { 0 }
}

// How much data a frame can carry.
#[tactic(auto, unfolding(crate::specs::Frame::most_data))]
pub fn most_data(checking: bool) -> usize
    ensures value { result ≡ most_data checking }
    ensures upper_bound { result ≤ most_payload }
{
    if checking { 252 } else { MOST_PAYLOAD }
}

// Lays header and length byte.
#[tactic(auto, unfolding(crate::specs::Frame::header_bytes, wire::specs::Room::over))]
fn put_prefix(header: Header, l: u8, room: &mut [u8])
    requires { length (header_bytes header) + 1 ≤ length room.old }
    ensures { room.new ≡ over (header_bytes header ++ (l ∷ [])) room.old }
{
    room[..3].copy_from_slice(&[header.h1, header.h2, l]);
}

// Lays the check bytes behind the n bytes of command and data that stand at the front; answers how long both are.
fn put_check(checking: bool, n: usize, body: &mut [u8]) -> usize
    requires { n + check_length checking ≤ length body.old }
    ensures { (result ≡ n + check_length checking) × (body.new ≡ over (take n body.old ++ check_bytes checking (take n body.old)) body.old) }
{
    if !checking {
        return n;
    }
    let value = check_value::check_value(&body[..n]);
    body[n..n + 2].copy_from_slice(&value.to_le_bytes());
    n + 2
}

// Lays command, data and check bytes; answers how long they are.
fn put_body(checking: bool, command: u8, payload: &[u8], body: &mut [u8]) -> usize
    requires { 1 + length payload.now + check_length checking ≤ length body.old }
    ensures { (result ≡ 1 + length payload.now + check_length checking) × (body.new ≡ over ((command ∷ payload.now) ++ check_bytes checking (command ∷ payload.now)) body.old) }
{
    let n = 1 + payload.len();
    body[0] = command;
    body[1..n].copy_from_slice(payload);
    put_check(checking, n, body)
}

// Lays a frame whose length byte is l.
fn put_enclosed(
    header: Header,
    l: u8,
    checking: bool,
    command: u8,
    payload: &[u8],
    room: &mut [u8],
) -> usize
    requires { length (header_bytes header) + 1 + (1 + length payload.now + check_length checking) ≤ length room.old }
    ensures { (result ≡ length (enclosed checking (header_bytes header) l (command ∷ payload.now))) × (room.new ≡ over (enclosed checking (header_bytes header) l (command ∷ payload.now)) room.old) }
{
    put_prefix(header, l, room);
    let k = header.length() + 1;
    k + put_body(checking, command, payload, &mut room[k..])
}

// Lays a frame at the front of a lent part of a room: the panel's way to write, without the test for 265 bytes.
pub fn put_frame(
    header: Header,
    checking: bool,
    command: u8,
    payload: &[u8],
    room: &mut [u8],
) -> usize
    ensures { lays result room.new ≡ frame_laid checking (header_bytes header) command payload.now room.old }
{
    let n = payload.len();
    if most_data(checking) < n {
        return 0;
    }
    let l = 1 + n + check_length(checking);
    if room.len() < header.length() + 1 + l {
        return 0;
    }
    put_enclosed(header, l as u8, checking, command, payload, room)
}

// FF for an accepted frame, 00 for a bad check.
#[tactic(auto, unfolding(crate::specs::Acknowledgement::verdict))]
fn verdict_byte(accepted: bool) -> u8
    ensures { result ≡ verdict accepted }
{
    if accepted { 0xFF } else { 0x00 }
}

// Lays the acknowledgement of a frame with this command at the front of a lent part of a room.
pub fn put_acknowledgement(header: Header, command: u8, accepted: bool, room: &mut [u8]) -> usize
    ensures { lays result room.new ≡ acknowledgement_laid (header_bytes header) command accepted room.old }
{
    if room.len() < header.length() + BEHIND_HEADER {
        return 0;
    }
    put_enclosed(
        header,
        ACKNOWLEDGEMENT_LENGTH,
        true,
        command,
        &[verdict_byte(accepted)],
        room,
    )
}

// Makes a frame of the n bytes of command and data that stand in the room already, behind where header and length byte go.
pub fn close_frame(header: Header, checking: bool, n: usize, room: &mut [u8]) -> usize
    ensures { lays result room.new ≡ closed_laid checking (header_bytes header) n room.old }
{
    if 1 + most_data(checking) < n {
        return 0;
    }
    let l = n + check_length(checking);
    let k = header.length() + 1;
    if room.len() < k + l {
        return 0;
    }
    put_prefix(header, l as u8, room);
    k + put_check(checking, n, &mut room[k..])
}

// The frame writer of 01.
pub fn write_frame(
    header: Header,
    checking: bool,
    command: u8,
    payload: &[u8],
    room: &mut [u8],
) -> Result<usize, WriteError>
    ensures room_after { answers result room.new ≡ writing checking (header_bytes header) command payload.now room.old }
    ensures result_value { written_said result ≡ writer_said checking (header_bytes header) payload.now room.old }
{
    if room.len() < LEAST_ROOM {
        return Err(WriteError::RoomTooSmall);
    }
    if most_data(checking) < payload.len() {
        return Err(WriteError::DataTooLong);
    }
    Ok(put_frame(header, checking, command, payload, room))
}
