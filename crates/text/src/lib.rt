// The lines that 01's trace program prints, laid as bytes over the front of a lent room.
#![tactic(auto)]

ghost use Rattle.std.specs.Prelude.{◌≡◌, [], ◌∷◌, ◌++◌, ◌+◌, ◌*◌, ◌≤◌, ◌<◌, leb, length};
ghost use Rattle.wire.specs.Room.{over, lays, laid};
ghost use Rattle.text.specs.Text.{line_feed, hex_digit, hex_byte, decimal, spaced, line_text, written_text};

// A line of the trace but for the frames written.
#[derive(Clone, Copy)]
pub enum Line {
    // An accepted command, and the number it is answered with.
    Frame { command: u8, number: u8 },
    // A bad check, with the command.
    BadCheck(u8),
    // What a contact or a lift is answered with.
    Touch(u8),
    // The page at the end.
    End(u16),
    // What start or trace fails with.
    Failed(u8),
    // The same for 13, with the record's number.
    WrongRecord(u8),
}

// The digit of a number below 16.
#[tactic(auto, unfolding(crate::specs::Text::hex_digit))]
fn hex_digit(n: u8) -> u8
    requires { n < 16 }
    ensures { result ≡ hex_digit n }
{
    match n {
        0..=9 => b'0' + n,
        _ => b'A' + (n - 10),
    }
}

// A byte's two digits.
#[tactic(auto, unfolding(crate::specs::Text::hex_byte))]
fn hex_byte(b: u8) -> [u8; 2]
    ensures { result ≡ hex_byte b }
{
    [hex_digit(b / 16), hex_digit(b % 16)]
}

// How many digits a decimal number has.
#[tactic(auto, unfolding(crate::specs::Text::decimal))]
fn digits(number: u8) -> usize
    ensures value { result ≡ length (decimal number) }
    ensures upper_bound { result ≤ 3 }
{
    match number {
        0..=9 => 1,
        10..=99 => 2,
        _ => 3,
    }
}

// Lays a decimal number and the line feed.
#[tactic(auto, unfolding(crate::specs::Text::decimal, wire::specs::Room::over))]
fn put_number(number: u8, room: &mut [u8])
    requires { length (decimal number) + 1 ≤ length room.old }
    ensures { room.new ≡ over (decimal number ++ (line_feed ∷ [])) room.old }
{
    let last = b'0' + number % 10;
    match number {
        0..=9 => room[..2].copy_from_slice(&[last, b'\n']),
        10..=99 => room[..3].copy_from_slice(&[b'0' + number / 10, last, b'\n']),
        _ => room[..4].copy_from_slice(&[
            b'0' + number / 100,
            b'0' + number / 10 % 10,
            last,
            b'\n',
        ]),
    }
}

// Lays a whole line, or nothing where the room is too short.
#[tactic(auto, unfolding(wire::specs::Room::laid, wire::specs::Room::over))]
fn put_text(text: &[u8], room: &mut [u8]) -> usize
    ensures { lays result room.new ≡ laid (leb (length text.now) (length room.old)) text.now room.old }
{
    if room.len() < text.len() {
        return 0;
    }
    let n = text.len();
    room[..n].copy_from_slice(text);
    n
}

// The same for a line that ends in a decimal number.
#[tactic(auto, unfolding(wire::specs::Room::laid, wire::specs::Room::over))]
fn put_numbered(head: &[u8], number: u8, room: &mut [u8]) -> usize
    requires { length head.now ≤ 5 }
    ensures { lays result room.new ≡ laid (leb (length (head.now ++ (decimal number ++ (line_feed ∷ [])))) (length room.old)) (head.now ++ (decimal number ++ (line_feed ∷ []))) room.old }
{
    let m = digits(number) + 1;
    if room.len() < head.len() + m {
        return 0;
    }
    let n = head.len();
    room[..n].copy_from_slice(head);
    put_number(number, &mut room[n..]);
    n + m
}

// Writes a line over the front of a room, or nothing where the room is too short; answers how many bytes.
#[tactic(auto, unfolding(crate::specs::Text::line_text, crate::specs::Text::lined, crate::specs::Text::hex_byte, crate::specs::Text::decimal))]
pub fn put_line(line: Line, room: &mut [u8]) -> usize
    ensures { lays result room.new ≡ laid (leb (length (line_text line)) (length room.old)) (line_text line) room.old }
{
    match line {
        Line::Frame { command, number } => {
            let [high, low] = hex_byte(command);
            put_numbered(&[b'F', b' ', high, low, b' '], number, room)
        }
        Line::BadCheck(command) => {
            let [high, low] = hex_byte(command);
            put_text(&[b'B', b' ', high, low, b'\n'], room)
        }
        Line::Touch(number) => put_numbered(b"T ", number, room),
        Line::End(page) => {
            let [a, b] = hex_byte(wire::high_byte(page));
            let [c, d] = hex_byte(wire::low_byte(page));
            put_text(&[b'E', b' ', a, b, c, d, b'\n'], room)
        }
        Line::Failed(number) => put_numbered(b"X ", number, room),
        Line::WrongRecord(number) => put_numbered(b"X 13 ", number, room),
    }
}

// Lays the bytes of a frame, a blank before each; answers how long they are.
fn put_spaced(frame: &[u8], room: &mut [u8]) -> usize
    requires { 3 * length frame.now ≤ length room.old }
    ensures value { result ≡ 3 * length frame.now }
    ensures room_after { room.new ≡ over (spaced frame.now) room.old }
{
    // By index: behind `as_chunks_mut` or a zip the room is not known.
    for (i, b) in frame.iter().enumerate() {
        let [high, low] = hex_byte(*b);
        room[3 * i] = b' ';
        room[3 * i + 1] = high;
        room[3 * i + 2] = low;
    }
    3 * frame.len()
}

// Writes `O` and one frame written over the front of a room, or nothing where the room is too short; no frame gives no line.
pub fn put_written(frame: &[u8], room: &mut [u8]) -> usize
    ensures { lays result room.new ≡ laid (leb (length (written_text frame.now)) (length room.old)) (written_text frame.now) room.old }
{
    if frame.is_empty() {
        return 0;
    }
    // A division, because three times the length might not be a number of 64 bits.
    if room.len().saturating_sub(2) / 3 < frame.len() {
        return 0;
    }
    room[0] = b'O';
    let n = 1 + put_spaced(frame, &mut room[1..]);
    room[n] = b'\n';
    n + 1
}
