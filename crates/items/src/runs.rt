// Line bytes that follow each other.
ghost use Rattle.std.specs.Prelude.{◌≡◌, ◌≤◌, length};
ghost use Rattle.wire.specs.Room.{lays};
ghost use Rattle.items.specs.Runs.{gathered};

// The line bytes of whole items of kind 01 at the front of the input, as many as the room holds, over its front; answers how many.
pub fn gather_run(input: &[u8], room: &mut [u8]) -> usize
    ensures room_after { lays result room.new ≡ gathered input.now room.old }
    ensures upper_bound { result ≤ length room.old }
{
    // By index, not by a zip of the room's places with `as_chunks`: tried, what the room then holds is not known.
    let most = room.len().min(input.len() / 2);
    for n in 0..most {
        if input[2 * n] != 1 {
            return n;
        }
        room[n] = input[2 * n + 1];
    }
    most
}
