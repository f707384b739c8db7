// The sticker on the frame (W-204), for a tally.
ghost use Rattle.std.specs.Prelude.{◌≡◌, ◌+◌, ◌*◌, ◌≤◌};

use crate::stacks::TWENTY_OF_500;

// Each place is written out, because a table that is read at a place known only later is laid out anew for each lift.
pub fn upper_end(plate: u32) -> u32
    requires { plate ≤ 20 }
    ensures { result ≡ 500 * plate + 250 }
{
    let ends = TWENTY_OF_500;
    match plate {
        0 => ends[0],
        1 => ends[1],
        2 => ends[2],
        3 => ends[3],
        4 => ends[4],
        5 => ends[5],
        6 => ends[6],
        7 => ends[7],
        8 => ends[8],
        9 => ends[9],
        10 => ends[10],
        11 => ends[11],
        12 => ends[12],
        13 => ends[13],
        14 => ends[14],
        15 => ends[15],
        16 => ends[16],
        17 => ends[17],
        18 => ends[18],
        19 => ends[19],
        20 => ends[20],
        _ => 0,
    }
}
