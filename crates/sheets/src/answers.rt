// Why a sheet is not read or not written. specs/Paper.antt gives the paper's number and detail of each.
ghost use Rattle.std.specs.Prelude.{◌≡◌};
ghost use Rattle.sheets.specs.Paper.{line_number, line_detail, room_number, room_detail};

// "37 first bad line or a 17th, with its number", counted from 1.
#[derive(Clone, Copy, Debug, PartialEq, Eq)]
pub struct BadLine(pub u32);

// Each refusal has its own rows, and nothing is generic over them: a trait of `number` and `detail` would be one name more.
impl BadLine {
    // The row's number.
    pub fn number(self) -> u32
        ensures { result ≡ line_number self }
    {
        37
    }

    // The line.
    pub fn detail(self) -> u32
        ensures { result ≡ line_detail self }
    {
        self.0
    }
}

// "40 no room to write".
#[derive(Clone, Copy, Debug, PartialEq, Eq)]
pub struct NoRoom;

impl NoRoom {
    // The row's number.
    pub fn number(self) -> u32
        ensures { result ≡ room_number self }
    {
        40
    }

    pub fn detail(self) -> u32
        ensures { result ≡ room_detail self }
    {
        0
    }
}
